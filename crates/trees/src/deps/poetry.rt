//! Lock files of Poetry: `poetry.lock`.

use crate::deps::Refusal;
use crate::deps::tables::search::{Needing, Wanted};
use std::alloc::{AllocError, Global};
use toml::Value;

/// Returns a name of a Python package in the form that names are compared in: in lower case, with a
/// dash for dashes, dots and underscores.
///
/// # Errors
///
/// Memory ran out.
pub fn normal_name(alloc: Global, name: &str) -> Result<String, AllocError> {
    let mut normal = String::new(alloc);
    let mut is_behind_dash = false;
    for c in name.chars() {
        let is_dash = c == '-' || c == '_' || c == '.';
        if !is_dash {
            normal.push(c.to_ascii_lowercase())?;
        } else if !is_behind_dash {
            normal.push('-')?;
        }
        is_behind_dash = is_dash;
    }
    Ok(normal)
}

impl Needing<'_> {
    /// Adds what a package needs, as far as that is locked.
    ///
    /// # Errors
    ///
    /// Its needs are of another kind, or several packages, and memory.
    pub fn push_locked(&self, alloc: Global, needed: &mut Vec<usize>) -> Result<(), Refusal> {
        let Some(entries) = self.package.table.get("dependencies") else {
            return Ok(());
        };
        let Some(entries) = entries.as_table() else {
            return Err(self.has(alloc, "dependencies that are not a table"));
        };
        for (name, constraint) in entries.iter() {
            let (Value::String(_) | Value::Table(_) | Value::Array(_)) = constraint else {
                return Err(self.has(alloc, "an invalid dependency"));
            };
            if let Some(number) = self.find_named(alloc, name.as_str())? {
                needed.push(number)?;
            }
        }
        Ok(())
    }

    // Returns the number of the package with a name, if it is locked.
    fn find_named(&self, alloc: Global, name: &str) -> Result<Option<usize>, Refusal> {
        let normal = normal_name(alloc, name)?;
        let wanted = Wanted {
            name: normal.as_str(),
            version: None,
            source: None,
        };
        self.find(alloc, wanted)
    }
}
