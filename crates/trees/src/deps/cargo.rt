//! Lock files of Cargo and uv: `Cargo.lock` and `uv.lock`.

use crate::deps::tables::search::{Needing, Wanted};
use crate::deps::{Refusal, tables};
use std::alloc::Global;
use toml::Value;

impl Needing<'_> {
    /// Adds what a package needs: what it always does, and in extras and groups.
    ///
    /// # Errors
    ///
    /// Its needs are of another kind, or not packages, and memory.
    pub fn push_listed(&self, alloc: Global, needed: &mut Vec<usize>) -> Result<(), Refusal> {
        if let Some(entries) = self.package.table.get("dependencies") {
            self.push_list(alloc, entries, needed)?;
        }
        for key in ["optional-dependencies", "dev-dependencies"] {
            if let Some(groups) = self.package.table.get(key) {
                let Some(groups) = groups.as_table() else {
                    let parts = [self.package.name, " has ", key, " that are not a table"];
                    return Err(Refusal::of(alloc, &parts));
                };
                for entries in groups.values() {
                    self.push_list(alloc, entries, needed)?;
                }
            }
        }
        Ok(())
    }

    // Adds what a package needs by the entries of a list.
    fn push_list(
        &self,
        alloc: Global,
        entries: &Value,
        needed: &mut Vec<usize>,
    ) -> Result<(), Refusal> {
        let Some(list) = entries.as_array() else {
            let wrong = if entries.is_table() {
                "a table of dependencies, but metadata has no content-hash"
            } else {
                "dependencies that are not a list"
            };
            return Err(self.has(alloc, wrong));
        };
        for entry in list {
            needed.push(self.find_entry(alloc, entry)?)?;
        }
        Ok(())
    }

    // Returns the number of the package that an entry wants: a text, or a table in a `uv.lock`.
    fn find_entry(&self, alloc: Global, entry: &Value) -> Result<usize, Refusal> {
        let wanted = match entry.as_str() {
            Some(text) => wanted_by_text(text),
            None => wanted_by_table(entry),
        };
        let Some(wanted) = wanted else {
            return Err(self.has(alloc, "an invalid dependency"));
        };
        match self.find(alloc, wanted)? {
            Some(number) => Ok(number),
            None => Err(self.needs(alloc, wanted.name, ", which is missing")),
        }
    }
}

// Returns what a table wants.
fn wanted_by_table(table: &Value) -> Option<Wanted<'_>> {
    let name = tables::text(table, "name")?;
    let version = match table.get("version") {
        Some(version) => Some(version.as_str()?),
        None => None,
    };
    let source = match table.get("source") {
        Some(source) => Some(tables::source_text(source)?),
        None => None,
    };
    Some(Wanted {
        name,
        version,
        source,
    })
}

// Returns what a text wants: `name`, `name version` or `name version (source)`.
fn wanted_by_text(text: &str) -> Option<Wanted<'_>> {
    let mut parts = text.splitn(3, ' ');
    let name = parts.next()?;
    let version = parts.next();
    let source = match parts.next() {
        Some(source) => Some(source.strip_prefix('(')?.strip_suffix(')')?),
        None => None,
    };
    if version == Some("") || source == Some("") {
        return None;
    }
    Some(Wanted {
        name,
        version,
        source,
    })
}
