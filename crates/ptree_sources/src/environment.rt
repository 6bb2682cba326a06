//! The variables of an environment.
ghost use Rattle.std.specs.Prelude.{◌≡◌, ◌++◌, map, OnOk, IfOk};
ghost use Rattle.ptree_sources.specs.Environment.{variable_of, variable_in, variables_in};

use std::alloc::{AllocError, Global};
use std::str;

// Adds the variable of an entry, if the entry has one.
fn push_variable(
    found: &mut Vec<(String, String)>,
    alloc: Global,
    entry: &[u8],
) -> Result<(), AllocError>
    ensures { OnOk result (map variable_of found.new.items
        ≡ map variable_of found.old.items ++ variable_in entry.now) }
{
    let Ok(text) = str::from_utf8(entry) else {
        return Ok(());
    };
    let Some((name, value)) = text.split_once('=') else {
        return Ok(());
    };
    let name = String::from_str(alloc, name)?;
    let value = String::from_str(alloc, value)?;
    found.push((name, value))?;
    Ok(())
}

/// Returns the variables among the entries of an environment, in order.
///
/// # Errors
///
/// Memory ran out.
pub fn variables(alloc: Global, entries: &[Vec<u8>]) -> Result<Vec<(String, String)>, AllocError>
    ensures { IfOk result (λ found. map variable_of found.items ≡ variables_in entries.now) }
{
    let mut found = Vec::new(alloc);
    for entry in entries {
        push_variable(&mut found, alloc, entry)?;
    }
    Ok(found)
}
