//! The path to the first float or date in a TOML value.
ghost use Rattle.std.specs.Prelude.{option_map, IfOk};
ghost use Rattle.toml.specs.Data.{array, table};
ghost use Rattle.toml.specs.View.{view, items_view, members_view};
ghost use Rattle.ptree_trees.specs.RefusedPath.{path_of, IsFirstFloatOrDate};
ghost use Rattle.ptree_trees.specs.RefusedWalk.{path_found};

use super::{Step, in_order};
use std::alloc::{AllocError, Global};
use toml::Table;

/// Returns the path to the first float, date or time in a TOML value, for which
/// [`Value::from_toml`](ptree::value::Value::from_toml) refuses it, or `None` if there is none.
///
/// The path has the steps from the top. The first is the one that a walk finds that goes through
/// lists in order, and through tables in the order of their keys' bytes. It allocates the result,
/// and calls itself once for each level.
///
/// # Errors
///
/// Memory ran out.
pub fn toml_refused_path(
    alloc: Global,
    value: &toml::Value,
) -> Result<Option<Vec<Step>>, AllocError>
    ensures { IfOk result (λ path.
        IsFirstFloatOrDate (view value.now) (option_map path_of path)) }
{
    let found = fault_path(alloc, value)?;
    Ok(in_order(found))
}

// Finds the first float, date or time. The last step to it comes first.
#[cycle(walk)]
fn fault_path(alloc: Global, value: &toml::Value) -> Result<Option<Vec<Step>>, AllocError>
    ensures { IfOk result (λ found.
        IsFirstFloatOrDate (view value.now) (option_map path_found found)) }
{
    match value {
        toml::Value::String(_) => Ok(None),
        toml::Value::Integer(_) => Ok(None),
        toml::Value::Boolean(_) => Ok(None),
        toml::Value::Float(_) => Ok(Some(Vec::new(alloc))),
        toml::Value::Datetime(_) => Ok(Some(Vec::new(alloc))),
        toml::Value::Array(items) => element_path(alloc, items),
        toml::Value::Table(members) => member_path(alloc, members),
    }
}

// Finds the first float, date or time in a list.
#[cycle(walk)]
fn element_path(alloc: Global, items: &Vec<toml::Value>) -> Result<Option<Vec<Step>>, AllocError>
    ensures { IfOk result (λ found.
        IsFirstFloatOrDate (array (items_view items.now.items)) (option_map path_found found)) }
{
    for (i, item) in items.iter().enumerate() {
        if let Some(mut found) = fault_path(alloc, item)? {
            found.push(Step::Position(i))?;
            return Ok(Some(found));
        }
    }
    Ok(None)
}

// Finds the first float, date or time in a table.
#[cycle(walk)]
fn member_path(alloc: Global, members: &Table) -> Result<Option<Vec<Step>>, AllocError>
    ensures { IfOk result (λ found.
        IsFirstFloatOrDate (table (members_view members.now.entries))
        (option_map path_found found)) }
{
    for (key, member) in members.iter() {
        if let Some(mut found) = fault_path(alloc, member)? {
            let key = key.clone()?;
            found.push(Step::Key(key))?;
            return Ok(Some(found));
        }
    }
    Ok(None)
}
