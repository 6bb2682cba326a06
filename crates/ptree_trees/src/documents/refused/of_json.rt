//! The path to the first float in a JSON value.
ghost use Rattle.std.specs.Prelude.{option_map, IfOk};
ghost use Rattle.serde_json.specs.Data.{array, object};
ghost use Rattle.serde_json.specs.View.{view, items_view, members_view};
ghost use Rattle.ptree_trees.specs.RefusedPath.{path_of, IsFirstFloat};
ghost use Rattle.ptree_trees.specs.RefusedWalk.{path_found};

use super::{Step, in_order};
use serde_json::{Map, Value};
use std::alloc::{AllocError, Global};

/// Returns the path to the first float in a JSON value, for which
/// [`Value::from_json`](ptree::value::Value::from_json) refuses it, or `None` if there is none.
///
/// The path has the steps from the top. The first is the one that a walk finds that goes through
/// lists in order, and through objects in the order of their keys' bytes. It allocates the result,
/// and calls itself once for each level.
///
/// # Errors
///
/// Memory ran out.
pub fn json_refused_path(
    alloc: Global,
    value: &serde_json::Value,
) -> Result<Option<Vec<Step>>, AllocError>
    ensures { IfOk result (λ path. IsFirstFloat (view value.now) (option_map path_of path)) }
{
    let found = float_path(alloc, value)?;
    Ok(in_order(found))
}

// Finds the first float. The last step to it comes first.
#[cycle(walk)]
fn float_path(alloc: Global, value: &Value) -> Result<Option<Vec<Step>>, AllocError>
    ensures { IfOk result (λ found. IsFirstFloat (view value.now) (option_map path_found found)) }
{
    match value {
        Value::Null => Ok(None),
        Value::Bool(_) => Ok(None),
        Value::String(_) => Ok(None),
        Value::Number(n) => if n.is_f64() {
            Ok(Some(Vec::new(alloc)))
        } else {
            Ok(None)
        },
        Value::Array(items) => element_path(alloc, items),
        Value::Object(members) => member_path(alloc, members),
    }
}

// Finds the first float in a list.
#[cycle(walk)]
fn element_path(alloc: Global, items: &Vec<Value>) -> Result<Option<Vec<Step>>, AllocError>
    ensures { IfOk result (λ found.
        IsFirstFloat (array (items_view items.now.items)) (option_map path_found found)) }
{
    for (i, item) in items.iter().enumerate() {
        if let Some(mut found) = float_path(alloc, item)? {
            found.push(Step::Position(i))?;
            return Ok(Some(found));
        }
    }
    Ok(None)
}

// Finds the first float in an object.
#[cycle(walk)]
fn member_path(alloc: Global, members: &Map<String, Value>) -> Result<Option<Vec<Step>>, AllocError>
    ensures { IfOk result (λ found.
        IsFirstFloat (object (members_view members.now.entries)) (option_map path_found found)) }
{
    for (key, member) in members.iter() {
        if let Some(mut found) = float_path(alloc, member)? {
            let key = key.clone()?;
            found.push(Step::Key(key))?;
            return Ok(Some(found));
        }
    }
    Ok(None)
}
