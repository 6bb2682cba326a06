//! JSON values as trees.
ghost use Rattle.std.specs.Prelude.{◌≡◌, map, IfOk, string_bytes};
ghost use Rattle.serde_json.specs.Data.{number as number_data};
ghost use Rattle.serde_json.specs.View.{view, number_view, items_view, members_view};
ghost use Rattle.ptree.specs.Tree.{tree_of, tree_kids};
ghost use Rattle.ptree_trees.specs.WrittenDocument.{IsJsonText, IsJsonMemberText, IsJsonTree, is_json_list, AreJsonKids, AreJsonElements, AreJsonMembers};

use super::{entry_text, item_of, text_item};
use ptree::item::StringItem;
use serde_json::{Map, Number, Value};
use std::alloc::{AllocError, Global};

/// Returns the tree of a JSON value under a label, with floats as `serde_json` writes them.
///
/// A list or an object is the label over its elements or members, each member under its key. Any
/// other value is a child of the label, or stands alone if the label is empty. The texts of the
/// value become those of the tree, and each of its lists and objects is freed once it is converted.
/// It allocates the rest of the result, and calls itself once for each level.
///
/// # Errors
///
/// Memory ran out.
pub fn json_tree(
    alloc: Global,
    label: &str,
    value: serde_json::Value,
) -> Result<StringItem, AllocError>
    ensures { IfOk result (λ s. IsJsonTree label.now (view value) (tree_of s)) }
{
    if is_json_list(&value) {
        let children = json_kids(alloc, value)?;
        let text = String::from_str(alloc, label)?;
        return Ok(item_of(text, children));
    }
    let text = json_text(alloc, value)?;
    let item = text_item(alloc, label, text)?;
    Ok(item)
}

// Whether a value is a list or an object.
fn is_json_list(value: &Value) -> bool
    ensures { result ≡ is_json_list (view value.now) }
{
    matches!(value, Value::Array(_) | Value::Object(_))
}

// Returns the text of a value, which is empty for a list or an object.
fn json_text(alloc: Global, value: Value) -> Result<String, AllocError>
    ensures { IfOk result (λ s. IsJsonText (view value) (string_bytes s)) }
{
    match value {
        Value::Null => Ok(String::new(alloc)),
        Value::Bool(true) => String::from_str(alloc, "true"),
        Value::Bool(false) => String::from_str(alloc, "false"),
        Value::Number(number) => number_text(alloc, &number),
        Value::String(text) => Ok(text),
        Value::Array(_) => Ok(String::new(alloc)),
        Value::Object(_) => Ok(String::new(alloc)),
    }
}

// Returns the text of a number.
fn number_text(alloc: Global, number: &Number) -> Result<String, AllocError>
    ensures { IfOk result (λ s. IsJsonText (number_data (number_view number.now))
        (string_bytes s)) }
{
    if let Some(n) = number.as_u64() {
        return n.to_string(alloc);
    }
    if let Some(n) = number.as_i64() {
        return n.to_string(alloc);
    }
    float_text(alloc, number)
}

// Returns the text of a number. It is written by the call whose contract says of which characters,
// and which fails only if memory runs out. It is copied, since that call leaves room behind it.
fn float_text(alloc: Global, number: &Number) -> Result<String, AllocError>
    ensures { IfOk result (λ s. IsJsonText (number_data (number_view number.now))
        (string_bytes s)) }
{
    match serde_json::to_string(alloc, number) {
        Ok(text) => String::from_str(alloc, text.as_str()),
        Err(_) => Err(AllocError),
    }
}

// Returns the items of what is below a value.
#[cycle(json)]
fn json_kids(alloc: Global, value: Value) -> Result<Vec<StringItem>, AllocError>
    ensures { IfOk result (λ v. AreJsonKids (view value) (map tree_of v.items)) }
{
    match value {
        Value::Array(items) => json_elements(alloc, items),
        Value::Object(members) => json_members(alloc, members),
        _ => Ok(Vec::new(alloc)),
    }
}

// Returns the items of the elements of a list.
#[cycle(json)]
fn json_elements(alloc: Global, items: Vec<Value>) -> Result<Vec<StringItem>, AllocError>
    ensures { IfOk result (λ v. AreJsonElements (items_view items.items) (map tree_of v.items)) }
{
    let mut made = Vec::with_capacity(alloc, items.len())?;
    for item in items {
        made.push(json_element(alloc, item)?)?;
    }
    Ok(made)
}

// Returns the item of an element of a list.
#[cycle(json)]
fn json_element(alloc: Global, value: Value) -> Result<StringItem, AllocError>
    ensures text { IfOk result (λ s. IsJsonText (view value) (tree_of s).text) }
    ensures kids { IfOk result (λ s. AreJsonKids (view value) (tree_kids (tree_of s))) }
{
    if is_json_list(&value) {
        let children = json_kids(alloc, value)?;
        return Ok(item_of(String::new(alloc), children));
    }
    let text = json_text(alloc, value)?;
    Ok(item_of(text, Vec::new(alloc)))
}

// Returns the items of the members of an object.
#[cycle(json)]
fn json_members(alloc: Global, members: Map<String, Value>) -> Result<Vec<StringItem>, AllocError>
    ensures { IfOk result (λ v. AreJsonMembers (members_view members.entries)
        (map tree_of v.items)) }
{
    let mut made = Vec::with_capacity(alloc, members.len())?;
    for (key, member) in members {
        made.push(json_member(alloc, key, member)?)?;
    }
    Ok(made)
}

// Returns the item of a member of an object.
#[cycle(json)]
fn json_member(alloc: Global, key: String, value: Value) -> Result<StringItem, AllocError>
    ensures text { IfOk result
        (λ s. IsJsonMemberText (string_bytes key) (view value) (tree_of s).text) }
    ensures kids { IfOk result (λ s. AreJsonKids (view value) (tree_kids (tree_of s))) }
{
    if is_json_list(&value) {
        let children = json_kids(alloc, value)?;
        return Ok(item_of(key, children));
    }
    let text = json_text(alloc, value)?;
    let text = entry_text(key, text.as_str())?;
    Ok(item_of(text, Vec::new(alloc)))
}
