//! TOML values as trees.
ghost use Rattle.std.specs.Prelude.{◌≡◌, map, IfOk, string_bytes};
ghost use Rattle.toml.specs.View.{view, items_view, members_view};
ghost use Rattle.ptree.specs.Tree.{tree_of, tree_kids};
ghost use Rattle.ptree_trees.specs.WrittenDocument.{IsTomlText, IsTomlMemberText, IsTomlTree, is_toml_list, AreTomlKids, AreTomlElements, AreTomlMembers};

use super::{entry_text, item_of, text_item};
use ptree::item::StringItem;
use ptree_sources::parsed::written_toml;
use std::alloc::{AllocError, Global};
use toml::Table;

/// Returns the tree of a TOML value under a label, with floats and dates as `toml` writes them.
///
/// A list or a table is the label over its elements or members, each member under its key. Any
/// other value is a child of the label, or stands alone if the label is empty. The texts of the
/// value become those of the tree, and each of its lists and tables is freed once it is converted.
/// It allocates the rest of the result, and calls itself once for each level.
///
/// # Errors
///
/// Memory ran out.
pub fn toml_tree(alloc: Global, label: &str, value: toml::Value) -> Result<StringItem, AllocError>
    ensures { IfOk result (λ s. IsTomlTree label.now (view value) (tree_of s)) }
{
    if is_toml_list(&value) {
        let children = toml_kids(alloc, value)?;
        let text = String::from_str(alloc, label)?;
        return Ok(item_of(text, children));
    }
    let text = toml_text(alloc, value)?;
    let item = text_item(alloc, label, text)?;
    Ok(item)
}

// Whether a value is a list or a table.
fn is_toml_list(value: &toml::Value) -> bool
    ensures { result ≡ is_toml_list (view value.now) }
{
    matches!(value, toml::Value::Array(_) | toml::Value::Table(_))
}

// Returns the text of a value, which is empty for a list or a table.
fn toml_text(alloc: Global, value: toml::Value) -> Result<String, AllocError>
    ensures { IfOk result (λ s. IsTomlText (view value) (string_bytes s)) }
{
    match value {
        toml::Value::String(text) => Ok(text),
        toml::Value::Integer(z) => written_toml(alloc, &toml::Value::Integer(z)),
        toml::Value::Float(x) => written_toml(alloc, &toml::Value::Float(x)),
        toml::Value::Boolean(b) => written_toml(alloc, &toml::Value::Boolean(b)),
        toml::Value::Datetime(date) => written_toml(alloc, &toml::Value::Datetime(date)),
        toml::Value::Array(_items) => Ok(String::new(alloc)),
        toml::Value::Table(_members) => Ok(String::new(alloc)),
    }
}

// Returns the items of what is below a value.
#[cycle(toml)]
fn toml_kids(alloc: Global, value: toml::Value) -> Result<Vec<StringItem>, AllocError>
    ensures { IfOk result (λ v. AreTomlKids (view value) (map tree_of v.items)) }
{
    match value {
        toml::Value::Array(items) => toml_elements(alloc, items),
        toml::Value::Table(members) => toml_members(alloc, members),
        _ => Ok(Vec::new(alloc)),
    }
}

// Returns the items of the elements of a list.
#[cycle(toml)]
fn toml_elements(alloc: Global, items: Vec<toml::Value>) -> Result<Vec<StringItem>, AllocError>
    ensures { IfOk result (λ v. AreTomlElements (items_view items.items) (map tree_of v.items)) }
{
    let mut made = Vec::with_capacity(alloc, items.len())?;
    for item in items {
        made.push(toml_element(alloc, item)?)?;
    }
    Ok(made)
}

// Returns the item of an element of a list.
#[cycle(toml)]
fn toml_element(alloc: Global, value: toml::Value) -> Result<StringItem, AllocError>
    ensures text { IfOk result (λ s. IsTomlText (view value) (tree_of s).text) }
    ensures kids { IfOk result (λ s. AreTomlKids (view value) (tree_kids (tree_of s))) }
{
    if is_toml_list(&value) {
        let children = toml_kids(alloc, value)?;
        return Ok(item_of(String::new(alloc), children));
    }
    let text = toml_text(alloc, value)?;
    Ok(item_of(text, Vec::new(alloc)))
}

// Returns the items of the members of a table.
#[cycle(toml)]
fn toml_members(alloc: Global, members: Table) -> Result<Vec<StringItem>, AllocError>
    ensures { IfOk result (λ v. AreTomlMembers (members_view members.entries)
        (map tree_of v.items)) }
{
    let mut made = Vec::with_capacity(alloc, members.len())?;
    for (key, member) in members {
        made.push(toml_member(alloc, key, member)?)?;
    }
    Ok(made)
}

// Returns the item of a member of a table.
#[cycle(toml)]
fn toml_member(alloc: Global, key: String, value: toml::Value) -> Result<StringItem, AllocError>
    ensures text { IfOk result
        (λ s. IsTomlMemberText (string_bytes key) (view value) (tree_of s).text) }
    ensures kids { IfOk result (λ s. AreTomlKids (view value) (tree_kids (tree_of s))) }
{
    if is_toml_list(&value) {
        let children = toml_kids(alloc, value)?;
        return Ok(item_of(key, children));
    }
    let text = toml_text(alloc, value)?;
    let text = entry_text(key, text.as_str())?;
    Ok(item_of(text, Vec::new(alloc)))
}
