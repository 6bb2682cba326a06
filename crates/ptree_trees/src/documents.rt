//! Documents as trees, with floats and dates as their crates write them. The module
//! `ptree::value` draws documents without these.
ghost use Rattle.std.specs.Prelude.{◌≡◌, ◌++◌, map, codes, option_map, IfOk, string_bytes};
ghost use Rattle.ptree.specs.Tree.{tree_of, tree_kids};
ghost use Rattle.ptree_trees.specs.WrittenDocument.{IsDocumentTree, IsTextTree};

mod of_json;
mod of_toml;
mod refused;

pub use of_json::json_tree;
pub use of_toml::toml_tree;
use ptree::item::StringItem;
use ptree::value::DocFormat;
use ptree_sources::parsed::{read_json, read_toml};
pub use refused::{Step, json_refused_path, refused_path, toml_refused_path};
use std::alloc::{AllocError, Global};

/// Returns the tree of a document under a label, with floats and dates as its crate writes them, or
/// `None` if the text is no document of its format.
///
/// It takes the time of reading the text, and allocates the document and the result.
///
/// # Errors
///
/// Memory ran out.
pub fn document_tree(
    alloc: Global,
    format: DocFormat,
    text: &str,
    label: &str,
) -> Result<Option<StringItem>, AllocError>
    ensures { IfOk result (λ s. IsDocumentTree format text.now label.now (option_map tree_of s)) }
{
    match format {
        DocFormat::Json => match read_json(alloc, text)? {
            Some(value) => Ok(Some(json_tree(alloc, label, value)?)),
            None => Ok(None),
        },
        DocFormat::Toml => match read_toml(alloc, text)? {
            Some(table) => Ok(Some(toml_tree(alloc, label, toml::Value::Table(table))?)),
            None => Ok(None),
        },
    }
}

// Returns the item of a text under a label: a child of the label, or alone if the label is empty.
fn text_item(alloc: Global, label: &str, text: String) -> Result<StringItem, AllocError>
    ensures { IfOk result (λ s. IsTextTree label.now (string_bytes text) (tree_of s)) }
{
    let leaf = item_of(text, Vec::new(alloc));
    if label.len() == 0 {
        return Ok(leaf);
    }
    let mut children = Vec::new(alloc);
    children.push(leaf)?;
    let text = String::from_str(alloc, label)?;
    Ok(item_of(text, children))
}

// Returns the text of a member: its key, and after it a value.
fn entry_text(key: String, value: &str) -> Result<String, AllocError>
    ensures { IfOk result (λ s. string_bytes s
        ≡ string_bytes key ++ (codes " = " ++ value.now)) }
{
    let mut text = key;
    text.reserve_exact(value.len().saturating_add(3))?;
    text.push_str(" = ")?;
    text.push_str(value)?;
    Ok(text)
}

// Returns an item of a text and children.
fn item_of(text: String, children: Vec<StringItem>) -> StringItem
    ensures text { (tree_of result).text ≡ string_bytes text }
    ensures kids { tree_kids (tree_of result) ≡ map tree_of children.items }
{
    StringItem { text, children }
}
