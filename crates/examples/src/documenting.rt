//! Callers that make trees of documents, and that find out why documents are refused.
ghost use Rattle.std.specs.Prelude.{◌≡◌, [], Some, None, MatchOption, option_map, codes, IfOk, IfSome};
ghost use Rattle.serde_json.specs.Data.{Data, null};
ghost use Rattle.serde_json.specs.Read.{read};
ghost use Rattle.serde_json.specs.View.{view};
ghost use Rattle.ptree.specs.Tree.{tree_of};
ghost use Rattle.ptree_trees.specs.RefusedPath.{Path, path_of, LeadsTo, json_at_step, IsFloat};
ghost use Rattle.ptree_trees.specs.WrittenDocument.{IsJsonTree};

use ptree::item::StringItem;
use ptree::value::DocFormat;
use ptree_trees::documents::{
    Step, document_tree, json_refused_path, json_tree, refused_path, toml_refused_path, toml_tree,
};
use std::alloc::{AllocError, Global};
use toml::Table;

/// Returns the tree of a JSON document, and none exactly if the text is none.
pub fn of_json(alloc: Global, text: &str) -> Result<Option<StringItem>, AllocError>
    ensures { IfOk result (λ s. MatchOption s (read text.now ≡ None)
        (λ s. (d : Data) × (read text.now ≡ Some d) × IsJsonTree (codes "json") d (tree_of s))) }
{
    document_tree(alloc, DocFormat::Json, text, "json")
}

/// Null under a label is the label over the empty text.
pub fn null_under(alloc: Global, label: &str) -> Result<StringItem, AllocError>
    ensures { IfOk result (λ s. IsJsonTree label.now null (tree_of s)) }
{
    json_tree(alloc, label, serde_json::Value::Null)
}

/// Returns the tree of a table: the label over its entries.
pub fn of_table(alloc: Global, label: &str, table: Table) -> Result<StringItem, AllocError>
    ensures { IfOk result (λ s. (tree_of s).text ≡ label.now) }
{
    toml_tree(alloc, label, toml::Value::Table(table))
}

/// Returns a path to a float of a JSON value, and none only if no path leads to one.
pub fn float_in(alloc: Global, value: &serde_json::Value) -> Result<Option<Vec<Step>>, AllocError>
    ensures { IfOk result (λ o. MatchOption o
        ((p : Path) → LeadsTo json_at_step IsFloat (view value.now) p → ⊥)
        (λ p. LeadsTo json_at_step IsFloat (view value.now) (path_of p))) }
{
    match json_refused_path(alloc, value)? {
        Some(path) => Ok(Some(path)),
        None => Ok(None),
    }
}

/// Returns a path in a JSON document, at which a float stands.
pub fn float_in_text(alloc: Global, text: &str) -> Result<Option<Vec<Step>>, AllocError>
    ensures { IfOk result (λ o. IfSome o (λ p. (d : Data) × (read text.now ≡ Some d)
        × LeadsTo json_at_step IsFloat d (path_of p))) }
{
    match refused_path(alloc, DocFormat::Json, text)? {
        Some(path) => Ok(Some(path)),
        None => Ok(None),
    }
}

/// A float alone is what is refused, so no step leads to it.
pub fn of_float(alloc: Global, x: f64) -> Result<Option<Vec<Step>>, AllocError>
    ensures { IfOk result (λ o. option_map path_of o ≡ Some []) }
{
    let path = toml_refused_path(alloc, &toml::Value::Float(x))?;
    Ok(path)
}
