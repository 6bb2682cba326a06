//! Callers that escape texts and trees.
ghost use Rattle.std.specs.Prelude.{◌≡◌, ◌↔◌, IfOk, IfSome, IsTrue, string_bytes};
ghost use Rattle.std.specs.Str.{NoCharPasses};
ghost use Rattle.ptree.specs.Texts.{HasNoLineFeed};
ghost use Rattle.ptree.specs.Tree.{tree_of};
ghost use Rattle.ptree_trees.specs.Escape.{turns_text, escaped_text};
ghost use Rattle.examples.specs.Escapes.{escaped_sample};

use ptree::item::StringItem;
use ptree_trees::escape::{escaped, escaped_item, needs_escape};
use std::alloc::{AllocError, Global};

/// Escapes a text that holds a character of each kind.
pub fn sample_escaped(alloc: Global) -> Result<String, AllocError>
    ensures { IfOk result (λ s. string_bytes s ≡ escaped_sample) }
{
    escaped(
        alloc,
        "a\\b\t\n\r\u{8}\u{c}\u{1b}\u{7f}\u{9b}\u{200e}\u{2028}é",
    )
}

/// An escaped text is of one line.
pub fn one_line(alloc: Global, text: &str) -> Result<String, AllocError>
    ensures { IfOk result (λ s. HasNoLineFeed (string_bytes s)) }
{
    escaped(alloc, text)
}

/// An escaped text does not change its direction.
pub fn one_direction(alloc: Global, text: &str) -> Result<String, AllocError>
    ensures { IfOk result (λ s. NoCharPasses turns_text (string_bytes s)) }
{
    escaped(alloc, text)
}

/// Whether two texts are the same, by their escaped forms.
pub fn same_when_escaped(alloc: Global, left: &str, right: &str) -> Result<bool, AllocError>
    ensures { IfOk result (λ b. IsTrue b ↔ (left.now ≡ right.now)) }
{
    let a = escaped(alloc, left)?;
    let b = escaped(alloc, right)?;
    Ok(a == b)
}

/// Returns a text as it stands, if that is how it would be escaped.
pub fn as_it_stands(text: &str) -> Option<&str>
    ensures { IfSome result (λ t. t.now ≡ escaped_text t.now) }
{
    if needs_escape(text) { None } else { Some(text) }
}

/// The text of an escaped tree is its root's, escaped.
pub fn escaped_root(alloc: Global, root: &StringItem) -> Result<StringItem, AllocError>
    ensures { IfOk result (λ s. (tree_of s).text ≡ escaped_text (tree_of root.now).text) }
{
    escaped_item(alloc, root)
}
