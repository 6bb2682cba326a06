//! Finds, keeps and sorts items of trees.
ghost use Rattle.std.specs.Prelude.{◌≡◌, ℕ, Bool, List, map, option_map, IfOk};
ghost use Rattle.ptree.specs.Tree.{tree_kids, tree_of};
ghost use Rattle.ptree_trees.specs.Change.{Tests, kept_tree, first_named, tree_at_names};

mod sort;

use ptree::item::StringItem;
pub use sort::sorted;
use std::alloc::{AllocError, Global};

/// Returns the tree of the items whose texts pass a test, and of those above them.
///
/// An item is kept exactly if it passes or an item below it does. The result is `None` exactly if
/// no item passes.
///
/// It takes time for each item, and calls the test at most once for each. It allocates the items
/// that are kept.
///
/// # Errors
///
/// Memory ran out.
pub fn kept<F: Fn(&str) -> bool>(
    alloc: Global,
    root: &StringItem,
    passes: F,
) -> Result<Option<StringItem>, AllocError>
    requires { F.IsAlwaysCallable passes }
    ensures { IfOk result (λ kept. (test : List ℕ → Bool) → Tests F.Fn passes test
        → option_map tree_of kept ≡ kept_tree test (tree_of root.now)) }
{
    kept_item(alloc, root, &passes)
}

/// Returns the item at a path of texts: the root if the path is empty, and else the item at the
/// rest of the path from the root's first child with the first text.
///
/// It takes time for each child of the items on the path, and does not allocate.
pub fn at<'a>(root: &'a StringItem, path: &[&str]) -> Option<&'a StringItem>
    ensures { option_map (λ s. tree_of s.now) result
        ≡ tree_at_names (tree_of root.now) (map (λ name. name.now) path.now) }
{
    let mut item = root;
    for name in path {
        item = child_named(item, name)?;
    }
    Some(item)
}

// Keeps the items that pass, and those above them.
fn kept_item<F: Fn(&str) -> bool>(
    alloc: Global,
    item: &StringItem,
    passes: &F,
) -> Result<Option<StringItem>, AllocError>
    requires { F.IsAlwaysCallable passes.now }
    ensures { IfOk result (λ kept. (test : List ℕ → Bool) → Tests F.Fn passes.now test
        → option_map tree_of kept ≡ kept_tree test (tree_of item.now)) }
{
    let mut children = Vec::new(alloc);
    for child in &item.children {
        if let Some(kept) = kept_item(alloc, child, passes)? {
            children.push(kept)?;
        }
    }
    if children.is_empty() && !passes(item.text.as_str()) {
        return Ok(None);
    }
    Ok(Some(StringItem {
        text: item.text.clone()?,
        children,
    }))
}

// Returns the first child with a text.
fn child_named<'a>(item: &'a StringItem, name: &str) -> Option<&'a StringItem>
    ensures { option_map (λ s. tree_of s.now) result
        ≡ first_named name.now (tree_kids (tree_of item.now)) }
{
    for child in &item.children {
        if child.text.as_str() == name {
            return Some(child);
        }
    }
    None
}
