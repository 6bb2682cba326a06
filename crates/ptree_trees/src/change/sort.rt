//! Sorts the children of items.
ghost use Rattle.std.specs.Prelude.{map, IfOk, OnOk};
ghost use Rattle.ptree.specs.Tree.{tree_of};
ghost use Rattle.ptree_trees.specs.Sort.{IsSortOf, IsSortedTree};

use ptree::item::StringItem;
use std::alloc::{AllocError, Global};

/// Returns a copy of a tree whose children are sorted by their texts at every level.
///
/// Texts are compared by their bytes. Children with the same text keep their order.
///
/// It takes time for each item, and for the comparisons of a sort of each item's children. Above
/// the result it takes a buffer for the children of one item at a time, and a call a level.
///
/// # Errors
///
/// Memory ran out.
pub fn sorted(alloc: Global, root: &StringItem) -> Result<StringItem, AllocError>
    ensures { IfOk result (λ s. IsSortedTree (tree_of root.now) (tree_of s)) }
{
    let mut children = Vec::with_capacity(alloc, root.children.len())?;
    for child in &root.children {
        children.push(sorted(alloc, child)?)?;
    }
    sort_by_text(&mut children)?;
    Ok(StringItem {
        text: root.text.clone()?,
        children,
    })
}

// Sorts items by their texts.
fn sort_by_text(items: &mut Vec<StringItem>) -> Result<(), AllocError>
    ensures { OnOk result (IsSortOf (map tree_of items.old.items) (map tree_of items.new.items)) }
{
    items.sort_by(|a, b| a.text.cmp(&b.text))
}
