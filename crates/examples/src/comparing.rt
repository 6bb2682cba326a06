//! Callers that compare trees, and drawings.
ghost use Rattle.std.specs.Prelude.{◌≡◌, ◌≢◌, ◌↔◌, IsTrue, IfOk, IfSome, Some, None};
ghost use Rattle.ptree.specs.Address.{Address, at};
ghost use Rattle.ptree.specs.Drawing.{written_look};
ghost use Rattle.ptree.specs.DrawnForm.{IsDrawnForm};
ghost use Rattle.ptree.specs.Readable.{HasReadablePieces};
ghost use Rattle.ptree.specs.Tree.{Tree, tree_kids, tree_of};
ghost use Rattle.ptree_trees.specs.Difference.{DifferAt};

use ptree::item::StringItem;
use ptree::print_config::PrintConfig;
use ptree_trees::difference::{DrawingsError, first_difference, first_drawn_difference};
use std::alloc::{AllocError, Global};

/// Whether two trees are equal.
pub fn is_same(alloc: Global, left: &StringItem, right: &StringItem) -> Result<bool, AllocError>
    ensures { IfOk result (λ b. IsTrue b ↔ (tree_of left.now ≡ tree_of right.now)) }
{
    Ok(first_difference(alloc, left, right)?.is_none())
}

/// Returns where the right tree has no item in the place of one of the left tree, if that is the
/// first difference.
pub fn first_lost(
    alloc: Global,
    left: &StringItem,
    right: &StringItem,
) -> Result<Option<Vec<usize>>, AllocError>
    ensures { IfOk result (λ o. IfSome o (λ a.
        (at tree_kids (tree_of left.now) a.items ≢ None)
        × (at tree_kids (tree_of right.now) a.items ≡ None))) }
{
    let Some(found) = first_difference(alloc, left, right)? else {
        return Ok(None);
    };
    if found.left.is_some() && found.right.is_none() {
        return Ok(Some(found.address));
    }
    Ok(None)
}

/// Returns what a tree has where two changed copies of it differ first, if it has an item there.
pub fn original<'a>(
    alloc: Global,
    tree: &'a StringItem,
    left: &StringItem,
    right: &StringItem,
) -> Result<Option<&'a StringItem>, AllocError>
    ensures { IfOk result (λ o. IfSome o (λ s. (a : Address)
        × DifferAt (tree_of left.now) (tree_of right.now) a
        × (at tree_kids (tree_of tree.now) a ≡ Some (tree_of s.now)))) }
{
    let Some(found) = first_difference(alloc, left, right)? else {
        return Ok(None);
    };
    Ok(tree.at_address(&found.address))
}

/// Returns where the trees of two drawings differ first, without making them.
pub fn first_change(
    alloc: Global,
    left: &str,
    right: &str,
    config: &PrintConfig,
) -> Result<Option<Vec<usize>>, DrawingsError>
    requires { HasReadablePieces config.now }
    ensures { (t u : Tree) → IsDrawnForm (written_look config.now) config.now.depth left.now t
        → IsDrawnForm (written_look config.now) config.now.depth right.now u
        → IfOk result (λ o. IfSome o (λ a. DifferAt t u a.items)) }
{
    let Some(found) = first_drawn_difference(alloc, left, right, config)? else {
        return Ok(None);
    };
    Ok(Some(found.address))
}
