//! Callers that find, keep and sort items of trees.
ghost use Rattle.std.specs.Prelude.{◌≡◌, [], ◌∷◌, option_map, IfOk};
ghost use Rattle.ptree.specs.Tree.{tree_of};
ghost use Rattle.ptree_trees.specs.Change.{kept_tree, tree_at_names};
ghost use Rattle.ptree_trees.specs.Parts.{has_part};

use ptree::item::StringItem;
use ptree_trees::change;
use std::alloc::{AllocError, Global};

/// Returns the tree of the items whose texts have a part, and of those above them.
pub fn keep_containing(
    alloc: Global,
    root: &StringItem,
    part: &str,
) -> Result<Option<StringItem>, AllocError>
    ensures { IfOk result (λ kept. option_map tree_of kept
        ≡ kept_tree (has_part part.now) (tree_of root.now)) }
{
    change::kept(alloc, root, |text: &str| text.contains(part))
}

/// Returns the item at a path of two texts.
pub fn at_two<'a>(root: &'a StringItem, first: &str, second: &str) -> Option<&'a StringItem>
    ensures { option_map (λ s. tree_of s.now) result
        ≡ tree_at_names (tree_of root.now) (first.now ∷ second.now ∷ []) }
{
    change::at(root, &[first, second])
}

/// A sorted tree has its text.
pub fn sorted_has_text(alloc: Global, root: &StringItem) -> Result<StringItem, AllocError>
    ensures { IfOk result (λ s. (tree_of s).text ≡ (tree_of root.now).text) }
{
    change::sorted(alloc, root)
}
