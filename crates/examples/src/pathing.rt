//! Callers that make trees of paths.
ghost use Rattle.std.specs.Cmp.Lexicographic.{slice_cmp};
ghost use Rattle.std.specs.List.Sorted.{IsStrictlySortedBy};
ghost use Rattle.std.specs.Ordering.{nat_cmp};
ghost use Rattle.std.specs.Prelude.{◌≡◌, ℕ, [], ◌∷◌, List, IfOk, codes};
ghost use Rattle.ptree.specs.Tree.{tree_of};
ghost use Rattle.ptree_trees.specs.Paths.{has_name, names_of, next_names, tops, texts_below};

use ptree::item::StringItem;
use ptree_trees::paths::{paths_tree, sorted_paths_tree};
use std::alloc::{AllocError, Global};

/// The root has its text.
pub fn rooted(alloc: Global, root: &str, paths: &[&str]) -> Result<StringItem, AllocError>
    ensures { IfOk result (λ t. (tree_of t).text ≡ root.now) }
{
    paths_tree(alloc, root, paths, '/')
}

/// Returns the tree of three paths: the names stand in the order given, each once.
pub fn three_paths(alloc: Global) -> Result<StringItem, AllocError>
    ensures top { IfOk result (λ t. tops (tree_of t).children ≡ codes "z" ∷ codes "a" ∷ []) }
    ensures below { IfOk result (λ t.
        texts_below (tree_of t).children (codes "z" ∷ []) ≡ codes "y" ∷ codes "b" ∷ []) }
{
    paths_tree(alloc, "root", &["z/y", "a", "z/b"], '/')
}

/// The root of a tree of sorted paths has its text.
pub fn sorted_rooted(alloc: Global, root: &str, paths: &[&str]) -> Result<StringItem, AllocError>
    ensures { IfOk result (λ t. (tree_of t).text ≡ root.now) }
{
    sorted_paths_tree(alloc, root, paths, '/')
}

/// The names below the root ascend, and are the first names of the paths.
pub fn ascending(alloc: Global, paths: &[&str]) -> Result<StringItem, AllocError>
    ensures ascend { IfOk result (λ t.
        IsStrictlySortedBy (slice_cmp nat_cmp) (tops (tree_of t).children)) }
    ensures same { IfOk result (λ t. (name : List ℕ) → has_name (tops (tree_of t).children) name
        ≡ has_name (next_names [] (names_of 47 paths.now)) name) }
{
    sorted_paths_tree(alloc, "root", paths, '/')
}
