//! Makes a tree of paths.
ghost use Rattle.std.specs.Prelude.{◌≡◌, ◌<◌, ◌++◌, map, IfOk};
ghost use Rattle.ptree.specs.Tree.{tree, tree_of, forest};
ghost use Rattle.ptree_trees.specs.Paths.{IsForestOfPaths, IsSortedForestOfPaths, names_of};
ghost use Rattle.ptree_trees.specs.PathGroups.{IsForestIn};

mod cut;
mod group;
mod groups;
mod key;
mod start;

use groups::groups;
use ptree::item::StringItem;
use start::shared_start;
use std::alloc::{AllocError, Global};

/// Returns the tree of paths: a root with this text, and below it an item for each proper or whole
/// prefix of a path. A path is a list of names with a separator between them, so each has a name.
/// The texts of the items below one item differ, and stand in the order in which the paths give
/// them first. A name may be empty.
///
/// It takes time for each byte of the paths, and at each level for a sort of the paths by their
/// next names. Above the result it takes memory for the number of paths times the greatest number
/// of names in one of them, and it calls itself once for each name of a path.
///
/// # Errors
///
/// Memory ran out.
pub fn paths_tree(
    alloc: Global,
    root: &str,
    paths: &[&str],
    separator: char,
) -> Result<StringItem, AllocError>
    requires { separator < 128 }
    ensures root { IfOk result (λ t. (tree_of t).text ≡ root.now) }
    ensures below { IfOk result (λ t.
        IsForestOfPaths (tree_of t).children (names_of separator paths.now)) }
{
    let children = items_below(alloc, paths, separator, false)?;
    StringItem::new(alloc, root, children)
}

/// Returns the tree of paths as [`paths_tree`] does, but with the items below one item in the order
/// of their texts, by bytes. So the order of the paths does not matter.
///
/// It takes the time and the memory that [`paths_tree`] takes.
///
/// # Errors
///
/// Memory ran out.
pub fn sorted_paths_tree(
    alloc: Global,
    root: &str,
    paths: &[&str],
    separator: char,
) -> Result<StringItem, AllocError>
    requires { separator < 128 }
    ensures root { IfOk result (λ t. (tree_of t).text ≡ root.now) }
    ensures below { IfOk result (λ t.
        IsSortedForestOfPaths (tree_of t).children (names_of separator paths.now)) }
{
    let children = items_below(alloc, paths, separator, true)?;
    StringItem::new(alloc, root, children)
}

// Returns the items of paths, in the order of their names, or in that in which the paths give them.
fn items_below(
    alloc: Global,
    paths: &[&str],
    separator: char,
    is_sorted: bool,
) -> Result<Vec<StringItem>, AllocError>
    requires { separator < 128 }
    ensures { IfOk result (λ v.
        IsForestIn is_sorted (forest (map tree_of v.items)) (names_of separator paths.now)) }
{
    if paths.is_empty() {
        return Ok(Vec::new(alloc));
    }
    let start = shared_start(paths, separator);
    let groups = groups(alloc, paths, start, separator, is_sorted)?;
    let mut items = Vec::with_capacity(alloc, groups.len())?;
    for group in &groups {
        let children = items_below(alloc, group.tails.as_slice(), separator, is_sorted)?;
        items.push(new_item(alloc, start, group.name, children)?)?;
    }
    Ok(items)
}

// Makes an item of the two parts of its text. It keeps them out of the stack of the levels above.
#[inline(never)]
fn new_item(
    alloc: Global,
    start: &str,
    rest: &str,
    children: Vec<StringItem>,
) -> Result<StringItem, AllocError>
    ensures { IfOk result (λ t. tree_of t
        ≡ tree (start.now ++ rest.now) (forest (map tree_of children.items))) }
{
    let text = [start, rest].concat(alloc)?;
    Ok(StringItem { text, children })
}
