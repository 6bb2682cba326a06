//! Groups paths by their first names.
ghost use Rattle.std.specs.Prelude.{◌≡◌, ◌<◌, ◌++◌, ◌∷◌, [], ℕ, List, map, option_map, IfOk, OnOk};
ghost use Rattle.std.specs.Option.{option_to_list};
ghost use Rattle.ptree_trees.specs.PathGroups.{Cut, cut_of, keyed_cut, group_of, AreCuts, AreGroups, AreSortedCuts, IsGrouping, NoneAbove, IsPathGroups};
ghost use Rattle.ptree_trees.specs.SharedStart.{AllStart, names_behind};

use crate::paths::cut::CutPath;
use crate::paths::group::Group;
use crate::paths::key::KeyedCut;
use std::alloc::{AllocError, Global};

// Returns the groups of what follows a text in paths that begin with it, in the order of their
// names, or in that of their first paths. It keeps what it needs out of the stack of the levels
// above.
#[inline(never)]
pub fn groups<'a>(
    alloc: Global,
    paths: &[&'a str],
    start: &str,
    separator: char,
    is_sorted: bool,
) -> Result<Vec<Group<'a>>, AllocError>
    requires separator { separator < 128 }
    requires start { AllStart separator start.now paths.now }
    ensures { IfOk result (λ gs.
        AreGroups is_sorted separator (map group_of gs.items)
        (names_behind separator start.now paths.now)) }
{
    let cuts = cut_paths(alloc, paths, start, separator)?;
    let mut groups = groups_by_name(alloc, cuts.as_slice())?;
    if is_sorted {
        return Ok(groups);
    }
    groups.sort_unstable_by_key(|group| group.first);
    Ok(groups)
}

// Returns the groups of cut paths, in the order of their names.
fn groups_by_name<'a>(alloc: Global, cuts: &[CutPath<'a>]) -> Result<Vec<Group<'a>>, AllocError>
    ensures { IfOk result (λ gs. (separator : ℕ) (paths : List (List (List ℕ)))
        → AreCuts separator 0 (map cut_of cuts.now) paths
        → IsPathGroups separator (map group_of gs.items) paths) }
{
    let mut sorted = keyed(alloc, cuts)?;
    sort_by_name(&mut sorted)?;
    let mut groups = Vec::new(alloc);
    for path in &sorted {
        add_path(&mut groups, path)?;
    }
    Ok(groups)
}

// Cuts what follows a text in each path behind its first name.
fn cut_paths<'a>(
    alloc: Global,
    paths: &[&'a str],
    start: &str,
    separator: char,
) -> Result<Vec<CutPath<'a>>, AllocError>
    requires separator { separator < 128 }
    requires start { AllStart separator start.now paths.now }
    ensures { IfOk result (λ cuts.
        AreCuts separator 0 (map cut_of cuts.items) (names_behind separator start.now paths.now)) }
{
    let mut cuts = Vec::with_capacity(alloc, paths.len())?;
    for path in paths {
        let (_, rest) = path.split_at(start.len());
        cuts.push(CutPath::new(rest, separator, cuts.len()))?;
    }
    Ok(cuts)
}

// Makes the key of each path's name.
fn keyed<'b, 'a>(
    alloc: Global,
    cuts: &'b [CutPath<'a>],
) -> Result<Vec<KeyedCut<'b, 'a>>, AllocError>
    ensures { IfOk result (λ keyed. map keyed_cut keyed.items ≡ map cut_of cuts.now) }
{
    let mut keyed = Vec::with_capacity(alloc, cuts.len())?;
    for cut in cuts {
        keyed.push(KeyedCut::new(cut))?;
    }
    Ok(keyed)
}

// Sorts paths by their names. Those with one name keep their order.
fn sort_by_name(paths: &mut Vec<KeyedCut<'_, '_>>) -> Result<(), AllocError>
    ensures { OnOk result (AreSortedCuts paths.old.items paths.new.items) }
{
    paths.sort_by(|a, b| a.cmp_name(b))
}

// Adds a path to the last group if that has its name, and else in a group of its own.
fn add_path<'a>(groups: &mut Vec<Group<'a>>, path: &KeyedCut<'_, 'a>) -> Result<(), AllocError>
    ensures { OnOk result ((cuts : List Cut) → IsGrouping cuts (map group_of groups.old.items)
        → NoneAbove cuts path.now.cut.now.name.now
        → IsGrouping (cuts ++ keyed_cut path.now ∷ []) (map group_of groups.new.items)) }
{
    let cut = path.cut;
    if let Some(group) = groups.last_mut() {
        if group.has(path) {
            return add_tail(&mut group.tails, cut.tail);
        }
    }
    let mut tails = Vec::new(*groups.allocator());
    add_tail(&mut tails, cut.tail)?;
    groups.push(Group {
        key: path.key,
        name: cut.name,
        first: cut.index,
        tails,
    })?;
    Ok(())
}

// Adds what follows a name, if the path goes on.
fn add_tail<'a>(tails: &mut Vec<&'a str>, tail: Option<&'a str>) -> Result<(), AllocError>
    ensures { OnOk result (map (λ t. t.now) tails.new.items
        ≡ map (λ t. t.now) tails.old.items ++ option_to_list (option_map (λ t. t.now) tail.entry)) }
{
    if let Some(tail) = tail {
        tails.push(tail)?;
    }
    Ok(())
}
