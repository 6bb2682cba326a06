//! How many levels a drawing may have.
ghost use Rattle.std.specs.Prelude.{◌≡◌, ◌↔◌, ◌==◌, ℕ, length, nat_lt, All, Any, IsTrue, IfOk, MatchOption, OnOk, if◌then◌else◌};
ghost use Rattle.std.specs.List.{slice_split};
ghost use Rattle.ptree.specs.Graph.{edges_of, neighbors_of};
ghost use Rattle.ptree.specs.Occurrence.{occurrence_kids, trees_in};
ghost use Rattle.ptree_trees.specs.Paths.{names};
ghost use Rattle.trees.specs.Levels.{HasLevel, HasMoreLevels, LeadTo, AreRight, IsWalked, walks_from};
ghost use Rattle.trees.specs.ListingParts.{IsDeep};

use crate::source::behind;
use ptree::graph::{Graph, NodeIndex, Place};
use std::alloc::{AllocError, Global};

/// The greatest level of an item, where the root has level 0. Trees are made, drawn, compared and
/// dropped by calls one below the other: down to this level, a stack of 8 MB has room for them.
pub const LEVELS: u32 = 5000;

/// What is said of an input that has more.
pub const TOO_DEEP: &str = "more than 5,000 levels";

/// What is said of a graph that has more.
pub const TOO_DEEP_GRAPH: &str = "more than 5,000 levels; use --depth 5000 or less";

/// Whether a path has more names than there are levels.
pub fn has_more_names(path: &str) -> bool
    ensures { result ≡ nat_lt 5000 (length (names 47 path.now)) }
{
    if path.len() < LEVELS as usize {
        return false;
    }
    path.split('/').nth(LEVELS as usize).is_some()
}

/// Returns the number of the first line that begins with more units than there are levels.
pub fn deep_line(text: &str, unit: &str) -> Option<usize>
    ensures { MatchOption result
        (All (λ l. IsDeep 5000 unit.now l → ⊥) (slice_split (λ b. b == 10) text.now))
        (λ _. Any (IsDeep 5000 unit.now) (slice_split (λ b. b == 10) text.now)) }
{
    let mut number = 0usize;
    for line in text.split('\n') {
        number = number.saturating_add(1);
        if is_deep(line, unit) {
            return Some(number);
        }
    }
    None
}

// Whether a line begins with more units than there are levels.
fn is_deep(line: &str, unit: &str) -> bool
    ensures { IsTrue result ↔ IsDeep 5000 unit.now line.now }
{
    let mut rest = line;
    let mut level = 0;
    while let Some(more) = behind(rest, unit) {
        if level == LEVELS {
            return true;
        }
        level += 1;
        rest = more;
    }
    false
}

/// Whether what is drawn of a graph from a node on has more levels, each node expanded once, or all
/// walks. It takes time for each edge, and calls itself for each level.
///
/// # Errors
///
/// Memory ran out.
pub fn has_more_below(
    alloc: Global,
    graph: &Graph<String>,
    root: NodeIndex,
    walks: bool,
) -> Result<bool, AllocError>
    ensures { IfOk result (λ has_more.
        IsTrue has_more ↔ HasMoreLevels (edges_of graph.now) root.0 walks) }
{
    if walks {
        let mut known = Vec::new(alloc);
        return Ok(longest_walk(graph, root, LEVELS, &mut known)?.is_none());
    }
    let once = graph.expanded_once(root, LEVELS + 1)?;
    Ok(has_level(once.places.as_slice(), 1, LEVELS + 1))
}

// Whether an occurrence is so many levels below one of the first trees that places are.
fn has_level(places: &[Place], trees: usize, level: u32) -> bool
    ensures { IsTrue result ↔ Any (HasLevel occurrence_kids level) (trees_in trees places.now) }
{
    let mut rest = places;
    let mut left = trees;
    while left > 0 {
        let Some((place, after)) = rest.split_first() else {
            return false;
        };
        let below = place.below();
        if level == 0 || has_level(after, below, level - 1) {
            return true;
        }
        left = (left - 1).saturating_sub(below);
        rest = &after[below.min(after.len())..];
    }
    false
}

// What is known of the walks from a node.
#[derive(Clone, Copy)]
enum Walks {
    Unknown,

    // The node is on the way to the one that is looked at.
    Open,

    // The longest walk has so many steps.
    Longest(u32),
}

// Returns the steps of the longest walk from a node, or `None` if there is one of more steps than
// these. A node on the way to itself has walks of any length.
#[cycle(walk)]
fn longest_walk(
    graph: &Graph<String>,
    node: NodeIndex,
    most: u32,
    known: &mut Vec<Walks>,
) -> Result<Option<u32>, AllocError>
    requires right { AreRight (neighbors_of (edges_of graph.now)) known.old.items }
    requires open { LeadTo (neighbors_of (edges_of graph.now)) known.old.items 1 node.0 }
    ensures { IfOk result (IsWalked (neighbors_of (edges_of graph.now)) node.0 most
        known.old.items known.new.items) }
{
    match known.get(node.0).copied().unwrap_or(Walks::Unknown) {
        Walks::Open => Ok(None),
        Walks::Longest(steps) => Ok(if steps > most { None } else { Some(steps) }),
        Walks::Unknown => {
            set_walks(known, node, Walks::Open)?;
            let Some(steps) = longest_below(graph, node, most, known)? else {
                return Ok(None);
            };
            set_walks(known, node, Walks::Longest(steps))?;
            Ok(Some(steps))
        }
    }
}

// Does what `longest_walk` does, for a node that is open.
#[cycle(walk)]
fn longest_below(
    graph: &Graph<String>,
    node: NodeIndex,
    most: u32,
    known: &mut Vec<Walks>,
) -> Result<Option<u32>, AllocError>
    requires right { AreRight (neighbors_of (edges_of graph.now)) known.old.items }
    requires open { LeadTo (neighbors_of (edges_of graph.now)) known.old.items 0 node.0 }
    ensures { IfOk result (IsWalked (neighbors_of (edges_of graph.now)) node.0 most
        known.old.items known.new.items) }
{
    let mut longest = 0u32;
    for next in &graph.neighbors(node)? {
        if most == 0 {
            return Ok(None);
        }
        let Some(steps) = longest_walk(graph, *next, most - 1, known)? else {
            return Ok(None);
        };
        longest = longest.max(steps + 1);
    }
    Ok(Some(longest))
}

// Sets what is known of the walks from a node.
fn set_walks(known: &mut Vec<Walks>, node: NodeIndex, walks: Walks) -> Result<(), AllocError>
    ensures { OnOk result ((v : ℕ) → walks_from known.new.items v
        ≡ (if v == node.0 then walks else walks_from known.old.items v)) }
{
    if node.0 >= known.len() {
        known.resize(node.0.saturating_add(1), Walks::Unknown)?;
    }
    known[node.0] = walks;
    Ok(())
}
