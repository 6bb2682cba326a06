//! What nothing needs.
ghost use Rattle.std.specs.Prelude.{◌≡◌, ◌<◌, ℕ, not, true, length, slice_index_or, slice_set, All, Contains, IfOk, OnOk};
ghost use Rattle.trees.specs.DependingParts.{labels_of, AreFirsts, AreTopsOf, IsTopped, MarksNeeds, Reaches};

use crate::deps::network::Network;
use ptree::graph::NodeIndex;
use std::alloc::{AllocError, Global};

/// Returns what nothing needs. If there are several nodes, they get one with this label above them.
///
/// # Errors
///
/// Memory ran out.
pub fn top(alloc: Global, label: &str, network: &mut Network) -> Result<NodeIndex, AllocError>
    ensures { IfOk result (λ r. IsTopped label.now network.old network.new r.0) }
{
    let tops = tops(alloc, network)?;
    if tops.len() == 1 {
        return Ok(NodeIndex(tops[0]));
    }
    let above = NodeIndex(network.labels.len());
    network.labels.push(String::from_str(alloc, label)?)?;
    for top in &tops {
        network.edges.push((above, NodeIndex(*top)))?;
    }
    Ok(above)
}

// Returns what nothing needs, and of each cycle that nothing else needs the first node.
fn tops(alloc: Global, network: &Network) -> Result<Vec<usize>, AllocError>
    ensures nodes { IfOk result (λ tops. All (λ t. t < length (labels_of network.now)) tops.items) }
    ensures tops { IfOk result (λ tops. AreTopsOf network.now tops.items) }
{
    let nodes = in_turn(alloc, &needed(alloc, network)?)?;
    // None of the first ones reaches a later one, and those that a later one reaches are no tops.
    let mut firsts = firsts(alloc, network, &nodes)?;
    firsts.reverse();
    let mut tops = self::firsts(alloc, network, &firsts)?;
    tops.reverse();
    Ok(tops)
}

// Returns which nodes are needed.
fn needed(alloc: Global, network: &Network) -> Result<Vec<bool>, AllocError>
    ensures { IfOk result (λ needed. length needed.items ≡ length (labels_of network.now)) }
{
    let mut needed = vec![in alloc; false; network.labels.len()]?;
    for (_, to) in &network.sorted {
        mark(&mut needed, *to);
    }
    Ok(needed)
}

// Returns the nodes that are not needed, and then those that are.
fn in_turn(alloc: Global, needed: &[bool]) -> Result<Vec<usize>, AllocError>
    ensures nodes { IfOk result (λ nodes. All (λ t. t < length needed.now) nodes.items) }
    ensures all { IfOk result (λ nodes. (n : ℕ) → n < length needed.now → Contains nodes.items n) }
{
    let mut nodes = Vec::new(alloc);
    for is_needed in [false, true] {
        for (i, marked) in needed.iter().enumerate() {
            if *marked == is_needed {
                nodes.push(i)?;
            }
        }
    }
    Ok(nodes)
}

// Returns those of these nodes that none before them reaches.
fn firsts(alloc: Global, network: &Network, nodes: &[usize]) -> Result<Vec<usize>, AllocError>
    ensures nodes { IfOk result (λ firsts. All (Contains nodes.now) firsts.items) }
    ensures firsts { IfOk result (λ firsts.
        All (λ e. e.1 < length (labels_of network.now)) network.now.sorted.keys
        → All (λ n. n < length (labels_of network.now)) nodes.now
        → AreFirsts network.now.sorted.keys nodes.now firsts.items) }
{
    let mut reached = vec![in alloc; false; network.labels.len()]?;
    let mut firsts = Vec::new(alloc);
    for node in nodes {
        if mark(&mut reached, *node) {
            firsts.push(*node)?;
            reach(alloc, network, *node, &mut reached)?;
        }
    }
    Ok(firsts)
}

// Marks all that a node needs, and what that needs.
fn reach(
    alloc: Global,
    network: &Network,
    from: usize,
    reached: &mut [bool],
) -> Result<(), AllocError>
    ensures { OnOk result (Reaches network.now.sorted.keys from reached.old reached.new) }
{
    let mut left = vec![in alloc; from]?;
    // Each node is marked once, and so is left once.
    for _ in 0..reached.len() {
        let Some(node) = left.pop() else {
            break;
        };
        mark_needs(network, node, reached, &mut left)?;
    }
    Ok(())
}

// Marks what a node needs, and adds what was not marked before to what is left.
fn mark_needs(
    network: &Network,
    node: usize,
    reached: &mut [bool],
    left: &mut Vec<usize>,
) -> Result<(), AllocError>
    ensures { OnOk result (MarksNeeds network.now.sorted.keys node
        reached.old reached.new left.old.items left.new.items) }
{
    for (_, to) in network.sorted.range((node, 0)..=(node, usize::MAX)) {
        if mark(reached, *to) {
            left.push(*to)?;
        }
    }
    Ok(())
}

// Marks a node. Returns whether it was not marked before.
fn mark(marks: &mut [bool], node: usize) -> bool
    ensures new { result ≡ not (slice_index_or marks.old node true) }
    ensures marked { marks.new ≡ slice_set marks.old node true }
{
    if node >= marks.len() || marks[node] {
        return false;
    }
    marks[node] = true;
    true
}
