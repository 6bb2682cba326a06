//! Packages and their needs as the nodes and edges of a graph.
ghost use Rattle.std.specs.Prelude.{◌≡◌, length, map, true, ⊤, Any, IfOk, IfErr, OnOk, string_bytes};
ghost use Rattle.ptree.specs.Graph.{edges_of, weights_of, LacksNode};
ghost use Rattle.trees.specs.Depending.{ends};
ghost use Rattle.trees.specs.DependingParts.{labels_of, needs_of, HasNeeds, HasPackages, IsUnlinked};
ghost use Rattle.trees.specs.Reading.{FailsFor};
ghost use Rattle.trees.specs.Shown.{shown_text, AreShownLabels};

use crate::deps::{Need, Packages, wrong};
use crate::failure::Failure;
use crate::screen::shown_text;
use crate::source::Source;
use ptree::graph::{EdgeError, Graph, NodeIndex};
use std::alloc::{AllocError, Global};
use std::collections::BTreeSet;

/// The labels of nodes, and edges in the order in which they are drawn.
#[derive(Drop)]
pub struct Network {
    /// The labels, in the order in which what nothing needs is drawn.
    pub labels: Vec<String>,

    /// The paths of the nodes in a `package-lock.json`, and else nothing.
    pub paths: Vec<String>,

    /// Whether what needs a node is drawn.
    pub is_inverse: bool,

    pub edges: Vec<(NodeIndex, NodeIndex)>,

    /// The edges, in ascending order.
    pub sorted: BTreeSet<(usize, usize)>,
}

impl Network {
    ghost use Rattle.trees.specs.Depending.{directed};
    ghost use Rattle.trees.specs.DependingParts.{IsIndexed, AddsEdge};

    // Adds what a node needs, unless it is there.
    fn add_need(&mut self, node: usize, need: usize) -> Result<(), AllocError>
        ensures added { IsIndexed self.old
            → OnOk result (AddsEdge self.old self.new (directed self.old.is_inverse (node, need))) }
    {
        let (from, to) = if self.is_inverse {
            (need, node)
        } else {
            (node, need)
        };
        if self.sorted.insert((from, to))? {
            self.edges.push((NodeIndex(from), NodeIndex(to)))?;
        }
        Ok(())
    }
}

/// Returns the network of packages.
///
/// # Errors
///
/// Memory ran out.
pub fn linked(alloc: Global, packages: Packages, is_inverse: bool) -> Result<Network, AllocError>
    ensures { IfOk result (HasPackages is_inverse packages) }
{
    let mut network = Network {
        labels: packages.labels,
        paths: packages.paths,
        is_inverse,
        edges: Vec::new(alloc),
        sorted: BTreeSet::new(alloc),
    };
    push_needs(&packages.needs, &mut network)?;
    Ok(network)
}

// Adds what packages need.
fn push_needs(needs: &[Need], network: &mut Network) -> Result<(), AllocError>
    ensures { IsUnlinked network.old → OnOk result
        (HasNeeds network.old (map ends needs.now) network.new) }
{
    for need in needs {
        network.add_need(need.needing, need.needed)?;
    }
    Ok(())
}

/// Returns the graph of a network, for a terminal with its labels escaped.
///
/// # Errors
///
/// `Input` if an edge leads to no node, and `Memory`.
pub fn graph(
    alloc: Global,
    source: &Source,
    network: &Network,
    is_terminal: bool,
) -> Result<Graph<String>, Failure>
    ensures labels { IfOk result (λ g. is_terminal ≡ true → AreShownLabels g) }
    ensures texts { IfOk result (λ g.
        map string_bytes (weights_of g) ≡ map (shown_text is_terminal) (labels_of network.now)) }
    ensures edges { IfOk result (λ g. edges_of g ≡ needs_of network.now) }
    ensures failed { IfErr result (FailsFor
        (Any (LacksNode (length (labels_of network.now))) network.now.edges.items) ⊥) }
{
    let mut graph = Graph::new(alloc);
    for label in &network.labels {
        graph.add_node(shown_text(alloc, label.as_str(), is_terminal)?)?;
    }
    match graph.extend_with_edges(&network.edges) {
        Ok(()) => Ok(graph),
        Err(EdgeError::Memory) => Err(Failure::Memory),
        Err(EdgeError::NoNode) => Err(wrong(alloc, source, &["no dependencies"])),
    }
}
