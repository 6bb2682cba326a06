//! Graphs, and their nodes as items.
ghost use Rattle.std.specs.Prelude.{◌≡◌, suc, take, ◌+◌, ◌-◌, ◌<◌, ◌≤◌, ◌↔◌, IsTrue, [], ◌∷◌, ◌++◌, length, map, All, Any, IfOk, IsOkAnd, IsErrOf, OnOk, OnErr, option_copied, slice_get, vec_len, vec_capacity};
ghost use Rattle.ptree.specs.GraphLinks.{IsLinked, EndsBelow, ends_of, newest_from, turned_at};
ghost use Rattle.ptree.specs.Matched.{AreMatched};

mod drawing;
mod once;
mod places;
mod row;

pub use drawing::{GraphNode, Label, print_graph, write_graph_with};
pub use once::{Expanded, OccurrenceItem, REPEATED_MARK, print_graph_once, write_graph_once_with};
pub use places::{Occurrence, Occurrences, Place};
use std::alloc::{AllocError, Global};
use std::error::Error;
use std::fmt;

/// The number of a node, counted from 0 in the order of [`Graph::add_node`].
#[derive(Debug, Clone, Copy)]
pub struct NodeIndex(pub usize);

impl PartialEq for NodeIndex {
    ghost use Rattle.std.proofs.Common.{rules};
    ghost use Rattle.std.specs.Cmp.Rules.{comparing};
    ghost use Rattle.std.specs.Prelude.{nat_eq};

    ghost eq = { λ a b. nat_eq a.0 b.0 };

    ghost laws = { Prim.search (comparing, rules) };

    fn eq(&self, other: &NodeIndex) -> bool
        ensures equality { IsTrue result ↔ (self.now ≡ other.now) }
    {
        self.0 == other.0
    }
}

impl Eq for NodeIndex {
    ghost use Rattle.std.proofs.Common.{rules};
    ghost use Rattle.std.specs.Cmp.Rules.{comparing};

    ghost laws = { Prim.search (comparing, rules) };
}

/// Why edges were refused.
#[derive(Debug, Clone, Copy, PartialEq, Eq)]
pub enum EdgeError {
    /// An end of an edge is no node.
    NoNode,

    /// Memory ran out.
    Memory,
}

impl fmt::Display for EdgeError {
    fn fmt<W: fmt::Write>(&self, f: &mut fmt::Formatter<W>) -> fmt::Result {
        f.write_str(match self {
            EdgeError::NoNode => "an edge of a node that isn't in the graph",
            EdgeError::Memory => "out of memory",
        })
    }
}

impl Error for EdgeError {}

/// A directed graph: a list of weights, one for each node, and a list of edges.
#[derive(Drop)]
pub struct Graph<N> {
    nodes: Vec<Node<N>>,
    edges: Vec<Edge>,
    ghost linked: { IsLinked nodes.items edges.items },
}

// A node, the number of the newest edge from it, and how many there are. Edges are counted from 1,
// and 0 says that there is none.
#[derive(Drop)]
struct Node<N> {
    weight: N,
    newest: usize,
    degree: usize,
}

// An edge, and the number of the next older one from the same source.
#[derive(Drop)]
struct Edge {
    source: usize,
    target: usize,
    next: usize,
}

impl<N> Graph<N> {
    ghost use Rattle.ptree.specs.Graph.{weights_of, edges_of, neighbors_of, numbers_of, turned, LacksNode};

    /// Makes a graph without nodes. It does not allocate.
    pub fn new(alloc: Global) -> Graph<N>
        ensures weights { weights_of result ≡ [] }
        ensures edges { edges_of result ≡ [] }
    {
        Graph {
            nodes: Vec::new(alloc),
            edges: Vec::new(alloc),
        }
    }

    /// Adds a node. Its number is the number of nodes before the call.
    ///
    /// # Errors
    ///
    /// Memory ran out. The graph is unchanged, and the weight is dropped.
    pub fn add_node(&mut self, weight: N) -> Result<NodeIndex, AllocError>
    where
        N: Drop,
        ensures number { IfOk result (λ a. a.0 ≡ length (weights_of self.old)) }
        ensures ok { OnOk result (weights_of self.new ≡ weights_of self.old ++ weight ∷ []) }
        ensures err { OnErr result (weights_of self.new ≡ weights_of self.old) }
        ensures edges { edges_of self.new ≡ edges_of self.old }
    {
        let number = self.nodes.len();
        self.nodes.push(Node {
            weight,
            newest: 0,
            degree: 0,
        })?;
        Ok(NodeIndex(number))
    }

    /// Adds edges from the first node of each pair to the second, in order.
    ///
    /// # Errors
    ///
    /// `NoNode`, which is tested first, and `Memory`. The graph is unchanged.
    pub fn extend_with_edges(&mut self, edges: &[(NodeIndex, NodeIndex)]) -> Result<(), EdgeError>
        ensures no_node { IsErrOf result EdgeError.NoNode
            ↔ Any (LacksNode (length (weights_of self.old))) edges.now }
        ensures ok { OnOk result
            (edges_of self.new ≡ edges_of self.old ++ map numbers_of edges.now) }
        ensures err { OnErr result (edges_of self.new ≡ edges_of self.old) }
        ensures weights { weights_of self.new ≡ weights_of self.old }
    {
        if self.lacks_node(edges) {
            return Err(EdgeError::NoNode);
        }
        self.edges.reserve(edges.len())?;
        for (source, target) in edges {
            self.add_edge(source.0, target.0);
        }
        Ok(())
    }

    /// Returns the weight of a node, or `None` if there is no such node.
    pub fn node_weight(&self, a: NodeIndex) -> Option<&N>
        ensures { option_copied result ≡ slice_get (weights_of self.now) a.0 }
    {
        Some(&self.nodes.get(a.0)?.weight)
    }

    /// Returns the targets of the edges from a node, newest edge first. Parallel edges repeat their
    /// target.
    ///
    /// If there is no such node, there are none, and the call does not allocate.
    ///
    /// # Errors
    ///
    /// Memory ran out.
    pub fn neighbors(&self, a: NodeIndex) -> Result<Vec<NodeIndex>, AllocError>
        ensures targets { IfOk result (λ v.
            map (λ b. b.0) v.items ≡ neighbors_of (edges_of self.now) a.0) }
        ensures no_node { length (weights_of self.now) ≤ a.0 → IsOkAnd result (λ v. v.items ≡ []) }
        // Each of them is a node.
        ensures nodes { All (λ u. u < length (weights_of self.now))
            (neighbors_of (edges_of self.now) a.0) }
    {
        self.targets(*self.nodes.allocator(), a, NodeIndex)
    }

    /// Returns the graph with its edges reversed: the same nodes, and for each edge one from
    /// its target to its source, in the same order.
    ///
    /// So what needs a node is drawn as what the node needs. The call does not allocate. Its time
    /// grows with the nodes and edges.
    pub fn reversed(self) -> Graph<N>
    where
        N: Drop,
        ensures weights { weights_of result ≡ weights_of self }
        ensures edges { edges_of result ≡ map turned (edges_of self) }
    {
        let mut nodes = self.nodes;
        let mut edges = self.edges;
        unlink(&mut nodes);
        for i in 0..edges.len() {
            turn_edge(&mut nodes, &mut edges, i);
        }
        Graph { nodes, edges }
    }

    // Returns what `make` makes of the target of each edge from a node, newest edge first.
    #[inline(always)]
    fn targets<T: Drop, F: Fn(usize) -> T>(
        &self,
        alloc: Global,
        a: NodeIndex,
        make: F,
    ) -> Result<Vec<T>, AllocError>
        requires { F.IsAlwaysCallable make }
        ensures made { IfOk result (λ v.
            AreMatched (F.post make) (neighbors_of (edges_of self.now) a.0) v.items) }
        ensures no_node { length (weights_of self.now) ≤ a.0 → IsOkAnd result (λ v. v.items ≡ []) }
    {
        let mut made = Vec::with_capacity(alloc, self.degree(a))?;
        let mut number = self.newest(a);
        while number > 0 {
            let edge = &self.edges[number - 1];
            made.push(make(edge.target))?;
            number = edge.next;
        }
        Ok(made)
    }

    // Whether an end of some edge is no node.
    fn lacks_node(&self, edges: &[(NodeIndex, NodeIndex)]) -> bool
        ensures { IsTrue result ↔ Any (LacksNode (length (weights_of self.now))) edges.now }
    {
        let count = self.nodes.len();
        edges
            .iter()
            .any(|(source, target)| source.0 >= count || target.0 >= count)
    }

    // Adds an edge, for which there is room.
    fn add_edge(&mut self, source: usize, target: usize)
        requires source { source < vec_len self.old.nodes }
        requires target { target < vec_len self.old.nodes }
        requires room { vec_len self.old.edges < vec_capacity self.old.edges }
        ensures edges { edges_of self.new ≡ edges_of self.old ++ (source, target) ∷ [] }
        ensures weights { weights_of self.new ≡ weights_of self.old }
        ensures capacity { vec_capacity self.old.edges ≤ vec_capacity self.new.edges }
    {
        let next = self.nodes[source].newest;
        let edge = Edge {
            source,
            target,
            next,
        };
        self.edges.push(edge).unwrap();
        let newest = self.edges.len();
        let node = &mut self.nodes[source];
        node.newest = newest;
        node.degree = node.degree.saturating_add(1);
    }

    // Returns how many edges there are from a node. Only the room for them depends on it.
    fn degree(&self, a: NodeIndex) -> usize
        ensures no_node { length (weights_of self.now) ≤ a.0 → result ≡ 0 }
    {
        match self.nodes.get(a.0) {
            Some(node) => node.degree,
            None => 0,
        }
    }

    // Returns the number of the newest edge from a node, or 0.
    fn newest(&self, a: NodeIndex) -> usize
        ensures newest { result ≡ newest_from (edges_of self.now) a.0 }
        ensures no_node { length (weights_of self.now) ≤ a.0 → result ≡ 0 }
    {
        match self.nodes.get(a.0) {
            Some(node) => node.newest,
            None => 0,
        }
    }
}

// Removes all edges from the nodes.
fn unlink<N>(nodes: &mut [Node<N>])
    ensures newest { All (λ n. n.newest ≡ 0) nodes.new }
    ensures weights { map (λ n. n.weight) nodes.new ≡ map (λ n. n.weight) nodes.old }
{
    for node in nodes.iter_mut() {
        node.newest = 0;
        node.degree = 0;
    }
}

// Turns the edge at an index round, and links it. Those before it are linked already.
fn turn_edge<N>(nodes: &mut [Node<N>], edges: &mut [Edge], i: usize)
    requires within { i < length edges.old }
    requires ends { All (EndsBelow (length nodes.old)) edges.old }
    requires linked { IsLinked nodes.old (take i edges.old) }
    ensures ends { All (EndsBelow (length nodes.new)) edges.new }
    ensures linked { IsLinked nodes.new (take (suc i) edges.new) }
    ensures edges { map ends_of edges.new ≡ turned_at i (map ends_of edges.old) }
    ensures weights { map (λ n. n.weight) nodes.new ≡ map (λ n. n.weight) nodes.old }
{
    let edge = &mut edges[i];
    let source = edge.target;
    let node = &mut nodes[source];
    *edge = Edge {
        source,
        target: edge.source,
        next: node.newest,
    };
    node.newest = i + 1;
    node.degree = node.degree.saturating_add(1);
}
