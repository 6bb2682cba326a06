//! The calls of a graph.

use crate::failure::Failure;
use crate::trial::{ROOM, Step, Trial};
use ptree::graph::{EdgeError, Graph, NodeIndex, write_graph_with};
use ptree::style::Counted;
use std::alloc::Global;

impl Trial {
    // Notes a node's weight under a name, if there is such a node.
    fn note_weight(&mut self, name: &str, node: NodeIndex) -> Result<(), Failure> {
        match self.graph.node_weight(node).copied() {
            Some(weight) => self.note_line(name, weight),
            None => Ok(()),
        }
    }

    // Notes the graph: the weights of its nodes, and those of the first one's neighbours.
    fn note_graph(&mut self) -> Result<(), Failure> {
        for number in 0..6 {
            self.note_weight("node", NodeIndex(number))?;
        }
        for neighbor in self.graph.neighbors(NodeIndex(0))? {
            self.note_weight("neighbour", neighbor)?;
        }
        Ok(())
    }

    // Adds edges. A missing node is noted.
    fn connect(&mut self, edges: &[(NodeIndex, NodeIndex)]) -> Result<(), Failure> {
        match self.graph.extend_with_edges(edges) {
            Ok(()) => Ok(()),
            Err(EdgeError::NoNode) => self.note_line("edges", "refused"),
            Err(EdgeError::Memory) => Err(Failure::Memory),
        }
    }

    // Notes the drawing of the graph from a node.
    fn draw_graph(&mut self, alloc: Global, start: NodeIndex) -> Result<(), Failure> {
        let mut out = Counted::new(Vec::with_capacity(alloc, ROOM)?);
        write_graph_with(alloc, &self.graph, start, &mut out, &self.config)?;
        self.note(&out.into_inner())
    }

    /// Draws a graph of one number, whose text takes memory.
    pub fn draw_number(&mut self, alloc: Global) -> Result<(), Failure> {
        let mut graph = Graph::new(alloc);
        let number = graph.add_node(u64::MAX)?;
        let mut out = Counted::new(Vec::with_capacity(alloc, ROOM)?);
        write_graph_with(alloc, &graph, number, &mut out, &self.config)?;
        self.note(&out.into_inner())
    }

    /// Notes the graph, and then changes or draws it.
    pub fn change_graph(&mut self, alloc: Global, step: Step) -> Result<(), Failure> {
        self.note_graph()?;
        match step {
            Step::Node(weight) => {
                self.graph.add_node(weight)?;
                Ok(())
            }
            Step::Edges(edges) => self.connect(edges),
            Step::Walks(start) => self.draw_graph(alloc, start),
            _ => {
                self.graph = Graph::new(alloc);
                Ok(())
            }
        }
    }
}
