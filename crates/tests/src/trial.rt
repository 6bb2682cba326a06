//! What is called, what the calls returned, and how many of them were refused memory.

use crate::failure::Failure;
use ptree::TreeBuilder;
use ptree::graph::{Graph, NodeIndex};
use ptree::print_config::PrintConfig;
use std::alloc::{AllocError, Global};
use std::io::{self, Write};

/// The room for all notes, and for what a call writes.
pub const ROOM: usize = 4_096;

/// What is called. The calls of the builder and of the graph first note these as they are.
#[derive(Clone, Copy)]
pub enum Step {
    Paint,
    Copy,
    Values,
    Tree(&'static str),
    Begin(&'static str),
    Leaf(&'static str),
    At(u32, &'static str),
    End,
    Built,
    Node(&'static str),
    Edges(&'static [(NodeIndex, NodeIndex)]),
    Clear,
    Walks(NodeIndex),
    Number,
}

/// What the calls share, what they returned, and how many of them were refused memory.
#[derive(Drop)]
pub struct Trial {
    pub config: PrintConfig,
    pub builder: TreeBuilder,
    pub graph: Graph<&'static str>,
    pub notes: Vec<u8>,
    pub refused: u32,
}

impl Trial {
    /// A builder of one item and a graph without nodes, under the default configuration to depth 3.
    pub fn new(alloc: Global) -> Result<Trial, AllocError> {
        let notes = Vec::with_capacity(alloc, ROOM)?;
        let text = String::from_str(alloc, "test")?;
        let mut config = PrintConfig::default(alloc)?;
        config.depth = 3;
        Ok(Trial {
            config,
            builder: TreeBuilder::new(alloc, text),
            graph: Graph::new(alloc),
            notes,
            refused: 0,
        })
    }

    /// Notes bytes.
    pub fn note(&mut self, bytes: &[u8]) -> Result<(), Failure> {
        Ok(self.notes.extend_from_slice(bytes)?)
    }

    /// Notes a text under a name.
    pub fn note_line(&mut self, name: &str, text: &str) -> Result<(), Failure> {
        Ok(writeln!(self.notes, "{name} {text}")?)
    }

    // Notes whether a copy of the configuration equals it.
    fn copy(&mut self) -> Result<(), Failure> {
        let copy = self.config.clone()?;
        let is_equal = copy == self.config;
        self.note_line("copy", if is_equal { "equal" } else { "other" })
    }

    // Calls once.
    fn call(&mut self, alloc: Global, step: Step) -> Result<(), Failure> {
        match step {
            Step::Paint => self.paint(alloc),
            Step::Copy => self.copy(),
            Step::Values => self.draw_values(alloc),
            Step::Tree(text) => self.draw_tree(alloc, text),
            Step::Number => self.draw_number(alloc),
            Step::Node(_) | Step::Edges(_) | Step::Clear | Step::Walks(_) => {
                self.change_graph(alloc, step)
            }
            _ => self.build(alloc, step),
        }
    }

    // Calls, and once more without the notes of the first time if memory was refused.
    fn retry(&mut self, alloc: Global, step: Step) -> Result<(), Failure> {
        let noted = self.notes.len();
        match self.call(alloc, step) {
            Err(Failure::Memory) => {
                self.refused = self.refused.saturating_add(1);
                self.notes.truncate(noted);
                self.call(alloc, step)
            }
            ended => ended,
        }
    }

    /// Makes all the calls.
    pub fn call_all(&mut self, alloc: Global, steps: &[Step]) -> Result<(), Failure> {
        for step in steps {
            self.retry(alloc, *step)?;
        }
        Ok(())
    }

    /// Prints what the calls returned, and how many were refused.
    pub fn print(&mut self, rt: &HostRuntime) -> io::Result<()> {
        writeln!(self.notes, "{} refused", self.refused)?;
        io::writer(rt).write_all(&self.notes)
    }
}
