//! The calls of a builder.

use crate::failure::Failure;
use crate::trial::{Step, Trial};
use ptree::output::tree_bytes;
use std::alloc::Global;
use std::io::Write;

impl Trial {
    // Notes the builder: its level, and the drawing of what it builds.
    fn note_builder(&mut self, alloc: Global) -> Result<(), Failure> {
        writeln!(self.notes, "level {}", self.builder.level())?;
        let tree = self.builder.build()?;
        let drawing = tree_bytes(alloc, &tree, &self.config)?;
        self.note(&drawing)
    }

    // Adds a child to the current item, which becomes the current one or not.
    fn add(&mut self, text: String, is_begun: bool) -> Result<(), Failure> {
        if self.builder.level() == u32::MAX {
            return Err(Failure::Other);
        }
        if is_begun {
            self.builder.begin_child(text)?;
        } else {
            self.builder.add_empty_child(text)?;
        }
        Ok(())
    }

    // Makes the current item's parent current, where there is one.
    fn end(&mut self) -> Result<(), Failure> {
        if self.builder.level() > 0 {
            self.builder.end_child();
        }
        Ok(())
    }

    /// Notes the builder, and then changes it.
    pub fn build(&mut self, alloc: Global, step: Step) -> Result<(), Failure> {
        self.note_builder(alloc)?;
        match step {
            Step::Begin(text) => self.add(String::from_str(alloc, text)?, true),
            Step::Leaf(text) => self.add(String::from_str(alloc, text)?, false),
            Step::At(level, text) => {
                Ok(
                    self.builder
                        .add_at_level(level, String::from_str(alloc, text)?)?,
                )
            }
            Step::End => self.end(),
            _ => Ok(()),
        }
    }
}
