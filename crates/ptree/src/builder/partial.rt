//! A tree that is made line by line.
ghost use Rattle.std.specs.Prelude.{◌≡◌, ◌<◌, ◌≤◌, ◌+◌, ◌++◌, ◌∷◌, [], length, string_bytes, IfOk, OnOk};
ghost use Rattle.ptree.specs.Outline.{line, outline};
ghost use Rattle.ptree.specs.PartialTree.{IsPartial, partial_lines};
ghost use Rattle.ptree.specs.Tree.{tree_of};

use crate::item::StringItem;
use std::alloc::{AllocError, Global};

// An item that is not closed: the next one may be below it.
#[derive(Drop)]
struct Parent {
    text: String,

    // How many closed items precede it.
    first: usize,
}

/// The items so far. Those that are not closed are one below the other, from the root on. A closed
/// one has all its children; the list has those that are below no closed one, in the order of the
/// drawing.
#[derive(Drop)]
pub(crate) struct PartialTree {
    pub(crate) alloc: Global,
    parents: Vec<Parent>,
    closed: Vec<StringItem>,
}

impl PartialTree {
    /// Starts without items.
    pub(crate) fn new(alloc: Global) -> PartialTree
        ensures parents { result.parents.items ≡ [] }
        ensures closed { result.closed.items ≡ [] }
        ensures partial { IsPartial result }
        ensures lines { partial_lines result ≡ [] }
    {
        PartialTree {
            alloc,
            parents: Vec::new(alloc),
            closed: Vec::new(alloc),
        }
    }

    /// Adds an item below the last parent, where `next` is the level of the item after it.
    #[inline(always)]
    pub(crate) fn add(&mut self, text: String, next: usize) -> Result<(), AllocError>
        requires partial { IsPartial self.old }
        requires low { 0 < next }
        requires high { next ≤ length self.old.parents.items + 1 }
        ensures partial { OnOk result (IsPartial self.new) }
        ensures level { OnOk result (length self.new.parents.items ≡ next) }
        ensures lines { OnOk result (partial_lines self.new ≡ partial_lines self.old
            ++ line (length self.old.parents.items) (string_bytes text) ∷ []) }
    {
        if next > self.parents.len() {
            let first = self.closed.len();
            return Ok(self.parents.push(Parent { text, first })?);
        }
        let children = Vec::new(self.alloc);
        self.closed.push(StringItem { text, children })?;
        self.close(next)
    }

    // Closes the parents from a level on.
    #[inline(always)]
    fn close(&mut self, level: usize) -> Result<(), AllocError>
        requires partial { IsPartial self.old }
        requires low { 0 < level }
        requires high { level ≤ length self.old.parents.items }
        ensures partial { OnOk result (IsPartial self.new) }
        ensures level { OnOk result (length self.new.parents.items ≡ level) }
        ensures lines { OnOk result (partial_lines self.new ≡ partial_lines self.old) }
    {
        while self.parents.len() > level {
            if let Some(parent) = self.parents.pop() {
                let children = self.closed.split_off(parent.first)?;
                self.closed.push(StringItem {
                    text: parent.text,
                    children,
                })?;
            }
        }
        Ok(())
    }

    /// Returns the tree of the items and of a last one below the last parent.
    pub(crate) fn finish(self, text: String) -> Result<StringItem, AllocError>
        requires { IsPartial self }
        ensures { IfOk result (λ t. outline (tree_of t) ≡ partial_lines self
            ++ line (length self.parents.items) (string_bytes text) ∷ []) }
    {
        let PartialTree {
            alloc,
            mut parents,
            mut closed,
        } = self;
        let children = Vec::new(alloc);
        let mut item = StringItem { text, children };
        while let Some(parent) = parents.pop() {
            closed.push(item)?;
            let text = parent.text;
            // All that is closed is below the root, which gets the list itself.
            if parents.is_empty() {
                let children = closed;
                return Ok(StringItem { text, children });
            }
            let children = closed.split_off(parent.first)?;
            item = StringItem { text, children };
        }
        Ok(item)
    }
}
