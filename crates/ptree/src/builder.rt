//! Builds a tree item by item.
ghost use Rattle.std.specs.Borrow.{sem};
ghost use Rattle.std.specs.Prelude.{false, if◌then◌else◌, ◌≡◌, ◌↔◌, ◌⊎◌, ◌<◌, ◌+◌, ◌++◌, [], ◌∷◌, map, IfOk, OnOk, OnErr, IsErrOf, string_bytes};
ghost use Rattle.ptree.specs.Outline.{line, outline, IsOutline, Steps};
ghost use Rattle.ptree.specs.PartialTree.{text_line};
ghost use Rattle.ptree.specs.Tree.{Tree, tree_of};
ghost use Rattle.ptree.specs.TreeBuilder.{AddsChild};

pub(crate) mod partial;

use crate::item::StringItem;
use partial::PartialTree;
use std::alloc::{AllocError, Global};
use std::error::Error;
use std::fmt;
use std::marker::Model;

// A line of an outline.
#[derive(Debug, Drop)]
struct TextLine {
    level: u32,
    text: String,
}

/// Why an item could not be added at a level.
#[derive(Debug, Clone, Copy, PartialEq, Eq)]
pub enum AddError {
    /// No item can follow at that level.
    Level,

    /// Memory ran out.
    Memory,
}

impl fmt::Display for AddError {
    fn fmt<W: fmt::Write>(&self, f: &mut fmt::Formatter<W>) -> fmt::Result {
        f.write_str(match self {
            AddError::Level => "no item can follow at that level",
            AddError::Memory => "out of memory",
        })
    }
}

impl Error for AddError {}

/// Builds a tree of texts item by item, in the order in which they are drawn.
///
/// It denotes an outline (the levels and texts of the items so far) and the level of the current
/// item. A new child becomes the last child of the current item.
#[derive(Debug, Drop)]
pub struct TreeBuilder {
    text: String,
    lines: Vec<TextLine>,
    level: u32,
}

impl Model for TreeBuilder {
    ghost use Rattle.std.specs.Prelude.{◌∷◌, ◌≤◌, map, string_bytes};
    ghost use Rattle.ptree.specs.Outline.{line, Steps, last_level};
    ghost use Rattle.ptree.specs.PartialTree.{text_line};
    ghost use Rattle.ptree.specs.TreeBuilder.{Building};

    ghost Value = { Building };

    ghost view = { λ b. record {
      outline = line 0 (string_bytes b.text) ∷ map text_line b.lines.items;
      level = b.level;
    } };

    ghost invariant = { λ b. Steps 0 (map text_line b.lines.items)
        × (b.level ≤ last_level 0 (map text_line b.lines.items)) };
}

impl TreeBuilder {
    ghost use Rattle.ptree.specs.HandedBack.{HandsBack};

    /// Starts a tree whose root has this text. The root is the current item. The call does not
    /// allocate.
    pub fn new(alloc: Global, text: String) -> TreeBuilder
        ensures outline { result.outline ≡ line 0 (string_bytes text) ∷ [] }
        ensures level { result.level ≡ 0 }
    {
        TreeBuilder {
            text,
            lines: Vec::new(alloc),
            level: 0,
        }
    }

    /// Returns the level of the current item; the root has level 0. The level decides which calls
    /// are allowed.
    pub fn level(&self) -> u32
        ensures { result ≡ self.now.level }
    {
        self.level
    }

    /// Adds a child to the current item, and makes the new child current. [`level`](Self::level)
    /// must be below 4294967295.
    ///
    /// # Errors
    ///
    /// Memory ran out. The builder is unchanged, and the text is dropped.
    pub fn begin_child(&mut self, text: String) -> Result<&mut Self, AllocError>
        requires { self.old.level < u32.MAX }
        ensures* kept { sem 𝓛 (HandsBack self.entry result) }
        ensures same_reference { IfOk result (λ b. b.ghost_name ≡ self.entry.ghost_name) }
        ensures outline { IfOk result (λ b. AddsChild self.old b.now (string_bytes text)) }
        ensures level { IfOk result (λ b. b.now.level ≡ self.old.level + 1) }
    {
        self.add(text, true)
    }

    /// Makes the current item's parent current. [`level`](Self::level) must be above 0, since the
    /// root has no parent. The call does not allocate.
    pub fn end_child(&mut self) -> &mut Self
        requires { 0 < self.old.level }
        ensures same_reference { result.ghost_name ≡ self.entry.ghost_name }
        ensures outline { result.now.outline ≡ self.old.outline }
        ensures level { result.now.level + 1 ≡ self.old.level }
    {
        self.level -= 1;
        self
    }

    /// Adds a leaf to the current item, which stays current. [`level`](Self::level) must be below
    /// 4294967295.
    ///
    /// # Errors
    ///
    /// Memory ran out. The builder is unchanged, and the text is dropped.
    pub fn add_empty_child(&mut self, text: String) -> Result<&mut Self, AllocError>
        requires { self.old.level < u32.MAX }
        ensures* kept { sem 𝓛 (HandsBack self.entry result) }
        ensures same_reference { IfOk result (λ b. b.ghost_name ≡ self.entry.ghost_name) }
        ensures outline { IfOk result (λ b. AddsChild self.old b.now (string_bytes text)) }
        ensures level { IfOk result (λ b. b.now.level ≡ self.old.level) }
    {
        self.add(text, false)
    }

    /// Adds an item at a level, and makes it current. It becomes a child of the current item, or of
    /// an item above that. Use it in a loop over levels and texts, where each item is at most one
    /// level below the one before it.
    ///
    /// # Errors
    ///
    /// `Level` if no item can follow at that level: 0 is the root's level, and a level more than
    /// one below the current item's has no parent. `Memory` if memory ran out. The builder is
    /// unchanged, and the text is dropped.
    pub fn add_at_level(&mut self, level: u32, text: String) -> Result<(), AddError>
        ensures outline { OnOk result
            (self.new.outline ≡ self.old.outline ++ line level (string_bytes text) ∷ []) }
        ensures level { OnOk result (self.new.level ≡ level) }
        ensures refused { IsErrOf result AddError.Level
            ↔ (level ≡ 0) ⊎ (self.old.level + 1 < level) }
        ensures kept { OnErr result (self.new ≡ self.old) }
    {
        if level == 0 || level - 1 > self.level {
            return Err(AddError::Level);
        }
        let line = TextLine { level, text };
        self.lines.push(line)?;
        self.level = level;
        Ok(())
    }

    /// Returns the tree so far. You can add more items afterwards, and build again.
    ///
    /// Time grows with the items and the bytes of their texts, which are copied. Above the result
    /// it takes what [`read_tree`](crate::read::read_tree) takes, but for the text at hand.
    ///
    /// # Errors
    ///
    /// Memory ran out. The builder is unchanged.
    pub fn build(&mut self) -> Result<StringItem, AllocError>
        ensures outline { IfOk result (λ t. IsOutline (tree_of t) self.old.outline) }
        ensures unique { IfOk result (λ t.
            (u : Tree) → IsOutline u self.old.outline → u ≡ tree_of t) }
        ensures kept { self.new ≡ self.old }
    {
        let alloc = *self.lines.allocator();
        tree_from_outline(alloc, self.text.as_str(), self.lines.as_slice())
    }

    // Adds the line of a new child, and makes the child current if `is_begun`.
    fn add(&mut self, text: String, is_begun: bool) -> Result<&mut Self, AllocError>
        requires { self.old.level < u32.MAX }
        ensures* kept { sem 𝓛 (HandsBack self.entry result) }
        ensures same_reference { IfOk result (λ b. b.ghost_name ≡ self.entry.ghost_name) }
        ensures outline { IfOk result (λ b. AddsChild self.old b.now (string_bytes text)) }
        ensures level { IfOk result (λ b.
            b.now.level ≡ (if is_begun then self.old.level + 1 else self.old.level)) }
    {
        match self.add_line(text, is_begun) {
            Ok(()) => Ok(self),
            Err(e) => Err(e),
        }
    }

    // Does what `add` does, and returns no reference. It allocates before it changes anything.
    fn add_line(&mut self, text: String, is_begun: bool) -> Result<(), AllocError>
        requires { self.old.level < u32.MAX }
        ensures outline { OnOk result (AddsChild self.old self.new (string_bytes text)) }
        ensures level { OnOk result
            (self.new.level ≡ (if is_begun then self.old.level + 1 else self.old.level)) }
        ensures kept { OnErr result (self.new ≡ self.old) }
    {
        let level = self.level + 1;
        self.lines.push(TextLine { level, text })?;
        if is_begun {
            self.level = level;
        }
        Ok(())
    }
}

// Returns the tree of a root's text and of the lines below the root.
fn tree_from_outline(
    alloc: Global,
    root: &str,
    below: &[TextLine],
) -> Result<StringItem, AllocError>
    requires { Steps 0 (map text_line below.now) }
    ensures { IfOk result (λ t. outline (tree_of t) ≡ line 0 root.now ∷ map text_line below.now) }
{
    let mut tree = PartialTree::new(alloc);
    let mut text = root;
    for line in below {
        tree.add(String::from_str(alloc, text)?, line.level as usize)?;
        text = line.text.as_str();
    }
    tree.finish(String::from_str(alloc, text)?)
}
