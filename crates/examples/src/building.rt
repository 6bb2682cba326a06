//! Callers that build trees.
ghost use Rattle.std.specs.Prelude.{◌≡◌, ◌<◌, ◌+◌, ◌++◌, [], ◌∷◌, max, IsTrue, IsFalse, OnOk, OnErr, IsErrOf, IfOk, length, string_bytes};
ghost use Rattle.ptree.specs.Outline.{line, outline};
ghost use Rattle.ptree.specs.Tree.{tree, none, forest, tree_of};
ghost use Rattle.ptree.specs.declared.builder.AddError.{AddError};

use ptree::TreeBuilder;
use ptree::builder::AddError;
use ptree::item::StringItem;
use std::alloc::{AllocError, Global};

/// Adds an item, or says that it couldn't and leaves the builder as it was.
pub fn added(builder: &mut TreeBuilder, level: u32, text: String) -> bool
    ensures yes { IsTrue result
        → builder.new.outline ≡ builder.old.outline ++ line level (string_bytes text) ∷ [] }
    ensures no { IsFalse result → builder.new ≡ builder.old }
{
    builder.add_at_level(level, text).is_ok()
}

/// Adds a sibling of the current item, or a child of it if it is the root. The level is never
/// refused.
pub fn add_sibling(builder: &mut TreeBuilder, text: String) -> Result<(), AddError>
    ensures outline { OnOk result
        (builder.new.outline
        ≡ builder.old.outline ++ line (max builder.old.level 1) (string_bytes text) ∷ []) }
    ensures level { OnOk result (builder.new.level ≡ max builder.old.level 1) }
    ensures only_memory { IsErrOf result AddError.Level → ⊥ }
    ensures kept { OnErr result (builder.new ≡ builder.old) }
{
    let level = builder.level().max(1);
    builder.add_at_level(level, text)
}

/// Adds the length of a list, and below it those of its halves. The level stays.
pub fn add_list(alloc: Global, builder: &mut TreeBuilder, len: u32) -> Result<(), AddError>
    ensures { OnOk result (builder.new.level ≡ builder.old.level) }
{
    if builder.level() == u32::MAX {
        return Err(AddError::Level);
    }
    builder.begin_child(len.to_string(alloc)?)?;
    if len > 1 {
        add_list(alloc, builder, len / 2)?;
        add_list(alloc, builder, len - len / 2)?;
    }
    builder.end_child();
    Ok(())
}

/// A text over two leaves.
pub fn over_two(
    alloc: Global,
    text: &str,
    first: &str,
    second: &str,
) -> Result<StringItem, AllocError>
    ensures { IfOk result (λ s. tree_of s
        ≡ tree text.now (forest (tree first.now none ∷ tree second.now none ∷ []))) }
{
    let first = StringItem::leaf(alloc, first)?;
    let second = StringItem::leaf(alloc, second)?;
    StringItem::new(alloc, text, vec![in alloc; first, second]?)
}

/// How many items a tree has: as many as lines in its outline.
pub fn count_items(alloc: Global, tree: &StringItem) -> Result<usize, AllocError>
    ensures { IfOk result (λ n. n ≡ length (outline (tree_of tree.now))) }
{
    let items = tree.items(alloc)?;
    Ok(items.len())
}

/// A copy equals what it was made of.
pub fn equals_its_copy(tree: &StringItem) -> Result<bool, AllocError>
    ensures { IfOk result IsTrue }
{
    let copy = tree.clone()?;
    Ok(copy == *tree)
}
