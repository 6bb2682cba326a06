//! Makes, lists and compares trees of texts.
ghost use Rattle.std.specs.Prelude.{◌≡◌, ◌↔◌, ◌++◌, ◌∷◌, map, option_map, suc, IfOk, IsTrue, OnOk};
ghost use Rattle.ptree.specs.Address.{at};
ghost use Rattle.ptree.specs.Equality.{same_tree};
ghost use Rattle.ptree.specs.Outline.{AreItems};
ghost use Rattle.ptree.specs.Subtrees.{subtrees_at};
ghost use Rattle.ptree.specs.Tree.{tree, none, forest, tree_kids, tree_of};

use crate::item::StringItem;
use std::alloc::{AllocError, Global};

impl StringItem {
    /// Makes a leaf with a text.
    ///
    /// # Errors
    ///
    /// Memory ran out.
    pub fn leaf(alloc: Global, text: &str) -> Result<StringItem, AllocError>
        ensures { IfOk result (λ s. tree_of s ≡ tree text.now none) }
    {
        StringItem::new(alloc, text, Vec::new(alloc))
    }

    /// Makes an item with a text and children, in order.
    ///
    /// # Errors
    ///
    /// Memory ran out.
    pub fn new(
        alloc: Global,
        text: &str,
        children: Vec<StringItem>,
    ) -> Result<StringItem, AllocError>
        ensures { IfOk result (λ s.
            tree_of s ≡ tree text.now (forest (map tree_of children.items))) }
    {
        Ok(StringItem {
            text: String::from_str(alloc, text)?,
            children,
        })
    }

    /// Returns the item itself and all items below it, in the order in which they are drawn, each
    /// with its level. The item's own level is 0.
    ///
    /// # Errors
    ///
    /// Memory ran out, or a level exceeds 4294967295.
    pub fn items(&self, alloc: Global) -> Result<Vec<(u32, &StringItem)>, AllocError>
        ensures { IfOk result (λ v.
            AreItems (tree_of self.now) (map (λ p. (p.0, tree_of p.1.now)) v.items)) }
    {
        let mut items = Vec::new(alloc);
        push_items(self, 0, &mut items)?;
        Ok(items)
    }

    /// Returns the item at an address: the positions of children, counted from 0, that lead there
    /// from this item. The empty address is the item's own.
    ///
    /// It takes time for each position, and does not allocate.
    pub fn at_address(&self, address: &[usize]) -> Option<&StringItem>
        ensures { option_map (λ s. tree_of s.now) result
            ≡ at tree_kids (tree_of self.now) address.now }
    {
        let mut item = self;
        for position in address {
            item = item.children.get(*position)?;
        }
        Some(item)
    }
}

impl PartialEq for StringItem {
    ghost use Rattle.std.specs.Cmp.{partial_equiv_from_equiv};
    ghost use Rattle.std.specs.Ordering.{on};
    ghost use Rattle.ptree.specs.Equivalence.{tree_equivalence};

    ghost eq = { on tree_of same_tree };

    ghost laws = { partial_equiv_from_equiv tree_equivalence };

    /// Whether the trees are equal: the texts by their bytes, and the children in order. It does
    /// not allocate.
    #[tactic(auto, using(crate::specs::Equivalence::tree_decided))]
    fn eq(&self, other: &StringItem) -> bool
        ensures value { result ≡ same_tree (tree_of self.now) (tree_of other.now) }
        ensures equality { IsTrue result ↔ (tree_of self.now ≡ tree_of other.now) }
    {
        is_same(self, other)
    }
}

impl Eq for StringItem {
    ghost use Rattle.ptree.specs.Equivalence.{tree_equivalence};

    ghost laws = { tree_equivalence };
}

// Adds an item at a level, and all items below it.
fn push_items<'a>(
    item: &'a StringItem,
    level: u32,
    items: &mut Vec<(u32, &'a StringItem)>,
) -> Result<(), AllocError>
    ensures { OnOk result (map (λ p. (p.0, tree_of p.1.now)) items.new.items
        ≡ map (λ p. (p.0, tree_of p.1.now)) items.old.items
        ++ (level, tree_of item.now) ∷ subtrees_at (suc level) (tree_of item.now).children) }
{
    items.push((level, item))?;
    for child in &item.children {
        let Some(below) = level.checked_add(1) else {
            return Err(AllocError);
        };
        push_items(child, below, items)?;
    }
    Ok(())
}

// Whether two trees are equal.
fn is_same(a: &StringItem, b: &StringItem) -> bool
    ensures { result ≡ same_tree (tree_of a.now) (tree_of b.now) }
{
    if a.text != b.text {
        return false;
    }
    let mut rest = b.children.as_slice();
    for child in &a.children {
        let Some((first, others)) = rest.split_first() else {
            return false;
        };
        if !is_same(child, first) {
            return false;
        }
        rest = others;
    }
    rest.is_empty()
}
