//! Items, which are what can be drawn.
ghost use Rattle.std.specs.Prelude.{◌≡◌, [], map, IfOk, IsOkAnd};
ghost use Rattle.ptree.specs.Children.{children_of};
ghost use Rattle.ptree.specs.Shape.{Shape, kids};
ghost use Rattle.ptree.specs.Style.{style_of};
ghost use Rattle.ptree.specs.Writing.{IsWritten, HasCause, TakesNoMemory};

mod lent;
mod made;
mod root;
mod tree;

use crate::sink::{DrawError, Sink};
use crate::style::Style;
pub use lent::LentItem;
pub use made::{MadeItem, Text};
pub use root::Root;
use std::alloc::{AllocError, Global};

/// Denotes a labelled tree, possibly infinite.
///
/// If the children are of the type itself, the tree is `unfolded_shape` of `specs/Shape.antt`, and
/// the lemma `kids_of_unfold` of `proofs/Trees/Shapes.antt` shows what [`TreeItem::children`] must
/// ensure. If they are of another type, the tree is `over_shape`, and the lemma is `kids_of_over`.
/// All four are there for callers.
pub trait Shaped {
    /// The item's own bytes under each style, and those of its children, and so on below.
    ghost shape: { Self → Shape };
}

/// An item of a tree: what is written for it, and its children.
///
/// Both are functions of the item's value. If your type has a text and children, implement
/// [`LentItem`] or [`MadeItem`], which needs no proof. [`Root`] is a text over items of any type.
pub trait TreeItem: Shaped {
    /// The type of the children: this type, or another one.
    type Child: Shaped;

    /// Writes the item's own contents, without its children.
    ///
    /// `style` is the style of leaves. Items that respect it paint what they write.
    ///
    /// # Errors
    ///
    /// `Write` or `Zero` if `f` failed, and `Memory`. A prefix of the contents was written.
    fn write_self<W: Sink>(&self, alloc: Global, f: &mut W, style: &Style) -> Result<(), DrawError>
        ensures bytes { IsWritten (W.contents f.old) (W.contents f.new) result
            ((Self.shape self.now).own [] (style_of style.now)) }
        ensures cause { HasCause (W.faults f.old) (W.faults f.new) result };

    /// Returns the item's children, in order. A leaf has none.
    ///
    /// # Errors
    ///
    /// Memory ran out.
    fn children(&self, alloc: Global) -> Result<Children<'_, Self::Child>, AllocError>
        ensures { IfOk result
            (λ c. map Self.Child.shape (children_of c) ≡ kids (Self.shape self.now)) };
}

/// The children of an item: those that it holds, or those made for the call.
#[derive(Debug, Drop)]
pub enum Children<'a, C> {
    /// The item's own children.
    Lent(&'a [C]),

    /// Children made by [`TreeItem::children`].
    Made(Vec<C>),
}

impl<'a, C> Children<'a, C> {
    /// Returns the children, in order.
    pub fn as_slice(&self) -> &[C]
        ensures { result.now ≡ children_of self.now }
    {
        match self {
            Children::Lent(items) => items,
            Children::Made(items) => items.as_slice(),
        }
    }
}

/// A simple concrete implementation of [`TreeItem`]: each item has a text.
#[derive(Debug, Drop)]
pub struct StringItem {
    /// The item's own text, which is written painted.
    pub text: String,

    /// The item's children, in order.
    pub children: Vec<StringItem>,
}

impl StringItem {
    ghost use Rattle.ptree.specs.Tree.{tree_of};

    /// Returns a deep copy: the same texts and children.
    ///
    /// # Errors
    ///
    /// Memory ran out.
    pub fn clone(&self) -> Result<StringItem, AllocError>
        ensures { IfOk result (λ s. tree_of s ≡ tree_of self.now) }
    {
        let alloc = *self.children.allocator();
        let mut children = Vec::with_capacity(alloc, self.children.len())?;
        for child in &self.children {
            children.push(child.clone()?)?;
        }
        Ok(StringItem {
            text: self.text.clone()?,
            children,
        })
    }
}

impl Shaped for StringItem {
    ghost use Rattle.ptree.specs.Tree.{tree_of, shape_of_tree};

    ghost shape = { λ s. shape_of_tree (tree_of s) };
}

impl TreeItem for StringItem {
    ghost use Rattle.ptree.specs.declared.item.StringItem.{out-StringItem};
    ghost use Rattle.ptree.specs.Tree.{tree_of, shape_of_tree};

    type Child = StringItem;

    /// Writes the text painted. It does not allocate.
    #[inline(always)]
    fn write_self<W: Sink>(&self, _alloc: Global, f: &mut W, style: &Style) -> Result<(), DrawError>
        ensures bytes { IsWritten (W.contents f.old) (W.contents f.new) result
            ((shape_of_tree (tree_of self.now)).own [] (style_of style.now)) }
        ensures cause { HasCause (W.faults f.old) (W.faults f.new) result }
        ensures memory { TakesNoMemory result }
    {
        style.write_painted(f, self.text.as_str())
    }

    /// Lends the children. It does not allocate, and always succeeds.
    fn children(&self, _alloc: Global) -> Result<Children<'_, StringItem>, AllocError>
        ensures shapes { IfOk result (λ c.
            map (λ s. shape_of_tree (tree_of s)) (children_of c)
            ≡ kids (shape_of_tree (tree_of self.now))) }
        ensures lent { IsOkAnd result (λ c.
            children_of c ≡ (out-StringItem self.now).children.items) }
    {
        Ok(Children::Lent(self.children.as_slice()))
    }
}
