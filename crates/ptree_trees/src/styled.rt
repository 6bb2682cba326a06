//! Items that each have a style of their own.
ghost use Rattle.std.specs.Prelude.{◌≡◌, [], map, IfOk, IsOkAnd};
ghost use Rattle.ptree.specs.Children.{children_of};
ghost use Rattle.ptree.specs.Shape.{kids};
ghost use Rattle.ptree.specs.Style.{style_of};
ghost use Rattle.ptree.specs.Tree.{tree_of};
ghost use Rattle.ptree.specs.Writing.{IsWritten, HasCause, TakesNoMemory};
ghost use Rattle.ptree_trees.specs.declared.styled.StyledItem.{out-StyledItem};
ghost use Rattle.ptree_trees.specs.Styled.{HasParts, styled_own, styled_shape, texts_of};

use ptree::item::{Children, Shaped, StringItem, TreeItem};
use ptree::style::{DrawError, Sink, Style};
use std::alloc::{AllocError, Global};

/// An item with a text, a style of its own, and children.
///
/// It is drawn as any other item. Its own style is painted in every drawing, also in one that is
/// not styled, since an item does not know whether the output is styled. For a drawing without
/// codes draw [`StyledItem::plain`] under a configuration that is not styled
/// (`PrintConfig::should_style_output` says whether it is).
#[derive(Debug, Drop)]
pub struct StyledItem {
    /// The item's own text, which is written painted.
    pub text: String,

    /// The style of the text. `None` is the style of leaves, which the configuration sets, and
    /// which has no codes if the output is not styled.
    pub style: Option<Style>,

    /// The item's children, in order.
    pub children: Vec<StyledItem>,
}

impl StyledItem {
    /// Returns an item of a text, a style and children.
    ///
    /// # Errors
    ///
    /// Memory ran out.
    pub fn new(
        alloc: Global,
        text: &str,
        style: Option<Style>,
        children: Vec<StyledItem>,
    ) -> Result<StyledItem, AllocError>
        ensures { IfOk result (HasParts text.now style children.items) }
    {
        Ok(StyledItem {
            text: String::from_str(alloc, text)?,
            style,
            children,
        })
    }

    /// Returns an item without children.
    ///
    /// # Errors
    ///
    /// Memory ran out.
    pub fn leaf(alloc: Global, text: &str, style: Option<Style>) -> Result<StyledItem, AllocError>
        ensures { IfOk result (HasParts text.now style []) }
    {
        StyledItem::new(alloc, text, style, Vec::new(alloc))
    }

    /// Returns the tree of the same texts without their styles.
    ///
    /// Its drawing reads back as it, while a drawing with codes reads back with the codes in its
    /// texts. It takes time for each item, and allocates the result. It calls itself once for each
    /// level.
    ///
    /// # Errors
    ///
    /// Memory ran out.
    pub fn plain(&self, alloc: Global) -> Result<StringItem, AllocError>
        ensures { IfOk result (λ s. tree_of s ≡ texts_of self.now) }
    {
        let mut children = Vec::with_capacity(alloc, self.children.len())?;
        for child in &self.children {
            let copy = child.plain(alloc)?;
            children.push(copy)?;
        }
        Ok(StringItem {
            text: String::from_str(alloc, self.text.as_str())?,
            children,
        })
    }
}

impl Shaped for StyledItem {
    ghost use Rattle.ptree_trees.specs.Styled.{styled_shape};

    ghost shape = { styled_shape };
}

impl TreeItem for StyledItem {
    type Child = StyledItem;

    /// Writes the text in the item's own style if it has one, and else in the style of leaves. It
    /// does not allocate.
    fn write_self<W: Sink>(&self, _alloc: Global, f: &mut W, style: &Style) -> Result<(), DrawError>
        ensures bytes { IsWritten (W.contents f.old) (W.contents f.new) result
            (styled_own self.now (style_of style.now)) }
        ensures cause { HasCause (W.faults f.old) (W.faults f.new) result }
        ensures memory { TakesNoMemory result }
    {
        let effective = self.style.as_ref().unwrap_or(style);
        effective.write_painted(f, self.text.as_str())
    }

    /// Lends the children. It does not allocate, and always succeeds.
    fn children(&self, _alloc: Global) -> Result<Children<'_, StyledItem>, AllocError>
        ensures shapes { IfOk result (λ c.
            map styled_shape (children_of c) ≡ kids (styled_shape self.now)) }
        ensures lent { IsOkAnd result (λ c.
            children_of c ≡ (out-StyledItem self.now).children.items) }
    {
        Ok(Children::Lent(self.children.as_slice()))
    }
}
