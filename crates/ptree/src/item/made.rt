//! Items whose text or children are computed on demand.
ghost use Rattle.std.specs.Prelude.{◌≡◌, ℕ, List, map, IfOk};
ghost use Rattle.ptree.specs.Children.{children_of};
ghost use Rattle.ptree.specs.Item.{bytes_of, text_shape};

use crate::item::{Children, Shaped, TreeItem};
use crate::sink::{DrawResult, Sink};
use crate::style::Style;
use std::alloc::{AllocError, Global};

/// The text of an item: one that it holds, or one that was made for the call.
#[derive(Debug, Drop)]
pub enum Text<'a> {
    /// The item's own text.
    Lent(&'a str),

    /// A text made by [`MadeItem::text`].
    Made(String),
}

impl Text<'_> {
    /// Returns the text.
    pub fn as_str(&self) -> &str
        ensures { result.now ≡ bytes_of self.now }
    {
        match self {
            Text::Lent(text) => text,
            Text::Made(text) => text.as_str(),
        }
    }
}

/// A type that computes its text or its children on demand; the children are of the same type. Such
/// a type is a [`TreeItem`].
///
/// Texts and children that are made anew are at other places in memory each time. So contracts see
/// a value as something that does not depend on these places: `Seen`.
pub trait MadeItem: Sized {
    /// What contracts see of a value.
    ghost Seen: { Type 0 };

    /// Maps a value to what contracts see of it.
    ghost seen: { Self → Seen };

    /// The text's bytes.
    ghost text_of: { Seen → List ℕ };

    /// The children, in order.
    ghost below_of: { Seen → List Seen };

    /// Returns the item's own text.
    ///
    /// # Errors
    ///
    /// Memory ran out.
    fn text(&self, alloc: Global) -> Result<Text<'_>, AllocError>
        ensures { IfOk result (λ t. bytes_of t ≡ text_of (seen self.now)) };

    /// Returns the item's children, in order.
    ///
    /// # Errors
    ///
    /// Memory ran out.
    fn below(&self, alloc: Global) -> Result<Children<'_, Self>, AllocError>
        ensures { IfOk result (λ c. map seen (children_of c) ≡ below_of (seen self.now)) };
}

impl<T: MadeItem> Shaped for T {
    ghost shape = { λ x. text_shape T.text_of T.below_of (T.seen x) };
}

impl<T: MadeItem> TreeItem for T {
    type Child = T;

    fn write_self<W: Sink>(&self, alloc: Global, f: &mut W, style: &Style) -> DrawResult {
        let text = self.text(alloc)?;
        style.write_painted(f, text.as_str())
    }

    fn children(&self, alloc: Global) -> Result<Children<'_, T>, AllocError> {
        self.below(alloc)
    }
}
