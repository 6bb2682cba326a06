//! Items that hold a text and their children.
ghost use Rattle.std.specs.Prelude.{◌≡◌, ℕ, List, []};

use crate::item::{Children, MadeItem, Text};
use std::alloc::{AllocError, Global};

/// A type whose values hold a text and their children; the children are of the same type. Such a
/// type is a [`TreeItem`](crate::TreeItem).
///
/// For a type without children keep the default of `below_of`, and return an empty slice.
pub trait LentItem: Sized {
    /// The text's bytes.
    ghost text_of: { Self → List ℕ };

    /// The children, in order.
    ghost below_of: { Self → List Self } = { λ _. [] };

    /// Returns the item's own text.
    fn text(&self) -> &str
        ensures { result.now ≡ text_of self.now };

    /// Returns the item's children, in order.
    fn below(&self) -> &[Self]
        ensures { result.now ≡ below_of self.now };
}

impl<T: LentItem> MadeItem for T {
    ghost Seen = { T };

    ghost seen = { λ x. x };

    ghost text_of = { T.text_of };

    ghost below_of = { T.below_of };

    fn text(&self, _alloc: Global) -> Result<Text<'_>, AllocError> {
        Ok(Text::Lent(LentItem::text(self)))
    }

    fn below(&self, _alloc: Global) -> Result<Children<'_, T>, AllocError> {
        Ok(Children::Lent(LentItem::below(self)))
    }
}
