//! A root over items of another type.
ghost use Rattle.std.specs.Prelude.{◌≡◌, [], map, IfOk, IsOkAnd};
ghost use Rattle.ptree.specs.Children.{children_of};
ghost use Rattle.ptree.specs.Item.{root_shape};
ghost use Rattle.ptree.specs.Shape.{kids};
ghost use Rattle.ptree.specs.Style.{style_of};
ghost use Rattle.ptree.specs.Writing.{IsWritten, HasCause, TakesNoMemory};

use crate::item::{Children, Shaped, TreeItem};
use crate::sink::{DrawError, Sink};
use crate::style::Style;
use std::alloc::{AllocError, Global};

/// A text over items of any type.
#[derive(Debug, Drop)]
pub struct Root<'a, C> {
    /// The root's own text, which is written painted.
    pub text: &'a str,

    /// The items below it, in order.
    pub children: &'a [C],
}

impl<C: Shaped> Shaped for Root<'_, C> {
    ghost shape = { λ r. root_shape r.text.now (map C.shape r.children.now) };
}

impl<C: Shaped> TreeItem for Root<'_, C> {
    type Child = C;

    /// Writes the text, painted. It does not allocate.
    #[inline(always)]
    fn write_self<W: Sink>(&self, _alloc: Global, f: &mut W, style: &Style) -> Result<(), DrawError>
        ensures bytes { IsWritten (W.contents f.old) (W.contents f.new) result
            ((root_shape self.now.text.now (map C.shape self.now.children.now)).own []
            (style_of style.now)) }
        ensures cause { HasCause (W.faults f.old) (W.faults f.new) result }
        ensures memory { TakesNoMemory result }
    {
        style.write_painted(f, self.text)
    }

    /// Lends the children. It does not allocate, and succeeds.
    fn children(&self, _alloc: Global) -> Result<Children<'_, C>, AllocError>
        ensures shapes { IfOk result (λ c.
            map C.shape (children_of c)
            ≡ kids (root_shape self.now.text.now (map C.shape self.now.children.now))) }
        ensures lent { IsOkAnd result (λ c. children_of c ≡ self.now.children.now) }
    {
        Ok(Children::Lent(self.children))
    }
}
