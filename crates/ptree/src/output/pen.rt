//! The engine's buffer between its calls.
ghost use Rattle.std.specs.Prelude.{◌≡◌, ◌≤◌, ◌+◌, true, false, Some, length, take, ◌++◌, IfOk, OnOk, OnErr};
ghost use Rattle.ptree.specs.Line.{line_bytes};
ghost use Rattle.ptree.specs.Looks.{own_text};
ghost use Rattle.ptree.specs.Pen.{brush_look};
ghost use Rattle.ptree.specs.Pieces.{passing_piece};
ghost use Rattle.ptree.specs.Style.{style_of, start_codes};
ghost use Rattle.ptree.specs.declared.sink.DrawError.TheVariants.{Memory};

use crate::output::brush::Brush;
use crate::output::line::LineBuffer;
use crate::sink::DrawError;
use crate::style::Style;
use std::alloc::{AllocError, Global};

/// The buffer of a drawing, whether it ends in a regular turning piece, and why the drawing
/// stopped. `error` is `Memory` unless a write failed.
#[derive(Drop)]
pub(crate) struct Pen {
    pub(crate) line: LineBuffer,
    pub(crate) turned: bool,
    pub(crate) error: DrawError,
}

impl Pen {
    // Makes a pen whose buffer holds the branch's start codes.
    pub(crate) fn new(alloc: Global, branch: &Style) -> Result<Pen, AllocError>
        ensures line { IfOk result (λ p.
            line_bytes p.line ≡ start_codes (style_of branch.now)) }
        ensures turned { IfOk result (λ p. p.turned ≡ false) }
        ensures error { IfOk result (λ p. p.error ≡ Memory) }
    {
        let front = branch.start_text(alloc)?;
        let mut line = LineBuffer::new(alloc);
        line.append(front.as_bytes())?;
        Ok(Pen {
            line,
            turned: false,
            error: DrawError::Memory,
        })
    }

    // Puts an item's turning piece after the first `width` bytes. The previous item's turning piece
    // may be there already.
    #[inline(always)]
    pub(crate) fn turn(
        &mut self,
        width: usize,
        brush: &Brush<'_>,
        is_last: bool,
    ) -> Result<(), AllocError>
        requires width { width ≤ length (line_bytes self.old.line) }
        requires turned { self.old.turned ≡ true → is_last ≡ false
            → line_bytes self.old.line
            ≡ take width (line_bytes self.old.line)
            ++ own_text (brush_look brush.now) (Some false) }
        ensures line { OnOk result
            (line_bytes self.new.line
            ≡ take width (line_bytes self.old.line)
            ++ own_text (brush_look brush.now) (Some is_last)) }
        ensures error { self.new.error ≡ self.old.error }
    {
        if self.turned && !is_last {
            return Ok(());
        }
        self.turned = true;
        self.line.replace_end(width, brush.turn(is_last))
    }

    // Puts an item's turning piece after the first `width` bytes, and cuts off what is behind it. The
    // previous item's regular turning piece may be there already.
    #[inline(always)]
    pub(crate) fn turn_again(
        &mut self,
        width: usize,
        brush: &Brush<'_>,
        is_last: bool,
    ) -> Result<(), AllocError>
        requires width { width ≤ length (line_bytes self.old.line) }
        requires turned { self.old.turned ≡ true
            → take (width + length (own_text (brush_look brush.now) (Some false)))
            (line_bytes self.old.line)
            ≡ take width (line_bytes self.old.line)
            ++ own_text (brush_look brush.now) (Some false) }
        ensures line { OnOk result
            (line_bytes self.new.line
            ≡ take width (line_bytes self.old.line)
            ++ own_text (brush_look brush.now) (Some is_last)) }
        ensures kept { take width (line_bytes self.new.line)
            ≡ take width (line_bytes self.old.line) }
        ensures regular { OnOk result (self.new.turned ≡ true → is_last ≡ false) }
        ensures stopped { OnErr result (self.new.turned ≡ false) }
        ensures error { self.new.error ≡ self.old.error }
    {
        let piece = brush.turn(is_last);
        if self.turned && !is_last {
            self.line.truncate(width + piece.len());
            return Ok(());
        }
        self.turned = false;
        self.line.replace_end(width, piece)?;
        self.turned = !is_last;
        Ok(())
    }

    // Puts an item's passing piece after the first `width` bytes, for what is below the item.
    #[inline(always)]
    pub(crate) fn pass(
        &mut self,
        width: usize,
        brush: &Brush<'_>,
        is_last: bool,
    ) -> Result<(), AllocError>
        requires { width ≤ length (line_bytes self.old.line) }
        ensures line { OnOk result
            (line_bytes self.new.line
            ≡ take width (line_bytes self.old.line)
            ++ passing_piece (brush_look brush.now).pieces is_last) }
        ensures kept { OnErr result
            (line_bytes self.new.line ≡ take width (line_bytes self.old.line)) }
        ensures turned { self.new.turned ≡ false }
        ensures error { self.new.error ≡ self.old.error }
    {
        self.turned = false;
        self.line
            .replace_end(width, brush.look.pieces.passing(is_last))
    }

    // Keeps only the first `width` bytes.
    #[inline(always)]
    pub(crate) fn cut(&mut self, width: usize)
        requires { width ≤ length (line_bytes self.old.line) }
        ensures line { line_bytes self.new.line ≡ take width (line_bytes self.old.line) }
        ensures turned { self.new.turned ≡ false }
        ensures error { self.new.error ≡ self.old.error }
    {
        self.line.truncate(width);
        self.turned = false;
    }

    // Returns why the drawing stopped.
    pub(crate) fn into_error(self) -> DrawError
        ensures { result ≡ self.error }
    {
        let Pen {
            line: _,
            turned: _,
            error,
        } = self;
        error
    }
}
