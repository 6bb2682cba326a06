//! Styles and colours.
ghost use Rattle.std.specs.Prelude.{◌≡◌, ◌≢◌, [], IfOk, OnOk, OnErr, IsTrue, string_bytes};
ghost use Rattle.ptree.specs.declared.style.Style.{Style};
ghost use Rattle.ptree.specs.Style.{style_of, IsPlain, plain_style, style_codes, painted_text, start_codes, end_codes};
ghost use Rattle.ptree.specs.Writing.{IsWritten, HasCause, HasErrorCause, TakesNoMemory};
ghost use Rattle.ptree.specs.declared.sink.DrawError.TheVariants.{Memory};

pub(crate) mod codes;
mod color;
mod tone;

use crate::sink::{Stop, put_or_stop};
pub use crate::sink::{Counted, DrawError, Feed, Sink, TerminalSink, put_all};
use codes::{Codes, put_codes};
pub use color::Color;
use std::alloc::{AllocError, Global};

/// How a text is painted on a terminal.
///
/// A painted text is the style's codes, the text, and a reset. A style without codes leaves the
/// text as it is. Each flag that is set has a code, and so has each colour except an unknown name.
/// The flags come first, in the order of the fields, then the foreground, then the background. That
/// order is this crate's choice. The flags' parameters are those of ECMA-48, SELECT GRAPHIC
/// RENDITION.
///
/// Unlike the original crate, this one paints blink, reverse, hidden and strikethrough too.
#[derive(Debug, Drop)]
pub struct Style {
    /// The colour of the text. `None` leaves it unchanged.
    pub foreground: Option<Color>,

    /// The colour behind the text. `None` leaves it unchanged.
    pub background: Option<Color>,

    /// Bold text.
    pub bold: bool,

    /// Dimmed text.
    pub dimmed: bool,

    /// Italic text.
    pub italic: bool,

    /// Underlined text.
    pub underline: bool,

    /// Blinking text.
    pub blink: bool,

    /// Text with its two colours exchanged.
    pub reverse: bool,

    /// Hidden text.
    pub hidden: bool,

    /// Struck-through text.
    pub strikethrough: bool,
}

impl Style {
    /// Returns the plain style: no colour and no flag.
    pub fn default() -> Style
        ensures { result ≡ plain_style }
    {
        Style {
            foreground: None,
            background: None,
            bold: false,
            dimmed: false,
            italic: false,
            underline: false,
            blink: false,
            reverse: false,
            hidden: false,
            strikethrough: false,
        }
    }

    /// Returns the painted text: the codes, `input`, and a reset if there is a code.
    ///
    /// # Errors
    ///
    /// Memory ran out.
    pub fn paint(&self, alloc: Global, input: &str) -> Result<String, AllocError>
        ensures text { IfOk result (λ text.
            string_bytes text ≡ painted_text (style_of self.now) input.now) }
        // A style without codes leaves the text as it is.
        ensures plain { style_codes (style_of self.now) ≡ []
            → IfOk result (λ text. string_bytes text ≡ input.now) }
        // A style with no flag set, and no colour that has a code, also leaves the text as it is.
        ensures unset { IsPlain (style_of self.now)
            → IfOk result (λ text. string_bytes text ≡ input.now) }
    {
        let codes = Codes::of(self);
        let mut text = String::from_str(alloc, codes.as_str())?;
        text.push_str(input)?;
        text.push_str(codes.reset())?;
        Ok(text)
    }

    /// Writes `input` painted in this style. It does not allocate.
    ///
    /// # Errors
    ///
    /// `Write` or `Zero` if `f` failed. A prefix of the painted text was written.
    #[inline(always)]
    pub fn write_painted<W: Sink>(&self, f: &mut W, input: &str) -> Result<(), DrawError>
        ensures bytes { IsWritten (W.contents f.old) (W.contents f.new) result
            (painted_text (style_of self.now) input.now) }
        ensures cause { HasCause (W.faults f.old) (W.faults f.new) result }
        ensures memory { TakesNoMemory result }
    {
        self.write_painted_bytes(f, input.as_bytes())
    }

    /// Writes bytes as [`Style::write_painted`] writes a text.
    #[inline(always)]
    pub(crate) fn write_painted_bytes<W: Sink>(
        &self,
        f: &mut W,
        input: &[u8],
    ) -> Result<(), DrawError>
        ensures bytes { IsWritten (W.contents f.old) (W.contents f.new) result
            (painted_text (style_of self.now) input.now) }
        ensures cause { HasCause (W.faults f.old) (W.faults f.new) result }
        ensures memory { TakesNoMemory result }
    {
        if self.is_plain() {
            put_all(f, input)
        } else {
            let mut error = DrawError::Memory;
            match self.write_with_codes(f, input, &mut error) {
                Ok(()) => Ok(()),
                Err(_) => Err(error),
            }
        }
    }

    // Writes the bytes painted in any style, and stores a failure of the sink in `error`. It is a
    // function of its own, since each call pays for the buffer of the codes.
    #[inline(never)]
    fn write_with_codes<W: Sink>(
        &self,
        f: &mut W,
        input: &[u8],
        error: &mut DrawError,
    ) -> Result<(), Stop>
        requires { error.old ≡ Memory }
        ensures bytes { IsWritten (W.contents f.old) (W.contents f.new) result
            (painted_text (style_of self.now) input.now) }
        ensures cause { HasErrorCause (W.faults f.old) (W.faults f.new) error.new }
        ensures error { OnOk result (error.new ≡ Memory) }
        ensures memory { OnErr result (error.new ≢ Memory) }
    {
        let mut codes = Codes::none();
        codes.gather(self);
        put_codes(f, codes.as_bytes(), error)?;
        put_or_stop(f, input, error)?;
        put_or_stop(f, codes.reset().as_bytes(), error)
    }

    /// Returns a style equal to this one.
    ///
    /// # Errors
    ///
    /// Memory ran out.
    pub fn clone(&self) -> Result<Style, AllocError>
        ensures { IfOk result (λ style. style_of style ≡ style_of self.now) }
    {
        Ok(Style {
            foreground: self.foreground.as_ref().map(Color::clone).transpose()?,
            background: self.background.as_ref().map(Color::clone).transpose()?,
            bold: self.bold,
            dimmed: self.dimmed,
            italic: self.italic,
            underline: self.underline,
            blink: self.blink,
            reverse: self.reverse,
            hidden: self.hidden,
            strikethrough: self.strikethrough,
        })
    }

    /// Whether no flag and no colour is set.
    #[inline(always)]
    pub(crate) fn is_plain(&self) -> bool
        ensures { IsTrue result → style_codes (style_of self.now) ≡ [] }
    {
        if self.bold
            | self.dimmed
            | self.italic
            | self.underline
            | self.blink
            | self.reverse
            | self.hidden
            | self.strikethrough
        {
            return false;
        }
        self.foreground.is_none() && self.background.is_none()
    }

    /// Returns the codes before a painted text.
    pub(crate) fn start_text(&self, alloc: Global) -> Result<String, AllocError>
        ensures { IfOk result (λ text. string_bytes text ≡ start_codes (style_of self.now)) }
    {
        let codes = Codes::of(self);
        String::from_str(alloc, codes.as_str())
    }

    /// Returns the codes after a painted text.
    pub(crate) fn end_text(&self, alloc: Global) -> Result<String, AllocError>
        ensures { IfOk result (λ text. string_bytes text ≡ end_codes (style_of self.now)) }
    {
        let codes = Codes::of(self);
        String::from_str(alloc, codes.reset())
    }
}
