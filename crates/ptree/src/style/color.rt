//! Colours.
ghost use Rattle.std.specs.Prelude.{◌≡◌, IfOk};
ghost use Rattle.ptree.specs.Color.{color_of};
ghost use Rattle.ptree.specs.declared.style.color.Color.{Color};

use std::alloc::AllocError;

/// A colour of a text or of its background.
///
/// The codes of the eight colours are those of ECMA-48. The codes of [`Color::Fixed`] and
/// [`Color::RGB`] are xterm's. `==` compares names by their bytes. Neither `==` nor painting to a
/// [`Sink`](crate::sink::Sink) allocates.
#[derive(Debug, Drop)]
pub enum Color {
    /// Colour 0 (foreground code 30, background code 40). It is the default.
    ///
    /// A text in it is hard to read on a terminal with a dark background.
    Black,

    /// Colour 1 (foreground code 31, background code 41).
    Red,

    /// Colour 2 (foreground code 32, background code 42).
    Green,

    /// Colour 3 (foreground code 33, background code 43).
    Yellow,

    /// Colour 4 (foreground code 34, background code 44).
    Blue,

    /// Colour 5 (foreground code 35, background code 45), which ECMA-48 calls magenta.
    Purple,

    /// Colour 6 (foreground code 36, background code 46).
    Cyan,

    /// Colour 7 (foreground code 37, background code 47).
    ///
    /// A text in it is hard to read on a terminal with a light background.
    White,

    /// A colour by its number in the terminal's table of 256 (foreground code 38;5;n, background
    /// code 48;5;n).
    Fixed(u8),

    /// A 24-bit colour by its bytes of red, green and blue (foreground code 38;2;r;g;b, background
    /// code 48;2;r;g;b).
    RGB(u8, u8, u8),

    /// A colour by its name. The first rule that matches decides, which is this crate's choice:
    ///
    /// 1. `black`, `red`, `green`, `yellow`, `blue`, `purple`, `cyan` and `white`, exactly, are the
    ///    eight colours.
    /// 2. `#` and exactly six hexadecimal digits of any case are the bytes of red, green and blue.
    /// 3. The sixteen names of HTML 4.01, `steelblue` and `mediumseagreen`, in any ASCII case, are
    ///    the bytes that they stand for.
    /// 4. Any other name sets no colour, and has no code.
    Named(String),
}

impl Color {
    /// Returns colour 0 of the eight.
    pub fn default() -> Color
        ensures { result ≡ Color.Black }
    {
        Color::Black
    }

    /// Returns a colour equal to this one.
    ///
    /// # Errors
    ///
    /// Memory ran out.
    pub fn clone(&self) -> Result<Color, AllocError>
        ensures { IfOk result (λ color. color_of color ≡ color_of self.now) }
    {
        Ok(match self {
            Color::Black => Color::Black,
            Color::Red => Color::Red,
            Color::Green => Color::Green,
            Color::Yellow => Color::Yellow,
            Color::Blue => Color::Blue,
            Color::Purple => Color::Purple,
            Color::Cyan => Color::Cyan,
            Color::White => Color::White,
            Color::Fixed(n) => Color::Fixed(*n),
            Color::RGB(r, g, b) => Color::RGB(*r, *g, *b),
            Color::Named(name) => Color::Named(name.clone()?),
        })
    }
}
