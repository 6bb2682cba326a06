//! Resolves colours to terminal codes, and holds the known names.
ghost use Rattle.std.specs.Prelude.{◌≡◌, ◌+◌, ◌≤◌, ◌<◌, true, IfSome, position, find};
ghost use Rattle.std.specs.List.{list_all};
ghost use Rattle.std.specs.Str.{str_eq_ignore_ascii_case};
ghost use Rattle.std.specs.Char.{digit_value, is_ascii_hexdigit};
ghost use Rattle.ptree.specs.Codes.{IsOfEight, HasHexDigits};
ghost use Rattle.ptree.specs.Color.{is_hex_name, named_tone, basic_tone, hex_tone, hex_byte, table_tone, color_of, tone_of};

use crate::style::Color;

/// The side that a colour is set for.
#[derive(Clone, Copy)]
pub enum Side {
    /// The text.
    Foreground,

    /// The background.
    Background,
}

impl Side {
    ghost use Rattle.ptree.specs.Color.{base, extended};

    /// Returns the number of colour 0.
    pub fn base(self) -> u8
        ensures value { result ≡ base self }
        ensures bound { result ≤ 40 }
    {
        match self {
            Side::Foreground => 30,
            Side::Background => 40,
        }
    }

    /// Returns the parameter that comes before a number of the terminal's table, or before red,
    /// green and blue.
    pub fn extended(self) -> u8
        ensures { result ≡ extended self }
    {
        match self {
            Side::Foreground => 38,
            Side::Background => 48,
        }
    }
}

/// A colour in the terms of terminal codes.
#[derive(Clone, Copy)]
pub enum Tone {
    /// One of the eight colours.
    Eight(u8),

    /// One of the terminal's table of 256 colours.
    Indexed(u8),

    /// Bytes of red, green and blue.
    Direct(u8, u8, u8),
}

// The words of the eight colours, in their order.
const BASIC_NAMES: [&str; 8] = [
    "black", "red", "green", "yellow", "blue", "purple", "cyan", "white",
];

// The names of HTML 4.01 and two more, with their bytes of red, green and blue.
const NAMED_COLORS: [(&str, u8, u8, u8); 18] = [
    ("black", 0, 0, 0),
    ("silver", 192, 192, 192),
    ("gray", 128, 128, 128),
    ("white", 255, 255, 255),
    ("maroon", 128, 0, 0),
    ("red", 255, 0, 0),
    ("purple", 128, 0, 128),
    ("fuchsia", 255, 0, 255),
    ("green", 0, 128, 0),
    ("lime", 0, 255, 0),
    ("olive", 128, 128, 0),
    ("yellow", 255, 255, 0),
    ("navy", 0, 0, 128),
    ("blue", 0, 0, 255),
    ("teal", 0, 128, 128),
    ("aqua", 0, 255, 255),
    ("steelblue", 70, 130, 180),
    ("mediumseagreen", 60, 179, 113),
];

/// Returns the tone of a colour. An unknown name has none.
pub fn color_tone(color: &Color) -> Option<Tone>
    ensures value { result ≡ tone_of (color_of color.now) }
    ensures eight { IfSome result IsOfEight }
{
    Some(match color {
        Color::Black => Tone::Eight(0),
        Color::Red => Tone::Eight(1),
        Color::Green => Tone::Eight(2),
        Color::Yellow => Tone::Eight(3),
        Color::Blue => Tone::Eight(4),
        Color::Purple => Tone::Eight(5),
        Color::Cyan => Tone::Eight(6),
        Color::White => Tone::Eight(7),
        Color::Fixed(n) => Tone::Indexed(*n),
        Color::RGB(r, g, b) => Tone::Direct(*r, *g, *b),
        Color::Named(name) => return named_tone(name.as_str()),
    })
}

// Returns the tone of a name, by the first rule that matches.
fn named_tone(name: &str) -> Option<Tone>
    ensures { result ≡ named_tone name.now }
{
    basic_tone(name)
        .or_else(|| hex_tone(name))
        .or_else(|| table_tone(name))
}

// Returns the colour of one of the eight words, exactly spelled.
fn basic_tone(name: &str) -> Option<Tone>
    ensures { result ≡ basic_tone name.now }
{
    BASIC_NAMES
        .iter()
        .position(|word| *word == name)
        .map(|k| Tone::Eight(k as u8))
}

// Returns the bytes of the six digits of `#rrggbb`.
fn hex_tone(name: &str) -> Option<Tone>
    ensures { result ≡ hex_tone name.now }
{
    if !is_hex_name(name) {
        return None;
    }
    let bytes = name.as_bytes();
    let (r, g, b) = (hex_byte(bytes, 1), hex_byte(bytes, 3), hex_byte(bytes, 5));
    Some(Tone::Direct(r, g, b))
}

// Whether a name is `#` and exactly six hexadecimal digits of any case.
fn is_hex_name(name: &str) -> bool
    ensures { result ≡ is_hex_name name.now }
{
    let bytes = name.as_bytes();
    bytes.len() == 7 && bytes[0] == b'#' && are_hex_digits(&bytes[1..])
}

// Whether all bytes are hexadecimal digits of any case.
fn are_hex_digits(bytes: &[u8]) -> bool
    ensures { result ≡ list_all is_ascii_hexdigit bytes.now }
{
    bytes.iter().all(|b| b.is_ascii_hexdigit())
}

// Returns the bytes of a name of the table, in any ASCII case.
fn table_tone(name: &str) -> Option<Tone>
    ensures { result ≡ table_tone name.now }
{
    NAMED_COLORS
        .iter()
        .find(|color| same_name(color.0, name))
        .map(|color| Tone::Direct(color.1, color.2, color.3))
}

// Whether two names are equal up to ASCII case.
fn same_name(a: &str, b: &str) -> bool
    ensures { result ≡ str_eq_ignore_ascii_case a.now b.now }
{
    a.eq_ignore_ascii_case(b)
}

// Returns the byte of the two digits at a place.
fn hex_byte(bytes: &[u8], at: usize) -> u8
    requires { HasHexDigits bytes.now at }
    ensures { result ≡ hex_byte bytes.now at }
{
    16 * hex_digit(bytes[at]) + hex_digit(bytes[at + 1])
}

// Returns the value of a hexadecimal digit.
fn hex_digit(byte: u8) -> u8
    requires { is_ascii_hexdigit byte ≡ true }
    ensures value { result ≡ digit_value byte }
    ensures bound { result < 16 }
{
    match byte {
        b'0'..=b'9' => byte - b'0',
        b'a'..=b'f' => byte - b'a' + 10,
        _ => byte - b'A' + 10,
    }
}
