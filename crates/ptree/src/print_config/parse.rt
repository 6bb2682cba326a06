//! Reads the texts of sources: keywords, numbers and colours.
ghost use Rattle.std.specs.Prelude.{◌≡◌, option_map, option_copied, IfOk};
ghost use Rattle.std.specs.Str.{str_eq_ignore_ascii_case, all_ascii_digits};
ghost use Rattle.ptree.specs.Characters.{static_characters_of, is_spelled, parse_set};
ghost use Rattle.ptree.specs.Color.{color_of};
ghost use Rattle.ptree.specs.Parse.{parse_when, parse_flag, parse_number, parse_color};

use crate::print_config::{
    ASCII_CHARS_PLUS, ASCII_CHARS_TICK, StaticIndentChars, StyleWhen, UTF_CHARS, UTF_CHARS_BOLD,
    UTF_CHARS_DASHED, UTF_CHARS_DOUBLE,
};
use crate::style::Color;
use std::alloc::{AllocError, Global};

/// How closely a keyword or a name must be spelled.
#[derive(Debug, Clone, Copy, PartialEq, Eq)]
pub enum Spelling {
    /// Exactly as it is.
    Exact,

    /// In any ASCII case.
    AnyCase,
}

impl Spelling {
    // Whether the text is this keyword.
    pub(crate) fn is(self, text: &str, keyword: &str) -> bool
        ensures { result ≡ is_spelled self text.now keyword.now }
    {
        match self {
            Spelling::Exact => text == keyword,
            Spelling::AnyCase => is_keyword(text, keyword),
        }
    }
}

// Returns the shipped set of a name.
pub(crate) fn parse_set(spelling: Spelling, text: &str) -> Option<&'static StaticIndentChars>
    ensures { option_map static_characters_of (option_copied result)
        ≡ parse_set spelling text.now }
{
    if spelling.is(text, "utf") {
        Some(&UTF_CHARS)
    } else if spelling.is(text, "ascii") || spelling.is(text, "ascii-tick") {
        Some(&ASCII_CHARS_TICK)
    } else if spelling.is(text, "ascii-plus") {
        Some(&ASCII_CHARS_PLUS)
    } else if spelling.is(text, "utf-bold") {
        Some(&UTF_CHARS_BOLD)
    } else if spelling.is(text, "utf-dashed") {
        Some(&UTF_CHARS_DASHED)
    } else if spelling.is(text, "utf-double") {
        Some(&UTF_CHARS_DOUBLE)
    } else {
        None
    }
}

// Returns when to style, by its keyword.
pub(crate) fn parse_when(spelling: Spelling, text: &str) -> Option<StyleWhen>
    ensures { result ≡ parse_when spelling text.now }
{
    if spelling.is(text, "never") {
        Some(StyleWhen::Never)
    } else if spelling.is(text, "always") {
        Some(StyleWhen::Always)
    } else if spelling.is(text, "tty") {
        Some(StyleWhen::Tty)
    } else {
        None
    }
}

// Returns true or false, by a keyword in any ASCII case.
pub(crate) fn parse_flag(text: &str) -> Option<bool>
    ensures { result ≡ parse_flag text.now }
{
    if is_keyword(text, "1")
        || is_keyword(text, "true")
        || is_keyword(text, "on")
        || is_keyword(text, "yes")
    {
        Some(true)
    } else if is_keyword(text, "0")
        || is_keyword(text, "false")
        || is_keyword(text, "off")
        || is_keyword(text, "no")
    {
        Some(false)
    } else {
        None
    }
}

// Whether the text is this keyword, in any ASCII case.
pub(crate) fn is_keyword(text: &str, keyword: &str) -> bool
    ensures { result ≡ str_eq_ignore_ascii_case text.now keyword.now }
{
    text.eq_ignore_ascii_case(keyword)
}

// Returns the number of one or more ASCII digits, if it is at most `greatest`.
pub(crate) fn parse_number(greatest: u64, text: &str) -> Option<u64>
    ensures { result ≡ parse_number greatest text.now }
{
    if text.len() == 0 || !is_all_digits(text) {
        return None;
    }
    match text.parse::<u64>() {
        Ok(n) => if n <= greatest { Some(n) } else { None },
        Err(_) => None,
    }
}

// Whether all bytes are ASCII digits.
fn is_all_digits(text: &str) -> bool
    ensures { result ≡ all_ascii_digits text.now }
{
    text.as_bytes().iter().all(|b| b.is_ascii_digit())
}

// Returns the colour of a variable: a number of one to three digits, or else a name.
pub(crate) fn parse_color(alloc: Global, text: &str) -> Result<Color, AllocError>
    ensures { IfOk result (λ color. color_of color ≡ parse_color text.now) }
{
    if text.len() <= 3 {
        if let Some(n) = parse_number(255, text) {
            return Ok(Color::Fixed(n as u8));
        }
    }
    let mut name = String::from_str(alloc, text)?;
    name.make_ascii_lowercase();
    Ok(Color::Named(name))
}
