//! The errors of calls, and their codes for C.
ghost use Rattle.std.specs.Prelude.{◌≡◌, ◌<◌};
ghost use Rattle.ptree_c.specs.Refusals.{refusal_number, refusal_place};
ghost use Rattle.ptree_c.specs.declared.refusal.Refusal.TheVariants.{Memory};

use crate::room::fill;
use std::alloc::{AllocError, AllocFailed};

/// An error of a call.
#[derive(Clone, Copy)]
pub enum Refusal {
    /// Memory ran out.
    Memory,

    /// A text is not UTF-8: that of the item at this place, counted from 0.
    Utf8(usize),

    /// The item at this place, counted from 0, has a level that no item can have there.
    Level(usize),

    /// Unknown preset.
    Preset,

    /// Drawings with the pieces of the configuration cannot be read back.
    Pieces,

    /// This line, counted from 1, cannot continue the drawing.
    Line(usize),

    /// The text is incomplete.
    Incomplete,

    /// The document is invalid.
    Syntax,

    /// The document has a float.
    Float,

    /// The document has a date or a time.
    Date,

    /// The text of the item at this place, counted from 0, ends before it begins, or beyond the
    /// texts.
    End(usize),

    /// Unknown format.
    Format,

    /// A text of the configuration is not UTF-8, ends before it begins, or lies beyond its texts.
    Part,

    /// Unknown kind of colour.
    Color,

    /// Invalid configuration: the file's syntax in this line, counted from 1, or for 0 a value.
    Fault(usize),

    /// An end of the edge at this place, counted from 0, is not a node.
    Edge(usize),

    /// Unknown value of `styled`.
    Styled,
}

impl From<AllocError> for Refusal {
    ghost from_gives = { λ _ e. e ≡ Memory };

    fn from(_e: AllocError) -> Refusal {
        Refusal::Memory
    }
}

impl<T: Drop> From<AllocFailed<T>> for Refusal {
    ghost from_gives = { λ _ e. e ≡ Memory };

    fn from(_e: AllocFailed<T>) -> Refusal {
        Refusal::Memory
    }
}

impl Refusal {
    /// The error code for C. It is never 0, which says that the call succeeded.
    pub fn number(self) -> u32
        ensures number { result ≡ refusal_number self }
        ensures not_done { 0 < result }
    {
        match self {
            Refusal::Memory => 1,
            Refusal::Utf8(_) => 2,
            Refusal::Level(_) => 3,
            Refusal::Preset => 4,
            Refusal::Pieces => 5,
            Refusal::Line(_) => 6,
            Refusal::Incomplete => 7,
            Refusal::Syntax => 8,
            Refusal::Float => 9,
            Refusal::Date => 10,
            Refusal::End(_) => 11,
            Refusal::Format => 12,
            Refusal::Part => 13,
            Refusal::Color => 14,
            Refusal::Fault(_) => 15,
            Refusal::Edge(_) => 16,
            Refusal::Styled => 17,
        }
    }

    /// The place of what is wrong: an item's, or a line's; otherwise 0.
    pub fn place(self) -> usize
        ensures { result ≡ refusal_place self }
    {
        match self {
            Refusal::Utf8(place)
            | Refusal::Level(place)
            | Refusal::Line(place)
            | Refusal::End(place)
            | Refusal::Fault(place)
            | Refusal::Edge(place) => place,
            _ => 0,
        }
    }
}

// Returns the text of an error code.
fn text_of_number(number: u32) -> &'static str {
    match number {
        0 => "done",
        1 => "out of memory",
        2 => "a text is not UTF-8",
        3 => "no item can have that level there",
        4 => "unknown preset",
        5 => "drawings with these pieces cannot be read back",
        6 => "that line cannot continue the drawing",
        7 => "the text is incomplete",
        8 => "the document is invalid",
        9 => "the document has a float",
        10 => "the document has a date or a time",
        11 => "the text of an item ends before it begins, or beyond the texts",
        12 => "unknown format",
        13 => "a text of the configuration is not UTF-8, or ends beyond its texts",
        14 => "unknown kind of colour",
        15 => "invalid configuration file or variable",
        16 => "an end of an edge is not a node",
        17 => "unknown value of `styled`",
        _ => "unknown error code",
    }
}

/// Writes the text of an error code to `out`, as far as there is room, and returns its length.
#[unsafe(no_mangle)]
pub extern "C" fn ptree_refusal_text(number: u32, out: &mut [u8]) -> usize {
    let text = text_of_number(number);
    fill(out, text.as_bytes());
    text.len()
}
