//! The characters that branches are drawn with: the shipped sets, and others.
ghost use Rattle.std.specs.Prelude.{◌≡◌, ◌↔◌, IfOk, IsErrOf, Some, None};
ghost use Rattle.ptree.specs.Characters.{characters_from, characters_of, static_characters_of, set_named};
ghost use Rattle.ptree.specs.declared.print_config.characters.CharsError.{CharsError};
ghost use Rattle.ptree.specs.declared.print_config.characters.IndentChars.{IndentChars};
ghost use Rattle.ptree.specs.declared.print_config.characters.StaticIndentChars.{StaticIndentChars};

use crate::print_config::parse::{Spelling, parse_set};
use std::alloc::{AllocError, Global};
use std::error::Error;
use std::fmt;

/// The characters that branches are drawn with. Each may be any text, even an empty one.
#[derive(Debug, Drop)]
pub struct IndentChars {
    /// Points down and right (`├`).
    pub down_and_right: String,

    /// Points straight down (`│`).
    pub down: String,

    /// Turns from down to right (`└`).
    pub turn_right: String,

    /// Points right (`─`).
    pub right: String,

    /// A blank (` `).
    pub empty: String,
}

impl IndentChars {
    /// Returns the characters of a shipped set, or of one of your own.
    ///
    /// # Errors
    ///
    /// Memory ran out.
    pub fn from_static(alloc: Global, s: StaticIndentChars) -> Result<IndentChars, AllocError>
        ensures { IfOk result (λ c. characters_of c ≡ static_characters_of s) }
    {
        IndentChars::from_texts(
            alloc,
            s.down_and_right,
            s.down,
            s.turn_right,
            s.right,
            s.empty,
        )
    }

    // Makes characters of these texts.
    pub(super) fn from_texts(
        alloc: Global,
        down_and_right: &str,
        down: &str,
        turn_right: &str,
        right: &str,
        empty: &str,
    ) -> Result<IndentChars, AllocError>
        ensures { IfOk result (λ c. characters_of c
            ≡ characters_from down_and_right.now down.now turn_right.now right.now empty.now) }
    {
        Ok(IndentChars {
            down_and_right: String::from_str(alloc, down_and_right)?,
            down: String::from_str(alloc, down)?,
            turn_right: String::from_str(alloc, turn_right)?,
            right: String::from_str(alloc, right)?,
            empty: String::from_str(alloc, empty)?,
        })
    }

    /// Returns characters equal to these.
    ///
    /// # Errors
    ///
    /// Memory ran out.
    pub fn clone(&self) -> Result<IndentChars, AllocError>
        ensures { IfOk result (λ c. characters_of c ≡ characters_of self.now) }
    {
        IndentChars::from_texts(
            *self.down.allocator(),
            self.down_and_right.as_str(),
            self.down.as_str(),
            self.turn_right.as_str(),
            self.right.as_str(),
            self.empty.as_str(),
        )
    }

    /// Returns the shipped set of this name: `utf`, `ascii` or `ascii-tick`, `ascii-plus`,
    /// `utf-bold`, `utf-dashed` or `utf-double`, exactly as spelled.
    ///
    /// # Errors
    ///
    /// `Unknown` for any other name, and `Memory`.
    pub fn from_name(alloc: Global, s: &str) -> Result<IndentChars, CharsError>
        ensures set { IfOk result (λ c. set_named s.now ≡ Some (characters_of c)) }
        ensures unknown { IsErrOf result CharsError.Unknown ↔ (set_named s.now ≡ None) }
    {
        let Some(set) = parse_set(Spelling::Exact, s) else {
            return Err(CharsError::Unknown);
        };
        Ok(IndentChars::from_static(alloc, *set)?)
    }
}

/// Why a name gave no set.
#[derive(Debug, Clone, Copy)]
pub enum CharsError {
    /// No shipped set has that name.
    Unknown,

    /// Memory ran out.
    Memory,
}

impl fmt::Display for CharsError {
    fn fmt<W: fmt::Write>(&self, f: &mut fmt::Formatter<W>) -> fmt::Result {
        f.write_str(match self {
            CharsError::Unknown => "no set of characters has that name",
            CharsError::Memory => "out of memory",
        })
    }
}

impl Error for CharsError {}

/// Characters that need no memory, such as the shipped sets.
#[derive(Debug, Clone, Copy)]
pub struct StaticIndentChars {
    /// Points down and right (`├`).
    pub down_and_right: &'static str,

    /// Points straight down (`│`).
    pub down: &'static str,

    /// Turns from down to right (`└`).
    pub turn_right: &'static str,

    /// Points right (`─`).
    pub right: &'static str,

    /// A blank (` `).
    pub empty: &'static str,
}

/// ASCII characters, with a tick for turning right, as in `tree --charset=ascii`.
pub const ASCII_CHARS_TICK: StaticIndentChars = StaticIndentChars {
    down_and_right: "|",
    down: "|",
    turn_right: "`",
    right: "-",
    empty: " ",
};

/// ASCII characters, with a plus for turning right.
pub const ASCII_CHARS_PLUS: StaticIndentChars = StaticIndentChars {
    down_and_right: "+",
    down: "|",
    turn_right: "+",
    right: "-",
    empty: " ",
};

/// Regular box-drawing characters, as in `tree`. But `tree` puts no-break spaces after its bars, as
/// [`Preset::Tree`](crate::presets::Preset::Tree) does.
pub const UTF_CHARS: StaticIndentChars = StaticIndentChars {
    down_and_right: "├",
    down: "│",
    turn_right: "└",
    right: "─",
    empty: " ",
};

/// Double box-drawing characters.
pub const UTF_CHARS_DOUBLE: StaticIndentChars = StaticIndentChars {
    down_and_right: "╠",
    down: "║",
    turn_right: "╚",
    right: "═",
    empty: " ",
};

/// Heavy box-drawing characters.
pub const UTF_CHARS_BOLD: StaticIndentChars = StaticIndentChars {
    down_and_right: "┣",
    down: "┃",
    turn_right: "┗",
    right: "━",
    empty: " ",
};

/// Dashed box-drawing characters.
pub const UTF_CHARS_DASHED: StaticIndentChars = StaticIndentChars {
    down_and_right: "├",
    down: "┆",
    turn_right: "└",
    right: "╌",
    empty: " ",
};
