//! What is wrong with the words of a call.
ghost use Rattle.std.specs.Prelude.{IfOk};
ghost use Rattle.trees.specs.Reading.{IsUsage};

use crate::failure::Failure;
use crate::names::{COMMANDS, CommandName, OPTIONS, Opt};
use crate::pieces::ALL;
use crate::suggest::Nearest;
use std::alloc::{AllocError, AllocFailed, Global};
use std::fmt;

const ONE_LINE: &str = " needs one line that begins with no space or tab";

/// What is wrong with the words of a call.
#[derive(Clone, Copy)]
pub enum Usage<'a> {
    /// A word is not UTF-8.
    NotUtf8,

    /// There is no word.
    NoCommand,

    /// No command has this name.
    Command(&'a str),

    /// The command has no such option.
    Option(CommandName, &'a str),

    /// A value of this option is missing.
    NoValue(Opt),

    /// This option takes no value.
    Value(&'a str),

    /// This is no depth.
    Depth(&'a str),

    /// This does not say when a drawing is coloured.
    Color(&'a str),

    /// No pieces have this name.
    Pieces(&'a str),

    /// Drawings with the pieces of the settings, or of `--as`, cannot be read back.
    Unreadable,

    /// A level is indented by something else.
    Unit,

    /// A text is no bullet.
    Bullet,

    /// A text cannot be the root of an outline.
    Label,

    /// Standard input is named twice.
    InputTwice,

    /// `config` is given a file.
    ConfigFile,

    /// `diff` is not given two files.
    TwoFiles,

    /// A command over one file is given several.
    OneFile,

    /// Memory ran out.
    Memory,
}

impl<'a> From<AllocError> for Usage<'a> {
    fn from(_e: AllocError) -> Usage<'a> {
        Usage::Memory
    }
}

impl<'a, T: Drop> From<AllocFailed<T>> for Usage<'a> {
    fn from(_e: AllocFailed<T>) -> Usage<'a> {
        Usage::Memory
    }
}

impl<'a> fmt::Display for Usage<'a> {
    fn fmt<W: fmt::Write>(&self, f: &mut fmt::Formatter<W>) -> fmt::Result {
        let (before, word, after) = self.parts();
        write!(f, "{before}{word}{after}")
    }
}

impl<'a> Usage<'a> {
    // Returns what is said: a word, and what stands before it and behind it.
    fn parts(self) -> (&'a str, &'a str, &'a str) {
        match self {
            Usage::NotUtf8 => ("an argument is not UTF-8", "", ""),
            Usage::NoCommand => ("missing command; see trees --help", "", ""),
            Usage::Command(word) => ("unknown command ", word, ""),
            Usage::Option(command, word) => (command.word(), " has no option ", word),
            Usage::NoValue(option) => ("", option.word(), " needs a value"),
            Usage::Value(word) => ("", word, " takes no value"),
            Usage::Depth(word) => ("--depth needs a number up to 4294967295, not ", word, ""),
            Usage::Color(word) => ("--color needs auto, always or never, not ", word, ""),
            Usage::Pieces(name) => ("unknown pieces ", name, ""),
            Usage::Unreadable => ("drawings with these pieces cannot be read back", "", ""),
            Usage::Unit => ("--unit needs a number from 1 to 99, or tab", "", ""),
            Usage::Bullet => ("", Opt::Bullet.word(), ONE_LINE),
            Usage::Label => ("", Opt::Label.word(), ONE_LINE),
            Usage::InputTwice => ("standard input can be read only once", "", ""),
            Usage::ConfigFile => ("config takes no file", "", ""),
            Usage::TwoFiles => ("diff needs two files", "", ""),
            Usage::OneFile => ("more than one file", "", ""),
            Usage::Memory => ("out of memory", "", ""),
        }
    }

    /// Returns the failure that says this. Behind a wrong name stands the one that may be meant.
    ///
    /// # Errors
    ///
    /// Memory ran out.
    pub fn failure(self, alloc: Global) -> Result<Failure, AllocError>
        ensures { IfOk result IsUsage }
    {
        let mut text = format!(in alloc; "{self}")?;
        match self {
            Usage::Command(word) | Usage::Option(_, word) | Usage::Pieces(word) => {
                self.push_hint(&mut text, word)?;
                Ok(Failure::Usage(text))
            }
            Usage::Memory => Ok(Failure::Memory),
            _ => Ok(Failure::Usage(text)),
        }
    }

    // Adds the right name for a wrong one, or else the page that has them.
    fn push_hint(self, text: &mut String, wrong: &str) -> Result<(), AllocError> {
        match (self.nearest(wrong), self) {
            (Some(name), _) => write!(text, "; did you mean {name}?"),
            (None, Usage::Option(command, _)) => {
                write!(text, "; see trees {} --help", command.word())
            }
            (None, _) => text.push_str("; see trees --help"),
        }
    }

    // Returns the nearest name that would be right in the place of a wrong one.
    fn nearest(self, wrong: &str) -> Option<&'static str> {
        let mut nearest = Nearest::to(wrong);
        match self {
            Usage::Command(_) => {
                for command in COMMANDS {
                    nearest.try_word(command.word());
                }
            }
            Usage::Option(command, _) => try_options(&mut nearest, command),
            _ => {
                for pieces in ALL {
                    nearest.try_word(pieces.name());
                }
            }
        }
        nearest.word
    }
}

// Tries the options that a command takes.
fn try_options(nearest: &mut Nearest<'_, 'static>, command: CommandName) {
    for option in OPTIONS {
        if command.takes(option) {
            nearest.try_word(option.word());
        }
    }
}
