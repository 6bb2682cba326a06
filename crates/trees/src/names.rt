//! The words that name commands and options, and the pages of help.

use crate::help;

/// A command's name.
#[derive(Clone, Copy, PartialEq, Eq)]
pub enum CommandName {
    /// Draws a JSON document.
    Json,

    /// Draws a TOML document.
    Toml,

    /// Draws dependencies.
    Deps,

    /// Draws paths.
    Paths,

    /// Draws indented text.
    Outline,

    /// Writes a drawing as indented text.
    Indented,

    /// Says whether a text is a drawing.
    Check,

    /// Draws a drawing with other pieces.
    Convert,

    /// Finds the first difference of two drawings.
    Diff,

    /// Says which settings hold.
    Config,
}

/// All commands, in the order of the page of help.
pub const COMMANDS: [CommandName; 10] = [
    CommandName::Json,
    CommandName::Toml,
    CommandName::Deps,
    CommandName::Paths,
    CommandName::Outline,
    CommandName::Indented,
    CommandName::Check,
    CommandName::Convert,
    CommandName::Diff,
    CommandName::Config,
];

impl CommandName {
    /// Returns the command's word.
    pub fn word(self) -> &'static str {
        match self {
            CommandName::Json => "json",
            CommandName::Toml => "toml",
            CommandName::Deps => "deps",
            CommandName::Paths => "paths",
            CommandName::Outline => "outline",
            CommandName::Indented => "indented",
            CommandName::Check => "check",
            CommandName::Convert => "convert",
            CommandName::Diff => "diff",
            CommandName::Config => "config",
        }
    }

    /// Returns the command with this word.
    pub fn named(word: &str) -> Option<CommandName> {
        for command in COMMANDS {
            if command.word() == word {
                return Some(command);
            }
        }
        None
    }

    /// Returns the command that draws a file with such a name. An option is no file.
    pub fn of_file(name: &str) -> Option<CommandName> {
        if name.starts_with('-') {
            None
        } else if name.ends_with(".json") {
            Some(CommandName::Json)
        } else if name.ends_with(".toml") {
            Some(CommandName::Toml)
        } else {
            None
        }
    }

    // Whether the command can write a drawing.
    fn draws(self) -> bool {
        !matches!(
            self,
            CommandName::Indented | CommandName::Check | CommandName::Config
        )
    }

    /// Whether the command has this option.
    pub fn takes(self, option: Opt) -> bool {
        match option {
            Opt::Help => true,
            Opt::As => !matches!(self, CommandName::Config),
            Opt::Color => self.draws(),
            Opt::Depth => self.draws() && !matches!(self, CommandName::Diff),
            Opt::At | Opt::Strict => matches!(self, CommandName::Json | CommandName::Toml),
            Opt::Label => matches!(
                self,
                CommandName::Json | CommandName::Toml | CommandName::Paths | CommandName::Outline
            ),
            Opt::To => matches!(self, CommandName::Convert),
            Opt::Sort | Opt::Keep => matches!(self, CommandName::Convert | CommandName::Paths),
            Opt::Unit | Opt::Bullet => {
                matches!(self, CommandName::Outline | CommandName::Indented)
            }
            Opt::Null => matches!(self, CommandName::Paths),
            Opt::Root | Opt::Inverse | Opt::Walks => matches!(self, CommandName::Deps),
            Opt::All => matches!(self, CommandName::Diff),
        }
    }

    /// Returns the page of help.
    pub fn help(self) -> &'static str {
        match self {
            CommandName::Json => help::JSON,
            CommandName::Toml => help::TOML,
            CommandName::Deps => help::DEPS,
            CommandName::Paths => help::PATHS,
            CommandName::Outline => help::OUTLINE,
            CommandName::Indented => help::INDENTED,
            CommandName::Check => help::CHECK,
            CommandName::Convert => help::CONVERT,
            CommandName::Diff => help::DIFF,
            CommandName::Config => help::CONFIG,
        }
    }
}

/// An option.
#[derive(Clone, Copy, PartialEq, Eq)]
pub enum Opt {
    /// Shows the page of help.
    Help,

    /// The greatest level that is drawn.
    Depth,

    /// The keys that lead to a part of a document.
    At,

    /// Refuses floats and dates.
    Strict,

    /// The text of the root.
    Label,

    /// The pieces of the drawing that is read, or drawn.
    As,

    /// The pieces of the converted drawing.
    To,

    /// Sorts the children of each item.
    Sort,

    /// Keeps the items that contain a text.
    Keep,

    /// What a level is indented by.
    Unit,

    /// What stands before the text of each line of indented text.
    Bullet,

    /// Paths end in a zero byte.
    Null,

    /// The package at the root.
    Root,

    /// Draws who needs a package.
    Inverse,

    /// Draws a package's dependencies wherever it occurs.
    Walks,

    /// Draws both trees with all differences.
    All,

    /// When the drawing is coloured.
    Color,
}

/// All options.
pub const OPTIONS: [Opt; 17] = [
    Opt::Help,
    Opt::Depth,
    Opt::At,
    Opt::Strict,
    Opt::Label,
    Opt::As,
    Opt::To,
    Opt::Sort,
    Opt::Keep,
    Opt::Unit,
    Opt::Bullet,
    Opt::Null,
    Opt::Root,
    Opt::Inverse,
    Opt::Walks,
    Opt::All,
    Opt::Color,
];

impl Opt {
    /// Returns the option's word.
    pub fn word(self) -> &'static str {
        match self {
            Opt::Help => "--help",
            Opt::Depth => "--depth",
            Opt::At => "--at",
            Opt::Strict => "--strict",
            Opt::Label => "--label",
            Opt::As => "--as",
            Opt::To => "--to",
            Opt::Sort => "--sort",
            Opt::Keep => "--keep",
            Opt::Unit => "--unit",
            Opt::Bullet => "--bullet",
            Opt::Null => "--null",
            Opt::Root => "--root",
            Opt::Inverse => "--inverse",
            Opt::Walks => "--walks",
            Opt::All => "--all",
            Opt::Color => "--color",
        }
    }

    /// Returns the option of a word, which may be one of a single letter.
    pub fn named(word: &str) -> Option<Opt> {
        if word == "-h" {
            return Some(Opt::Help);
        }
        if word == "-0" {
            return Some(Opt::Null);
        }
        for option in OPTIONS {
            if option.word() == word {
                return Some(option);
            }
        }
        None
    }

    /// Whether a value follows the option.
    pub fn takes_value(self) -> bool {
        match self {
            Opt::Help
            | Opt::Strict
            | Opt::Sort
            | Opt::Null
            | Opt::Inverse
            | Opt::Walks
            | Opt::All => false,
            Opt::Depth
            | Opt::At
            | Opt::Label
            | Opt::As
            | Opt::To
            | Opt::Keep
            | Opt::Unit
            | Opt::Bullet
            | Opt::Root
            | Opt::Color => true,
        }
    }
}
