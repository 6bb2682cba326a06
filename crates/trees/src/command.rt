//! The commands, with their inputs and the values of their options.
ghost use Rattle.std.specs.Prelude.{◌≡◌};
ghost use Rattle.ptree.specs.declared.print_config.Sources.{Sources};
ghost use Rattle.trees.specs.Asked.{drawing_value, reading_value};

use crate::levels::LEVELS;
use crate::pieces::Pieces;
use crate::screen::Screen;
use crate::source::Source;
use ptree::print_config::StyleWhen;

/// What a call does.
#[derive(Clone, Copy)]
pub enum Command<'a> {
    /// Draws the tree of an input: `json`, `toml`, `paths` and `outline`.
    Draw(&'a Source, Tree<'a>, Drawing),

    /// Draws dependencies.
    Deps(&'a Source, Deps<'a>, Drawing),

    /// Writes a drawing as indented text.
    Indented(&'a Source, Indented<'a>),

    /// Says whether texts are drawings, made with these pieces.
    Check(&'a [Source], Option<Pieces>, Screen),

    /// Draws a drawing with other pieces.
    Convert(&'a Source, Convert<'a>),

    /// Finds the first difference of two drawings.
    Diff(&'a Source, &'a Source, Diff),

    /// Says which settings hold.
    Config,
}

/// A form of texts that are drawn as a tree.
#[derive(Clone, Copy)]
pub enum Tree<'a> {
    Json(Document<'a>),
    Toml(Document<'a>),
    Paths(Paths<'a>),
    Outline(Outline<'a>),
}

/// How a drawing is written, beside the settings.
#[derive(Clone, Copy)]
pub struct Drawing {
    /// The pieces. Without one they are those of the settings.
    pub pieces: Option<Pieces>,

    /// The greatest level that is drawn.
    pub depth: Option<u32>,

    /// When it is coloured. `Tty` leaves it to the screen.
    pub styled: Option<StyleWhen>,

    /// Where it is written to.
    pub screen: Screen,
}

impl Drawing {
    /// Returns how a drawing with these pieces is read: with all its levels, without colours.
    pub fn read_with(pieces: Option<Pieces>) -> Drawing
        ensures { (sources : Sources)
            → drawing_value sources result ≡ reading_value sources pieces }
    {
        Drawing {
            pieces,
            depth: Some(LEVELS),
            styled: Some(StyleWhen::Never),
            screen: Screen {
                is_terminal: false,
                styled: false,
            },
        }
    }
}

/// Options of `json` and `toml`.
#[derive(Clone, Copy)]
pub struct Document<'a> {
    /// The keys of the part that is drawn.
    pub at: Option<&'a str>,

    /// The text of the root.
    pub label: Option<&'a str>,

    /// Whether floats, dates and times are refused.
    pub is_strict: bool,
}

/// Options of `deps`.
#[derive(Clone, Copy)]
pub struct Deps<'a> {
    /// The package at the root.
    pub root: Option<&'a str>,

    /// Whether edges go from a package to those that need it.
    pub is_inverse: bool,

    /// Whether a package's dependencies are drawn wherever it occurs.
    pub walks: bool,
}

/// Options of `paths`.
#[derive(Clone, Copy)]
pub struct Paths<'a> {
    /// Whether each path ends in a zero byte, not in a line feed.
    pub ends_in_zero: bool,

    /// Whether the names in each folder are sorted.
    pub is_sorted: bool,

    /// A text. What contains it is drawn, with the folders above.
    pub keep: Option<&'a str>,

    /// The text of the root.
    pub label: Option<&'a str>,
}

/// Options of `outline`.
#[derive(Clone, Copy)]
pub struct Outline<'a> {
    /// What a level is indented by.
    pub unit: Option<&'a str>,

    /// What stands before the text of each line.
    pub bullet: Option<&'a str>,

    /// The text of a root above all lines.
    pub label: Option<&'a str>,
}

/// Options of `indented`.
#[derive(Clone, Copy)]
pub struct Indented<'a> {
    /// The pieces of the drawing that is read.
    pub pieces: Option<Pieces>,

    /// What a level is indented by.
    pub unit: &'a str,

    /// What stands before the text of each line.
    pub bullet: Option<&'a str>,

    /// Whether it is written to a terminal.
    pub is_terminal: bool,
}

/// Options of `convert`.
#[derive(Clone, Copy)]
pub struct Convert<'a> {
    /// The pieces of the drawing that is read.
    pub pieces: Option<Pieces>,

    /// How the tree is drawn.
    pub drawing: Drawing,

    /// A text. What contains it is drawn, with the items above.
    pub keep: Option<&'a str>,

    /// Whether the children of each item are sorted.
    pub is_sorted: bool,
}

/// Options of `diff`.
#[derive(Clone, Copy)]
pub struct Diff {
    /// Whether both trees are drawn in one, with all differences.
    pub shows_all: bool,

    /// How that is drawn. The drawings that are read have its pieces.
    pub drawing: Drawing,
}
