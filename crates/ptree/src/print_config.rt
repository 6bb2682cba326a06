//! How trees are drawn: characters, the configuration, and its sources.
ghost use Rattle.std.specs.Prelude.{◌≡◌, IfOk, true, string_bytes};
ghost use Rattle.ptree.specs.Config.{IsDefault, is_styled, config_of, default_config};
ghost use Rattle.ptree.specs.Loading.{SayNothing, effective_config};
ghost use Rattle.ptree.specs.Style.{style_of, plain_style, painted_text};
ghost use Rattle.ptree.specs.declared.print_config.OutputKind.{OutputKind};
ghost use Rattle.ptree.specs.declared.print_config.PrintConfig.{PrintConfig};

mod characters;
mod fields;
mod file;
mod given;
mod lent;
mod loader;
mod open;
mod parse;

use crate::style::Style;
pub use characters::{
    ASCII_CHARS_PLUS, ASCII_CHARS_TICK, CharsError, IndentChars, StaticIndentChars, UTF_CHARS,
    UTF_CHARS_BOLD, UTF_CHARS_DASHED, UTF_CHARS_DOUBLE,
};
pub use fields::{FIELDS, Field, Part, StyleField};
pub use file::syntax_line;
pub use given::last_value;
pub use loader::{Fault, faults, first_fault, load};
pub use parse::Spelling;
use std::alloc::{AllocError, Global};

/// When output is styled.
#[derive(Debug, Clone, Copy)]
pub enum StyleWhen {
    /// No output is styled.
    Never,

    /// All output is styled.
    Always,

    /// Standard output is styled if it is a terminal; nothing else is.
    Tty,
}

// The defaults of [`PrintConfig`].
pub(crate) const DEFAULT_INDENT: usize = 3;

pub(crate) const DEFAULT_PADDING: usize = 1;

pub(crate) const DEFAULT_MARKER: &str = ": ";

/// How a tree is drawn.
#[derive(Debug, Drop)]
pub struct PrintConfig {
    /// The greatest level that is drawn; the root has level 0. The default is 4294967295, the
    /// greatest `u32`.
    pub depth: u32,

    /// The width of a piece in characters, including the padding. The default is 3.
    pub indent: usize,

    /// How many `empty` characters end a piece, before the item's text. The default is 1.
    pub padding: usize,

    /// When output is styled. The default is [`StyleWhen::Tty`].
    pub styled: StyleWhen,

    /// The characters that branches are drawn with. The default is [`UTF_CHARS`].
    pub characters: IndentChars,

    /// The style of branches. The default is dimmed.
    pub branch: Style,

    /// The style of items' texts. The default is plain.
    pub leaf: Style,

    /// The marker before each further line of an item's text, after the pieces. The default is a
    /// colon and a space.
    pub continued: String,
}

/// The kind of a writer. Standard output is a kind of its own, since one can ask whether it is a
/// terminal.
#[derive(Debug, Clone, Copy)]
pub enum OutputKind {
    /// What the program writes to its user.
    Stdout,

    /// Anything else, such as a file or a text.
    Unknown,
}

impl PrintConfig {
    /// Returns the configuration of the sources, as [`load`] does, or the complete default if there
    /// is a fault in them.
    ///
    /// # Errors
    ///
    /// Memory ran out. The default is not used then.
    #[tactic(auto, using(crate::proofs::Config::NothingSet::nothing_said))]
    pub fn from_env(alloc: Global, sources: &Sources) -> Result<PrintConfig, AllocError>
        ensures value { IfOk result (λ config. config_of config ≡ effective_config sources.now) }
        // Without a file, and without a variable of any field, the sources mean the default.
        ensures nothing { SayNothing sources.now → effective_config sources.now ≡ default_config }
    {
        match load(alloc, sources)? {
            Some(config) => Ok(config),
            None => Ok(PrintConfig::default(alloc)?),
        }
    }

    /// Returns the default configuration.
    ///
    /// # Errors
    ///
    /// Memory ran out.
    pub fn default(alloc: Global) -> Result<PrintConfig, AllocError>
        ensures fields { IfOk result IsDefault }
        ensures value { IfOk result (λ config. config_of config ≡ default_config) }
    {
        Ok(PrintConfig {
            depth: u32::MAX,
            indent: DEFAULT_INDENT,
            padding: DEFAULT_PADDING,
            styled: StyleWhen::Tty,
            continued: String::from_str(alloc, DEFAULT_MARKER)?,
            characters: IndentChars::from_static(alloc, UTF_CHARS)?,
            branch: dimmed_style(),
            leaf: Style::default(),
        })
    }

    /// Whether output of a kind is styled. `terminal` says whether standard output is a terminal.
    pub fn should_style_output(&self, output_kind: OutputKind, terminal: bool) -> bool
        ensures { result ≡ is_styled self.now.styled output_kind terminal }
    {
        match self.styled {
            StyleWhen::Never => false,
            StyleWhen::Always => true,
            StyleWhen::Tty => terminal && matches!(output_kind, OutputKind::Stdout),
        }
    }

    /// Returns the text painted in the style of branches.
    ///
    /// # Errors
    ///
    /// Memory ran out.
    pub fn paint_branch(&self, alloc: Global, input: &str) -> Result<String, AllocError>
        ensures { IfOk result (λ text.
            string_bytes text ≡ painted_text (style_of self.now.branch) input.now) }
    {
        self.branch.paint(alloc, input)
    }

    /// Returns the text painted in the style of leaves.
    ///
    /// # Errors
    ///
    /// Memory ran out.
    pub fn paint_leaf(&self, alloc: Global, input: &str) -> Result<String, AllocError>
        ensures { IfOk result (λ text.
            string_bytes text ≡ painted_text (style_of self.now.leaf) input.now) }
    {
        self.leaf.paint(alloc, input)
    }

    /// Returns a configuration equal to this one.
    ///
    /// # Errors
    ///
    /// Memory ran out.
    pub fn clone(&self) -> Result<PrintConfig, AllocError>
        ensures { IfOk result (λ config. config_of config ≡ config_of self.now) }
    {
        Ok(PrintConfig {
            depth: self.depth,
            indent: self.indent,
            padding: self.padding,
            styled: self.styled,
            continued: self.continued.clone()?,
            characters: self.characters.clone()?,
            branch: self.branch.clone()?,
            leaf: self.leaf.clone()?,
        })
    }
}

// Returns the plain style with dimmed text.
fn dimmed_style() -> Style
    ensures { result ≡ record plain_style { dimmed = true } }
{
    let mut style = Style::default();
    style.dimmed = true;
    style
}

/// The configuration file, as the caller found it.
#[derive(Debug, Drop)]
pub enum FileSource {
    /// There is no file.
    Absent,

    /// There is a file, but it could not be read as UTF-8.
    Unreadable,

    /// The text of a TOML file.
    Toml(String),

    /// The text of a JSON file.
    Json(String),
}

/// The sources of a configuration: a file, and environment variables as pairs of name and value.
#[derive(Debug, Drop)]
pub struct Sources {
    /// The file.
    pub file: FileSource,

    /// The variables, in order. If a name occurs several times, its last value counts.
    pub variables: Vec<(String, String)>,
}
