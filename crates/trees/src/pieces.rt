//! The pieces that drawings are made with, by name.
ghost use Rattle.std.specs.Prelude.{◌≡◌, ◌≢◌, ◌↔◌, [], All, IsTrue, IfOk, MatchOption};
ghost use Rattle.ptree.specs.Characters.{static_characters_of};
ghost use Rattle.ptree.specs.Config.{config_of};
ghost use Rattle.ptree.specs.Drawing.{written_look};
ghost use Rattle.ptree.specs.ItemReader.{IsCountOfRest};
ghost use Rattle.ptree.specs.Preset.{drawn_with};
ghost use Rattle.ptree.specs.Readable.{HasReadablePieces};
ghost use Rattle.trees.specs.Asked.{pieces_value, with_own};
ghost use Rattle.trees.specs.declared.pieces.Pieces.{Pieces};
ghost use Rattle.trees.specs.Named.{piece_name, program_name, IsNamed, IsReadBy, IsReadWith, IsReadWithNone, IsUnreadBy};

use ptree::presets::Preset;
use ptree::print_config::{
    ASCII_CHARS_PLUS, ASCII_CHARS_TICK, IndentChars, PrintConfig, StaticIndentChars, UTF_CHARS,
    UTF_CHARS_BOLD, UTF_CHARS_DASHED, UTF_CHARS_DOUBLE,
};
use ptree::read::{ItemReader, ReadError, pieces_readable};
use std::alloc::{AllocError, Global};
use std::mem;

/// Pieces that drawings are made with.
#[derive(Clone, Copy)]
pub enum Pieces {
    Utf,
    UtfBold,
    UtfDashed,
    UtfDouble,
    Ascii,
    AsciiPlus,

    /// Those of a program.
    Program(Preset),
}

/// All pieces that have a name: the library's sets of characters, and those of the programs whose
/// drawings it knows.
pub const ALL: [Pieces; 16] = [
    Pieces::Utf,
    Pieces::UtfBold,
    Pieces::UtfDashed,
    Pieces::UtfDouble,
    Pieces::Ascii,
    Pieces::AsciiPlus,
    Pieces::Program(Preset::Tree),
    Pieces::Program(Preset::TreeAscii),
    Pieces::Program(Preset::CargoTree),
    Pieces::Program(Preset::CargoTreeAscii),
    Pieces::Program(Preset::Findmnt),
    Pieces::Program(Preset::FindmntAscii),
    Pieces::Program(Preset::Sqlite),
    Pieces::Program(Preset::Maven),
    Pieces::Program(Preset::Clang),
    Pieces::Program(Preset::Ps),
];

impl Pieces {
    /// Returns the pieces of a name.
    pub fn named(name: &str) -> Option<Pieces>
        ensures { MatchOption result ((p : Pieces) → name.now ≢ piece_name p) (IsNamed name.now) }
    {
        if name == "ascii-tick" {
            return Some(Pieces::Ascii);
        }
        first_named(name, &ALL)
    }

    /// Returns the name.
    pub fn name(self) -> &'static str
        ensures { result.now ≡ piece_name self }
    {
        match self {
            Pieces::Utf => "utf",
            Pieces::UtfBold => "utf-bold",
            Pieces::UtfDashed => "utf-dashed",
            Pieces::UtfDouble => "utf-double",
            Pieces::Ascii => "ascii",
            Pieces::AsciiPlus => "ascii-plus",
            Pieces::Program(program) => program_name(program),
        }
    }

    /// Sets the characters, the indent and the padding of a configuration to these pieces.
    ///
    /// # Errors
    ///
    /// Memory ran out.
    pub fn set(self, alloc: Global, config: &mut PrintConfig) -> Result<(), AllocError>
        ensures { IfOk result (λ _.
            config_of config.new ≡ with_own (pieces_value self) (config_of config.old)) }
    {
        let mut own = self.config(alloc)?;
        mem::swap(&mut config.characters, &mut own.characters);
        config.indent = own.indent;
        config.padding = own.padding;
        Ok(())
    }

    // Returns the default configuration with these pieces.
    fn config(self, alloc: Global) -> Result<PrintConfig, AllocError>
        ensures { IfOk result (λ config. config_of config ≡ pieces_value self) }
    {
        match self {
            Pieces::Utf => with_characters(alloc, UTF_CHARS),
            Pieces::UtfBold => with_characters(alloc, UTF_CHARS_BOLD),
            Pieces::UtfDashed => with_characters(alloc, UTF_CHARS_DASHED),
            Pieces::UtfDouble => with_characters(alloc, UTF_CHARS_DOUBLE),
            Pieces::Ascii => with_characters(alloc, ASCII_CHARS_TICK),
            Pieces::AsciiPlus => with_characters(alloc, ASCII_CHARS_PLUS),
            Pieces::Program(preset) => preset.config(alloc),
        }
    }
}

// Returns the default configuration with other characters.
fn with_characters(alloc: Global, characters: StaticIndentChars) -> Result<PrintConfig, AllocError>
    ensures { IfOk result (λ config.
        config_of config ≡ drawn_with (static_characters_of characters) 3 1) }
{
    let characters = IndentChars::from_static(alloc, characters)?;
    let mut config = PrintConfig::default(alloc)?;
    config.characters = characters;
    Ok(config)
}

// Returns the first of some pieces that has a name.
fn first_named(name: &str, all: &[Pieces]) -> Option<Pieces>
    ensures { MatchOption result (All (λ p. name.now ≢ piece_name p) all.now)
        (λ p. name.now ≡ piece_name p) }
{
    for pieces in all {
        if pieces.name() == name {
            return Some(*pieces);
        }
    }
    None
}

// Returns the name of the pieces of a program.
fn program_name(program: Preset) -> &'static str
    ensures { result.now ≡ program_name program }
{
    match program {
        Preset::Tree => "tree",
        Preset::TreeAscii => "tree-ascii",
        Preset::CargoTree => "cargo-tree",
        Preset::CargoTreeAscii => "cargo-tree-ascii",
        Preset::Findmnt => "findmnt",
        Preset::FindmntAscii => "findmnt-ascii",
        Preset::Sqlite => "sqlite",
        Preset::Maven => "maven",
        Preset::Clang => "clang",
        Preset::Ps => "ps",
    }
}

/// Returns the first pieces with which a text is a drawing, all else being as in a configuration.
/// With the configuration's own it is none.
///
/// # Errors
///
/// Memory ran out.
pub fn reading(
    alloc: Global,
    text: &str,
    config: &PrintConfig,
) -> Result<Option<Pieces>, AllocError>
    requires { IsUnreadBy (config_of config.now) text.now }
    ensures { IfOk result (λ found. MatchOption found
        (IsReadWithNone (config_of config.now) text.now)
        (IsReadWith (config_of config.now) text.now)) }
{
    first_reading(alloc, text, config, &ALL)
}

// Returns the first of some pieces with which a text is a drawing.
fn first_reading(
    alloc: Global,
    text: &str,
    config: &PrintConfig,
    all: &[Pieces],
) -> Result<Option<Pieces>, AllocError>
    requires { IsUnreadBy (config_of config.now) text.now }
    ensures { IfOk result (λ found. MatchOption found
        (All (λ p. IsReadWith (config_of config.now) text.now p → ⊥) all.now)
        (IsReadWith (config_of config.now) text.now)) }
{
    for pieces in all {
        if is_read_with(alloc, text, config, *pieces)? {
            return Ok(Some(*pieces));
        }
    }
    Ok(None)
}

// Whether a text is a drawing with these pieces in place of a configuration's, with which it is none.
fn is_read_with(
    alloc: Global,
    text: &str,
    config: &PrintConfig,
    pieces: Pieces,
) -> Result<bool, AllocError>
    requires { IsUnreadBy (config_of config.now) text.now }
    ensures { IfOk result (λ b. IsTrue b ↔ IsReadWith (config_of config.now) text.now pieces) }
{
    let mut own = config.clone()?;
    pieces.set(alloc, &mut own)?;
    if own == *config {
        return Ok(false);
    }
    let is_drawing = is_read(alloc, text, &own);
    drop(own);
    is_drawing
}

// Whether a text is a drawing by a configuration that can be read.
fn is_read(alloc: Global, text: &str, config: &PrintConfig) -> Result<bool, AllocError>
    ensures { IfOk result (λ b. IsTrue b ↔ IsReadBy (config_of config.now) text.now) }
{
    if !pieces_readable(alloc, config)? {
        return Ok(false);
    }
    match count_items(alloc, text, config) {
        Ok(_) => Ok(true),
        Err(ReadError::Line(_)) => Ok(false),
        Err(ReadError::End) => Ok(false),
        Err(ReadError::Memory) => Err(AllocError),
    }
}

/// Returns the number of the items of a drawing, or why a text is none. It makes no tree.
pub fn count_items(alloc: Global, text: &str, config: &PrintConfig) -> Result<usize, ReadError>
    requires { HasReadablePieces config.now }
    ensures { IsCountOfRest (written_look config.now) config.now.depth text.now [] result }
{
    let mut reader = ItemReader::new(alloc, text, config)?;
    let count = reader.count_rest();
    drop(reader);
    count
}
