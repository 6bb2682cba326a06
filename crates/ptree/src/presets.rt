//! Configurations that draw as other programs do.
ghost use Rattle.std.specs.Prelude.{◌≡◌, IfOk};
ghost use Rattle.ptree.specs.Characters.{static_characters_of};
ghost use Rattle.ptree.specs.Config.{config_of};
ghost use Rattle.ptree.specs.Preset.{drawn_with, preset_of};
ghost use Rattle.ptree.specs.Readable.{HasReadablePieces};

use crate::print_config::{
    ASCII_CHARS_TICK, IndentChars, PrintConfig, StaticIndentChars, UTF_CHARS,
};
use std::alloc::{AllocError, Global};

/// A program that draws trees.
#[derive(Debug, Clone, Copy)]
pub enum Preset {
    /// `tree --noreport`, which puts two no-break spaces and a space after its bars.
    Tree,

    /// `tree --noreport --charset=ascii`.
    TreeAscii,

    /// `cargo tree --no-dedupe`.
    CargoTree,

    /// `cargo tree --no-dedupe --charset ascii`.
    CargoTreeAscii,

    /// `findmnt -n -o TARGET`.
    Findmnt,

    /// `findmnt -n -o TARGET --ascii`.
    FindmntAscii,

    /// `explain query plan` of `sqlite3`.
    Sqlite,

    /// `mvn dependency:tree -Dtokens=extended`.
    Maven,

    /// `clang -Xclang -ast-dump`.
    Clang,

    /// `ps --forest -o args=`, which draws the last child like the others.
    Ps,
}

const TREE_CHARS: StaticIndentChars = StaticIndentChars {
    down_and_right: "├── ",
    down: "│\u{a0}\u{a0} ",
    turn_right: "└── ",
    right: "",
    empty: "    ",
};

const PS_CHARS: StaticIndentChars = StaticIndentChars {
    down_and_right: " \\_ ",
    down: " |  ",
    turn_right: " \\_ ",
    right: "",
    empty: "    ",
};

// The settings of a program's pieces.
#[derive(Drop)]
struct PieceSettings {
    characters: &'static StaticIndentChars,
    indent: usize,
    padding: usize,
}

impl PieceSettings {
    fn new(characters: &'static StaticIndentChars, indent: usize, padding: usize) -> PieceSettings
        ensures characters { result.characters.now ≡ characters.now }
        ensures indent { result.indent ≡ indent }
        ensures padding { result.padding ≡ padding }
    {
        PieceSettings {
            characters,
            indent,
            padding,
        }
    }
}

impl Preset {
    // Returns the settings of the program's pieces.
    fn pieces(self) -> PieceSettings
        ensures { drawn_with (static_characters_of result.characters.now) result.indent
            result.padding ≡ preset_of self }
    {
        match self {
            Preset::Tree => PieceSettings::new(&TREE_CHARS, 0, 0),
            Preset::Ps => PieceSettings::new(&PS_CHARS, 0, 0),
            Preset::CargoTree => PieceSettings::new(&UTF_CHARS, 4, 1),
            Preset::TreeAscii | Preset::CargoTreeAscii => PieceSettings::new(
                &ASCII_CHARS_TICK,
                4,
                1,
            ),
            Preset::Findmnt => PieceSettings::new(&UTF_CHARS, 2, 0),
            Preset::FindmntAscii | Preset::Clang => PieceSettings::new(&ASCII_CHARS_TICK, 2, 0),
            Preset::Sqlite => PieceSettings::new(&ASCII_CHARS_TICK, 3, 0),
            Preset::Maven => PieceSettings::new(&UTF_CHARS, 3, 1),
        }
    }

    /// Returns the default configuration with the program's characters, indent and padding. Its
    /// pieces are readable, so you can pass it to [`read_tree`](crate::read::read_tree).
    ///
    /// # Errors
    ///
    /// Memory ran out.
    pub fn config(self, alloc: Global) -> Result<PrintConfig, AllocError>
        ensures value { IfOk result (λ config. config_of config ≡ preset_of self) }
        ensures readable { IfOk result HasReadablePieces }
    {
        let pieces = self.pieces();
        let characters = IndentChars::from_static(alloc, *pieces.characters)?;
        let mut config = PrintConfig::default(alloc)?;
        config.characters = characters;
        config.indent = pieces.indent;
        config.padding = pieces.padding;
        Ok(config)
    }
}
