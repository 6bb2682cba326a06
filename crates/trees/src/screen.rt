//! What standard output is.
ghost use Rattle.std.specs.Prelude.{◌≡◌, ◌++◌, true, IfOk, OnOk, string_bytes};
ghost use Rattle.std.specs.Str.{NoCharPasses, encode_utf8_all};
ghost use Rattle.ptree.specs.Characters.{characters_of};
ghost use Rattle.ptree.specs.Config.{config_of};
ghost use Rattle.ptree_trees.specs.Escape.{is_hidden};
ghost use Rattle.trees.specs.Asked.{styled_on};
ghost use Rattle.trees.specs.Shown.{shown_char, shown_lines, shown_on, shown_text, shown_characters, shown_config};

use ptree::print_config::{IndentChars, PrintConfig, StyleWhen};
use ptree_trees::escape::{escaped, push_escaped};
use std::alloc::{AllocError, Global};

/// What standard output is.
#[derive(Clone, Copy)]
pub struct Screen {
    /// Whether it is a terminal. What a terminal would act on is escaped there.
    pub is_terminal: bool,

    /// Whether drawings are coloured if no option says it.
    pub styled: bool,
}

impl Screen {
    /// Returns when drawings are coloured, where `Tty` leaves it to the screen.
    pub fn when(self, styled: StyleWhen) -> StyleWhen
        ensures { result ≡ styled_on self styled }
    {
        match styled {
            StyleWhen::Tty if self.styled => StyleWhen::Always,
            StyleWhen::Tty => StyleWhen::Never,
            other => other,
        }
    }

    /// Returns lines as the screen may get them: on a terminal [`shown`].
    ///
    /// # Errors
    ///
    /// Memory ran out.
    pub fn lines(self, alloc: Global, lines: String) -> Result<String, AllocError>
        ensures { IfOk result (λ s.
            string_bytes s ≡ shown_on self.is_terminal (string_bytes lines)) }
    {
        if self.is_terminal {
            return shown(alloc, lines.as_str());
        }
        Ok(lines)
    }
}

/// Returns lines as a terminal may get them: each character is escaped that it would act on, but no
/// line feed. Backslashes stay, since a part of a line may be escaped already.
///
/// # Errors
///
/// Memory ran out.
pub fn shown(alloc: Global, lines: &str) -> Result<String, AllocError>
    ensures { IfOk result (λ s. string_bytes s ≡ shown_lines lines.now) }
{
    let mut shown = String::new(alloc);
    for c in lines.chars() {
        push_shown(&mut shown, c)?;
    }
    Ok(shown)
}

/// Returns a text as it is shown: for a terminal escaped.
///
/// # Errors
///
/// Memory ran out.
pub fn shown_text(alloc: Global, text: &str, is_terminal: bool) -> Result<String, AllocError>
    ensures hidden { IfOk result (λ s.
        is_terminal ≡ true → NoCharPasses is_hidden (string_bytes s)) }
    ensures text { IfOk result (λ s. string_bytes s ≡ shown_text is_terminal text.now) }
{
    if is_terminal {
        escaped(alloc, text)
    } else {
        String::from_str(alloc, text)
    }
}

// Adds what a terminal may get for a character.
fn push_shown(shown: &mut String, c: char) -> Result<(), AllocError>
    ensures { OnOk result
        (string_bytes shown.new ≡ string_bytes shown.old ++ encode_utf8_all (shown_char c)) }
{
    match c {
        '\n' | '\\' => shown.push(c),
        _ => push_escaped(shown, c),
    }
}

/// Makes the characters and the marker of a configuration such as a terminal may get them.
///
/// # Errors
///
/// Memory ran out.
pub fn show_pieces(alloc: Global, config: &mut PrintConfig) -> Result<(), AllocError>
    ensures { IfOk result (λ _. config_of config.new ≡ shown_config true (config_of config.old)) }
{
    show_characters(alloc, &mut config.characters)?;
    show(alloc, &mut config.continued)
}

// Makes characters such as a terminal may get them.
fn show_characters(alloc: Global, characters: &mut IndentChars) -> Result<(), AllocError>
    ensures { IfOk result (λ _.
        characters_of characters.new ≡ shown_characters (characters_of characters.old)) }
{
    show(alloc, &mut characters.down_and_right)?;
    show(alloc, &mut characters.down)?;
    show(alloc, &mut characters.turn_right)?;
    show(alloc, &mut characters.right)?;
    show(alloc, &mut characters.empty)
}

// Makes a text such as a terminal may get it.
fn show(alloc: Global, text: &mut String) -> Result<(), AllocError>
    ensures { IfOk result (λ _. string_bytes text.new ≡ shown_lines (string_bytes text.old)) }
{
    *text = shown(alloc, text.as_str())?;
    Ok(())
}
