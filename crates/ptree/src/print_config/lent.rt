//! The characters that sources lend.
ghost use Rattle.std.specs.Prelude.{◌≡◌, option_map};
ghost use Rattle.ptree.specs.Characters.{static_characters_of};
ghost use Rattle.ptree.specs.File.{set_node, characters_in, text_at};
ghost use Rattle.ptree.specs.Lent.{node_of, lent_characters_of};

use crate::parsed::ParsedPart;
use crate::print_config::parse::{Spelling, parse_set};
use crate::print_config::{StaticIndentChars, UTF_CHARS};

// Characters that sources lend.
#[derive(Clone, Copy)]
pub(crate) struct LentChars<'a> {
    pub(crate) down_and_right: &'a str,
    pub(crate) down: &'a str,
    pub(crate) turn_right: &'a str,
    pub(crate) right: &'a str,
    pub(crate) empty: &'a str,
}

impl<'a> LentChars<'a> {
    // Returns the characters of a shipped set.
    pub(crate) fn of(set: &StaticIndentChars) -> LentChars<'a>
        ensures { lent_characters_of result ≡ static_characters_of set.now }
    {
        LentChars {
            down_and_right: set.down_and_right,
            down: set.down,
            turn_right: set.turn_right,
            right: set.right,
            empty: set.empty,
        }
    }
}

// Returns the set that a text names, or the characters in a table.
pub(crate) fn set_node<'a>(value: ParsedPart<'a>) -> Option<LentChars<'a>>
    ensures { option_map lent_characters_of result ≡ set_node (node_of value.entry) }
{
    if let Some(text) = value.as_text() {
        if let Some(set) = parse_set(Spelling::Exact, text) {
            return Some(LentChars::of(set));
        }
    }
    if value.is_table() {
        Some(characters_in(value))
    } else {
        None
    }
}

// Returns the characters in a table, with those of the regular set for missing ones.
fn characters_in<'a>(table: ParsedPart<'a>) -> LentChars<'a>
    ensures { lent_characters_of result ≡ characters_in (node_of table.entry) }
{
    let regular = &UTF_CHARS;
    LentChars {
        down_and_right: text_at("down_and_right", table, regular.down_and_right),
        down: text_at("down", table, regular.down),
        turn_right: text_at("turn_right", table, regular.turn_right),
        right: text_at("right", table, regular.right),
        empty: text_at("empty", table, regular.empty),
    }
}

// Returns the text at a key, or else `other`.
fn text_at<'a>(key: &str, table: ParsedPart<'a>, other: &'static str) -> &'a str
    ensures { result.now ≡ text_at key.now (node_of table.entry) other.now }
{
    match table.get(key) {
        Some(value) => value.as_text().unwrap_or(other),
        None => other,
    }
}
