//! What `==` compares of a configuration, of its parts, and of what is used with one.
ghost use Rattle.std.proofs.Common.{rules};
ghost use Rattle.std.specs.Cmp.{partial_equiv_from_equiv};
ghost use Rattle.std.specs.Cmp.Rules.{comparing};
ghost use Rattle.std.specs.Ordering.{on};
ghost use Rattle.std.specs.Prelude.{◌≡◌, ◌↔◌, IsTrue};
ghost use denote.Enum.Bare.{sameb};
ghost use Rattle.ptree.specs.Characters.{characters_of, static_characters_of};
ghost use Rattle.ptree.specs.Color.{color_of};
ghost use Rattle.ptree.specs.Config.{config_of};
ghost use Rattle.ptree.specs.Equality.{same_characters, same_color, same_config, same_style};
ghost use Rattle.ptree.specs.Equivalence.{characters_equivalence, color_equivalence, config_equivalence, style_equivalence};
ghost use Rattle.ptree.specs.Style.{style_of};
ghost use Rattle.ptree.specs.contracts.print_config.OutputKind.{the_type as output_kind};
ghost use Rattle.ptree.specs.contracts.print_config.StyleWhen.{the_type as style_when};
ghost use Rattle.ptree.specs.contracts.print_config.characters.CharsError.{the_type as chars_error};

use crate::print_config::{
    CharsError, IndentChars, OutputKind, PrintConfig, StaticIndentChars, StyleWhen,
};
use crate::style::{Color, Style};

impl PartialEq for StyleWhen {
    ghost eq = { sameb style_when };

    ghost laws = { Prim.search (comparing, rules) };

    fn eq(&self, other: &StyleWhen) -> bool
        ensures equality { IsTrue result ↔ (self.now ≡ other.now) }
    {
        *self as u8 == *other as u8
    }
}

impl Eq for StyleWhen {
    ghost laws = { Prim.search (comparing, rules) };
}

impl PartialEq for OutputKind {
    ghost eq = { sameb output_kind };

    ghost laws = { Prim.search (comparing, rules) };

    fn eq(&self, other: &OutputKind) -> bool
        ensures equality { IsTrue result ↔ (self.now ≡ other.now) }
    {
        *self as u8 == *other as u8
    }
}

impl Eq for OutputKind {
    ghost laws = { Prim.search (comparing, rules) };
}

impl PartialEq for CharsError {
    ghost eq = { sameb chars_error };

    ghost laws = { Prim.search (comparing, rules) };

    fn eq(&self, other: &CharsError) -> bool
        ensures equality { IsTrue result ↔ (self.now ≡ other.now) }
    {
        *self as u8 == *other as u8
    }
}

impl Eq for CharsError {
    ghost laws = { Prim.search (comparing, rules) };
}

impl PartialEq for PrintConfig {
    ghost eq = { same_config };

    ghost laws = { partial_equiv_from_equiv config_equivalence };

    #[tactic(auto, using(crate::specs::Equivalence::config_decided))]
    fn eq(&self, other: &PrintConfig) -> bool
        ensures value { result ≡ same_config self.now other.now }
        ensures equality { IsTrue result ↔ (config_of self.now ≡ config_of other.now) }
    {
        (
            &self.depth,
            &self.indent,
            &self.padding,
            &self.styled,
            &self.characters,
            &self.branch,
            &self.leaf,
            &self.continued,
        ) == (
            &other.depth,
            &other.indent,
            &other.padding,
            &other.styled,
            &other.characters,
            &other.branch,
            &other.leaf,
            &other.continued,
        )
    }
}

impl PartialEq for IndentChars {
    ghost eq = { on characters_of same_characters };

    ghost laws = { partial_equiv_from_equiv (characters_equivalence characters_of) };

    fn eq(&self, other: &IndentChars) -> bool
        ensures value { result ≡ on characters_of same_characters self.now other.now }
        ensures equality { IsTrue result ↔ (characters_of self.now ≡ characters_of other.now) }
    {
        self.down_and_right == other.down_and_right
            && self.down == other.down
            && self.turn_right == other.turn_right
            && self.right == other.right
            && self.empty == other.empty
    }
}

impl Eq for IndentChars {
    ghost laws = { characters_equivalence characters_of };
}

impl PartialEq for StaticIndentChars {
    ghost eq = { on static_characters_of same_characters };

    ghost laws = { partial_equiv_from_equiv (characters_equivalence static_characters_of) };

    fn eq(&self, other: &StaticIndentChars) -> bool
        ensures value { result ≡ on static_characters_of same_characters self.now other.now }
        ensures equality { IsTrue result
            ↔ (static_characters_of self.now ≡ static_characters_of other.now) }
    {
        self.down_and_right == other.down_and_right
            && self.down == other.down
            && self.turn_right == other.turn_right
            && self.right == other.right
            && self.empty == other.empty
    }
}

impl Eq for StaticIndentChars {
    ghost laws = { characters_equivalence static_characters_of };
}

impl PartialEq for Style {
    ghost eq = { same_style };

    ghost laws = { partial_equiv_from_equiv style_equivalence };

    #[tactic(auto, using(crate::specs::Equivalence::style_decided))]
    fn eq(&self, other: &Style) -> bool
        ensures value { result ≡ same_style self.now other.now }
        ensures equality { IsTrue result ↔ (style_of self.now ≡ style_of other.now) }
    {
        has_fields_of(self, other)
    }
}

impl Eq for Style {
    ghost laws = { style_equivalence };
}

// Whether all fields are equal.
fn has_fields_of(style: &Style, other: &Style) -> bool
    ensures { result ≡ same_style style.now other.now }
{
    style.foreground == other.foreground
        && style.background == other.background
        && style.bold == other.bold
        && style.dimmed == other.dimmed
        && style.italic == other.italic
        && style.underline == other.underline
        && style.blink == other.blink
        && style.reverse == other.reverse
        && style.hidden == other.hidden
        && style.strikethrough == other.strikethrough
}

impl PartialEq for Color {
    ghost eq = { same_color };

    ghost laws = { partial_equiv_from_equiv color_equivalence };

    fn eq(&self, other: &Color) -> bool
        ensures value { result ≡ same_color self.now other.now }
        ensures equality { IsTrue result ↔ (color_of self.now ≡ color_of other.now) }
    {
        match (self, other) {
            (Color::Fixed(m), Color::Fixed(n)) => m == n,
            (Color::RGB(r, g, b), Color::RGB(x, y, z)) => r == x && g == y && b == z,
            (Color::Named(name), Color::Named(other)) => name == other,
            (Color::Black, Color::Black)
            | (Color::Red, Color::Red)
            | (Color::Green, Color::Green)
            | (Color::Yellow, Color::Yellow)
            | (Color::Blue, Color::Blue)
            | (Color::Purple, Color::Purple)
            | (Color::Cyan, Color::Cyan)
            | (Color::White, Color::White) => true,
            _ => false,
        }
    }
}

impl Eq for Color {
    ghost laws = { color_equivalence };
}
