//! The pieces before items.
ghost use Rattle.std.specs.Prelude.{◌≡◌, ◌↔◌, Bool, IsTrue, true, false, ◌++◌, IfOk, string_bytes};
ghost use Rattle.ptree.specs.Pieces.{turning_piece, passing_piece, pieces_from, config_pieces, pieces_of};
ghost use Rattle.ptree.specs.Characters.{characters_of};
ghost use Rattle.ptree.specs.Readable.{ArePrefixFree, AreEqualOrPrefixFree, IsReadable, IsReadableWith};
ghost use Rattle.ptree.specs.Texts.{HasNoLineFeed};

use crate::print_config::{IndentChars, PrintConfig};
use std::alloc::{AllocError, Global};

/// The four pieces before items: two for an item's own line, and two for the lines below it.
#[derive(Debug, Drop)]
pub struct Indent {
    /// Before an item that is not its parent's last child.
    pub regular_prefix: String,

    /// Below an item that is not its parent's last child.
    pub child_prefix: String,

    /// Before a last child.
    pub last_regular_prefix: String,

    /// Below a last child.
    pub last_child_prefix: String,
}

impl Indent {
    /// Makes the pieces of a configuration.
    ///
    /// # Errors
    ///
    /// Memory ran out, or a piece would be longer than a text can be.
    pub fn from_config(alloc: Global, config: &PrintConfig) -> Result<Indent, AllocError>
        ensures { IfOk result (λ i. pieces_of i ≡ config_pieces config.now) }
    {
        Indent::from_characters_and_padding(
            alloc,
            config.indent,
            config.padding,
            &config.characters,
        )
    }

    /// Makes pieces that are `indent_size` characters wide, the last one of them the `empty`
    /// character.
    ///
    /// # Errors
    ///
    /// Memory ran out, or a piece would be longer than a text can be.
    pub fn from_characters(
        alloc: Global,
        indent_size: usize,
        characters: &IndentChars,
    ) -> Result<Indent, AllocError>
        ensures { IfOk result (λ i.
            pieces_of i ≡ pieces_from (characters_of characters.now) indent_size 1) }
    {
        Indent::from_characters_and_padding(alloc, indent_size, 1, characters)
    }

    /// Makes pieces that are `indent_size` characters wide, the last `padding` of them `empty`
    /// characters.
    ///
    /// A piece always has its first character and its padding, even if that is wider.
    ///
    /// # Errors
    ///
    /// Memory ran out, or a piece would be longer than a text can be.
    pub fn from_characters_and_padding(
        alloc: Global,
        indent_size: usize,
        padding: usize,
        characters: &IndentChars,
    ) -> Result<Indent, AllocError>
        ensures { IfOk result (λ i.
            pieces_of i ≡ pieces_from (characters_of characters.now) indent_size padding) }
    {
        let n = indent_size.saturating_sub(padding).saturating_sub(1);
        let right_pad = characters.right.as_str().repeat(alloc, n)?;
        let empty_pad = characters.empty.as_str().repeat(alloc, n)?;
        let item_pad = characters.empty.as_str().repeat(alloc, padding)?;
        Indent::from_fillings(
            alloc,
            characters,
            right_pad.as_str(),
            empty_pad.as_str(),
            item_pad.as_str(),
        )
    }

    // Makes pieces of their first characters, what fills turning and passing ones, and the padding.
    fn from_fillings(
        alloc: Global,
        characters: &IndentChars,
        right: &str,
        empty: &str,
        padding: &str,
    ) -> Result<Indent, AllocError>
        ensures { IfOk result (λ i. let c = characters_of characters.now in
            pieces_of i ≡ record {
              regular = c.down_and_right ++ right.now ++ padding.now;
              child = c.down ++ empty.now ++ padding.now;
              last_regular = c.turn_right ++ right.now ++ padding.now;
              last_child = c.empty ++ empty.now ++ padding.now;
            }) }
    {
        Ok(Indent {
            regular_prefix: joined(alloc, characters.down_and_right.as_str(), right, padding)?,
            child_prefix: joined(alloc, characters.down.as_str(), empty, padding)?,
            last_regular_prefix: joined(alloc, characters.turn_right.as_str(), right, padding)?,
            last_child_prefix: joined(alloc, characters.empty.as_str(), empty, padding)?,
        })
    }

    /// Whether a drawing with these pieces can be read back: each piece at the start of a line can
    /// be recognised from the left, whatever follows it.
    ///
    /// Pieces are readable exactly when no piece holds a line feed, no piece of an item's own line
    /// is a prefix of one of the lines below it or the reverse, and the two pieces of a kind are
    /// equal or neither is a prefix of the other. An empty piece is never readable, since the empty
    /// text is a prefix of every text. It does not allocate.
    pub fn is_readable(&self) -> bool
        ensures { IsTrue result ↔ IsReadable (pieces_of self.now) }
    {
        self.is_one_line() && self.has_kinds_apart() && self.has_pairs_apart()
    }

    /// Whether a drawing with these pieces and this marker can be read back: the marker holds no
    /// line feed, and neither it nor any of the four pieces is a prefix of the other.
    pub(crate) fn is_readable_with(&self, marker: &str) -> bool
        ensures { IsTrue result ↔ IsReadableWith (pieces_of self.now) marker.now }
    {
        self.is_readable() && is_one_line(marker) && self.is_marker_apart(marker)
    }

    // Whether neither the marker nor a piece is a prefix of the other.
    fn is_marker_apart(&self, marker: &str) -> bool
        ensures { IsTrue result
            ↔ ((last : Bool)
            → ArePrefixFree marker.now (turning_piece (pieces_of self.now) last)
            × ArePrefixFree marker.now (passing_piece (pieces_of self.now) last)) }
    {
        is_apart_from(marker, self.turning(false), self.passing(false))
            && is_apart_from(marker, self.turning(true), self.passing(true))
    }

    // Whether no piece holds a line feed.
    fn is_one_line(&self) -> bool
        ensures { IsTrue result
            ↔ ((last : Bool)
            → HasNoLineFeed (turning_piece (pieces_of self.now) last)
            × HasNoLineFeed (passing_piece (pieces_of self.now) last)) }
    {
        are_one_line(self.turning(false), self.turning(true))
            && are_one_line(self.passing(false), self.passing(true))
    }

    // Whether no turning piece is a prefix of a passing one, nor the reverse.
    fn has_kinds_apart(&self) -> bool
        ensures { IsTrue result
            ↔ ((a b : Bool)
            → ArePrefixFree (turning_piece (pieces_of self.now) a)
            (passing_piece (pieces_of self.now) b)) }
    {
        let (child, last_child) = (self.passing(false), self.passing(true));
        is_apart_from(self.turning(false), child, last_child)
            && is_apart_from(self.turning(true), child, last_child)
    }

    // Whether the two pieces of each kind are equal, or neither is a prefix of the other.
    fn has_pairs_apart(&self) -> bool
        ensures { IsTrue result
            ↔ (AreEqualOrPrefixFree (turning_piece (pieces_of self.now) false)
            (turning_piece (pieces_of self.now) true)
            × AreEqualOrPrefixFree (passing_piece (pieces_of self.now) false)
            (passing_piece (pieces_of self.now) true)) }
    {
        are_equal_or_apart(self.turning(false), self.turning(true))
            && are_equal_or_apart(self.passing(false), self.passing(true))
    }

    /// Returns the piece of an item's own line.
    pub(crate) fn turning(&self, is_last: bool) -> &str
        ensures { result.now ≡ turning_piece (pieces_of self.now) is_last }
    {
        if is_last {
            self.last_regular_prefix.as_str()
        } else {
            self.regular_prefix.as_str()
        }
    }

    /// Returns the piece of the lines below an item.
    pub(crate) fn passing(&self, is_last: bool) -> &str
        ensures { result.now ≡ passing_piece (pieces_of self.now) is_last }
    {
        if is_last {
            self.last_child_prefix.as_str()
        } else {
            self.child_prefix.as_str()
        }
    }
}

// Joins three texts.
pub(crate) fn joined(alloc: Global, a: &str, b: &str, c: &str) -> Result<String, AllocError>
    ensures { IfOk result (λ text. string_bytes text ≡ a.now ++ b.now ++ c.now) }
{
    [a, b, c].concat(alloc)
}

// Whether a text holds no line feed.
fn is_one_line(text: &str) -> bool
    ensures { IsTrue result ↔ HasNoLineFeed text.now }
{
    !text.contains('\n')
}

// Whether neither text holds a line feed.
fn are_one_line(a: &str, b: &str) -> bool
    ensures { IsTrue result ↔ (HasNoLineFeed a.now × HasNoLineFeed b.now) }
{
    is_one_line(a) && is_one_line(b)
}

// Whether neither text is a prefix of the other.
fn are_apart(a: &str, b: &str) -> bool
    ensures { IsTrue result ↔ ArePrefixFree a.now b.now }
{
    !a.starts_with(b) && !b.starts_with(a)
}

// Whether a text is a prefix of neither of two others, nor the reverse.
fn is_apart_from(text: &str, a: &str, b: &str) -> bool
    ensures { IsTrue result ↔ (ArePrefixFree text.now a.now × ArePrefixFree text.now b.now) }
{
    are_apart(text, a) && are_apart(text, b)
}

// Whether the texts are equal, or neither is a prefix of the other.
fn are_equal_or_apart(a: &str, b: &str) -> bool
    ensures { IsTrue result ↔ AreEqualOrPrefixFree a.now b.now }
{
    a == b || are_apart(a, b)
}
