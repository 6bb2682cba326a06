//! The texts of items.
ghost use Rattle.std.specs.Prelude.{◌≡◌, ◌≤◌, ◌-◌, ◌↔◌, true, IsTrue, IsUtf8, IsCharBoundary, length, take, drop, IfErr, OnOk};
ghost use Rattle.ptree_c.specs.Fields.{part_text};
ghost use Rattle.ptree_c.specs.Refusals.{IsTextBetween, IsTextFault};

use crate::fields::Part;
use crate::refusal::Refusal;
use std::str;

/// The texts of items, and what is known of all of them, so that it is not asked of each.
#[derive(Drop)]
pub(crate) struct Texts<'a> {
    bytes: &'a [u8],
    is_utf8: bool,
    ghost utf8: { is_utf8 ≡ true → ∥ IsUtf8 bytes.now ∥₁ },
}

impl<'a> Texts<'a> {
    /// Examines texts.
    pub(crate) fn new(bytes: &'a [u8]) -> Texts<'a>
        ensures { result.bytes.now ≡ bytes.now }
    {
        Texts {
            bytes,
            is_utf8: is_utf8(bytes),
        }
    }

    /// Checks the text of the item at a place.
    pub(crate) fn check(&self, start: usize, end: usize, place: usize) -> Result<(), Refusal>
        ensures text { OnOk result (IsTextBetween self.now.bytes.now start end) }
        ensures refused { IfErr result (IsTextFault self.now.bytes.now start end place) }
    {
        let Some(text) = self.bytes.get(start..end) else {
            return Err(Refusal::End(place));
        };
        if self.is_text(start, end, text) {
            Ok(())
        } else {
            Err(Refusal::Utf8(place))
        }
    }

    /// Returns the text of an item.
    #[inline(always)]
    pub(crate) fn part(&self, part: Part) -> &'a str
        requires { IsTextBetween self.now.bytes.now part.start part.end }
        ensures { result.now ≡ part_text self.now.bytes.now part }
    {
        // (it was checked)
        unsafe { str::from_utf8_unchecked(&self.bytes[part.start..part.end]) }
    }

    // Whether a part is UTF-8. If all texts are, it is if characters begin at both ends.
    #[inline(always)]
    fn is_text(&self, start: usize, end: usize, text: &[u8]) -> bool
        requires order { start ≤ end }
        requires within { end ≤ length self.now.bytes.now }
        requires text { text.now ≡ take (end - start) (drop start self.now.bytes.now) }
        ensures { IsTrue result ↔ IsUtf8 text.now }
    {
        if self.is_utf8 && self.starts_character(start) && self.starts_character(end) {
            return true;
        }
        is_utf8(text)
    }

    // Whether a character of UTF-8 texts begins at a place, or they end there.
    #[inline(always)]
    fn starts_character(&self, place: usize) -> bool
        requires { place ≤ length self.now.bytes.now }
        ensures { result ≡ true → IsCharBoundary self.now.bytes.now place }
    {
        match self.bytes.get(place) {
            Some(byte) => *byte < 0x80 || *byte >= 0xc0,
            None => true,
        }
    }
}

// Whether a text is UTF-8. It is a function of its own, since it is seldom called for an item.
#[inline(never)]
fn is_utf8(text: &[u8]) -> bool
    ensures { IsTrue result ↔ IsUtf8 text.now }
{
    str::from_utf8(text).is_ok()
}
