//! Items as C gives and takes them: levels, and the places where their texts end.
ghost use Rattle.std.specs.Prelude.{◌≡◌, ◌-◌, IfOk, take, drop, string_bytes};

use crate::refusal::Refusal;
use std::alloc::Global;
use std::str;

/// An item of an outline. Its text is what the texts hold from the end of the item before it, or
/// from their start, to its own end.
#[repr(C)]
#[derive(Clone, Copy)]
pub struct Item {
    /// Where the item's text ends in the texts of all items.
    pub end: usize,

    /// The item's level. The first item is the root, and has level 0; any other has at least level
    /// 1, and at most one level more than the item before it.
    pub level: u32,
}

/// The text of the item at a place, between two places of the texts.
pub(crate) fn text_between(
    alloc: Global,
    texts: &[u8],
    from: usize,
    end: usize,
    place: usize,
) -> Result<String, Refusal>
    ensures { IfOk result (λ text. string_bytes text ≡ take (end - from) (drop from texts.now)) }
{
    match texts.get(from..end) {
        Some(bytes) => text_of(alloc, bytes, place),
        None => Err(Refusal::End(place)),
    }
}

/// The text of bytes, which belong to this place.
pub(crate) fn text_of(alloc: Global, bytes: &[u8], place: usize) -> Result<String, Refusal>
    ensures { IfOk result (λ text. string_bytes text ≡ bytes.now) }
{
    match str::from_utf8(bytes) {
        Ok(text) => Ok(String::from_str(alloc, text)?),
        Err(_) => Err(Refusal::Utf8(place)),
    }
}
