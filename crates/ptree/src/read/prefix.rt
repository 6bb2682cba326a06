//! Compares the starts of texts by vectors.
ghost use Rattle.std.specs.Prelude.{◌≡◌, ◌↔◌, length, take, drop, ◌≤◌, ◌+◌, IsTrue};
ghost use Rattle.ptree.specs.Texts.{IsPrefixOf};

use std::simd::prelude::*;

/// Whether the `N` bytes at a place are the same in two texts.
#[inline(always)]
pub(crate) fn same_at<const N: usize>(a: &[u8], b: &[u8], place: usize) -> bool
    requires few { N ≤ 64 }
    requires left { place + N ≤ length a.now }
    requires right { place + N ≤ length b.now }
    ensures { IsTrue result ↔ (take N (drop place a.now) ≡ take N (drop place b.now)) }
{
    Simd::<u8, N>::from_slice(&a[place..])
        .simd_ne(Simd::from_slice(&b[place..]))
        .to_bitmask()
        == 0
}

// Does what `begins` does for a prefix of `N` bytes or more, but at most twice as many. The vectors
// may overlap.
#[inline(always)]
fn begins_by<const N: usize>(text: &[u8], prefix: &[u8]) -> bool
    requires few { N ≤ 64 }
    requires low { N ≤ length prefix.now }
    requires high { length prefix.now ≤ N + N }
    requires room { length prefix.now ≤ length text.now }
    ensures { IsTrue result ↔ IsPrefixOf prefix.now text.now }
{
    let last = prefix.len() - N;
    same_at::<N>(text, prefix, 0) && same_at::<N>(text, prefix, last)
}

// Whether the 256 bytes at a place are those of a prefix. The four tests become one.
#[inline(always)]
fn same_block(text: &[u8], prefix: &[u8], place: usize) -> bool
    requires block { place + 256 ≤ length prefix.now }
    requires room { length prefix.now ≤ length text.now }
    ensures same { IsTrue result → take place text.now ≡ take place prefix.now
        → take (place + 256) text.now ≡ take (place + 256) prefix.now }
    ensures prefix { IsPrefixOf prefix.now text.now → IsTrue result }
{
    same_at::<64>(text, prefix, place)
        & same_at::<64>(text, prefix, place + 64)
        & same_at::<64>(text, prefix, place + 128)
        & same_at::<64>(text, prefix, place + 192)
}

// Does what `begins` does for a prefix of 64 bytes or more.
#[inline(always)]
fn begins_by_all(text: &[u8], prefix: &[u8]) -> bool
    requires low { 64 ≤ length prefix.now }
    requires room { length prefix.now ≤ length text.now }
    ensures { IsTrue result ↔ IsPrefixOf prefix.now text.now }
{
    let mut place = 0;
    while prefix.len() - place >= 256 {
        if !same_block(text, prefix, place) {
            return false;
        }
        place += 256;
    }
    while prefix.len() - place > 64 {
        if !same_at::<64>(text, prefix, place) {
            return false;
        }
        place += 64;
    }
    same_at::<64>(text, prefix, prefix.len() - 64)
}

// Does what `begins` does for a prefix of sixteen bytes or more. It is a function of its own, since
// no piece is that long.
#[inline(never)]
fn begins_by_many(text: &[u8], prefix: &[u8]) -> bool
    requires low { 16 ≤ length prefix.now }
    requires room { length prefix.now ≤ length text.now }
    ensures { IsTrue result ↔ IsPrefixOf prefix.now text.now }
{
    match prefix.len() {
        0..32 => begins_by::<16>(text, prefix),
        32..64 => begins_by::<32>(text, prefix),
        _ => begins_by_all(text, prefix),
    }
}

/// Whether a text begins with a prefix. Most pieces have four to eight bytes, so these are tried
/// first.
#[inline(always)]
pub(crate) fn begins(text: &[u8], prefix: &[u8]) -> bool
    ensures { IsTrue result ↔ IsPrefixOf prefix.now text.now }
{
    let width = prefix.len();
    if text.len() < width {
        return false;
    }
    if width >= 4 {
        if width <= 8 {
            return begins_by::<4>(text, prefix);
        }
        if width <= 16 {
            return begins_by::<8>(text, prefix);
        }
        return begins_by_many(text, prefix);
    }
    if width >= 2 {
        return begins_by::<2>(text, prefix);
    }
    width == 0 || begins_by::<1>(text, prefix)
}
