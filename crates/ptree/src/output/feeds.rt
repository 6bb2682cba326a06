//! Finds line feeds.
ghost use Rattle.std.specs.Prelude.{◌≡◌, ◌≢◌, ℕ, false, length, slice_index, take, drop, ◌≤◌, ◌<◌, ◌+◌};
ghost use Rattle.ptree.specs.Texts.{HasNoLineFeed, line_feed};

use std::simd::prelude::*;

/// Whether a line feed may be among the bytes from one place to another. If the result is false,
/// there is none. The bytes are examined by vectors, which may overlap and take some of those before
/// `start` too.
#[inline(always)]
pub(crate) fn may_hold_line_feed(bytes: &[u8], start: usize, end: usize) -> bool
    requires order { start ≤ end }
    requires within { end ≤ length bytes.now }
    ensures { result ≡ false → HasNoLineFeed (drop start (take end bytes.now)) }
{
    // If fewer than sixteen bytes are before the end, this is past the start.
    let from = end.wrapping_sub(16);
    if from <= start {
        return holds_line_feed_at::<16>(bytes, from);
    }
    if end >= 16 {
        return holds_line_feed_in_many(&bytes[..end], start);
    }
    if bytes.len() - start >= 16 {
        return feedless_of_sixteen(bytes, start) < end - start;
    }
    first_line_feed(&bytes[start..end]) < end - start
}

// Whether a line feed may follow the first `start` bytes, for sixteen bytes or more.
#[inline(always)]
fn holds_line_feed_in_many(bytes: &[u8], start: usize) -> bool
    requires { 16 ≤ length bytes.now }
    ensures { result ≡ false → HasNoLineFeed (drop start bytes.now) }
{
    if bytes.len() < 32 {
        holds_line_feed::<16>(bytes, start)
    } else {
        holds_line_feed::<32>(bytes, start)
    }
}

// Whether a line feed is among `N` bytes at a place.
#[inline(always)]
fn holds_line_feed_at<const N: usize>(bytes: &[u8], place: usize) -> bool
    requires few { N ≤ 64 }
    requires within { place + N ≤ length bytes.now }
    ensures { result ≡ false → (k : ℕ) → place ≤ k → k < place + N
        → slice_index bytes.now k ≢ line_feed }
{
    Simd::<u8, N>::from_slice(&bytes[place..])
        .simd_eq(Simd::splat(b'\n'))
        .to_bitmask()
        != 0
}

// Whether a line feed may follow the first `start` bytes, for `N` bytes or more. The last vector
// may overlap the one before it.
#[inline(always)]
fn holds_line_feed<const N: usize>(bytes: &[u8], start: usize) -> bool
    requires some { 0 < N }
    requires few { N ≤ 64 }
    requires low { N ≤ length bytes.now }
    ensures { result ≡ false → HasNoLineFeed (drop start bytes.now) }
{
    let mut place = bytes.len() - N;
    while place > start {
        if holds_line_feed_at::<N>(bytes, place) {
            return true;
        }
        place = place.saturating_sub(N);
    }
    holds_line_feed_at::<N>(bytes, place)
}

// Returns how many of the sixteen bytes at a place precede the first line feed, or sixteen.
#[inline(always)]
fn feedless_of_sixteen(bytes: &[u8], place: usize) -> usize
    requires { place + 16 ≤ length bytes.now }
    ensures most { result ≤ 16 }
    ensures before { (k : ℕ) → place ≤ k → k < place + result
        → slice_index bytes.now k ≢ line_feed }
    ensures at { result < 16 → slice_index bytes.now (place + result) ≡ line_feed }
{
    let found = Simd::<u8, 16>::from_slice(&bytes[place..])
        .simd_eq(Simd::splat(b'\n'))
        .to_bitmask();
    if found == 0 {
        16
    } else {
        found.trailing_zeros() as usize
    }
}

/// Returns the place of the first line feed, or the number of bytes if there is none.
#[inline(always)]
pub(crate) fn first_line_feed(bytes: &[u8]) -> usize
    ensures within { result ≤ length bytes.now }
    ensures before { (k : ℕ) → k < result → slice_index bytes.now k ≢ line_feed }
    ensures at { result < length bytes.now → slice_index bytes.now result ≡ line_feed }
{
    let mut place = 0;
    while bytes.len() - place >= 16 {
        let width = feedless_of_sixteen(bytes, place);
        if width < 16 {
            return place + width;
        }
        place += 16;
    }
    while place < bytes.len() && bytes[place] != b'\n' {
        place += 1;
    }
    place
}
