//! Copies texts to a place in a buffer that has room. A short text is two copies of a fixed size,
//! which overlap.
ghost use Rattle.std.specs.Prelude.{◌≡◌, ◌+◌, ◌<◌, ◌≤◌, ◌++◌, length, take};

use std::simd::Simd;

/// Copies a text to a place.
#[inline(always)]
pub(crate) fn place(room: &mut [u8], at: usize, text: &[u8])
    requires { at + length text.now ≤ length room.old }
    ensures text { take (at + length text.now) room.new ≡ take at room.old ++ text.now }
    ensures len { length room.new ≡ length room.old }
{
    match text.len() {
        0..8 => place_few(room, at, text),
        8..16 => place_ends::<8>(room, at, text),
        16..32 => place_ends::<16>(room, at, text),
        32..64 => place_ends::<32>(room, at, text),
        _ => place_long(room, at, text),
    }
}

// Copies a text of any length. It is a function of its own, so that it is no part of what it is called
// in.
#[inline(never)]
fn place_long(room: &mut [u8], at: usize, text: &[u8])
    requires { at + length text.now ≤ length room.old }
    ensures text { take (at + length text.now) room.new ≡ take at room.old ++ text.now }
    ensures len { length room.new ≡ length room.old }
{
    room[at..at + text.len()].copy_from_slice(text);
}

// Copies a text of fewer than eight bytes. Most pieces have four or more, so these are tried first.
#[inline(always)]
fn place_few(room: &mut [u8], at: usize, text: &[u8])
    requires few { length text.now < 8 }
    requires fits { at + length text.now ≤ length room.old }
    ensures text { take (at + length text.now) room.new ≡ take at room.old ++ text.now }
    ensures len { length room.new ≡ length room.old }
{
    let n = text.len();
    if n >= 4 {
        place_ends::<4>(room, at, text);
    } else if n > 1 {
        place_ends::<2>(room, at, text);
    } else if n == 1 {
        place_front::<1>(room, at, text);
    }
}

// Copies a text of `N` bytes or more, but at most twice as many.
#[inline(always)]
fn place_ends<const N: usize>(room: &mut [u8], at: usize, text: &[u8])
    requires fits { at + length text.now ≤ length room.old }
    requires low { N ≤ length text.now }
    requires high { length text.now ≤ N + N }
    ensures text { take (at + length text.now) room.new ≡ take at room.old ++ text.now }
    ensures len { length room.new ≡ length room.old }
{
    let last = text.len() - N;
    place_front::<N>(room, at, text);
    place_front::<N>(room, at + last, &text[last..]);
}

// Copies the first `N` bytes of a text.
#[inline(always)]
fn place_front<const N: usize>(room: &mut [u8], at: usize, text: &[u8])
    requires low { N ≤ length text.now }
    requires fits { at + N ≤ length room.old }
    ensures text { take (at + N) room.new ≡ take at room.old ++ take N text.now }
    ensures len { length room.new ≡ length room.old }
{
    Simd::<u8, N>::from_slice(text).copy_to_slice(&mut room[at..]);
}
