//! Puts a result into the memory of the caller.
ghost use Rattle.std.specs.Prelude.{◌≡◌, ◌≤◌, ◌<◌, ◌+◌, ◌++◌, ℕ, List, IfSome, length};
ghost use Rattle.ptree_c.specs.Rooms.{filled, IsFilled, PutsBytes};

use std::simd::Simd;

/// What a call found: how many bytes and items there are, or the place of what was refused.
#[repr(C)]
#[derive(Clone, Copy)]
pub struct Found {
    /// The bytes of the whole drawing, or of all texts together.
    pub bytes: usize,

    /// The number of items.
    pub items: usize,

    /// After a refusal, the place of what was refused.
    pub place: usize,
}

/// Copies as much as there is room for. What is behind it stays.
pub(crate) fn fill<T: Copy>(out: &mut [T], from: &[T])
    ensures { out.new ≡ filled out.old from.now }
{
    let count = from.len();
    if count <= out.len() {
        out[..count].copy_from_slice(from);
    } else {
        out.copy_from_slice(&from[..out.len()]);
    }
}

// Puts bytes behind those that end at a place, where there is room for some.
#[inline(never)]
fn put_part(out: &mut [u8], at: usize, bytes: &[u8])
    requires { at < length out.old }
    ensures { (room before : List ℕ) → IsFilled room before out.old at
        → out.new ≡ filled room (before ++ bytes.now) }
{
    fill(&mut out[at..], bytes);
}

// Copies a text of `N` bytes or more, but at most twice as many, over another one of its length:
// its first and its last `N` bytes, which may overlap.
#[inline(always)]
fn copy_ends<const N: usize>(out: &mut [u8], text: &[u8])
    requires same { length out.old ≡ length text.now }
    requires low { N ≤ length text.now }
    requires high { length text.now ≤ N + N }
    ensures { out.new ≡ text.now }
{
    let last = text.len() - N;
    Simd::<u8, N>::from_slice(text).copy_to_slice(out);
    Simd::<u8, N>::from_slice(&text[last..]).copy_to_slice(&mut out[last..]);
}

// Copies a text over another one of its length. A short text takes no call of C's library.
#[inline(always)]
fn copy(out: &mut [u8], text: &[u8])
    requires { length out.old ≡ length text.now }
    ensures { out.new ≡ text.now }
{
    match text.len() {
        0..8 => copy_few(out, text),
        8..16 => copy_ends::<8>(out, text),
        16..32 => copy_ends::<16>(out, text),
        _ => out.copy_from_slice(text),
    }
}

// Copies a text of fewer than eight bytes over another one of its length. Most pieces have four or
// more, so these are tried first.
#[inline(always)]
fn copy_few(out: &mut [u8], text: &[u8])
    requires few { length text.now < 8 }
    requires same { length out.old ≡ length text.now }
    ensures { out.new ≡ text.now }
{
    if text.len() >= 4 {
        copy_ends::<4>(out, text);
    } else if text.len() > 1 {
        copy_ends::<2>(out, text);
    } else if text.len() == 1 {
        copy_ends::<1>(out, text);
    }
}

/// Puts bytes behind those that end at a place, as many as there is room for, and returns where
/// they end. None if that is beyond any memory.
#[inline(always)]
pub(crate) fn put(out: &mut [u8], at: usize, bytes: &[u8]) -> Option<usize>
    ensures { IfSome result (PutsBytes bytes.now out.old at out.new) }
{
    let end = at.checked_add(bytes.len())?;
    if end <= out.len() {
        copy(&mut out[at..end], bytes);
    } else if at < out.len() {
        put_part(out, at, bytes);
    }
    Some(end)
}

/// Puts bytes behind those that end at a place, where there is room for all, and returns where they
/// end.
#[inline(always)]
pub(crate) fn put_whole(out: &mut [u8], at: usize, bytes: &[u8]) -> usize
    requires { at + length bytes.now ≤ length out.old }
    ensures { PutsBytes bytes.now out.old at out.new result }
{
    let end = at + bytes.len();
    copy(&mut out[at..end], bytes);
    end
}
