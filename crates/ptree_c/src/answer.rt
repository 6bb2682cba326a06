//! Puts what a call made, or why it made nothing, into the memory of the caller.
ghost use Rattle.std.specs.Prelude.{◌≡◌, ◌<◌, length};
ghost use Rattle.ptree_c.specs.Refusals.{IsRefused};
ghost use Rattle.ptree_c.specs.Rooms.{filled, found_sizes};

use crate::refusal::Refusal;
use crate::room::{Found, fill};

/// Reports the sizes of what was done, and returns that it was.
pub(crate) fn report(bytes: usize, items: usize, found: &mut Found) -> u32
    ensures done { result ≡ 0 }
    ensures found { found.new ≡ found_sizes bytes items }
{
    found.bytes = bytes;
    found.items = items;
    found.place = 0;
    0
}

/// Puts bytes, of which there are whole `items`, into `out`, and returns that the call was done.
pub(crate) fn put_bytes(bytes: &[u8], items: usize, out: &mut [u8], found: &mut Found) -> u32
    ensures done { result ≡ 0 }
    ensures bytes { out.new ≡ filled out.old bytes.now }
    ensures found { found.new ≡ found_sizes (length bytes.now) items }
{
    fill(out, bytes);
    report(bytes.len(), items, found)
}

/// Returns the number of a refusal, and reports its place.
pub(crate) fn refuse(refusal: Refusal, found: &mut Found) -> u32
    ensures not_done { 0 < result }
    ensures found { IsRefused result found.new refusal }
{
    found.bytes = 0;
    found.items = 0;
    found.place = refusal.place();
    refusal.number()
}
