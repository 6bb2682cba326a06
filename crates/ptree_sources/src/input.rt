//! Reads the whole input.
ghost use Rattle.std.specs.Prelude.{◌≡◌, ◌≤◌, ◌<◌, ◌+◌, List, ℕ, IfOk, OnOk, IsErrOf, IsUtf8, length, take, drop, string_bytes};
ghost use Rattle.std.specs.Io.KnownBytes.{Consumes, IsAtEnd};
ghost use Rattle.ptree_sources.specs.Input.{ReadsAll, read_faults};

use ptree::style::Feed;
use std::alloc::{AllocError, Global};

/// Why the input could not be read as a text.
#[derive(Clone, Copy, Debug, PartialEq, Eq)]
pub enum InputError {
    /// A read failed, or was interrupted.
    Failed,

    /// The bytes are not UTF-8.
    NotText,

    /// Memory ran out.
    Memory,
}

impl From<AllocError> for InputError {
    ghost use Rattle.ptree_sources.specs.declared.input.InputError.TheVariants.{Memory};

    ghost from_gives = { λ _ told. told ≡ Memory };

    fn from(_e: AllocError) -> InputError {
        InputError::Memory
    }
}

/// Returns the whole input as a text.
///
/// # Errors
///
/// `Failed` if a read failed or was interrupted; nothing is read after that. `NotText` if the bytes
/// are not UTF-8. `Memory` if memory ran out.
pub fn read_input<R: Feed>(alloc: Global, input: &mut R) -> Result<String, InputError>
    ensures text { IfOk result (λ s.
        ReadsAll (R.remaining input.old) (R.remaining input.new) (string_bytes s)) }
    ensures not_text { IsErrOf result InputError.NotText → (bytes : List ℕ)
        × ReadsAll (R.remaining input.old) (R.remaining input.new) bytes
        × (IsUtf8 bytes → ⊥) }
    ensures cause { R.faults input.new ≡ R.faults input.old + read_faults result }
{
    let bytes = read_input_bytes(alloc, input)?;
    match String::from_utf8(bytes) {
        Ok(text) => Ok(text),
        Err(_) => Err(InputError::NotText),
    }
}

// Returns the size of the room for the first read, 64 KiB.
fn first_room() -> usize
    ensures { 0 < result }
{
    65536
}

/// Returns the whole input as bytes. Each read gets all the room that is left.
///
/// # Errors
///
/// The errors of [`read_input`], except `NotText`.
pub fn read_input_bytes<R: Feed>(alloc: Global, input: &mut R) -> Result<Vec<u8>, InputError>
    ensures bytes { IfOk result (λ v.
        ReadsAll (R.remaining input.old) (R.remaining input.new) v.items) }
    ensures cause { R.faults input.new ≡ R.faults input.old + read_faults result }
    ensures text { IsErrOf result InputError.NotText → ⊥ }
{
    let mut room = Vec::from_elem(alloc, 0u8, first_room())?;
    let mut filled = 0;
    loop {
        let n = read_at(input, &mut room, filled)?;
        if n == 0 {
            room.truncate(filled);
            return Ok(room);
        }
        filled += n;
        if filled == room.len() {
            enlarge(&mut room)?;
        }
    }
}

// Reads once, after the first `filled` bytes.
fn read_at<R: Feed>(input: &mut R, room: &mut Vec<u8>, filled: usize) -> Result<usize, InputError>
    requires { filled < length room.old.items }
    ensures len { length room.new.items ≡ length room.old.items }
    ensures front { take filled room.new.items ≡ take filled room.old.items }
    ensures fits { IfOk result (λ n. filled + n ≤ length room.new.items) }
    ensures bytes { IfOk result (λ n. Consumes (R.remaining input.old) (R.remaining input.new)
        (take n (drop filled room.new.items))) }
    ensures end { IfOk result (λ n. n ≡ 0 → IsAtEnd (R.remaining input.new)) }
    ensures cause { R.faults input.new ≡ R.faults input.old + read_faults result }
    ensures text { IsErrOf result InputError.NotText → ⊥ }
{
    match input.get(&mut room[filled..]) {
        Ok(n) => Ok(n),
        Err(_) => Err(InputError::Failed),
    }
}

// Makes the room larger, and keeps what is there. The room doubles up to 4 MiB and then grows by as
// much, since all of it takes memory, whatever is read.
fn enlarge(room: &mut Vec<u8>) -> Result<(), AllocError>
    requires { 0 < length room.old.items }
    ensures front { OnOk result (take (length room.old.items) room.new.items ≡ room.old.items) }
    ensures more { OnOk result (length room.old.items < length room.new.items) }
{
    let more = room.len().min(4_194_304);
    room.resize(room.len().saturating_add(more), 0)
}
