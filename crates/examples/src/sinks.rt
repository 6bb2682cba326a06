//! Sinks of a caller's own.
ghost use Rattle.std.specs.Io.KnownBytes.{Appends};
ghost use Rattle.std.specs.Prelude.{◌≡◌, ◌↔◌, ◌≤◌, length, true, None, IfOk, IsTrue};
ghost use Rattle.ptree.specs.Buffered.{inner_sink, held_bytes};

use ptree::buffered::Buffered;
use ptree::style::{DrawError, Sink, TerminalSink, put_all};
use std::alloc::{AllocError, Global};
use std::io;

/// Hands on to another sink, as a terminal does: drawings are styled.
#[derive(Drop)]
pub struct Through<W> {
    pub inner: W,
}

impl<W: Sink> Sink for Through<W> {
    ghost contents = { λ t. W.contents t.inner };

    ghost faults = { λ t. W.faults t.inner };

    fn put(&mut self, bytes: &[u8]) -> io::Result<usize> {
        self.inner.put(bytes)
    }

    fn put_if_room(&mut self, bytes: &[u8]) -> bool {
        self.inner.put_if_room(bytes)
    }
}

impl<W: Sink> TerminalSink for Through<W> {
    ghost may_answer = { λ _ answer. answer ≡ true };

    fn is_terminal(&self) -> bool {
        true
    }
}

/// Takes all and keeps nothing: it says of no byte that it holds it.
#[derive(Drop)]
pub struct Nowhere;

impl Sink for Nowhere {
    ghost contents = { λ _. None };

    ghost faults = { λ _. 0 };

    fn put(&mut self, bytes: &[u8]) -> io::Result<usize> {
        Ok(bytes.len())
    }
}

/// Writes bytes to a sink through a buffer, and returns the sink, which has got them all.
pub fn write_buffered<S: Sink + Drop>(alloc: Global, sink: S, bytes: &[u8]) -> Result<S, DrawError>
    ensures { IfOk result (λ s. Appends (S.contents sink) (S.contents s) bytes.now) }
{
    let Ok(mut buffered) = Buffered::with_capacity(alloc, 4096, sink) else {
        return Err(DrawError::Memory);
    };
    put_all(&mut buffered, bytes)?;
    buffered.flush()?;
    Ok(buffered.into_inner())
}

/// Flushes an empty buffer twice, and returns the sink, which was not called.
pub fn flush_twice<S: Sink + Drop>(alloc: Global, sink: S) -> Result<S, DrawError>
    ensures { IfOk result (λ s. s ≡ sink) }
{
    let Ok(mut buffered) = Buffered::with_capacity(alloc, 4096, sink) else {
        return Err(DrawError::Memory);
    };
    buffered.flush()?;
    buffered.flush()?;
    Ok(buffered.into_inner())
}

/// Puts bytes into a new buffer. It holds 4096 bytes at most, and the sink is not called if the
/// bytes are no more.
pub fn gather<S: Sink + Drop>(
    alloc: Global,
    sink: S,
    bytes: &[u8],
) -> Result<Buffered<S>, DrawError>
    ensures fits { IfOk result (λ b. length (held_bytes b) ≤ 4096) }
    ensures waits { length bytes.now ≤ 4096 → IfOk result (λ b. inner_sink b ≡ sink) }
{
    let Ok(mut buffered) = Buffered::with_capacity(alloc, 4096, sink) else {
        return Err(DrawError::Memory);
    };
    match buffered.put(bytes) {
        Ok(_) => Ok(buffered),
        Err(e) => Err(DrawError::Write(e)),
    }
}

/// Puts bytes into a new buffer of 4096 bytes, and returns how many it takes: all, if they fit.
pub fn takes_all<S: Sink + Drop>(alloc: Global, sink: S, bytes: &[u8]) -> Result<usize, DrawError>
    ensures { length bytes.now ≤ 4096 → IfOk result (λ n. n ≡ length bytes.now) }
{
    let Ok(mut buffered) = Buffered::with_capacity(alloc, 4096, sink) else {
        return Err(DrawError::Memory);
    };
    match buffered.put(bytes) {
        Ok(n) => Ok(n),
        Err(e) => Err(DrawError::Write(e)),
    }
}

/// Whether a new buffer of 4096 bytes takes bytes without its sink: exactly if they are no more.
pub fn takes_at_once<S: Sink + Drop>(
    alloc: Global,
    sink: S,
    bytes: &[u8],
) -> Result<bool, AllocError>
    ensures { IfOk result (λ b. IsTrue b ↔ (length bytes.now ≤ 4096)) }
{
    let Ok(mut buffered) = Buffered::with_capacity(alloc, 4096, sink) else {
        return Err(AllocError);
    };
    Ok(buffered.put_if_room(bytes))
}
