//! Destinations and sources of bytes, why writing fails, and the loop that writes.
ghost use Rattle.std.specs.Io.{ReadsAtMost};
ghost use Rattle.std.specs.Io.KnownBytes.{Appends, WriteAppends, ReadConsumes};
ghost use Rattle.std.specs.Prelude.{◌≡◌, ◌≢◌, ℕ, ◌+◌, ◌≤◌, Bool, List, [], false, IfOk, IsOk, IsTrue, OnOk, OnErr, Option, length};
ghost use Rattle.ptree.specs.Writing.{IsWritten, put_faults, get_faults, HasCause, HasErrorCause, TakesNoMemory};
ghost use Rattle.ptree.specs.declared.sink.DrawError.TheVariants.{Memory};

pub mod buffered;
mod counted;
pub(crate) mod faults;

pub use counted::Counted;
use std::alloc::AllocError;
use std::error::Error;
use std::{fmt, io};

/// A destination of bytes, which may fail.
pub trait Sink {
    /// The bytes that it holds, if they are known.
    ghost contents: { Self → Option (List ℕ) };

    /// How often it has failed.
    ghost faults: { Self → ℕ };

    /// Accepts a prefix of the bytes, and returns its length, as `std::io::Write::write` does.
    ///
    /// # Errors
    ///
    /// The sink failed, and accepted nothing.
    fn put(&mut self, bytes: &[u8]) -> io::Result<usize>
        ensures bound { IfOk result (λ n. n ≤ length bytes.now) }
        ensures bytes { WriteAppends (contents self.old) (contents self.new) result bytes.now }
        ensures faults { faults self.new ≡ faults self.old + put_faults result bytes.now };

    /// Accepts all the bytes if there is room for them, and else does nothing. Returns whether they
    /// were accepted.
    ///
    /// A drawing tries this before it calls [`Sink::put`]: a sink that gathers bytes may take an
    /// entry so without a call. The default never has room.
    #[inline(always)]
    fn put_if_room(&mut self, _bytes: &[u8]) -> bool
        ensures accepted { IsTrue result
            → Appends (contents self.old) (contents self.new) _bytes.now }
        ensures no_fault { IsTrue result → faults self.new ≡ faults self.old }
        ensures refused { result ≡ false → self.new ≡ self.old }
    {
        false
    }
}

/// A sink that says whether it is a terminal.
pub trait TerminalSink: Sink {
    /// What it may answer. Of a stream of the process every answer is possible.
    ghost may_answer: { Self → Bool → Type 0 };

    /// Whether it is a terminal.
    fn is_terminal(&self) -> bool
        ensures { may_answer self.now result };
}

/// A source of bytes, which may fail.
pub trait Feed {
    /// The bytes still to come, if they are known.
    ghost remaining: { Self → Option (List ℕ) };

    /// How often it has failed.
    ghost faults: { Self → ℕ };

    /// Fills a prefix of `room`, and returns its length, as `std::io::Read::read` does.
    ///
    /// # Errors
    ///
    /// The feed failed, and returned no bytes.
    fn get(&mut self, room: &mut [u8]) -> io::Result<usize>
        ensures bound { ReadsAtMost result room.new }
        ensures bytes { ReadConsumes (remaining self.old) (remaining self.new) result room.new }
        ensures faults { faults self.new ≡ faults self.old + get_faults result };
}

/// Why a call that writes to a [`Sink`] failed.
///
/// `Write` and `Zero` are returned exactly when the sink failed during the call. A prefix of the
/// intended output was written.
#[derive(Debug, Drop)]
pub enum DrawError {
    /// The sink returned an error. An interruption is an error too, and is not retried.
    Write(io::Error),

    /// The sink accepted none of the bytes that it was given.
    Zero,

    /// Memory ran out.
    Memory,
}

impl fmt::Display for DrawError {
    fn fmt<W: fmt::Write>(&self, f: &mut fmt::Formatter<W>) -> fmt::Result {
        f.write_str(match self {
            DrawError::Write(e) => return write!(f, "cannot write: {e}"),
            DrawError::Zero => "cannot write: the writer took no bytes",
            DrawError::Memory => "out of memory",
        })
    }
}

impl Error for DrawError {}

/// What a call returns that writes.
pub(crate) type DrawResult = Result<(), DrawError>;

/// Writes all the bytes, and passes the sink again what it has not accepted. If there are no bytes,
/// the sink is not called.
///
/// # Errors
///
/// `Write` or `Zero`. A prefix of the bytes was written.
#[inline(always)]
pub fn put_all<W: Sink>(f: &mut W, bytes: &[u8]) -> Result<(), DrawError>
    ensures bytes { IsWritten (W.contents f.old) (W.contents f.new) result bytes.now }
    ensures cause { HasCause (W.faults f.old) (W.faults f.new) result }
    ensures memory { TakesNoMemory result }
    // If there are no bytes, nothing is put, and no fault is counted.
    ensures none { bytes.now ≡ [] → IsOk result × (f.new ≡ f.old) }
{
    let mut rest = bytes;
    while !rest.is_empty() {
        match f.put(rest) {
            Ok(0) => return Err(DrawError::Zero),
            Ok(n) => rest = &rest[n..],
            Err(e) => return Err(DrawError::Write(e)),
        }
    }
    Ok(())
}

/// Writing stopped; the caller holds the error. So a result stays small.
#[derive(Drop)]
pub(crate) struct Stop;

impl From<AllocError> for Stop {
    ghost from_gives = { λ _ _. Unit {0} };

    fn from(_e: AllocError) -> Stop {
        Stop
    }
}

/// Writes all the bytes, as [`put_all`] does, and stores a failure of the sink in `error`.
#[inline(always)]
pub(crate) fn put_or_stop<W: Sink>(
    f: &mut W,
    bytes: &[u8],
    error: &mut DrawError,
) -> Result<(), Stop>
    requires { error.old ≡ Memory }
    ensures bytes { IsWritten (W.contents f.old) (W.contents f.new) result bytes.now }
    ensures cause { HasErrorCause (W.faults f.old) (W.faults f.new) error.new }
    ensures error { OnOk result (error.new ≡ Memory) }
    ensures memory { OnErr result (error.new ≢ Memory) }
{
    match put_all(f, bytes) {
        Ok(()) => Ok(()),
        Err(e) => {
            *error = e;
            Err(Stop)
        }
    }
}
