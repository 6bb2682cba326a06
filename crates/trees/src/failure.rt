//! Why a call did not do what it was asked, and its exit status.
ghost use Rattle.std.specs.Prelude.{◌≡◌};
ghost use Rattle.trees.specs.Telling.{status_of};
ghost use Rattle.trees.specs.declared.failure.Failure.TheVariants.{Memory};

use ptree::style::DrawError;
use std::alloc::{AllocError, AllocFailed};
use std::io::ErrorKind;

/// Why a call did not do what it was asked.
#[derive(Drop)]
pub enum Failure {
    /// A usage error. The text says what is wrong, and what would be right.
    Usage(String),

    /// The text says what is wrong with an input, with its name and the line.
    Input(String),

    /// Two trees differ, or a text is no drawing. Standard output has said so.
    Said,

    /// Standard output failed.
    Output(ErrorKind),

    /// Memory ran out.
    Memory,
}

impl Failure {
    /// Returns the exit status. After a closed pipe it is the one that a shell reports of a program
    /// that SIGPIPE ended.
    pub fn status(&self) -> u8
        ensures { result ≡ status_of self.now }
    {
        match self {
            Failure::Usage(_) => 2,
            Failure::Output(ErrorKind::BrokenPipe) => 141,
            Failure::Input(_) | Failure::Said | Failure::Output(_) | Failure::Memory => 1,
        }
    }
}

impl From<AllocError> for Failure {
    ghost from_gives = { λ _ e. e ≡ Memory };

    fn from(_e: AllocError) -> Failure {
        Failure::Memory
    }
}

impl<T: Drop> From<AllocFailed<T>> for Failure {
    ghost from_gives = { λ _ e. e ≡ Memory };

    fn from(_e: AllocFailed<T>) -> Failure {
        Failure::Memory
    }
}

impl From<DrawError> for Failure {
    ghost use Rattle.std.specs.Prelude.{Err};
    ghost use Rattle.ptree.specs.Writing.{result_faults};
    ghost use Rattle.trees.specs.Reading.{IsWriting};
    ghost use Rattle.trees.specs.Telling.{failure_faults};

    // A failure of the sink becomes `Output`, and out of memory `Memory`.
    ghost from_gives = { λ d e. IsWriting e
        × (failure_faults {A = Unit {0}} (Err e) ≡ result_faults {A = Unit {0}} (Err d)) };

    fn from(e: DrawError) -> Failure {
        match e {
            DrawError::Write(e) => Failure::Output(e.kind()),
            DrawError::Zero => Failure::Output(ErrorKind::WriteZero),
            DrawError::Memory => Failure::Memory,
        }
    }
}
