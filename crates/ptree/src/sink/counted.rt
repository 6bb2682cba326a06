//! A sink or a feed of any writer or reader.
ghost use Rattle.std.specs.Prelude.{◌≡◌};
ghost use Rattle.ptree.specs.Counted.{fault_count, inner_of};

use crate::sink::faults::FaultCount;
use crate::sink::{Feed, Sink, TerminalSink};
use std::io;

/// Makes a [`Sink`] of any writer, and a [`Feed`] of any reader. It does not allocate itself.
#[derive(Drop)]
pub struct Counted<T> {
    inner: T,
    faults: FaultCount,
}

impl<T> Counted<T> {
    /// Wraps a writer or a reader, with a fault count of 0.
    pub fn new(inner: T) -> Counted<T>
        ensures faults { fault_count result ≡ 0 }
        ensures inner { inner_of result ≡ inner }
    {
        Counted {
            inner,
            faults: FaultCount::new(),
        }
    }

    /// Returns the writer or reader.
    pub fn into_inner(self) -> T
        ensures { result ≡ inner_of self }
    {
        let Counted { inner, faults: _ } = self;
        inner
    }
}

impl<T: io::Write> Sink for Counted<T> {
    ghost use Rattle.ptree.specs.Counted.{fault_count, inner_of};

    ghost contents = { λ c. T.contents (inner_of c) };

    ghost faults = { fault_count };

    fn put(&mut self, bytes: &[u8]) -> io::Result<usize> {
        let result = self.inner.write(bytes);
        let failed = match &result {
            Ok(n) => *n == 0 && !bytes.is_empty(),
            Err(_) => true,
        };
        if failed {
            self.faults = self.faults.next();
        }
        result
    }
}

impl<T: io::Write + io::IsTerminal> TerminalSink for Counted<T> {
    ghost may_answer = { λ _ _. Unit {0} };

    /// Returns what the writer returns.
    fn is_terminal(&self) -> bool {
        self.inner.is_terminal()
    }
}

impl<T: io::Read> Feed for Counted<T> {
    ghost use Rattle.ptree.specs.Counted.{fault_count, inner_of};

    ghost remaining = { λ c. T.remaining (inner_of c) };

    ghost faults = { fault_count };

    fn get(&mut self, room: &mut [u8]) -> io::Result<usize> {
        let result = self.inner.read(room);
        if result.is_err() {
            self.faults = self.faults.next();
        }
        result
    }
}
