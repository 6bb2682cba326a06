//! A writer and a reader that fail after a number of bytes.
ghost use Rattle.std.specs.Prelude.{◌≡◌, IfOk};

use std::alloc::{AllocError, Global};
use std::io::{self, Cursor, ErrorKind, Read, Write};

// Fails, or moves no bytes if there is no fault.
fn end(fault: Option<ErrorKind>) -> io::Result<usize>
    ensures { IfOk result (λ n. n ≡ 0) }
{
    match fault {
        Some(kind) => Err(io::Error::from(kind)),
        None => Ok(0),
    }
}

/// Accepts `room` bytes in all, at most `most` a call. Each call after that ends in the fault.
#[derive(Drop)]
pub struct Failing {
    pub taken: Vec<u8>,
    pub room: usize,
    pub most: usize,
    pub fault: Option<ErrorKind>,
    pub calls: usize,
}

impl Failing {
    /// Makes one that accepts everything.
    pub fn new(alloc: Global, most: usize) -> Failing {
        Failing {
            taken: Vec::new(alloc),
            room: usize::MAX,
            most,
            fault: None,
            calls: 0,
        }
    }

    /// From now on accepts this many bytes, one a call.
    pub fn fail_after(&mut self, room: usize, fault: Option<ErrorKind>) {
        self.room = room;
        self.most = 1;
        self.fault = fault;
    }
}

impl Write for Failing {
    fn write(&mut self, buf: &[u8]) -> io::Result<usize> {
        self.calls = self.calls.saturating_add(1);
        if self.room == 0 {
            return end(self.fault);
        }
        let n = buf.len().min(self.room).min(self.most);
        self.taken.extend_from_slice(&buf[..n])?;
        self.room -= n;
        Ok(n)
    }

    fn flush(&mut self) -> io::Result<()> {
        Ok(())
    }
}

/// Gives its bytes, at most `most` a call. Each call after that ends in the fault.
#[derive(Drop)]
pub struct Breaking {
    pub bytes: Cursor<Vec<u8>>,
    pub most: usize,
    pub fault: Option<ErrorKind>,
    pub calls: usize,
}

impl Breaking {
    /// Makes one that ends after the bytes.
    pub fn new(alloc: Global, bytes: &[u8], most: usize) -> Result<Breaking, AllocError> {
        Ok(Breaking {
            bytes: Cursor::new(Vec::from_slice(alloc, bytes)?),
            most,
            fault: None,
            calls: 0,
        })
    }
}

impl Read for Breaking {
    fn read(&mut self, buf: &mut [u8]) -> io::Result<usize> {
        self.calls = self.calls.saturating_add(1);
        let most = buf.len().min(self.most);
        match self.bytes.read(&mut buf[..most])? {
            0 => end(self.fault),
            n => Ok(n),
        }
    }
}
