//! The words of a call.

use std::alloc::Global;
use std::env::{self, Env, FillError};
use std::io;

/// Returns the words of the process's call, without the program's name, which may be any bytes.
///
/// # Errors
///
/// `OutOfMemory` if memory ran out. Any other error means that a word is not UTF-8.
pub fn words<R: Env>(rt: &R, alloc: Global) -> io::Result<Vec<String>> {
    let words = env::args(&(Unnamed(rt), alloc))?.collect(alloc)?;
    Ok(words)
}

// The surroundings without the first argument.
#[derive(Drop)]
struct Unnamed<'a, R>(&'a R);

impl<'a, R: Env> Env for Unnamed<'a, R> {
    fn arg(&self, i: usize, buf: &mut [u8]) -> Result<usize, FillError> {
        self.0.arg(i.saturating_add(1), buf)
    }

    fn var(&self, name: &str, buf: &mut [u8]) -> Result<usize, FillError> {
        self.0.var(name, buf)
    }

    fn var_at(&self, i: usize, buf: &mut [u8]) -> Result<usize, FillError> {
        self.0.var_at(i, buf)
    }
}
