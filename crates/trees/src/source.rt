//! The inputs of a call.
ghost use Rattle.std.specs.Prelude.{◌≡◌, ◌≢◌, ℕ, ◌++◌, List, MatchOption, IfOk, IfErr, string_bytes};
ghost use Rattle.trees.specs.Documents.{IsLastPart};
ghost use Rattle.trees.specs.Listing.{unmarked};
ghost use Rattle.trees.specs.Reading.{IsInput, IsUnread, Says, SaysAt};

use crate::failure::Failure;
use std::alloc::{AllocError, Global};
use std::fs;
use std::io::{self, ErrorKind, Read};
use std::rt::Files;

/// A text, and the name that messages give it.
#[derive(Drop)]
pub struct Source {
    pub name: String,
    pub text: String,

    /// What is said if it could not be read. Then its text is empty.
    pub fault: Option<String>,
}

impl Source {
    /// Reads a file, or standard input if the path is `-`.
    ///
    /// # Errors
    ///
    /// `Input` if it cannot be read, or is not UTF-8, and `Memory`.
    pub fn read<R: Files + AllocGlobal, I: Read>(
        rt: &R,
        path: &str,
        input: &mut I,
    ) -> Result<Source, Failure>
        ensures { IfErr result IsUnread }
    {
        let alloc = rt.alloc();
        if path == "-" {
            return read_input(alloc, input);
        }
        match fs::read_to_string(rt, path) {
            Ok(text) => named(alloc, path, text),
            Err(e) => Err(unreadable(alloc, path, e)?),
        }
    }

    /// Returns an input that could not be read.
    pub fn unread(alloc: Global, fault: String) -> Source {
        Source {
            name: String::new(alloc),
            text: String::new(alloc),
            fault: Some(fault),
        }
    }

    /// Returns what a document is called: the last part of its path.
    pub fn label(&self) -> &str
        ensures { IsLastPart (string_bytes self.now.name) result.now }
    {
        let name = self.name.as_str();
        match name.rsplit_once('/') {
            Some((_, last)) => last,
            None => name,
        }
    }

    /// Returns the text without a byte order mark before it.
    pub fn unmarked(&self) -> &str
        ensures { result.now ≡ unmarked (string_bytes self.now.text) }
    {
        let text = self.text.as_str();
        match behind(text, "\u{feff}") {
            Some(rest) => rest,
            None => text,
        }
    }

    /// Says what is wrong at a line of the text.
    ///
    /// # Errors
    ///
    /// Memory ran out.
    pub fn wrong_at(&self, alloc: Global, line: usize, wrong: &str) -> Result<Failure, AllocError>
        ensures input { IfOk result IsInput }
        ensures says { IfOk result (SaysAt self.now line wrong.now) }
    {
        let name = &self.name;
        Ok(Failure::Input(format!(in alloc; "{name}:{line}: {wrong}")?))
    }

    /// Says what is wrong with the text.
    ///
    /// # Errors
    ///
    /// Memory ran out.
    pub fn wrong(&self, alloc: Global, wrong: &str) -> Result<Failure, AllocError>
        ensures input { IfOk result IsInput }
        ensures says { IfOk result (Says self.now wrong.now) }
    {
        let name = &self.name;
        Ok(Failure::Input(format!(in alloc; "{name}: {wrong}")?))
    }
}

/// Returns what is behind a text at the start of another.
pub fn behind<'a>(text: &'a str, start: &str) -> Option<&'a str>
    ensures { MatchOption result ((rest : List ℕ) → text.now ≢ start.now ++ rest)
        (λ rest. text.now ≡ start.now ++ rest.now) }
{
    text.strip_prefix(start)
}

// Reads standard input.
fn read_input<I: Read>(alloc: Global, input: &mut I) -> Result<Source, Failure>
    ensures { IfErr result IsUnread }
{
    let mut text = String::new(alloc);
    match input.read_to_string(&mut text) {
        Ok(_) => named(alloc, "standard input", text),
        Err(e) => Err(unreadable(alloc, "standard input", e)?),
    }
}

// Returns a text with a name.
fn named(alloc: Global, name: &str, text: String) -> Result<Source, Failure>
    ensures { IfErr result IsUnread }
{
    Ok(Source {
        name: String::from_str(alloc, name)?,
        text,
        fault: None,
    })
}

// Says that an input was not read.
fn unreadable(alloc: Global, name: &str, e: io::Error) -> Result<Failure, AllocError>
    ensures { IfOk result IsUnread }
{
    if e.kind() == ErrorKind::OutOfMemory {
        return Ok(Failure::Memory);
    }
    if e.kind() == ErrorKind::InvalidData {
        return Ok(Failure::Input(format!(in alloc; "{name}: not UTF-8")?));
    }
    Ok(Failure::Input(format!(in alloc; "{name}: {e}")?))
}
