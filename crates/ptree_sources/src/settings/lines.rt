//! The line of a fault in a configuration file.
ghost use Rattle.std.specs.Prelude.{◌≡◌, ◌↔◌, ℕ, ◌<◌, ◌++◌, Some, codes, string_bytes, Contains, IfOk, IfSome, IfNone, IsSome, IsTrue};
ghost use Rattle.ptree.specs.Loading.{file_fault};
ghost use Rattle.ptree.specs.declared.print_config.loader.Fault.{Fault};
ghost use Rattle.ptree_sources.specs.FaultLine.{fault_key, file_text, faults_of_text, Heals, IsPlace, last_line, IsKeyLine, IsLineIn};

use ptree::print_config::{Fault, FileSource, Sources, faults, syntax_line};
use std::alloc::{AllocError, Global};

// How many places of a key are tried. Each takes the time of loading.
const PLACES: u8 = 32;

/// Returns the line of a fault in the file, counted from 1, where it is known: that of a syntax
/// error, or that of the key whose value is wrong.
///
/// A key is found where another key in its place would leave a document without the fault. If it
/// stands there with an escape, or comes up 32 times or more after that line, its line is not
/// known.
///
/// It takes up to 32 times the time of [`load`](ptree::print_config::load).
///
/// # Errors
///
/// Memory ran out.
pub fn fault_line(
    alloc: Global,
    file: &FileSource,
    fault: Fault,
) -> Result<Option<usize>, AllocError>
    ensures syntax { fault ≡ Fault.Syntax → IfOk result (λ line.
        IsSome line ↔ (file_fault file.now ≡ Some Fault.Syntax)) }
    ensures key { ¬ (fault ≡ Fault.Syntax)
        → IfOk result (IsLineIn file.now fault (fault_key fault) (file_text file.now)) }
{
    let key = match fault {
        Fault::Unreadable | Fault::Variable(_) => return Ok(None),
        Fault::Syntax => return syntax_line(alloc, file),
        Fault::Table(part) => part.key(),
        Fault::Key(field) => field.key(),
    };
    match file {
        FileSource::Toml(text) => key_line(alloc, file, text.as_str(), fault, key),
        FileSource::Json(text) => key_line(alloc, file, text.as_str(), fault, key),
        _ => Ok(None),
    }
}

// Returns the line of the last place of a key where a fault is, if it is one of the last 32.
fn key_line(
    alloc: Global,
    file: &FileSource,
    text: &str,
    fault: Fault,
    key: &str,
) -> Result<Option<usize>, AllocError>
    ensures { IfOk result (IsKeyLine file.now fault key.now text.now) }
{
    let mut end = text.len();
    for place in 0..PLACES {
        let Some(at) = last_place(text, key, end) else {
            return Ok(None);
        };
        let (before, behind) = text.split_at(at);
        if is_healed(alloc, file, before, behind, fault)? {
            return Ok(Some(last_line(before)));
        }
        end = at;
    }
    Ok(None)
}

// Returns the line in which a text ends, counted from 1.
fn last_line(text: &str) -> usize
    ensures { result ≡ last_line text.now }
{
    let ended = text.as_bytes().iter().filter(|b| **b == b'\n').count();
    ended.saturating_add(1)
}

// Returns the last place of a key before another place.
fn last_place(text: &str, key: &str, end: usize) -> Option<usize>
    ensures before { IfSome result (λ at. at < end) }
    ensures place { IfSome result (IsPlace key.now text.now) }
    ensures later { IfSome result (λ at. (other : ℕ) → at < other → other < end
        → ¬ (IsPlace key.now text.now other)) }
    ensures none { IfNone result ((other : ℕ) → other < end
        → ¬ (IsPlace key.now text.now other)) }
{
    for at in (0..end).rev() {
        if is_place(text, key, at) {
            return Some(at);
        }
    }
    None
}

// Whether a key stands at a place of a text.
fn is_place(text: &str, key: &str, at: usize) -> bool
    ensures { IsTrue result ↔ IsPlace key.now text.now at }
{
    if at >= text.len() {
        return false;
    }
    match text.split_at_checked(at) {
        Some((_, behind)) => behind.starts_with(key),
        None => false,
    }
}

// Whether a text, with `_` between its two parts, is a document without a fault.
fn is_healed(
    alloc: Global,
    file: &FileSource,
    before: &str,
    behind: &str,
    fault: Fault,
) -> Result<bool, AllocError>
    ensures { IfOk result (λ b. IsTrue b
        ↔ Heals file.now fault (before.now ++ codes "_" ++ behind.now)) }
{
    let other = format!(in alloc; "{before}_{behind}")?;
    let found = faults_of(alloc, file, other)?;
    if has_fault(&found, Fault::Syntax) {
        return Ok(false);
    }
    if has_fault(&found, fault) {
        return Ok(false);
    }
    Ok(true)
}

// Returns the faults of a text in the format of a file.
fn faults_of(alloc: Global, file: &FileSource, text: String) -> Result<Vec<Fault>, AllocError>
    ensures { IfOk result (λ found. found.items ≡ faults_of_text file.now (string_bytes text)) }
{
    let file = match file {
        FileSource::Absent | FileSource::Unreadable => return Ok(Vec::new(alloc)),
        FileSource::Toml(_) => FileSource::Toml(text),
        FileSource::Json(_) => FileSource::Json(text),
    };
    let sources = Sources {
        file,
        variables: Vec::new(alloc),
    };
    faults(alloc, &sources)
}

// Whether a fault is among some.
fn has_fault(faults: &[Fault], fault: Fault) -> bool
    ensures { IsTrue result ↔ Contains faults.now fault }
{
    faults.contains(&fault)
}
