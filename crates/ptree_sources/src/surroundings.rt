//! The sources of a configuration, from what surrounds a program.
ghost use Rattle.std.specs.Prelude.{◌≡◌, ◌↔◌, Ok};
ghost use Rattle.std.specs.declared.io.ErrorKind.TheVariants.{NotFound};
ghost use Rattle.ptree_sources.specs.declared.opened.Opened.TheVariants.{Missing};

use crate::candidates::candidates;
use crate::environment::variables;
use crate::input::{InputError, read_input_bytes};
use crate::opened::Opened;
use crate::paths::Candidates;
use ptree::print_config::{FileSource, Sources};
use ptree::style::Counted;
use std::alloc::{AllocError, Global};
use std::env::{Env, FillError};
use std::fs::{self, File, Metadata};
use std::io::{ErrorKind, Read};
use std::os::unix::fs::{FileTypeExt, MetadataExt};
use std::rt::Files;

/// What surrounds a program, as far as a configuration comes from it.
#[derive(Debug, Drop)]
pub struct Surroundings {
    /// The environment's variables, and the file that they lead to.
    pub sources: Sources,

    /// The path of the file. If a variable names a file and there is none, it is the first path
    /// that was tried.
    pub path: Option<String>,
}

// A file, and its path if there is one.
#[derive(Drop)]
struct Found {
    file: FileSource,
    path: Option<String>,
}

/// Returns the variables of the environment, and the file that they lead to, as
/// [`candidates`](crate::candidates::candidates) says.
///
/// Entries that are not UTF-8 are left out. Only a regular file and the null device are opened.
/// It takes time and memory for the environment and the file.
///
/// # Errors
///
/// Memory ran out. A file that cannot be read is [`FileSource::Unreadable`], and no error.
pub fn gather<R: Env + Files>(rt: &R, alloc: Global) -> Result<Surroundings, AllocError>
where
    R::File: Drop,
{
    let variables = variables(alloc, &entries(rt, alloc)?)?;
    let candidates = candidates(alloc, &variables)?;
    let Found { file, path } = find_file(rt, alloc, &candidates)?;
    Ok(Surroundings {
        sources: Sources { file, variables },
        path,
    })
}

// Returns the entries of the environment, in order.
//
// They are read from the system's file. `Env::var_at` walks over all entries before the one that
// it is asked for, so it is used only if there is no such file.
fn entries<R: Env + Files>(rt: &R, alloc: Global) -> Result<Vec<Vec<u8>>, AllocError>
where
    R::File: Drop,
{
    let mut found = Vec::new(alloc);
    let block = environment_block(rt, alloc)?;
    if !block.is_empty() {
        for part in block.split(|b| *b == 0) {
            found.push(Vec::from_slice(alloc, part)?)?;
        }
        return Ok(found);
    }
    for i in 0..usize::MAX {
        let Some(entry) = entry(rt, alloc, i)? else {
            break;
        };
        found.push(entry)?;
    }
    Ok(found)
}

// Returns the entries, each ended by a zero byte, or nothing if the system's file cannot be read.
fn environment_block<R: Files>(rt: &R, alloc: Global) -> Result<Vec<u8>, AllocError>
where
    R::File: Drop,
{
    let file = match File::open(rt, "/proc/self/environ") {
        Ok(file) => file,
        Err(e) if e.kind() == ErrorKind::OutOfMemory => return Err(AllocError),
        Err(_) => return Ok(Vec::new(alloc)),
    };
    match read_input_bytes(alloc, &mut Counted::new(file)) {
        Ok(bytes) => Ok(bytes),
        Err(InputError::Memory) => Err(AllocError),
        Err(_) => Ok(Vec::new(alloc)),
    }
}

// Returns the first buffer size, 256 bytes. It suffices for most entries, and is doubled for longer
// ones.
fn first_size() -> usize {
    256
}

// Returns one entry of the environment, as bytes.
fn entry<R: Env>(rt: &R, alloc: Global, i: usize) -> Result<Option<Vec<u8>>, AllocError> {
    let mut size = first_size();
    for _ in 0..50u8 {
        let mut room = Vec::from_elem(alloc, 0u8, size)?;
        match rt.var_at(i, &mut room) {
            Ok(n) => {
                room.truncate(n);
                return Ok(Some(room));
            }
            Err(FillError::NotPresent) => return Ok(None),
            Err(FillError::TooLong) => size = size.saturating_mul(2),
        }
    }
    Err(AllocError)
}

// Returns the file at the first path that is not missing, with its path. If all are missing, and
// the user named them, that counts as an unreadable file at the first of them.
fn find_file<R: Files>(rt: &R, alloc: Global, candidates: &Candidates) -> Result<Found, AllocError>
where
    R::File: Drop,
{
    for path in &candidates.paths {
        if let Some(file) = source_at(rt, alloc, path.as_str())? {
            return Ok(Found {
                file,
                path: Some(path.clone()?),
            });
        }
    }
    match candidates.paths.first() {
        Some(path) if candidates.named => Ok(Found {
            file: FileSource::Unreadable,
            path: Some(path.clone()?),
        }),
        _ => Ok(Found {
            file: FileSource::Absent,
            path: None,
        }),
    }
}

// Returns the file at a path, or `None` if there is no such file.
fn source_at<R: Files>(rt: &R, alloc: Global, path: &str) -> Result<Option<FileSource>, AllocError>
where
    R::File: Drop,
{
    Ok(open(rt, alloc, path)?.source(path))
}

// Opens and reads a file. A FIFO would wait, and a device may have no end, so of what is no regular
// file only the null device is opened.
fn open<R: Files>(rt: &R, alloc: Global, path: &str) -> Result<Opened, AllocError>
where
    R::File: Drop,
{
    match fs::metadata(rt, path) {
        Ok(found) if found.is_file() || is_null(rt, &found) => {}
        Ok(_) => return Ok(Opened::Refused),
        Err(e) => return refused(e.kind()),
    }
    match File::open(rt, path) {
        Ok(file) => read(alloc, file),
        Err(e) => refused(e.kind()),
    }
}

// Whether a file is the null device.
fn is_null<R: Files>(rt: &R, found: &Metadata) -> bool {
    let Ok(null) = fs::metadata(rt, "/dev/null") else {
        return false;
    };
    found.file_type().is_char_device() && found.rdev() == null.rdev()
}

// Reads an open file. A read that fails or is interrupted is the last one.
fn read<F: Read + Drop>(alloc: Global, file: F) -> Result<Opened, AllocError> {
    match read_input_bytes(alloc, &mut Counted::new(file)) {
        Ok(bytes) => Ok(Opened::Read(bytes)),
        Err(InputError::Memory) => Err(AllocError),
        Err(_) => Ok(Opened::Refused),
    }
}

// Returns what it means that a file could not be opened. Only a file that is not found is missing.
fn refused(kind: ErrorKind) -> Result<Opened, AllocError>
    ensures { (result ≡ Ok Missing) ↔ (kind ≡ NotFound) }
{
    match kind {
        ErrorKind::NotFound => Ok(Opened::Missing),
        ErrorKind::OutOfMemory => Err(AllocError),
        _ => Ok(Opened::Refused),
    }
}
