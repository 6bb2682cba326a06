//! Callers that return errors of std.
ghost use Rattle.std.specs.IoError.{error_kind};
ghost use Rattle.std.specs.Prelude.{◌≡◌, None, IsErrAnd};
ghost use Rattle.ptree.specs.Characters.{set_named};
ghost use Rattle.std.specs.declared.io.ErrorKind.{ErrorKind};
ghost use Rattle.ptree.specs.declared.read.ReadError.{ReadError};

use ptree::errors::io_error;
use ptree::print_config::IndentChars;
use ptree::read::ReadError;
use std::alloc::Global;
use std::io::{self, ErrorKind};

/// The set of a name. Without such a set `?` gives an error of a wrong argument.
pub fn characters_named(alloc: Global, name: &str) -> io::Result<IndentChars>
    ensures { set_named name.now ≡ None
        → IsErrAnd result (λ e. error_kind e ≡ ErrorKind.InvalidInput) }
{
    Ok(IndentChars::from_name(alloc, name)?)
}

/// What `?` makes of a drawing that ends too early.
pub fn incomplete() -> io::Error
    ensures { error_kind result ≡ ErrorKind.UnexpectedEof }
{
    io::Error::from(ReadError::End)
}

/// An error of std for a number that is too large.
pub fn too_large(number: &u64) -> io::Error
    ensures { error_kind result ≡ ErrorKind.InvalidData }
{
    io_error(ErrorKind::InvalidData, number)
}
