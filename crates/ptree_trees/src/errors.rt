//! What becomes which error: a refusal of memory, and each of them as one of std.
ghost use Rattle.std.specs.IoError.{error_kind};
ghost use Rattle.std.specs.Prelude.{◌≡◌};
ghost use Rattle.ptree_trees.specs.Errors.{drawings_kind, indent_kind, write_kind};
ghost use Rattle.ptree_trees.specs.declared.indented.IndentError.TheVariants as indent;
ghost use Rattle.ptree_trees.specs.declared.indented.WriteError.TheVariants as write;

use crate::difference::DrawingsError;
use crate::indented::{IndentError, WriteError};
use ptree::errors::io_error;
use ptree::read::ReadError;
use std::alloc::{AllocError, AllocFailed};
use std::io::{self, ErrorKind};

impl From<AllocError> for IndentError {
    ghost from_gives = { λ _ e. e ≡ indent.Memory };

    fn from(_e: AllocError) -> IndentError {
        IndentError::Memory
    }
}

impl<T: Drop> From<AllocFailed<T>> for IndentError {
    ghost from_gives = { λ _ e. e ≡ indent.Memory };

    fn from(_e: AllocFailed<T>) -> IndentError {
        IndentError::Memory
    }
}

impl From<AllocError> for WriteError {
    ghost from_gives = { λ _ e. e ≡ write.Memory };

    fn from(_e: AllocError) -> WriteError {
        WriteError::Memory
    }
}

impl From<IndentError> for io::Error {
    ghost from_gives = { λ e told. error_kind told ≡ indent_kind e };

    /// Returns an error with the same text, of the kind `InvalidData`, `UnexpectedEof` if the text
    /// is incomplete, or `OutOfMemory`.
    fn from(e: IndentError) -> io::Error {
        let kind = match e {
            IndentError::Line(_) => ErrorKind::InvalidData,
            IndentError::End => ErrorKind::UnexpectedEof,
            IndentError::Memory => ErrorKind::OutOfMemory,
        };
        io_error(kind, &e)
    }
}

impl From<WriteError> for io::Error {
    ghost from_gives = { λ e told. error_kind told ≡ write_kind e };

    /// Returns an error with the same text, of the kind `InvalidInput` or `OutOfMemory`.
    fn from(e: WriteError) -> io::Error {
        let kind = match e {
            WriteError::Text => ErrorKind::InvalidInput,
            WriteError::Memory => ErrorKind::OutOfMemory,
        };
        io_error(kind, &e)
    }
}

impl From<DrawingsError> for io::Error {
    ghost from_gives = { λ e told. error_kind told ≡ drawings_kind e };

    /// Returns an error with the same text, of the kind `InvalidData`, `UnexpectedEof` if a text is
    /// incomplete, or `OutOfMemory`.
    fn from(e: DrawingsError) -> io::Error {
        let error = match e {
            DrawingsError::Left(error) => error,
            DrawingsError::Right(error) => error,
        };
        let kind = match error {
            ReadError::Line(_) => ErrorKind::InvalidData,
            ReadError::End => ErrorKind::UnexpectedEof,
            ReadError::Memory => ErrorKind::OutOfMemory,
        };
        io_error(kind, &e)
    }
}
