//! What becomes which error: a refusal of memory, another error, and each of them as one of std.
ghost use Rattle.std.specs.IoError.{error_kind};
ghost use Rattle.std.specs.Prelude.{◌≡◌};
ghost use Rattle.ptree.specs.Errors.{add_kind, chars_kind, convert_kind, edge_kind, item_error, read_kind, IsDocIoError};
ghost use Rattle.ptree.specs.declared.builder.AddError.TheVariants as add;
ghost use Rattle.ptree.specs.declared.graph.EdgeError.TheVariants as edge;
ghost use Rattle.ptree.specs.declared.output.writer.ItemError.TheVariants as item;
ghost use Rattle.ptree.specs.declared.read.ReadError.TheVariants as read;
ghost use Rattle.ptree.specs.declared.print_config.characters.CharsError.TheVariants as chars;
ghost use Rattle.ptree.specs.declared.sink.DrawError.TheVariants as draw;
ghost use Rattle.ptree.specs.declared.value.convert.ConvertError.TheVariants as convert;
ghost use Rattle.ptree.specs.declared.value.document.DocError.TheVariants as doc;

use crate::builder::AddError;
use crate::graph::EdgeError;
use crate::output::ItemError;
use crate::print_config::{CharsError, Fault};
use crate::read::ReadError;
use crate::sink::DrawError;
use crate::value::{ConvertError, DocError};
use std::alloc::{AllocError, AllocFailed};
use std::fmt::Display;
use std::io::{self, Cursor, ErrorKind, Write};
use std::str;

impl From<AllocError> for AddError {
    ghost from_gives = { λ _ e. e ≡ add.Memory };

    fn from(_e: AllocError) -> AddError {
        AddError::Memory
    }
}

impl<T: Drop> From<AllocFailed<T>> for AddError {
    ghost from_gives = { λ _ e. e ≡ add.Memory };

    fn from(_e: AllocFailed<T>) -> AddError {
        AddError::Memory
    }
}

impl From<AddError> for ItemError {
    ghost from_gives = { λ e result. result ≡ item_error e };

    fn from(e: AddError) -> ItemError {
        match e {
            AddError::Level => ItemError::Level,
            AddError::Memory => ItemError::Draw(DrawError::Memory),
        }
    }
}

impl From<AllocError> for ItemError {
    ghost from_gives = { λ _ e. e ≡ item.Draw draw.Memory };

    fn from(_e: AllocError) -> ItemError {
        ItemError::Draw(DrawError::Memory)
    }
}

impl<T: Drop> From<AllocFailed<T>> for ItemError {
    ghost from_gives = { λ _ e. e ≡ item.Draw draw.Memory };

    fn from(_e: AllocFailed<T>) -> ItemError {
        ItemError::Draw(DrawError::Memory)
    }
}

impl From<AllocError> for EdgeError {
    ghost from_gives = { λ _ e. e ≡ edge.Memory };

    fn from(_e: AllocError) -> EdgeError {
        EdgeError::Memory
    }
}

impl<T: Drop> From<AllocFailed<T>> for EdgeError {
    ghost from_gives = { λ _ e. e ≡ edge.Memory };

    fn from(_e: AllocFailed<T>) -> EdgeError {
        EdgeError::Memory
    }
}

impl From<AllocError> for ReadError {
    ghost from_gives = { λ _ e. e ≡ read.Memory };

    fn from(_e: AllocError) -> ReadError {
        ReadError::Memory
    }
}

impl<T: Drop> From<AllocFailed<T>> for ReadError {
    ghost from_gives = { λ _ e. e ≡ read.Memory };

    fn from(_e: AllocFailed<T>) -> ReadError {
        ReadError::Memory
    }
}

impl From<AllocError> for CharsError {
    ghost from_gives = { λ _ e. e ≡ chars.Memory };

    fn from(_e: AllocError) -> CharsError {
        CharsError::Memory
    }
}

impl<T: Drop> From<AllocFailed<T>> for CharsError {
    ghost from_gives = { λ _ e. e ≡ chars.Memory };

    fn from(_e: AllocFailed<T>) -> CharsError {
        CharsError::Memory
    }
}

impl From<AllocError> for DrawError {
    ghost from_gives = { λ _ e. e ≡ draw.Memory };

    fn from(_e: AllocError) -> DrawError {
        DrawError::Memory
    }
}

impl<T: Drop> From<AllocFailed<T>> for DrawError {
    ghost from_gives = { λ _ e. e ≡ draw.Memory };

    fn from(_e: AllocFailed<T>) -> DrawError {
        DrawError::Memory
    }
}

impl From<AllocError> for ConvertError {
    ghost from_gives = { λ _ e. e ≡ convert.Memory };

    fn from(_e: AllocError) -> ConvertError {
        ConvertError::Memory
    }
}

impl<T: Drop> From<AllocFailed<T>> for ConvertError {
    ghost from_gives = { λ _ e. e ≡ convert.Memory };

    fn from(_e: AllocFailed<T>) -> ConvertError {
        ConvertError::Memory
    }
}

impl From<ConvertError> for DocError {
    ghost use Rattle.ptree.specs.Document.{document_error};

    ghost from_gives = { λ e told. told ≡ document_error e };

    fn from(e: ConvertError) -> DocError {
        match e {
            ConvertError::Float => DocError::Float,
            ConvertError::Date => DocError::Date,
            ConvertError::Memory => DocError::Draw(DrawError::Memory),
        }
    }
}

impl From<DrawError> for DocError {
    ghost from_gives = { λ e told. told ≡ doc.Draw e };

    fn from(e: DrawError) -> DocError {
        DocError::Draw(e)
    }
}

impl From<AllocError> for DocError {
    ghost from_gives = { λ _ told. told ≡ doc.Draw draw.Memory };

    fn from(_e: AllocError) -> DocError {
        DocError::Draw(DrawError::Memory)
    }
}

impl<T: Drop> From<AllocFailed<T>> for DocError {
    ghost from_gives = { λ _ told. told ≡ doc.Draw draw.Memory };

    fn from(_e: AllocFailed<T>) -> DocError {
        DocError::Draw(DrawError::Memory)
    }
}

// No text of this library's errors is longer.
const ROOM: usize = 128;

/// Returns an error of std of this kind with the text of another error.
///
/// Std keeps 80 bytes of the text, and ends a longer one in three dots. A text of more than 128
/// bytes may be left out. It does not allocate.
pub fn io_error<E: Display>(kind: ErrorKind, error: &E) -> io::Error
    ensures { error_kind result ≡ kind }
{
    let mut room = Cursor::new([0u8; ROOM]);
    let _ = write!(room, "{error}");
    let end = room.position() as usize;
    match str::from_utf8(room.get_ref().get(..end).unwrap_or(b"")) {
        Ok(text) => io::Error::new(kind, text),
        Err(_) => io::Error::from(kind),
    }
}

impl From<DrawError> for io::Error {
    ghost use Rattle.ptree.specs.Errors.{IsIoError};

    ghost from_gives = { IsIoError };

    /// Returns the writer's own error, or one of the kind `WriteZero` or `OutOfMemory`.
    fn from(e: DrawError) -> io::Error {
        match e {
            DrawError::Write(e) => e,
            DrawError::Zero => io::Error::from(ErrorKind::WriteZero),
            DrawError::Memory => io::Error::from(ErrorKind::OutOfMemory),
        }
    }
}

impl From<AddError> for io::Error {
    ghost from_gives = { λ e told. error_kind told ≡ add_kind e };

    /// Returns an error with the same text, of the kind `InvalidInput` or `OutOfMemory`.
    fn from(e: AddError) -> io::Error {
        let kind = match e {
            AddError::Level => ErrorKind::InvalidInput,
            AddError::Memory => ErrorKind::OutOfMemory,
        };
        io_error(kind, &e)
    }
}

impl From<ItemError> for io::Error {
    ghost use Rattle.ptree.specs.Errors.{IsItemIoError};

    ghost from_gives = { IsItemIoError };

    /// Returns what a failed drawing's error gives, or else an error with the same text, of the
    /// kind `InvalidInput`.
    fn from(e: ItemError) -> io::Error {
        match e {
            ItemError::Draw(e) => io::Error::from(e),
            refused => io_error(ErrorKind::InvalidInput, &refused),
        }
    }
}

impl From<EdgeError> for io::Error {
    ghost from_gives = { λ e told. error_kind told ≡ edge_kind e };

    /// Returns an error with the same text, of the kind `InvalidInput` or `OutOfMemory`.
    fn from(e: EdgeError) -> io::Error {
        let kind = match e {
            EdgeError::NoNode => ErrorKind::InvalidInput,
            EdgeError::Memory => ErrorKind::OutOfMemory,
        };
        io_error(kind, &e)
    }
}

impl From<CharsError> for io::Error {
    ghost from_gives = { λ e told. error_kind told ≡ chars_kind e };

    /// Returns an error with the same text, of the kind `InvalidInput` or `OutOfMemory`.
    fn from(e: CharsError) -> io::Error {
        let kind = match e {
            CharsError::Unknown => ErrorKind::InvalidInput,
            CharsError::Memory => ErrorKind::OutOfMemory,
        };
        io_error(kind, &e)
    }
}

impl From<ReadError> for io::Error {
    ghost from_gives = { λ e told. error_kind told ≡ read_kind e };

    /// Returns an error with the same text, of the kind `InvalidData`, `UnexpectedEof` if the text
    /// is incomplete, or `OutOfMemory`.
    fn from(e: ReadError) -> io::Error {
        let kind = match e {
            ReadError::Line(_) => ErrorKind::InvalidData,
            ReadError::End => ErrorKind::UnexpectedEof,
            ReadError::Memory => ErrorKind::OutOfMemory,
        };
        io_error(kind, &e)
    }
}

impl From<ConvertError> for io::Error {
    ghost from_gives = { λ e told. error_kind told ≡ convert_kind e };

    /// Returns an error with the same text, of the kind `InvalidData` or `OutOfMemory`.
    fn from(e: ConvertError) -> io::Error {
        let kind = match e {
            ConvertError::Float | ConvertError::Date => ErrorKind::InvalidData,
            ConvertError::Memory => ErrorKind::OutOfMemory,
        };
        io_error(kind, &e)
    }
}

impl From<DocError> for io::Error {
    ghost from_gives = { IsDocIoError };

    /// Returns what a failed drawing's error gives, or else an error with the same text, of the
    /// kind `InvalidData`.
    fn from(e: DocError) -> io::Error {
        match e {
            DocError::Draw(e) => io::Error::from(e),
            refused => io_error(ErrorKind::InvalidData, &refused),
        }
    }
}

impl From<Fault> for io::Error {
    ghost use Rattle.std.specs.declared.io.ErrorKind.TheVariants.{InvalidData};

    ghost from_gives = { λ _ told. error_kind told ≡ InvalidData };

    /// Returns an error with the same text, of the kind `InvalidData`.
    fn from(e: Fault) -> io::Error {
        io_error(ErrorKind::InvalidData, &e)
    }
}
