//! What both conversions share: making an entry, and why a document's value cannot be converted.
ghost use Rattle.std.specs.Prelude.{◌≡◌, [], ◌∷◌, ◌++◌, map, OnOk};
ghost use Rattle.ptree.specs.Data.{string};
ghost use Rattle.ptree.specs.Value.{data_of, entry_of};

use super::Value;
use std::alloc::{AllocError, Global};
use std::error::Error;
use std::fmt;

/// Why a value of a document could not be converted.
///
/// The whole value is searched first: lists in order, and maps by ascending keys. Keys are compared
/// by the bytes of their UTF-8.
#[derive(Debug, Clone, Copy, PartialEq, Eq)]
pub enum ConvertError {
    /// The value holds a float, before any date.
    Float,

    /// The value holds a date or a time, before any float.
    Date,

    /// Memory ran out.
    Memory,
}

impl fmt::Display for ConvertError {
    fn fmt<W: fmt::Write>(&self, f: &mut fmt::Formatter<W>) -> fmt::Result {
        f.write_str(match self {
            ConvertError::Float => "a float, which is not drawn",
            ConvertError::Date => "a date or a time, which is not drawn",
            ConvertError::Memory => "out of memory",
        })
    }
}

impl Error for ConvertError {}

// Puts a value under a key of its own.
#[inline(always)]
pub(super) fn push_entry(
    alloc: Global,
    entries: &mut Vec<(Value, Value)>,
    key: &str,
    value: Value,
) -> Result<(), AllocError>
    ensures { OnOk result (map entry_of entries.new.items
        ≡ map entry_of entries.old.items
        ++ (string key.now, data_of value) ∷ []) }
{
    entries.push((Value::String(String::from_str(alloc, key)?), value))?;
    Ok(())
}
