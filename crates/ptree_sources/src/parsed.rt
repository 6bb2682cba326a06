//! Documents and values as `serde_json` and `toml` read and write them.
ghost use Rattle.serde_json.specs.Read.{read};
ghost use Rattle.serde_json.specs.View.{view as json_view};
ghost use Rattle.std.specs.Prelude.{◌≡◌, Some, None, IfOk, MatchOption, string_bytes};
ghost use Rattle.toml.specs.Parse.{parse_document};
ghost use Rattle.toml.specs.View.{view as toml_view, table_view};
ghost use Rattle.ptree.specs.File.{json, toml};
ghost use Rattle.ptree_sources.specs.WrittenValue.{IsWrittenValue};

use std::alloc::{AllocError, Global};
use std::fmt::{Display, Formatter};
use toml::Table;

/// Reads a text as JSON. There is no value if it is no document.
///
/// # Errors
///
/// Memory ran out.
pub fn read_json(alloc: Global, text: &str) -> Result<Option<serde_json::Value>, AllocError>
    ensures { IfOk result (λ found. MatchOption found (read text.now ≡ None)
        (λ value. read text.now ≡ Some (json_view value))) }
{
    match serde_json::Value::from_str(alloc, text) {
        Ok(value) => Ok(Some(value)),
        Err(e) => if e.is_memory() {
            Err(AllocError)
        } else {
            Ok(None)
        },
    }
}

/// Reads a text as TOML. There is no table if it is no document.
///
/// # Errors
///
/// Memory ran out.
pub fn read_toml(alloc: Global, text: &str) -> Result<Option<Table>, AllocError>
    ensures { IfOk result (λ found. MatchOption found (parse_document text.now ≡ None)
        (λ table. parse_document text.now ≡ Some (table_view table))) }
{
    match toml::table_from_str(alloc, text) {
        Ok(table) => Ok(Some(table)),
        Err(e) => if e.is_memory() {
            Err(AllocError)
        } else {
            Ok(None)
        },
    }
}

/// Returns how `toml` writes a value.
///
/// # Errors
///
/// Memory ran out.
pub fn written_toml(alloc: Global, value: &toml::Value) -> Result<String, AllocError>
    ensures { IfOk result (λ s. IsWrittenValue (toml (toml_view value.now)) (string_bytes s)) }
{
    let mut f = Formatter::new(String::new(alloc));
    match value.fmt(&mut f) {
        Ok(()) => Ok(f.into_inner()),
        Err(_) => Err(AllocError),
    }
}

/// Returns how `serde_json` writes a value.
///
/// # Errors
///
/// Memory ran out.
pub fn written_json(alloc: Global, value: &serde_json::Value) -> Result<String, AllocError>
    ensures { IfOk result (λ s. IsWrittenValue (json (json_view value.now)) (string_bytes s)) }
{
    value.to_string(alloc)
}
