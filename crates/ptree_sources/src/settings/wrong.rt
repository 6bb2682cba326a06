//! The wrong value that a fault of the sources is about.
ghost use Rattle.std.specs.Prelude.{option_copied, IfOk, Some};
ghost use Rattle.serde_json.specs.View.{view as json_view};
ghost use Rattle.toml.specs.View.{view as toml_view};
ghost use Rattle.ptree.specs.File.{json, toml, get};
ghost use Rattle.ptree.specs.Sources.{file_document};
ghost use Rattle.ptree_sources.specs.Settings.{IsWrongValue, IsShown, value_at};

use super::keys::copy;
use crate::parsed::{read_json, read_toml, written_json, written_toml};
use ptree::print_config::{Fault, FileSource, Sources, Spelling, last_value};
use std::alloc::{AllocError, Global};

/// Returns the wrong value that a fault is about, if it is about one: the text of a variable, or
/// the value at a key as its crate writes it.
///
/// It allocates the result, and takes the time of reading the file if the value is in that.
///
/// # Errors
///
/// Memory ran out.
#[tactic(auto, unfolding(ptree::specs::Sources::variable, ptree::specs::Sources::node, ptree::specs::Sources::table_at))]
pub fn wrong_value(
    alloc: Global,
    sources: &Sources,
    fault: Fault,
) -> Result<Option<String>, AllocError>
    ensures { IfOk result (IsWrongValue sources.now fault) }
{
    match fault {
        Fault::Unreadable | Fault::Syntax => Ok(None),
        Fault::Variable(field) => {
            let value = last_value(Spelling::AnyCase, field.variable(), &sources.variables);
            copy(alloc, value)
        }
        Fault::Table(part) => value_at(alloc, &sources.file, None, part.key()),
        Fault::Key(field) => value_at(alloc, &sources.file, field.table(), field.key()),
    }
}

// Returns the value at a key of a file, in a table or at the top, as its crate writes it.
fn value_at(
    alloc: Global,
    file: &FileSource,
    table: Option<&str>,
    key: &str,
) -> Result<Option<String>, AllocError>
    ensures { IfOk result
        (IsShown (value_at (option_copied table.entry) key.now (file_document file.now))) }
{
    match file {
        FileSource::Absent | FileSource::Unreadable => Ok(None),
        FileSource::Toml(text) => match read_toml(alloc, text.as_str())? {
            Some(top) => toml_value_at(alloc, &toml::Value::Table(top), table, key),
            None => Ok(None),
        },
        FileSource::Json(text) => match read_json(alloc, text.as_str())? {
            Some(top) => json_value_at(alloc, &top, table, key),
            None => Ok(None),
        },
    }
}

// Returns the value at a key of a value of TOML, as `toml` writes it.
fn toml_value_at(
    alloc: Global,
    top: &toml::Value,
    table: Option<&str>,
    key: &str,
) -> Result<Option<String>, AllocError>
    ensures { IfOk result (IsShown
        (value_at (option_copied table.entry) key.now (Some (toml (toml_view top.now))))) }
{
    let holder = match table {
        None => top,
        Some(table) => match top.get(table) {
            Some(holder) => holder,
            None => return Ok(None),
        },
    };
    match holder.get(key) {
        Some(value) => Ok(Some(written_toml(alloc, value)?)),
        None => Ok(None),
    }
}

// Returns the value at a key of a value of JSON, as `serde_json` writes it.
fn json_value_at(
    alloc: Global,
    top: &serde_json::Value,
    table: Option<&str>,
    key: &str,
) -> Result<Option<String>, AllocError>
    ensures { IfOk result (IsShown
        (value_at (option_copied table.entry) key.now (Some (json (json_view top.now))))) }
{
    let holder = match table {
        None => top,
        Some(table) => match top.get(table) {
            Some(holder) => holder,
            None => return Ok(None),
        },
    };
    match holder.get(key) {
        Some(value) => Ok(Some(written_json(alloc, value)?)),
        None => Ok(None),
    }
}
