//! The keys of a configuration file, with their values.
ghost use Rattle.std.specs.Prelude.{◌≡◌, map, flat_map, option_copied, option_map, IfOk, OnOk, Some, None, string_bytes};
ghost use Rattle.serde_json.specs.View.{view as json_view, members_view as json_members};
ghost use Rattle.toml.specs.View.{view as toml_view, members_view as toml_members};
ghost use Rattle.ptree.specs.File.{json, toml};
ghost use Rattle.ptree.specs.Matched.{AreMatched};
ghost use Rattle.ptree.specs.Sources.{file_document};
ghost use Rattle.ptree_sources.specs.Settings.{IsEntry, field_at, has_fields, is_known, key_in, json_keys, toml_keys, keys_at, file_keys, key_name};
ghost use Rattle.ptree_sources.specs.KeyLists.{AddsKeys};

use super::names::{field_at, is_known};
use crate::parsed::{read_json, read_toml, written_json, written_toml};
use ptree::print_config::{Field, FileSource};
use serde_json::Map;
use std::alloc::{AllocError, Global};
use std::fmt;
use toml::Table;

/// A key of a configuration file, with its value.
#[derive(Debug, Drop)]
pub struct Entry {
    /// The key of the table that holds it, if that is one of the three that have fields.
    pub table: Option<String>,

    /// Its own key.
    pub key: String,

    /// Its value, in the file's format.
    pub value: String,

    /// The text that its value is, if it is one.
    pub text: Option<String>,
}

impl Entry {
    /// Whether it is the key of a field, or of the table of a style.
    pub fn is_known(&self) -> bool
        ensures { result ≡ is_known (option_map string_bytes self.now.table)
            (string_bytes self.now.key) }
    {
        match &self.table {
            Some(table) => is_known(Some(table.as_str()), self.key.as_str()),
            None => is_known(None, self.key.as_str()),
        }
    }

    // Returns the field that it is the key of, if it is that of one.
    pub(super) fn field(&self) -> Option<Field>
        ensures { result ≡ field_at (option_map string_bytes self.now.table)
            (string_bytes self.now.key) }
    {
        match &self.table {
            Some(table) => field_at(Some(table.as_str()), self.key.as_str()),
            None => field_at(None, self.key.as_str()),
        }
    }
}

impl fmt::Display for Entry {
    ghost output = { λ entry. Some (key_name (option_map string_bytes entry.table)
        (string_bytes entry.key)) };

    fn fmt<W: fmt::Write>(&self, f: &mut fmt::Formatter<W>) -> fmt::Result {
        match &self.table {
            Some(table) => write!(f, "{table}.{}", self.key),
            None => write!(f, "{}", self.key),
        }
    }
}

/// Returns the keys of a file with their values: those at its top in the order of its format's
/// reader, where each of the three tables with fields has its keys in its place. There are none if
/// the file has no document.
///
/// It takes the time of reading the file, and allocates the result.
///
/// # Errors
///
/// Memory ran out.
pub fn entries(alloc: Global, file: &FileSource) -> Result<Vec<Entry>, AllocError>
    ensures { IfOk result (λ found.
        AreMatched IsEntry (file_keys (file_document file.now)) found.items) }
{
    match file {
        FileSource::Absent | FileSource::Unreadable => Ok(Vec::new(alloc)),
        FileSource::Toml(text) => match read_toml(alloc, text.as_str())? {
            Some(top) => toml_file_entries(alloc, &top),
            None => Ok(Vec::new(alloc)),
        },
        FileSource::Json(text) => match read_json(alloc, text.as_str())? {
            Some(value) => json_value_entries(alloc, &value),
            None => Ok(Vec::new(alloc)),
        },
    }
}

// Whether fields stand in a table of this key.
fn has_fields(key: &str) -> bool
    ensures { result ≡ has_fields key.now }
{
    key == "characters" || key == "branch" || key == "leaf"
}

// Returns the keys of a document in TOML.
fn toml_file_entries(alloc: Global, top: &Table) -> Result<Vec<Entry>, AllocError>
    ensures { IfOk result (λ found. AreMatched IsEntry
        (flat_map keys_at (toml_keys (toml_members top.now.entries))) found.items) }
{
    let mut found = Vec::new(alloc);
    for (key, value) in top.iter() {
        push_toml_at(alloc, &mut found, key.as_str(), value)?;
    }
    Ok(found)
}

// Adds a key at the top of a document in TOML, or in its place those in its table.
fn push_toml_at(
    alloc: Global,
    found: &mut Vec<Entry>,
    key: &str,
    value: &toml::Value,
) -> Result<(), AllocError>
    ensures { OnOk result (AddsKeys found.old.items found.new.items
        (keys_at (key.now, toml (toml_view value.now)))) }
{
    if let toml::Value::Table(table) = value {
        if has_fields(key) {
            return push_toml_table(alloc, found, key, table);
        }
    }
    let entry = toml_entry(alloc, None, key, value)?;
    found.push(entry)?;
    Ok(())
}

// Adds the keys of a table of TOML.
fn push_toml_table(
    alloc: Global,
    found: &mut Vec<Entry>,
    key: &str,
    table: &Table,
) -> Result<(), AllocError>
    ensures { OnOk result (AddsKeys found.old.items found.new.items
        (map (key_in (Some key.now)) (toml_keys (toml_members table.now.entries)))) }
{
    for (inner, value) in table.iter() {
        let entry = toml_entry(alloc, Some(key), inner.as_str(), value)?;
        found.push(entry)?;
    }
    Ok(())
}

// Returns a key of TOML.
fn toml_entry(
    alloc: Global,
    table: Option<&str>,
    key: &str,
    value: &toml::Value,
) -> Result<Entry, AllocError>
    ensures { IfOk result
        (IsEntry (key_in (option_copied table.entry) (key.now, toml (toml_view value.now)))) }
{
    let text = written_toml(alloc, value)?;
    new_entry(alloc, table, key, text, value.as_str())
}

// Returns the keys of a value of JSON.
fn json_value_entries(alloc: Global, value: &serde_json::Value) -> Result<Vec<Entry>, AllocError>
    ensures { IfOk result (λ found.
        AreMatched IsEntry (file_keys (Some (json (json_view value.now)))) found.items) }
{
    match value {
        serde_json::Value::Object(top) => json_file_entries(alloc, top),
        _ => Ok(Vec::new(alloc)),
    }
}

// Returns the keys of a document in JSON.
fn json_file_entries(
    alloc: Global,
    top: &Map<String, serde_json::Value>,
) -> Result<Vec<Entry>, AllocError>
    ensures { IfOk result (λ found. AreMatched IsEntry
        (flat_map keys_at (json_keys (json_members top.now.entries))) found.items) }
{
    let mut found = Vec::new(alloc);
    for (key, value) in top.iter() {
        push_json_at(alloc, &mut found, key.as_str(), value)?;
    }
    Ok(found)
}

// Adds a key at the top of a document in JSON, or in its place those in its object.
fn push_json_at(
    alloc: Global,
    found: &mut Vec<Entry>,
    key: &str,
    value: &serde_json::Value,
) -> Result<(), AllocError>
    ensures { OnOk result (AddsKeys found.old.items found.new.items
        (keys_at (key.now, json (json_view value.now)))) }
{
    if let serde_json::Value::Object(table) = value {
        if has_fields(key) {
            return push_json_table(alloc, found, key, table);
        }
    }
    let entry = json_entry(alloc, None, key, value)?;
    found.push(entry)?;
    Ok(())
}

// Adds the keys of an object of JSON.
fn push_json_table(
    alloc: Global,
    found: &mut Vec<Entry>,
    key: &str,
    table: &Map<String, serde_json::Value>,
) -> Result<(), AllocError>
    ensures { OnOk result (AddsKeys found.old.items found.new.items
        (map (key_in (Some key.now)) (json_keys (json_members table.now.entries)))) }
{
    for (inner, value) in table.iter() {
        let entry = json_entry(alloc, Some(key), inner.as_str(), value)?;
        found.push(entry)?;
    }
    Ok(())
}

// Returns a key of JSON.
fn json_entry(
    alloc: Global,
    table: Option<&str>,
    key: &str,
    value: &serde_json::Value,
) -> Result<Entry, AllocError>
    ensures { IfOk result
        (IsEntry (key_in (option_copied table.entry) (key.now, json (json_view value.now)))) }
{
    let text = written_json(alloc, value)?;
    new_entry(alloc, table, key, text, value.as_str())
}

// Returns an entry of these parts.
fn new_entry(
    alloc: Global,
    table: Option<&str>,
    key: &str,
    value: String,
    text: Option<&str>,
) -> Result<Entry, AllocError>
    ensures table { IfOk result (λ entry.
        option_map string_bytes entry.table ≡ option_copied table.entry) }
    ensures key { IfOk result (λ entry. string_bytes entry.key ≡ key.now) }
    ensures value { IfOk result (λ entry. entry.value ≡ value) }
    ensures text { IfOk result (λ entry.
        option_map string_bytes entry.text ≡ option_copied text.entry) }
{
    Ok(Entry {
        table: copy(alloc, table)?,
        key: String::from_str(alloc, key)?,
        value,
        text: copy(alloc, text)?,
    })
}

// Returns a copy of a text, if there is one.
pub(super) fn copy(alloc: Global, text: Option<&str>) -> Result<Option<String>, AllocError>
    ensures { IfOk result (λ s. option_map string_bytes s ≡ option_copied text.entry) }
{
    match text {
        Some(text) => Ok(Some(String::from_str(alloc, text)?)),
        None => Ok(None),
    }
}
