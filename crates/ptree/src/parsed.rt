//! Documents as their parsers return them, and the values in them.
ghost use Rattle.serde_json.specs.Read.{read};
ghost use Rattle.serde_json.specs.View as json;
ghost use Rattle.std.specs.Prelude.{◌≡◌, Some, None, IfOk, MatchResult};
ghost use Rattle.toml.specs.Parse.{parse_document};
ghost use Rattle.toml.specs.View as toml;
ghost use Rattle.ptree.specs.Lent.{document_of, node_of};

use std::alloc::{AllocError, Global};
use toml::Table;

/// A document as its parser returned it.
#[derive(Drop)]
pub(crate) enum Parsed {
    /// A JSON document.
    Json(serde_json::Value),

    /// A TOML document, which is a table.
    Toml(toml::Value),
}

impl Parsed {
    /// Returns the value at the top.
    pub(crate) fn top(&self) -> ParsedPart<'_>
        ensures { node_of result ≡ document_of self.now }
    {
        match self {
            Parsed::Json(value) => ParsedPart::Json(value),
            Parsed::Toml(value) => ParsedPart::Toml(value),
        }
    }
}

/// A value in its place in a parsed document.
#[derive(Clone, Copy)]
pub(crate) enum ParsedPart<'a> {
    /// A value of a JSON document.
    Json(&'a serde_json::Value),

    /// A value of a TOML document.
    Toml(&'a toml::Value),
}

/// Reads a text as JSON, and returns the value, or the reader's error if it is no document.
pub(crate) fn read_json(
    alloc: Global,
    text: &str,
) -> Result<Result<serde_json::Value, serde_json::Error>, AllocError>
    ensures { IfOk result (λ found. MatchResult found
        (λ value. read text.now ≡ Some (json.view value)) (λ _. read text.now ≡ None)) }
{
    match serde_json::Value::from_str(alloc, text) {
        Ok(value) => Ok(Ok(value)),
        Err(e) => if e.is_memory() {
            Err(AllocError)
        } else {
            Ok(Err(e))
        },
    }
}

/// Reads a text as TOML, and returns the table at the top, or the place at which the reader finds
/// that it is no document.
pub(crate) fn read_toml(alloc: Global, text: &str) -> Result<Result<Table, usize>, AllocError>
    ensures { IfOk result (λ found. MatchResult found
        (λ table. parse_document text.now ≡ Some (toml.table_view table))
        (λ _. parse_document text.now ≡ None)) }
{
    match toml::table_from_str(alloc, text) {
        Ok(table) => Ok(Ok(table)),
        Err(e) => match e.span() {
            Some(span) => Ok(Err(span.start)),
            None => Err(AllocError),
        },
    }
}
