//! The text of a value in a parsed document, and whether it is a list.
ghost use Rattle.serde_json.specs.View.{view as json_view};
ghost use Rattle.std.specs.Prelude.{◌≡◌};
ghost use Rattle.toml.specs.View.{view as toml_view};
ghost use Rattle.ptree.specs.Convert.{json_data, toml_data};
ghost use Rattle.ptree.specs.Data.{is_list, value_text};
ghost use Rattle.ptree.specs.Parts.{part_of};

use super::text::{ROOM, write_digits, write_signed};
use crate::parsed::ParsedPart;

impl ParsedPart<'_> {
    /// Returns the bytes of the value's text: of one that it holds, or of one that is made in
    /// `room`.
    pub(crate) fn text<'a>(&'a self, room: &'a mut [u8; ROOM]) -> &'a [u8]
        ensures { result.now ≡ value_text (part_of self.now) }
    {
        match self {
            ParsedPart::Json(v) => json_text(v, room),
            ParsedPart::Toml(v) => toml_text(v, room),
        }
    }

    /// Whether the value is a list or a table.
    #[inline(always)]
    pub(crate) fn is_list(&self) -> bool
        ensures { result ≡ is_list (part_of self.now) }
    {
        matches!(
            self,
            ParsedPart::Json(serde_json::Value::Array(_) | serde_json::Value::Object(_))
                | ParsedPart::Toml(toml::Value::Array(_) | toml::Value::Table(_))
        )
    }
}

// Returns the bytes of a JSON value's text. A float has none.
fn json_text<'a>(v: &'a serde_json::Value, room: &'a mut [u8; ROOM]) -> &'a [u8]
    ensures { result.now ≡ value_text (json_data (json_view v.now)) }
{
    match v {
        serde_json::Value::Null => b"",
        serde_json::Value::Bool(true) => b"true",
        serde_json::Value::Bool(false) => b"false",
        serde_json::Value::Number(n) => {
            if let Some(n) = n.as_u64() {
                let start = write_digits(room, n);
                return &room[start..];
            }
            if let Some(n) = n.as_i64() {
                let start = write_signed(room, n);
                return &room[start..];
            }
            b""
        }
        serde_json::Value::String(text) => text.as_bytes(),
        serde_json::Value::Array(_) => b"",
        serde_json::Value::Object(_) => b"",
    }
}

// Returns the bytes of a TOML value's text. A float and a date have none.
fn toml_text<'a>(v: &'a toml::Value, room: &'a mut [u8; ROOM]) -> &'a [u8]
    ensures { result.now ≡ value_text (toml_data (toml_view v.now)) }
{
    match v {
        toml::Value::String(text) => text.as_bytes(),
        toml::Value::Integer(n) => {
            let start = write_signed(room, *n);
            &room[start..]
        }
        toml::Value::Float(_) => b"",
        toml::Value::Boolean(true) => b"true",
        toml::Value::Boolean(false) => b"false",
        toml::Value::Datetime(_) => b"",
        toml::Value::Array(_) => b"",
        toml::Value::Table(_) => b"",
    }
}
