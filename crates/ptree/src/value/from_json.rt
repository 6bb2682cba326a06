//! Values from JSON.
ghost use Rattle.serde_json.specs.View.{view, items_view, members_view};
ghost use Rattle.serde_json.specs.Written.{has_float, items_have_float, members_have_float};
ghost use Rattle.std.specs.Prelude.{◌≡◌, ◌↔◌, false, Ok, Err, IfOk, IsErrOf};
ghost use Rattle.ptree.specs.Convert.{json_data, json_items, json_entries, json_conversion};
ghost use Rattle.ptree.specs.Data.{KeysAscend, ItemsAscend, map};
ghost use Rattle.ptree.specs.Value.{data_of, items_of, entries_of};

use super::convert::push_entry;
use super::{ConvertError, Value};
use serde_json::Map;
use std::alloc::{AllocError, Global};

impl Value {
    /// Converts a JSON value. Null becomes `Unit`. A number becomes `U64` if it fits, or else
    /// `I64`; any other number is a float. An object becomes a `Map` with keys of `String`,
    /// ascending.
    ///
    /// # Errors
    ///
    /// `Float` if the value holds a float, and `Memory`.
    pub fn from_json(alloc: Global, v: &serde_json::Value) -> Result<Value, ConvertError>
        ensures value { IfOk result (λ value. json_conversion (view v.now) ≡ Ok (data_of value)) }
        // The keys of each map in it ascend.
        ensures keys { IfOk result (λ value. KeysAscend (data_of value)) }
        ensures float { IsErrOf result ConvertError.Float
            ↔ (json_conversion (view v.now) ≡ Err ConvertError.Float) }
        ensures date { IsErrOf result ConvertError.Date → ⊥ }
    {
        if has_float(v) {
            return Err(ConvertError::Float);
        }
        Ok(convert_value(alloc, v)?)
    }
}

// Whether the value holds a float. If not, the keys of each object in it ascend. It does not
// allocate.
#[cycle(walk)]
pub(super) fn has_float(v: &serde_json::Value) -> bool
    ensures value { result ≡ has_float (view v.now) }
    ensures keys { result ≡ false → KeysAscend (json_data (view v.now)) }
{
    match v {
        serde_json::Value::Null => false,
        serde_json::Value::Bool(_) => false,
        serde_json::Value::Number(n) => n.is_f64(),
        serde_json::Value::String(_) => false,
        serde_json::Value::Array(items) => items_have_float(items),
        serde_json::Value::Object(members) => members_have_float(members),
    }
}

#[cycle(walk)]
fn items_have_float(items: &Vec<serde_json::Value>) -> bool
    ensures value { result ≡ items_have_float (items_view items.now.items) }
    ensures keys { result ≡ false → ItemsAscend (json_items (items_view items.now.items)) }
{
    for item in items {
        if has_float(item) {
            return true;
        }
    }
    false
}

#[cycle(walk)]
fn members_have_float(members: &Map<String, serde_json::Value>) -> bool
    ensures value { result ≡ members_have_float (members_view members.now.entries) }
    ensures keys { result ≡ false
        → KeysAscend (map (json_entries (members_view members.now.entries))) }
{
    for (_, member) in members.iter() {
        if has_float(member) {
            return true;
        }
    }
    false
}

// Converts a value. A float, which has no value, becomes `Unit`.
#[cycle(convert)]
fn convert_value(alloc: Global, v: &serde_json::Value) -> Result<Value, AllocError>
    ensures { IfOk result (λ value. data_of value ≡ json_data (view v.now)) }
{
    match v {
        serde_json::Value::Null => Ok(Value::Unit),
        serde_json::Value::Bool(b) => Ok(Value::Bool(*b)),
        serde_json::Value::Number(n) => {
            if let Some(n) = n.as_u64() {
                return Ok(Value::U64(n));
            }
            if let Some(n) = n.as_i64() {
                return Ok(Value::I64(n));
            }
            Ok(Value::Unit)
        }
        serde_json::Value::String(text) => Ok(Value::String(text.clone()?)),
        serde_json::Value::Array(items) => Ok(Value::Seq(convert_values(alloc, items)?)),
        serde_json::Value::Object(members) => Ok(Value::Map(convert_entries(alloc, members)?)),
    }
}

#[cycle(convert)]
fn convert_values(alloc: Global, items: &Vec<serde_json::Value>) -> Result<Vec<Value>, AllocError>
    ensures { IfOk result (λ values.
        items_of values.items ≡ json_items (items_view items.now.items)) }
{
    let mut values = Vec::with_capacity(alloc, items.len())?;
    for item in items {
        values.push(convert_value(alloc, item)?)?;
    }
    Ok(values)
}

#[cycle(convert)]
fn convert_entries(
    alloc: Global,
    members: &Map<String, serde_json::Value>,
) -> Result<Vec<(Value, Value)>, AllocError>
    ensures { IfOk result (λ entries.
        entries_of entries.items ≡ json_entries (members_view members.now.entries)) }
{
    let mut entries = Vec::with_capacity(alloc, members.len())?;
    for (key, member) in members.iter() {
        push_entry(
            alloc,
            &mut entries,
            key.as_str(),
            convert_value(alloc, member)?,
        )?;
    }
    Ok(entries)
}
