//! Values from TOML.
ghost use Rattle.toml.specs.View.{view, items_view, members_view};
ghost use Rattle.std.specs.Prelude.{◌≡◌, ◌↔◌, None, Ok, Err, IfOk, IsErrOf};
ghost use Rattle.ptree.specs.Convert.{toml_fault, toml_item_fault, toml_member_fault, toml_data, toml_items, toml_entries, toml_conversion};
ghost use Rattle.ptree.specs.Data.{KeysAscend, ItemsAscend, map};
ghost use Rattle.ptree.specs.Value.{data_of, items_of, entries_of};

use super::convert::push_entry;
use super::{ConvertError, Value};
use std::alloc::{AllocError, Global};
use toml::Table;

impl Value {
    /// Converts a TOML value. A whole number becomes `I64`. A table becomes a `Map` with keys of
    /// `String`, ascending.
    ///
    /// # Errors
    ///
    /// `Float` if the value holds a float before any date, `Date` if it holds a date or a time
    /// before any float, and `Memory`.
    pub fn from_toml(alloc: Global, v: &toml::Value) -> Result<Value, ConvertError>
        ensures value { IfOk result (λ value. toml_conversion (view v.now) ≡ Ok (data_of value)) }
        // The keys of each map in it ascend.
        ensures keys { IfOk result (λ value. KeysAscend (data_of value)) }
        ensures float { IsErrOf result ConvertError.Float
            ↔ (toml_conversion (view v.now) ≡ Err ConvertError.Float) }
        ensures date { IsErrOf result ConvertError.Date
            ↔ (toml_conversion (view v.now) ≡ Err ConvertError.Date) }
    {
        if let Some(fault) = fault_of(v) {
            return Err(fault);
        }
        Ok(convert_value(alloc, v)?)
    }
}

// Returns the first float or date. If there is none, the keys of each table in the value ascend. It
// does not allocate.
#[cycle(walk)]
pub(super) fn fault_of(v: &toml::Value) -> Option<ConvertError>
    ensures value { result ≡ toml_fault (view v.now) }
    ensures keys { result ≡ None → KeysAscend (toml_data (view v.now)) }
{
    match v {
        toml::Value::String(_) => None,
        toml::Value::Integer(_) => None,
        toml::Value::Float(_) => Some(ConvertError::Float),
        toml::Value::Boolean(_) => None,
        toml::Value::Datetime(_) => Some(ConvertError::Date),
        toml::Value::Array(items) => fault_of_items(items),
        toml::Value::Table(members) => fault_of_members(members),
    }
}

#[cycle(walk)]
fn fault_of_items(items: &Vec<toml::Value>) -> Option<ConvertError>
    ensures value { result ≡ toml_item_fault (items_view items.now.items) }
    ensures keys { result ≡ None → ItemsAscend (toml_items (items_view items.now.items)) }
{
    for item in items {
        if let Some(fault) = fault_of(item) {
            return Some(fault);
        }
    }
    None
}

#[cycle(walk)]
fn fault_of_members(members: &Table) -> Option<ConvertError>
    ensures value { result ≡ toml_member_fault (members_view members.now.entries) }
    ensures keys { result ≡ None
        → KeysAscend (map (toml_entries (members_view members.now.entries))) }
{
    for (_, member) in members.iter() {
        if let Some(fault) = fault_of(member) {
            return Some(fault);
        }
    }
    None
}

// Converts a value. A float and a date, which have no value, become `Unit`.
#[cycle(convert)]
fn convert_value(alloc: Global, v: &toml::Value) -> Result<Value, AllocError>
    ensures { IfOk result (λ value. data_of value ≡ toml_data (view v.now)) }
{
    match v {
        toml::Value::String(text) => Ok(Value::String(text.clone()?)),
        toml::Value::Integer(n) => Ok(Value::I64(*n)),
        toml::Value::Float(_) => Ok(Value::Unit),
        toml::Value::Boolean(b) => Ok(Value::Bool(*b)),
        toml::Value::Datetime(_) => Ok(Value::Unit),
        toml::Value::Array(items) => Ok(Value::Seq(convert_values(alloc, items)?)),
        toml::Value::Table(members) => Ok(Value::Map(convert_entries(alloc, members)?)),
    }
}

#[cycle(convert)]
fn convert_values(alloc: Global, items: &Vec<toml::Value>) -> Result<Vec<Value>, AllocError>
    ensures { IfOk result (λ values.
        items_of values.items ≡ toml_items (items_view items.now.items)) }
{
    let mut values = Vec::with_capacity(alloc, items.len())?;
    for item in items {
        values.push(convert_value(alloc, item)?)?;
    }
    Ok(values)
}

#[cycle(convert)]
fn convert_entries(alloc: Global, members: &Table) -> Result<Vec<(Value, Value)>, AllocError>
    ensures { IfOk result (λ entries.
        entries_of entries.items ≡ toml_entries (members_view members.now.entries)) }
{
    let mut entries = Vec::with_capacity(alloc, members.len())?;
    for (key, member) in members.iter() {
        push_entry(
            alloc,
            &mut entries,
            key.as_str(),
            convert_value(alloc, member)?,
        )?;
    }
    Ok(entries)
}
