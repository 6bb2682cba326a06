//! Values of documents, and how they are drawn.
ghost use Rattle.std.specs.Prelude.{◌≡◌, [], map, IfOk};
ghost use Rattle.ptree.specs.Children.{children_of};
ghost use Rattle.ptree.specs.Data.{is_list, item_pairs, entry_pair, entry_pairs, value_pairs, pair_shape, value_shape};
ghost use Rattle.ptree.specs.Shape.{kids};
ghost use Rattle.ptree.specs.Style.{style_of};
ghost use Rattle.ptree.specs.Value.{data_of, items_of, entries_of, pair_of};
ghost use Rattle.ptree.specs.Writing.{IsWritten, HasCause, TakesNoMemory};

mod convert;
mod document;
mod from_json;
mod from_toml;
mod node;
mod part;
mod row;
mod text;

use crate::item::{Children, Shaped, TreeItem};
use crate::sink::{DrawError, Sink};
use crate::style::Style;
pub use convert::ConvertError;
pub use document::{DocError, DocFormat, draw_document, draw_document_with};
use std::alloc::{AllocError, Global};
use text::ROOM;

/// A value of any kind that a document can hold, except floats and dates.
///
/// A value is drawn as its text. A value without a text of its own, such as a list, has the empty
/// text.
#[derive(Debug, Drop)]
pub enum Value {
    /// `true` or `false`, which is also its text.
    Bool(bool),

    /// A whole number of 8 bits without a sign. The text of a whole number is decimal.
    U8(u8),

    /// A whole number of 16 bits without a sign.
    U16(u16),

    /// A whole number of 32 bits without a sign.
    U32(u32),

    /// A whole number of 64 bits without a sign.
    U64(u64),

    /// A whole number of 8 bits. One below 0 has `-` before its digits.
    I8(i8),

    /// A whole number of 16 bits.
    I16(i16),

    /// A whole number of 32 bits.
    I32(i32),

    /// A whole number of 64 bits.
    I64(i64),

    /// A character, which is its own text.
    Char(char),

    /// A text, which is its own text.
    String(String),

    /// A value without contents, such as JSON's null.
    Unit,

    /// A value that may be missing. Its text is that of the value; the value's children are not
    /// drawn.
    Option(Option<Box<Value>>),

    /// A value wrapped in another. Its text is that of the value; the value's children are not
    /// drawn.
    Newtype(Box<Value>),

    /// A list.
    Seq(Vec<Value>),

    /// A map, as a list of keys and values.
    Map(Vec<(Value, Value)>),

    /// Bytes.
    Bytes(Vec<u8>),
}

impl Value {
    /// Returns a deep copy.
    ///
    /// # Errors
    ///
    /// Memory ran out.
    #[cycle(clone)]
    pub fn clone(&self) -> Result<Value, AllocError>
        ensures { IfOk result (λ v. data_of v ≡ data_of self.now) }
    {
        match self {
            Value::Bool(b) => Ok(Value::Bool(*b)),
            Value::U8(n) => Ok(Value::U8(*n)),
            Value::U16(n) => Ok(Value::U16(*n)),
            Value::U32(n) => Ok(Value::U32(*n)),
            Value::U64(n) => Ok(Value::U64(*n)),
            Value::I8(n) => Ok(Value::I8(*n)),
            Value::I16(n) => Ok(Value::I16(*n)),
            Value::I32(n) => Ok(Value::I32(*n)),
            Value::I64(n) => Ok(Value::I64(*n)),
            Value::Char(c) => Ok(Value::Char(*c)),
            Value::String(text) => Ok(Value::String(text.clone()?)),
            Value::Unit => Ok(Value::Unit),
            Value::Option(None) => Ok(Value::Option(None)),
            Value::Option(Some(value)) => Ok(Value::Option(Some(clone_boxed(value)?))),
            Value::Newtype(value) => Ok(Value::Newtype(clone_boxed(value)?)),
            Value::Seq(items) => Ok(Value::Seq(clone_items(items)?)),
            Value::Map(entries) => Ok(Value::Map(clone_entries(entries)?)),
            Value::Bytes(bytes) => Ok(Value::Bytes(Vec::from_slice(*bytes.allocator(), bytes)?)),
        }
    }

    // Returns a pair for each child: for each element of a list, or for each entry of a map.
    fn pairs(&self, alloc: Global) -> Result<Vec<(String, Value)>, AllocError>
        ensures { IfOk result (λ pairs. map pair_of pairs.items ≡ value_pairs (data_of self.now)) }
    {
        match self {
            Value::Seq(items) => item_pairs(alloc, items),
            Value::Map(entries) => entry_pairs(alloc, entries),
            _ => Ok(Vec::new(alloc)),
        }
    }

    // Whether the value is a list or a map.
    fn is_list(&self) -> bool
        ensures { result ≡ is_list (data_of self.now) }
    {
        matches!(self, Value::Seq(_) | Value::Map(_))
    }
}

#[cycle(clone)]
fn clone_boxed(value: &Box<Value>) -> Result<Box<Value>, AllocError>
    ensures { IfOk result (λ b. data_of b.value ≡ data_of value.now.value) }
{
    let alloc = *Box::allocator(value);
    let copy = value.as_ref().clone()?;
    Ok(Box::new(alloc, copy)?)
}

#[cycle(clone)]
fn clone_items(items: &Vec<Value>) -> Result<Vec<Value>, AllocError>
    ensures { IfOk result (λ v. items_of v.items ≡ items_of items.now.items) }
{
    let mut copies = Vec::with_capacity(*items.allocator(), items.len())?;
    for item in items {
        copies.push(item.clone()?)?;
    }
    Ok(copies)
}

#[cycle(clone)]
fn clone_entries(entries: &Vec<(Value, Value)>) -> Result<Vec<(Value, Value)>, AllocError>
    ensures { IfOk result (λ v. entries_of v.items ≡ entries_of entries.now.items) }
{
    let mut copies = Vec::with_capacity(*entries.allocator(), entries.len())?;
    for (key, value) in entries {
        let key = key.clone()?;
        copies.push((key, value.clone()?))?;
    }
    Ok(copies)
}

impl Shaped for Value {
    ghost use Rattle.ptree.specs.Data.{value_shape};
    ghost use Rattle.ptree.specs.Value.{data_of};

    ghost shape = { λ v. value_shape (data_of v) };
}

impl TreeItem for Value {
    type Child = (String, Value);

    /// Writes the value's text painted. It does not allocate.
    fn write_self<W: Sink>(&self, _alloc: Global, f: &mut W, style: &Style) -> Result<(), DrawError>
        ensures bytes { IsWritten (W.contents f.old) (W.contents f.new) result
            ((value_shape (data_of self.now)).own [] (style_of style.now)) }
        ensures cause { HasCause (W.faults f.old) (W.faults f.new) result }
        ensures memory { TakesNoMemory result }
    {
        style.write_painted(f, self.text(&mut [0; ROOM]))
    }

    /// Makes a pair of each element of a list, and of each entry of a map, in order. Other values
    /// have no children.
    fn children(&self, alloc: Global) -> Result<Children<'_, (String, Value)>, AllocError>
        ensures shapes { IfOk result (λ c.
            map (λ p. pair_shape (pair_of p)) (children_of c)
            ≡ kids (value_shape (data_of self.now))) }
        ensures pairs { IfOk result (λ c.
            map pair_of (children_of c) ≡ value_pairs (data_of self.now)) }
    {
        Ok(Children::Made(self.pairs(alloc)?))
    }
}

impl Shaped for (String, Value) {
    ghost use Rattle.ptree.specs.Data.{pair_shape};
    ghost use Rattle.ptree.specs.Value.{pair_of};

    ghost shape = { λ p. pair_shape (pair_of p) };
}

impl TreeItem for (String, Value) {
    type Child = (String, Value);

    /// Writes the label painted, or the value's text if the label is empty. It does not allocate.
    fn write_self<W: Sink>(&self, alloc: Global, f: &mut W, style: &Style) -> Result<(), DrawError>
        ensures bytes { IsWritten (W.contents f.old) (W.contents f.new) result
            ((pair_shape (pair_of self.now)).own [] (style_of style.now)) }
        ensures cause { HasCause (W.faults f.old) (W.faults f.new) result }
        ensures memory { TakesNoMemory result }
    {
        if self.0.is_empty() {
            self.1.write_self(alloc, f, style)
        } else {
            style.write_painted(f, self.0.as_str())
        }
    }

    /// Makes the children of the value.
    fn children(&self, alloc: Global) -> Result<Children<'_, (String, Value)>, AllocError>
        ensures shapes { IfOk result (λ c.
            map (λ p. pair_shape (pair_of p)) (children_of c)
            ≡ kids (pair_shape (pair_of self.now))) }
        ensures pairs { IfOk result (λ c.
            map pair_of (children_of c) ≡ value_pairs (pair_of self.now).1) }
    {
        Ok(Children::Made(self.1.pairs(alloc)?))
    }
}

// Makes a pair of the empty label and each element.
fn item_pairs(alloc: Global, items: &[Value]) -> Result<Vec<(String, Value)>, AllocError>
    ensures { IfOk result (λ pairs. map pair_of pairs.items ≡ item_pairs (items_of items.now)) }
{
    let mut pairs = Vec::with_capacity(alloc, items.len())?;
    for item in items {
        pairs.push((String::new(alloc), item.clone()?))?;
    }
    Ok(pairs)
}

// Makes a pair of each key and its value.
fn entry_pairs(
    alloc: Global,
    entries: &[(Value, Value)],
) -> Result<Vec<(String, Value)>, AllocError>
    ensures { IfOk result (λ pairs.
        map pair_of pairs.items ≡ entry_pairs (entries_of entries.now)) }
{
    let mut pairs = Vec::with_capacity(alloc, entries.len())?;
    for (key, value) in entries {
        pairs.push(entry_pair(alloc, key, value)?)?;
    }
    Ok(pairs)
}

// Makes the pair of an entry: a list or a map under its key, and any other value as the text
// `key = value`.
fn entry_pair(alloc: Global, key: &Value, value: &Value) -> Result<(String, Value), AllocError>
    ensures { IfOk result (λ p. pair_of p ≡ entry_pair (data_of key.now) (data_of value.now)) }
{
    let mut text = String::from_str(alloc, key.text(&mut [0; ROOM]))?;
    if value.is_list() {
        return Ok((text, value.clone()?));
    }
    text.push_str(" = ")?;
    text.push_str(value.text(&mut [0; ROOM]))?;
    Ok((String::new(alloc), Value::String(text)))
}
