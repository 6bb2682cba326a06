//! The calls that paint, and that draw a tree or a value.

use crate::failure::Failure;
use crate::trial::{ROOM, Trial};
use ptree::item::StringItem;
use ptree::output::{tree_bytes, write_tree_with};
use ptree::style::{Color, Counted, Style, put_all};
use ptree::value::Value;
use std::alloc::{AllocError, Global};

// A document of each format, whose value is drawn.
const JSON: &str = "{\"a\":[1,{\"b\":null}]}";

const TOML: &str = "a = 1";

// Bold red on colour 3.
fn bold() -> Style {
    let mut style = Style::default();
    style.bold = true;
    style.foreground = Some(Color::Red);
    style.background = Some(Color::Fixed(3));
    style
}

// A colour by a name that is none of the eight.
fn cyan(alloc: Global) -> Result<Style, AllocError> {
    let mut style = Style::default();
    style.foreground = Some(Color::Named(String::from_str(alloc, "Cyan")?));
    Ok(style)
}

// A root over a leaf of this text.
fn tree(alloc: Global, text: &str) -> Result<StringItem, AllocError> {
    let below = vec![in alloc; StringItem::leaf(alloc, text)?]?;
    StringItem::new(alloc, "r", below)
}

// The value of the document in JSON.
fn json_value(alloc: Global) -> Result<Value, Failure> {
    let parsed = serde_json::Value::from_str(alloc, JSON)?;
    Ok(Value::from_json(alloc, &parsed)?)
}

// The value of the document in TOML.
fn toml_value(alloc: Global) -> Result<Value, Failure> {
    let parsed = toml::Value::Table(toml::table_from_str(alloc, TOML)?);
    Ok(Value::from_toml(alloc, &parsed)?)
}

impl Trial {
    // Notes `x` in a style, by both calls that paint.
    fn note_painted(&mut self, alloc: Global, style: &Style) -> Result<(), Failure> {
        self.note_line("painted", style.paint(alloc, "x")?.as_str())?;
        let mut out = Counted::new(Vec::with_capacity(alloc, ROOM)?);
        style.write_painted(&mut out, "x")?;
        put_all(&mut out, b"\n")?;
        self.note(&out.into_inner())
    }

    /// Paints in a style, and in a copy of one.
    pub fn paint(&mut self, alloc: Global) -> Result<(), Failure> {
        self.note_painted(alloc, &bold())?;
        self.note_painted(alloc, &cyan(alloc)?.clone()?)
    }

    // Draws a copy of a value under a label.
    fn draw_value(&mut self, alloc: Global, label: &str, value: &Value) -> Result<(), Failure> {
        let pair = (String::from_str(alloc, label)?, value.clone()?);
        let drawing = tree_bytes(alloc, &pair, &self.config)?;
        self.note(&drawing)
    }

    /// Draws the values of the documents.
    pub fn draw_values(&mut self, alloc: Global) -> Result<(), Failure> {
        self.draw_value(alloc, "j", &json_value(alloc)?)?;
        self.draw_value(alloc, "t", &toml_value(alloc)?)
    }

    /// Draws a copy of a root over a leaf of this text. If memory is refused, nothing or the root's
    /// line is written.
    pub fn draw_tree(&mut self, alloc: Global, text: &str) -> Result<(), Failure> {
        let tree = tree(alloc, text)?.clone()?;
        let mut out = Counted::new(Vec::with_capacity(alloc, ROOM)?);
        let ended = write_tree_with(alloc, &tree, &mut out, &self.config);
        let written = out.into_inner();
        if ended.is_err() && !written.is_empty() && written.as_slice() != b"r\n".as_slice() {
            return Err(Failure::Other);
        }
        ended?;
        self.note(&written)
    }
}
