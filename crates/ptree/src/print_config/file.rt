//! The document of a configuration file, in either format.
ghost use Rattle.std.specs.Prelude.{◌≡◌, ◌≤◌, ◌↔◌, Some, option_map, option_copied, is_some, is_none, IsSome, IfOk};
ghost use Rattle.ptree.specs.Color.{color_of};
ghost use Rattle.ptree.specs.File.{get, is_table, as_whole, as_text, as_flag, is_null, whole_node, when_node, as_rgb, rgb, json_rgb, toml_rgb, color_numbers, color_node};
ghost use Rattle.ptree.specs.Lent.{node_of, document_of};
ghost use Rattle.ptree.specs.Loading.{file_fault};
ghost use Rattle.ptree.specs.Sources.{file_document, json_document, toml_document};
ghost use Rattle.ptree.specs.declared.print_config.loader.Fault.TheVariants.{Syntax};
ghost use Rattle.serde_json.specs.View.{items_view as json_items};
ghost use Rattle.toml.specs.View.{items_view as toml_items};

use crate::parsed::{Parsed, ParsedPart, read_json, read_toml};
use crate::print_config::open::with_last_value;
use crate::print_config::parse::{Spelling, parse_when};
use crate::print_config::{FileSource, StyleWhen};
use crate::style::Color;
use std::alloc::{AllocError, Global};

// Reads the document of a file, if it has one.
pub(crate) fn read_document(alloc: Global, file: &FileSource) -> Result<Option<Parsed>, AllocError>
    ensures { IfOk result (λ read. option_map document_of read ≡ file_document file.now) }
{
    match file {
        FileSource::Absent | FileSource::Unreadable => Ok(None),
        FileSource::Toml(text) => parse_toml(alloc, text.as_str()),
        FileSource::Json(text) => parse_json(alloc, text.as_str()),
    }
}

// Reads a text as TOML.
fn parse_toml(alloc: Global, text: &str) -> Result<Option<Parsed>, AllocError>
    ensures { IfOk result (λ read. option_map document_of read ≡ toml_document text.now) }
{
    match read_toml(alloc, text)? {
        Ok(table) => Ok(Some(Parsed::Toml(toml::Value::Table(table)))),
        Err(_) => Ok(None),
    }
}

// Reads a text as JSON, whose top must be an object.
fn parse_json(alloc: Global, text: &str) -> Result<Option<Parsed>, AllocError>
    ensures { IfOk result (λ read. option_map document_of read ≡ json_document text.now) }
{
    match read_json(alloc, text)? {
        Ok(value) => if value.is_object() {
            Ok(Some(Parsed::Json(value)))
        } else {
            Ok(None)
        },
        Err(_) => Ok(None),
    }
}

/// Returns the line, counted from 1, at which the text of a file stops being a document of its
/// format. It is the line of the first wrong byte, or of a key that occurs twice. There is such a
/// line exactly when the fault of the file is
/// [`Fault::Syntax`](crate::print_config::Fault::Syntax). If the text only ends too early, it is
/// the line where the text ends. If the top of a JSON text is not an object, it is the line of the
/// top's first byte.
///
/// The text is parsed once. A TOML text that is wrong in a value is parsed again up to that value's
/// key, and once more for each key around it that occurs twice. A JSON text that is wrong before
/// its end is parsed again up to the line before the reported one, and further times only if the
/// wrong byte is before that line: at most eight times, and twice for each doubling of the distance
/// in lines.
///
/// # Errors
///
/// Memory ran out.
pub fn syntax_line(alloc: Global, file: &FileSource) -> Result<Option<usize>, AllocError>
    ensures { IfOk result (λ line. IsSome line ↔ (file_fault file.now ≡ Some Syntax)) }
{
    match file {
        FileSource::Absent | FileSource::Unreadable => Ok(None),
        FileSource::Toml(text) => toml_line(alloc, text.as_str()),
        FileSource::Json(text) => json_line(alloc, text.as_str()),
    }
}

// Returns the line at which a text stops being a TOML document.
fn toml_line(alloc: Global, text: &str) -> Result<Option<usize>, AllocError>
    ensures { IfOk result (λ line. is_some line ≡ is_none (toml_document text.now)) }
{
    match toml_place(alloc, text)? {
        Some(place) => Ok(Some(line_at(text, first_place(alloc, text, place)?))),
        None => Ok(None),
    }
}

// Returns the place at which the reader finds that a text is no TOML document.
fn toml_place(alloc: Global, text: &str) -> Result<Option<usize>, AllocError>
    ensures { IfOk result (λ place. is_some place ≡ is_none (toml_document text.now)) }
{
    match read_toml(alloc, text)? {
        Ok(_) => Ok(None),
        Err(place) => Ok(Some(place)),
    }
}

// Returns the first wrong place of a TOML text, given the one that the reader finds.
//
// The reader reads a value before it looks whether its key occurs twice. So it is given the text up
// to the last key before the place whose value is not over, with 0 as the value.
fn first_place(alloc: Global, text: &str, found: usize) -> Result<usize, AllocError> {
    let mut place = found;
    'keys: loop {
        let before = with_last_value(alloc, text.get(..place).unwrap_or(text))?;
        match toml_place(alloc, before.as_str())? {
            Some(earlier) if earlier < place => place = earlier,
            _ => return Ok(place),
        }
    }
}

// Returns the line at which a text stops being a JSON document.
fn json_line(alloc: Global, text: &str) -> Result<Option<usize>, AllocError>
    ensures { IfOk result (λ line. is_some line ≡ is_none (json_document text.now)) }
{
    match read_json(alloc, text)? {
        Ok(value) => if value.is_object() {
            Ok(None)
        } else {
            Ok(Some(top_line(text)))
        },
        Err(e) => if e.is_eof() {
            Ok(Some(e.line()))
        } else {
            Ok(Some(wrong_line(alloc, text, e.line())?))
        },
    }
}

// Returns the line of the first byte that is not a blank.
fn top_line(text: &str) -> usize {
    line_at(text, text.len().saturating_sub(text.trim_start().len()))
}

// Returns the first wrong line of a JSON text, if it is before `line`, and else `line`.
//
// The JSON reader reports how far it has come. That may be past the wrong byte and the blanks after
// it. Mostly it is the line of the wrong byte, which one more reading shows.
fn wrong_line(alloc: Global, text: &str, line: usize) -> Result<usize, AllocError>
    ensures { IfOk result (λ wrong. wrong ≤ line) }
{
    let Span {
        mut right,
        mut wrong,
    } = search_back(alloc, text, line)?;
    while wrong.saturating_sub(right) > 1 {
        let middle = right + (wrong - right) / 2;
        if begins_json(alloc, first_lines(text, middle))? {
            right = middle;
        } else {
            wrong = middle;
        }
    }
    Ok(wrong)
}

// How many lines at the front of a text are right, and with how many it is wrong.
struct Span {
    right: usize,
    wrong: usize,
}

// Returns two counts of lines of a JSON text, with which it is right and wrong, the second at most
// `line`. It searches back from the last line up to there that holds more than blanks, by steps
// that grow to about 16 times the last.
fn search_back(alloc: Global, text: &str, line: usize) -> Result<Span, AllocError>
    ensures { IfOk result (λ span. span.wrong ≤ line) }
{
    let mut wrong = filled_line(text, line);
    let mut right = wrong.saturating_sub(1);
    let mut step: usize = 1;
    while right > 0 && !begins_json(alloc, first_lines(text, right))? {
        wrong = right;
        right = (right - 1).saturating_sub(step);
        step = step.saturating_mul(16);
    }
    Ok(Span { right, wrong })
}

// Returns the last of the first lines of a text, `line` at most, that holds more than JSON's
// blanks. The reader passes any number of these before it stops.
fn filled_line(text: &str, line: usize) -> usize
    ensures { result ≤ line }
{
    let filled = first_lines(text, line).trim_end_matches([' ', '\t', '\n', '\r']);
    line_at(text, filled.len()).min(line)
}

// Whether a text is a JSON document, or only ends too early.
fn begins_json(alloc: Global, text: &str) -> Result<bool, AllocError> {
    match read_json(alloc, text)? {
        Ok(_) => Ok(true),
        Err(e) => Ok(e.is_eof()),
    }
}

// Returns the first lines of a text, with their line feeds, or the whole text if it has no more.
fn first_lines(text: &str, count: usize) -> &str {
    let mut end: usize = 0;
    for line in text.split_inclusive('\n').take(count) {
        end = end.saturating_add(line.len());
    }
    text.get(..end).unwrap_or(text)
}

// Returns the line, counted from 1, of a byte of a text.
fn line_at(text: &str, place: usize) -> usize {
    let mut line: usize = 1;
    for byte in text.bytes().take(place) {
        if byte == b'\n' {
            line = line.saturating_add(1);
        }
    }
    line
}

// The bytes of a colour in numbers.
#[derive(Clone, Copy)]
pub(crate) struct Rgb {
    red: u8,
    green: u8,
    blue: u8,
}

impl Rgb {
    // Returns the colour of three bytes, if all are there.
    fn of(red: Option<u8>, green: Option<u8>, blue: Option<u8>) -> Option<Rgb>
        ensures { result ≡ rgb red green blue }
    {
        match (red, green, blue) {
            (Some(red), Some(green), Some(blue)) => Some(Rgb { red, green, blue }),
            _ => None,
        }
    }
}

impl<'a> ParsedPart<'a> {
    // Returns the value at a key, if this is a table that has the key.
    pub(crate) fn get(self, key: &str) -> Option<ParsedPart<'a>>
        ensures { option_map node_of result ≡ get key.now (node_of self.entry) }
    {
        match self {
            ParsedPart::Json(value) => match value.get(key) {
                Some(found) => Some(ParsedPart::Json(found)),
                None => None,
            },
            ParsedPart::Toml(value) => match value.get(key) {
                Some(found) => Some(ParsedPart::Toml(found)),
                None => None,
            },
        }
    }

    // Whether the value is a table or an object.
    pub(crate) fn is_table(self) -> bool
        ensures { result ≡ is_table (node_of self.entry) }
    {
        match self {
            ParsedPart::Json(value) => value.is_object(),
            ParsedPart::Toml(value) => value.is_table(),
        }
    }

    // Whether the value is null.
    pub(crate) fn is_null(self) -> bool
        ensures { result ≡ is_null (node_of self.entry) }
    {
        match self {
            ParsedPart::Json(value) => value.is_null(),
            ParsedPart::Toml(_) => false,
        }
    }

    // Returns the text, if the value is one.
    pub(crate) fn as_text(self) -> Option<&'a str>
        ensures { option_copied result ≡ as_text (node_of self.entry) }
    {
        match self {
            ParsedPart::Json(value) => value.as_str(),
            ParsedPart::Toml(value) => value.as_str(),
        }
    }

    // Returns true or false, if the value is one of them.
    pub(crate) fn as_flag(self) -> Option<bool>
        ensures { result ≡ as_flag (node_of self.entry) }
    {
        match self {
            ParsedPart::Json(value) => value.as_bool(),
            ParsedPart::Toml(value) => value.as_bool(),
        }
    }

    // Returns the whole number, if the value is one that is at most `greatest`.
    pub(crate) fn as_whole(self, greatest: u64) -> Option<u64>
        ensures { result ≡ whole_node greatest (node_of self.entry) }
    {
        match self.as_number() {
            Some(n) if n <= greatest => Some(n),
            _ => None,
        }
    }

    // Returns the whole number, if the value is one that is not negative.
    fn as_number(self) -> Option<u64>
        ensures { result ≡ as_whole (node_of self.entry) }
    {
        match self {
            ParsedPart::Json(value) => value.as_u64(),
            ParsedPart::Toml(value) => match value.as_integer() {
                Some(n) => if n >= 0 { Some(n as u64) } else { None },
                None => None,
            },
        }
    }

    // Returns when to style, if the value says so.
    pub(crate) fn as_when(self) -> Option<StyleWhen>
        ensures { result ≡ when_node (node_of self.entry) }
    {
        match self.as_text() {
            Some(text) => parse_when(Spelling::Exact, text),
            None => None,
        }
    }

    // Returns the byte, if the value is one.
    fn as_byte(self) -> Option<u8>
        ensures { result ≡ whole_node 255 (node_of self.entry) }
    {
        match self.as_whole(255) {
            Some(n) => Some(n as u8),
            None => None,
        }
    }

    // Returns red, green and blue, if the value is a list of three bytes.
    fn as_rgb(self) -> Option<Rgb>
        ensures { result ≡ as_rgb (node_of self.entry) }
    {
        match self {
            ParsedPart::Json(value) => match value.as_array() {
                Some(items) => json_rgb(items.as_slice()),
                None => None,
            },
            ParsedPart::Toml(value) => match value.as_array() {
                Some(items) => toml_rgb(items.as_slice()),
                None => None,
            },
        }
    }

    // Returns the colour, if the value gives one in numbers.
    fn as_numbered_color(self) -> Option<Color>
        ensures { result ≡ color_numbers (node_of self.entry) }
    {
        if let Some(n) = self.as_byte() {
            return Some(Color::Fixed(n));
        }
        match self.as_rgb() {
            Some(Rgb { red, green, blue }) => Some(Color::RGB(red, green, blue)),
            None => None,
        }
    }

    // Whether the value is a colour.
    pub(crate) fn is_color(self) -> bool
        ensures { result ≡ is_some (color_node (node_of self.entry)) }
    {
        self.as_text().is_some() || self.as_byte().is_some() || self.as_rgb().is_some()
    }

    // Returns the colour, if the value is one: a text is a name, other values are numbers.
    pub(crate) fn as_color(self, alloc: Global) -> Result<Option<Color>, AllocError>
        ensures { IfOk result (λ color.
            option_map color_of color ≡ color_node (node_of self.entry)) }
    {
        if let Some(text) = self.as_text() {
            return Ok(Some(Color::Named(String::from_str(alloc, text)?)));
        }
        Ok(self.as_numbered_color())
    }
}

// Returns the bytes of a list of exactly three, in JSON.
fn json_rgb(items: &[serde_json::Value]) -> Option<Rgb>
    ensures { result ≡ json_rgb (json_items items.now) }
{
    if let [r, g, b] = items {
        Rgb::of(
            ParsedPart::Json(r).as_byte(),
            ParsedPart::Json(g).as_byte(),
            ParsedPart::Json(b).as_byte(),
        )
    } else {
        None
    }
}

// Returns the bytes of a list of exactly three, in TOML.
fn toml_rgb(items: &[toml::Value]) -> Option<Rgb>
    ensures { result ≡ toml_rgb (toml_items items.now) }
{
    if let [r, g, b] = items {
        Rgb::of(
            ParsedPart::Toml(r).as_byte(),
            ParsedPart::Toml(g).as_byte(),
            ParsedPart::Toml(b).as_byte(),
        )
    } else {
        None
    }
}
