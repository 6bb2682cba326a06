//! What has no effect in the sources of a configuration.
ghost use Rattle.std.specs.Prelude.{◌≡◌, ◌++◌, flat_map, map, option_map, is_some, IfOk, OnOk, string_bytes};
ghost use Rattle.std.specs.Str.{all_ascii_digits};
ghost use Rattle.ptree.specs.Parse.{parse_number};
ghost use Rattle.ptree.specs.Sources.{variables_of, variable, given_by};
ghost use Rattle.ptree_sources.specs.Warnings.{warning_of, has_front, is_stray, stray_warnings, unknown_key_warnings, is_known_color, is_known_name, variable_color_warnings, key_color_warnings, all_warnings};

use super::keys::{Entry, entries};
use super::names::{field_of_variable, is_color};
use ptree::print_config::{FIELDS, Field, Sources, Spelling, last_value};
use ptree::style::{Color, Style};
use std::alloc::{AllocError, Global};
use std::fmt;

/// Something in the sources of a configuration that has no effect.
#[derive(Debug, Drop)]
pub enum Warning {
    /// A variable that begins with `PTREE_`, but is no field's.
    Variable(String),

    /// A key of the file that is no field's.
    Key(String),

    /// The variable of this field has this value, which is not a known colour.
    VariableColor(Field, String),

    /// The file's key of this field has this text, which is not a known colour.
    KeyColor(Field, String),
}

impl fmt::Display for Warning {
    fn fmt<W: fmt::Write>(&self, f: &mut fmt::Formatter<W>) -> fmt::Result {
        match self {
            Warning::Variable(name) => write!(f, "unknown variable {name}"),
            Warning::Key(key) => write!(f, "unknown key in the file: {key}"),
            Warning::VariableColor(field, name) => {
                write!(
                    f,
                    "the variable {} has an unknown colour: {name}",
                    field.variable()
                )
            }
            Warning::KeyColor(field, name) => {
                write!(
                    f,
                    "the file's key {}.{} has an unknown colour: {name}",
                    field.table().unwrap_or(""),
                    field.key()
                )
            }
        }
    }
}

/// Returns what has no effect in the sources, in this order: unknown variables that begin with
/// `PTREE_`; unknown keys; unknown colours of variables, and then of keys.
///
/// `PTREE_CONFIG` is known, and so are `PTREE_LIBRARY` and `PTREE_LIB_DIR`, by which the package for
/// Python and the wrapper for Rust find their library.
///
/// It takes the time of [`load`](ptree::print_config::load), and allocates the result.
///
/// # Errors
///
/// Memory ran out.
pub fn warnings(alloc: Global, sources: &Sources) -> Result<Vec<Warning>, AllocError>
    ensures { IfOk result (λ found. map warning_of found.items ≡ all_warnings sources.now) }
{
    let mut found = Vec::new(alloc);
    push_stray(&mut found, &sources.variables)?;
    let entries = entries(alloc, &sources.file)?;
    push_unknown_keys(alloc, &mut found, &entries)?;
    push_variable_colors(alloc, &mut found, sources, &FIELDS)?;
    push_key_colors(alloc, &mut found, &entries)?;
    Ok(found)
}

// Adds the variables that have no effect.
fn push_stray(found: &mut Vec<Warning>, variables: &[(String, String)]) -> Result<(), AllocError>
    ensures { OnOk result (map warning_of found.new.items ≡ map warning_of found.old.items
        ++ flat_map (λ v. stray_warnings v.0) (variables_of variables.now)) }
{
    for variable in variables {
        push_if_stray(found, &variable.0)?;
    }
    Ok(())
}

// Adds a variable if it has no effect.
fn push_if_stray(found: &mut Vec<Warning>, name: &String) -> Result<(), AllocError>
    ensures { OnOk result (map warning_of found.new.items
        ≡ map warning_of found.old.items ++ stray_warnings (string_bytes name.now)) }
{
    if is_stray(name.as_str()) {
        let name = name.clone()?;
        found.push(Warning::Variable(name))?;
    }
    Ok(())
}

// Whether a variable begins as the fields' do, and is neither a field's nor the path of the file or
// of a library for other languages.
#[tactic(auto, unfolding(crate::specs::Warnings::is_stray))]
fn is_stray(name: &str) -> bool
    ensures { result ≡ is_stray name.now }
{
    has_front(name)
        && name != "PTREE_CONFIG"
        && name != "PTREE_LIBRARY"
        && name != "PTREE_LIB_DIR"
        && field_of_variable(name).is_none()
}

// Whether a name begins with `PTREE_`, in any ASCII case.
#[tactic(auto, unfolding(crate::specs::Warnings::has_front))]
fn has_front(name: &str) -> bool
    ensures { result ≡ has_front name.now }
{
    let bytes = name.as_bytes();
    if bytes.len() < 6 {
        return false;
    }
    let front = &bytes[..6];
    front.eq_ignore_ascii_case(b"PTREE_")
}

// Adds the keys that are not known.
fn push_unknown_keys(
    alloc: Global,
    found: &mut Vec<Warning>,
    entries: &[Entry],
) -> Result<(), AllocError>
    ensures { OnOk result (map warning_of found.new.items ≡ map warning_of found.old.items
        ++ flat_map (λ e.
        unknown_key_warnings (option_map string_bytes e.table) (string_bytes e.key)) entries.now) }
{
    for entry in entries {
        push_if_unknown(alloc, found, entry)?;
    }
    Ok(())
}

// Adds a key if it is not known.
fn push_if_unknown(alloc: Global, found: &mut Vec<Warning>, entry: &Entry) -> Result<(), AllocError>
    ensures { OnOk result (map warning_of found.new.items ≡ map warning_of found.old.items
        ++ unknown_key_warnings (option_map string_bytes entry.now.table)
        (string_bytes entry.now.key)) }
{
    if !entry.is_known() {
        let name = format!(in alloc; "{entry}")?;
        found.push(Warning::Key(name))?;
    }
    Ok(())
}

// Adds the variables of these fields whose values are no known colours.
fn push_variable_colors(
    alloc: Global,
    found: &mut Vec<Warning>,
    sources: &Sources,
    fields: &[Field],
) -> Result<(), AllocError>
    ensures { OnOk result (map warning_of found.new.items ≡ map warning_of found.old.items
        ++ flat_map (variable_color_warnings (given_by sources.now)) fields.now) }
{
    for field in fields {
        push_variable_color(alloc, found, sources, *field)?;
    }
    Ok(())
}

// Adds the variable of a field if its value is no known colour.
#[tactic(auto, unfolding(ptree::specs::Sources::variable))]
fn push_variable_color(
    alloc: Global,
    found: &mut Vec<Warning>,
    sources: &Sources,
    field: Field,
) -> Result<(), AllocError>
    ensures { OnOk result (map warning_of found.new.items ≡ map warning_of found.old.items
        ++ variable_color_warnings (given_by sources.now) field) }
{
    if !is_color(field) {
        return Ok(());
    }
    if let Some(value) = last_value(Spelling::AnyCase, field.variable(), &sources.variables) {
        if !is_known_color(alloc, value)? {
            let name = String::from_str(alloc, value)?;
            found.push(Warning::VariableColor(field, name))?;
        }
    }
    Ok(())
}

// Adds the keys of colours whose texts are no known colours.
fn push_key_colors(
    alloc: Global,
    found: &mut Vec<Warning>,
    entries: &[Entry],
) -> Result<(), AllocError>
    ensures { OnOk result (map warning_of found.new.items ≡ map warning_of found.old.items
        ++ flat_map (λ e. key_color_warnings (option_map string_bytes e.table) (string_bytes e.key)
        (option_map string_bytes e.text)) entries.now) }
{
    for entry in entries {
        push_key_color(alloc, found, entry)?;
    }
    Ok(())
}

// Adds a key if it is that of a colour and its text is no known colour.
fn push_key_color(alloc: Global, found: &mut Vec<Warning>, entry: &Entry) -> Result<(), AllocError>
    ensures { OnOk result (map warning_of found.new.items ≡ map warning_of found.old.items
        ++ key_color_warnings (option_map string_bytes entry.now.table)
        (string_bytes entry.now.key) (option_map string_bytes entry.now.text)) }
{
    let field = match entry.field() {
        Some(field) => field,
        None => return Ok(()),
    };
    if !is_color(field) {
        return Ok(());
    }
    if let Some(text) = &entry.text {
        if !is_known_name(alloc, text.as_str())? {
            let name = text.clone()?;
            found.push(Warning::KeyColor(field, name))?;
        }
    }
    Ok(())
}

// Whether the text of a variable is a known colour: a number, or a name in any ASCII case.
#[tactic(auto, unfolding(crate::specs::Warnings::is_known_color, crate::specs::Warnings::is_known_name))]
fn is_known_color(alloc: Global, text: &str) -> Result<bool, AllocError>
    ensures { IfOk result (λ b. b ≡ is_known_color text.now) }
{
    if text.len() <= 3 && is_byte(text) {
        return Ok(true);
    }
    let mut name = String::from_str(alloc, text)?;
    name.make_ascii_lowercase();
    is_known_name(alloc, name.as_str())
}

// Whether a text is a number up to 255, of one or more ASCII digits.
fn is_byte(text: &str) -> bool
    ensures { result ≡ is_some (parse_number 255 text.now) }
{
    if text.len() == 0 || !is_all_digits(text) {
        return false;
    }
    match text.parse::<u64>() {
        Ok(n) => n <= 255,
        Err(_) => false,
    }
}

// Whether all bytes are ASCII digits.
fn is_all_digits(text: &str) -> bool
    ensures { result ≡ all_ascii_digits text.now }
{
    text.as_bytes().iter().all(|b| b.is_ascii_digit())
}

// Whether a name is that of a known colour: then a style of it has a code.
fn is_known_name(alloc: Global, name: &str) -> Result<bool, AllocError>
    ensures { IfOk result (λ b. b ≡ is_known_name name.now) }
{
    let name = String::from_str(alloc, name)?;
    let mut style = Style::default();
    style.foreground = Some(Color::Named(name));
    let painted = style.paint(alloc, "");
    drop(style);
    let painted = painted?;
    if painted.len() == 0 {
        Ok(false)
    } else {
        Ok(true)
    }
}
