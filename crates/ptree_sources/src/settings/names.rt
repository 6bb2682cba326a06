//! The fields of a configuration by their names, and what they accept.
ghost use Rattle.std.specs.Prelude.{◌≡◌, option_copied, find, IfSome, IsTrue};
ghost use Rattle.std.specs.Str.{str_eq_ignore_ascii_case};
ghost use Rattle.ptree_sources.specs.Settings.{IsAt, is_at, field_at, has_variable, field_of_variable, is_known, is_color, allowed_text};

use ptree::print_config::{FIELDS, Field, Part, StyleField};

/// Returns the field at a key of a table, or at the top of a file.
#[tactic(auto, unfolding(crate::specs::Settings::field_at))]
pub fn field_at(table: Option<&str>, key: &str) -> Option<Field>
    ensures field { result ≡ field_at (option_copied table.entry) key.now }
    ensures key { IfSome result (IsAt (option_copied table.entry) key.now) }
{
    field_among(&FIELDS, table, key)
}

// Returns the first of these fields that is at a key of a table, or at the top of a file.
fn field_among(fields: &[Field], table: Option<&str>, key: &str) -> Option<Field>
    ensures field { result ≡ find (is_at (option_copied table.entry) key.now) fields.now }
    ensures key { IfSome result (IsAt (option_copied table.entry) key.now) }
{
    for field in fields {
        if is_at(*field, table, key) {
            return Some(*field);
        }
    }
    None
}

// Whether a field is at a key of a table, or at the top of a file.
fn is_at(field: Field, table: Option<&str>, key: &str) -> bool
    ensures test { result ≡ is_at (option_copied table.entry) key.now field }
    ensures is { IsTrue result → IsAt (option_copied table.entry) key.now field }
{
    if field.key() != key {
        return false;
    }
    match (field.table(), table) {
        (Some(of_field), Some(table)) => of_field == table,
        (None, None) => true,
        _ => false,
    }
}

/// Returns the field whose variable has this name, in any ASCII case.
#[tactic(auto, unfolding(crate::specs::Settings::field_of_variable))]
pub fn field_of_variable(name: &str) -> Option<Field>
    ensures { result ≡ field_of_variable name.now }
{
    field_with_variable(&FIELDS, name)
}

// Returns the first of these fields whose variable has this name, in any ASCII case.
fn field_with_variable(fields: &[Field], name: &str) -> Option<Field>
    ensures { result ≡ find (has_variable name.now) fields.now }
{
    for field in fields {
        if has_variable(*field, name) {
            return Some(*field);
        }
    }
    None
}

// Whether this is the name of a field's variable, in any ASCII case.
fn has_variable(field: Field, name: &str) -> bool
    ensures { result ≡ has_variable name.now field }
{
    is_same_name(field.variable(), name)
}

// Whether two names are the same, in any ASCII case.
pub(super) fn is_same_name(name: &str, other: &str) -> bool
    ensures { result ≡ str_eq_ignore_ascii_case name.now other.now }
{
    name.eq_ignore_ascii_case(other)
}

// Whether a key is that of a field, or of the table of a style.
#[tactic(auto, unfolding(crate::specs::Settings::is_known))]
pub(super) fn is_known(table: Option<&str>, key: &str) -> bool
    ensures { result ≡ is_known (option_copied table.entry) key.now }
{
    match table {
        Some(_) => field_at(table, key).is_some(),
        None => {
            key == Part::Branch.key() || key == Part::Leaf.key() || field_at(None, key).is_some()
        }
    }
}

// Whether a field is a colour.
pub(super) fn is_color(field: Field) -> bool
    ensures { result ≡ is_color field }
{
    matches!(
        field,
        Field::Paint(_, StyleField::Foreground | StyleField::Background)
    )
}

/// Returns what a field accepts, in words.
pub fn allowed(field: Field) -> &'static str
    ensures { result.now ≡ allowed_text field }
{
    match field {
        Field::Depth => "a whole number up to 4294967295",
        Field::Indent | Field::Padding => "a whole number up to 18446744073709551615",
        Field::Styled => "never, always or tty",
        Field::Characters => {
            "utf, utf-bold, utf-dashed, utf-double, ascii, ascii-tick, ascii-plus; in a file also a table"
        }
        Field::DownAndRight
        | Field::Down
        | Field::TurnRight
        | Field::Right
        | Field::Empty
        | Field::Continued => "a text",
        Field::Paint(_, StyleField::Foreground | StyleField::Background) => {
            "a colour's name, #rrggbb, or a number up to 255; in a file also three such numbers"
        }
        Field::Paint(_, _) => "true or false; in a variable also 1, on, yes, 0, off or no",
    }
}
