//! Callers that ask about settings, and that return errors of std.
ghost use Rattle.std.specs.IoError.{error_kind};
ghost use Rattle.std.specs.Prelude.{◌≡◌, length, codes, option_map, Some, None, IfOk, string_bytes};
ghost use Rattle.std.specs.declared.io.ErrorKind.{ErrorKind};
ghost use Rattle.ptree.specs.Sources.{file_document, given_by, variable};
ghost use Rattle.ptree.specs.declared.print_config.fields.Field.{Field};
ghost use Rattle.ptree.specs.declared.print_config.loader.Fault.{Fault};
ghost use Rattle.ptree_sources.specs.FaultLine.{IsKeyLine};
ghost use Rattle.ptree_sources.specs.Settings.{file_keys, is_known};
ghost use Rattle.ptree_sources.specs.Warnings.{all_warnings};

use ptree::print_config::{Fault, Field, FileSource, Sources};
use ptree_trees::indented::IndentError;
use ptree_trees::settings::{
    Entry, allowed, entries, fault_line, field_at, field_of_variable, warnings, wrong_value,
};
use std::alloc::{AllocError, Global};
use std::io;

/// The key of the field at a key is that key.
pub fn same_key<'a>(table: Option<&str>, key: &'a str) -> &'a str
    ensures { result.now ≡ key.now }
{
    match field_at(table, key) {
        Some(field) => field.key(),
        None => key,
    }
}

/// Each field is the one at its own key.
pub fn at_own_key(field: Field) -> Option<Field>
    ensures { result ≡ Some field }
{
    field_at(field.table(), field.key())
}

/// Each field is the one of its own variable.
pub fn of_own_variable(field: Field) -> Option<Field>
    ensures { result ≡ Some field }
{
    field_of_variable(field.variable())
}

/// What the depth may be.
pub fn allowed_depth() -> &'static str
    ensures { result.now ≡ codes "a whole number up to 4294967295" }
{
    allowed(Field::Depth)
}

/// How many keys a file has.
pub fn count_of_keys(alloc: Global, file: &FileSource) -> Result<usize, AllocError>
    ensures { IfOk result (λ n. n ≡ length (file_keys (file_document file.now))) }
{
    let found = entries(alloc, file)?;
    Ok(found.len())
}

/// Whether an entry is known depends on its table and its key alone.
pub fn is_known_entry(entry: &Entry) -> bool
    ensures { result ≡ is_known (option_map string_bytes entry.now.table)
        (string_bytes entry.now.key) }
{
    entry.is_known()
}

/// How many warnings sources give.
pub fn count_of_warnings(alloc: Global, sources: &Sources) -> Result<usize, AllocError>
    ensures { IfOk result (λ n. n ≡ length (all_warnings sources.now)) }
{
    let found = warnings(alloc, sources)?;
    Ok(found.len())
}

/// The value of a wrong variable is that of the variable.
pub fn wrong_depth(alloc: Global, sources: &Sources) -> Result<Option<String>, AllocError>
    ensures { IfOk result (λ s.
        option_map string_bytes s ≡ variable (given_by sources.now) Field.Depth) }
{
    wrong_value(alloc, sources, Fault::Variable(Field::Depth))
}

/// The line of a wrong depth in a TOML file is that of its key.
pub fn line_of_depth(alloc: Global, text: String) -> Result<Option<usize>, AllocError>
    ensures { IfOk result (IsKeyLine (FileSource.Toml text) (Fault.Key Field.Depth)
        (codes "depth") (string_bytes text)) }
{
    let file = FileSource::Toml(text);
    fault_line(alloc, &file, Fault::Key(Field::Depth))
}

/// What is wrong in a variable has no line.
pub fn no_line(alloc: Global, file: &FileSource, field: Field) -> Result<Option<usize>, AllocError>
    ensures { IfOk result (λ line. line ≡ None) }
{
    fault_line(alloc, file, Fault::Variable(field))
}

/// What `?` makes of indented text that ends too early.
pub fn incomplete() -> io::Error
    ensures { error_kind result ≡ ErrorKind.UnexpectedEof }
{
    io::Error::from(IndentError::End)
}
