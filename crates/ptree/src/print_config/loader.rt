//! Loads a configuration from its sources, or finds the first fault in them.
ghost use Rattle.std.specs.Prelude.{◌≡◌, ◌++◌, flat_map, map, option_map, IfOk, OnOk, slice_get};
ghost use Rattle.ptree.specs.Config.{config_of};
ghost use Rattle.ptree.specs.AllFaults.{listed, field_faults, faults_in, all_faults};
ghost use Rattle.ptree.specs.Fields.{all_fields, HasEach};
ghost use Rattle.ptree.specs.Lent.{document_of, node_of, given_of};
ghost use Rattle.ptree.specs.Loading.{text_fits, node_fits, variable_fault, key_fault, field_fault, table_fault, file_fault, first_of, fault_in, first_fault, loaded_config};
ghost use Rattle.ptree.specs.Sources.{file_document};

use crate::parsed::{Parsed, ParsedPart};
use crate::print_config::fields::{FIELDS, Field, Kind, Part};
use crate::print_config::file::read_document;
use crate::print_config::given::Given;
use crate::print_config::lent::set_node;
use crate::print_config::parse::{Spelling, parse_flag, parse_number, parse_set, parse_when};
use crate::print_config::{FileSource, PrintConfig, Sources};
use std::alloc::{AllocError, Global};
use std::error::Error;
use std::fmt;

/// What is wrong with sources.
#[derive(Debug, Clone, Copy, PartialEq, Eq)]
pub enum Fault {
    /// The file could not be read as UTF-8.
    Unreadable,

    /// The file's text is invalid in its format, or the top of a JSON text is not an object.
    Syntax,

    /// The value at the key of this part's style is not a table.
    Table(Part),

    /// The variable of this field has a value that the field does not accept.
    Variable(Field),

    /// The value at the key of this field is one that the field does not accept.
    Key(Field),
}

impl fmt::Display for Fault {
    fn fmt<W: fmt::Write>(&self, f: &mut fmt::Formatter<W>) -> fmt::Result {
        match self {
            Fault::Unreadable => f.write_str("the file couldn't be read"),
            Fault::Syntax => f.write_str("the file has a syntax error"),
            Fault::Table(part) => write!(f, "the file's key {} is not a table", part.key()),
            Fault::Variable(field) => {
                write!(
                    f,
                    "the variable {} isn't {}",
                    field.variable(),
                    field.kind()
                )
            }
            Fault::Key(field) => write_key(f, *field),
        }
    }
}

// Writes that the value at a field's key is none that it accepts.
fn write_key<W: fmt::Write>(f: &mut fmt::Formatter<W>, field: Field) -> fmt::Result {
    let (key, kind) = (field.key(), field.kind());
    match field.table() {
        Some(table) => write!(f, "the file's key {table}.{key} isn't {kind}"),
        None => write!(f, "the file's key {key} isn't {kind}"),
    }
}

impl Error for Fault {}

/// Returns the configuration of the sources, or `None` if there is a fault in one of them.
///
/// Each field has the value of its variable, or else of its key in the file, or else the default.
/// If there is a fault, no field is kept.
///
/// # Errors
///
/// Memory ran out.
pub fn load(alloc: Global, sources: &Sources) -> Result<Option<PrintConfig>, AllocError>
    ensures { IfOk result (λ config. option_map config_of config ≡ loaded_config sources.now) }
{
    let document = read_document(alloc, &sources.file)?;
    let loaded = load_with(alloc, sources, &document);
    drop(document);
    loaded
}

// Returns the configuration of the sources, given the document of their file.
fn load_with(
    alloc: Global,
    sources: &Sources,
    read: &Option<Parsed>,
) -> Result<Option<PrintConfig>, AllocError>
    requires { option_map document_of read.now ≡ file_document sources.now.file }
    ensures { IfOk result (λ config. option_map config_of config ≡ loaded_config sources.now) }
{
    let given = Given::of(sources, read);
    if first_fault_in(&sources.file, read, &given).is_some() {
        return Ok(None);
    }
    Ok(Some(given.configuration(alloc)?))
}

/// Returns the first fault in the sources, or `None` exactly when [`load`] returns a configuration.
///
/// The order is: the file as a whole, then the tables of the two styles, then field by field the
/// variable and the key.
///
/// # Errors
///
/// Memory ran out.
pub fn first_fault(alloc: Global, sources: &Sources) -> Result<Option<Fault>, AllocError>
    ensures { IfOk result (λ fault. fault ≡ first_fault sources.now) }
{
    let document = read_document(alloc, &sources.file)?;
    let given = Given::of(sources, &document);
    let fault = first_fault_in(&sources.file, &document, &given);
    drop(document);
    Ok(fault)
}

/// Returns all faults in the sources, in the order in which [`first_fault`] looks for them: the
/// file as a whole, the tables of the two styles, and then field by field the variable and the key.
///
/// It takes the time of [`load`], and allocates the result.
///
/// # Errors
///
/// Memory ran out.
#[tactic(auto, using(crate::proofs::Config::FaultLists::front_of_faults))]
pub fn faults(alloc: Global, sources: &Sources) -> Result<Vec<Fault>, AllocError>
    ensures all { IfOk result (λ found. found.items ≡ all_faults sources.now) }
    ensures first { IfOk result (λ found. slice_get found.items 0 ≡ first_fault sources.now) }
{
    let document = read_document(alloc, &sources.file)?;
    let given = Given::of(sources, &document);
    let found = faults_in(alloc, &sources.file, &document, &given);
    drop(document);
    found
}

// Returns all faults in a file, its document and the variables.
#[tactic(auto, unfolding(crate::specs::AllFaults::faults_in))]
fn faults_in(
    alloc: Global,
    file: &FileSource,
    read: &Option<Parsed>,
    given: &Given<'_>,
) -> Result<Vec<Fault>, AllocError>
    requires { option_map document_of read.now ≡ file_document file.now }
    ensures { IfOk result (λ found.
        found.items ≡ faults_in (file_fault file.now) (given_of given.now)) }
{
    let mut found = Vec::new(alloc);
    push_fault(&mut found, file_fault(file, read))?;
    push_fault(&mut found, given.table_fault(Part::Branch))?;
    push_fault(&mut found, given.table_fault(Part::Leaf))?;
    given.push_field_faults(&mut found, &FIELDS)?;
    Ok(found)
}

// Adds a fault, if there is one.
fn push_fault(found: &mut Vec<Fault>, fault: Option<Fault>) -> Result<(), AllocError>
    ensures { OnOk result (found.new.items ≡ found.old.items ++ listed fault) }
{
    if let Some(fault) = fault {
        found.push(fault)?;
    }
    Ok(())
}

// Returns the first fault in a file, its document and the variables.
#[tactic(auto, unfolding(crate::specs::Loading::fault_in))]
fn first_fault_in(file: &FileSource, read: &Option<Parsed>, given: &Given<'_>) -> Option<Fault>
    requires { option_map document_of read.now ≡ file_document file.now }
    ensures first { result ≡ fault_in (file_fault file.now) (given_of given.now) }
    ensures each { HasEach all_fields }
{
    if let Some(fault) = file_fault(file, read) {
        return Some(fault);
    }
    if let Some(fault) = given.table_fault(Part::Branch) {
        return Some(fault);
    }
    if let Some(fault) = given.table_fault(Part::Leaf) {
        return Some(fault);
    }
    given.first_field_fault(&FIELDS)
}

// Returns the fault of a file that has no document.
fn file_fault(file: &FileSource, read: &Option<Parsed>) -> Option<Fault>
    requires { option_map document_of read.now ≡ file_document file.now }
    ensures { result ≡ file_fault file.now }
{
    match file {
        FileSource::Absent => None,
        FileSource::Unreadable => Some(Fault::Unreadable),
        FileSource::Toml(_) | FileSource::Json(_) => {
            if read.is_some() {
                None
            } else {
                Some(Fault::Syntax)
            }
        }
    }
}

impl<'a> Given<'a> {
    // Adds all faults of these fields.
    fn push_field_faults(&self, found: &mut Vec<Fault>, fields: &[Field]) -> Result<(), AllocError>
        ensures { OnOk result (found.new.items
            ≡ found.old.items ++ flat_map (field_faults (given_of self.now)) fields.now) }
    {
        for field in fields {
            push_fault(found, self.variable_fault(*field))?;
            push_fault(found, self.key_fault(*field))?;
        }
        Ok(())
    }

    // Returns the first fault of these fields.
    fn first_field_fault(&self, fields: &[Field]) -> Option<Fault>
        ensures { result ≡ first_of (map (field_fault (given_of self.now)) fields.now) }
    {
        for field in fields {
            if let Some(fault) = self.field_fault(*field) {
                return Some(fault);
            }
        }
        None
    }

    // Returns the fault of a field: that of its variable, or else that of its key.
    fn field_fault(&self, field: Field) -> Option<Fault>
        ensures { result ≡ field_fault (given_of self.now) field }
    {
        if let Some(fault) = self.variable_fault(field) {
            return Some(fault);
        }
        self.key_fault(field)
    }

    // Returns the fault of a field's variable.
    fn variable_fault(&self, field: Field) -> Option<Fault>
        ensures { result ≡ variable_fault (given_of self.now) field }
    {
        match self.variable(field) {
            Some(value) if !text_fits(field.kind(), value) => Some(Fault::Variable(field)),
            _ => None,
        }
    }

    // Returns the fault of a field's key.
    fn key_fault(&self, field: Field) -> Option<Fault>
        ensures { result ≡ key_fault (given_of self.now) field }
    {
        match self.node(field) {
            Some(value) if !node_fits(field.kind(), value) => Some(Fault::Key(field)),
            _ => None,
        }
    }

    // Returns the fault of a part whose key holds a value that is not a table.
    fn table_fault(&self, part: Part) -> Option<Fault>
        ensures { result ≡ table_fault (given_of self.now) part }
    {
        match self.table_at(Some(part.key())) {
            Some(value) if !value.is_table() => Some(Fault::Table(part)),
            _ => None,
        }
    }
}

// Whether fields of a kind accept this text of a variable.
fn text_fits(kind: Kind, value: &str) -> bool
    ensures { result ≡ text_fits kind value.now }
{
    match kind {
        Kind::Whole(greatest) => parse_number(greatest, value).is_some(),
        Kind::When => parse_when(Spelling::AnyCase, value).is_some(),
        Kind::Set => parse_set(Spelling::AnyCase, value).is_some(),
        Kind::Text | Kind::Color => true,
        Kind::Flag => parse_flag(value).is_some(),
    }
}

// Whether fields of a kind accept this value of a file.
fn node_fits(kind: Kind, value: ParsedPart<'_>) -> bool
    ensures { result ≡ node_fits kind (node_of value.entry) }
{
    match kind {
        Kind::Whole(greatest) => value.as_whole(greatest).is_some(),
        Kind::When => value.as_when().is_some(),
        Kind::Set => set_node(value).is_some(),
        Kind::Text => value.as_text().is_some(),
        Kind::Color => value.is_null() || value.is_color(),
        Kind::Flag => value.as_flag().is_some(),
    }
}
