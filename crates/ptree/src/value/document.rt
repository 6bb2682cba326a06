//! Reads a document, and draws it.
ghost use Rattle.std.specs.Prelude.{◌≡◌, Ok, Err, IfOk, IfErr, IsOk, IsErrAnd, IsErrOf};
ghost use Rattle.ptree.specs.Data.{Data, KeysAscend, pair_shape};
ghost use Rattle.ptree.specs.Document.{document, IsRefusal, HasDocumentCause};
ghost use Rattle.ptree.specs.Drawing.{look_by, config_look};
ghost use Rattle.ptree.specs.Loading.{effective_config};
ghost use Rattle.ptree.specs.Parts.{parsed_of};
ghost use Rattle.ptree.specs.Writing.{IsDrawn, AppendsWholeEntries};

use super::ConvertError;
use super::from_json::has_float;
use super::from_toml::fault_of;
use super::node::DocumentNode;
use super::row::DocumentTop;
use crate::output::draw_for;
use crate::parsed::{Parsed, read_json, read_toml};
use crate::print_config::{OutputKind, PrintConfig, Sources};
use crate::sink::{DrawError, Sink};
use std::alloc::Global;
use std::error::Error;
use std::fmt;

/// The format of a document.
#[derive(Debug, Clone, Copy, PartialEq, Eq)]
pub enum DocFormat {
    /// TOML, by the crate `toml`.
    Toml,

    /// JSON, by the crate `serde_json`.
    Json,
}

/// Why a document was not drawn completely.
#[derive(Debug, Drop)]
pub enum DocError {
    /// The text is invalid in its format.
    Syntax,

    /// The document holds a float, before any date.
    Float,

    /// The document holds a date or a time, before any float.
    Date,

    /// Drawing failed, or memory ran out.
    Draw(DrawError),
}

impl fmt::Display for DocError {
    fn fmt<W: fmt::Write>(&self, f: &mut fmt::Formatter<W>) -> fmt::Result {
        match self {
            DocError::Syntax => f.write_str("invalid document"),
            DocError::Float => fmt::Display::fmt(&ConvertError::Float, f),
            DocError::Date => fmt::Display::fmt(&ConvertError::Date, f),
            DocError::Draw(e) => fmt::Display::fmt(e, f),
        }
    }
}

impl Error for DocError {}

/// Draws a document under a label to standard output, under the configuration of the sources
/// ([`PrintConfig::from_env`]). `terminal` says whether standard output is a terminal.
///
/// It reads and draws as [`draw_document_with`] does.
///
/// # Errors
///
/// The errors of [`draw_document_with`], with the same left in `out`.
pub fn draw_document<W: Sink>(
    alloc: Global,
    format: DocFormat,
    text: &str,
    label: &str,
    sources: &Sources,
    terminal: bool,
    out: &mut W,
) -> Result<(), DocError>
    ensures syntax { IsErrOf result DocError.Syntax
        → document format text.now ≡ Err DocError.Syntax }
    ensures float { IsErrOf result DocError.Float → document format text.now ≡ Err DocError.Float }
    ensures date { IsErrOf result DocError.Date → document format text.now ≡ Err DocError.Date }
    ensures refused { IfErr (document format text.now) (λ _.
        IsErrAnd result (IsRefusal (document format text.now)) × (out.new ≡ out.old)) }
    // Any other document is drawn under the configuration of the sources.
    ensures bytes { let effective = effective_config sources.now in
        IfOk (document format text.now)
        (λ v. IsDrawn (look_by effective OutputKind.Stdout terminal) (pair_shape (label.now, v))
        effective.depth (W.contents out.old) (W.contents out.new) result) }
    ensures keys { (v : Data) → document format text.now ≡ Ok v → IsOk result → KeysAscend v }
    // If memory ran out, whole entries were appended.
    ensures whole { let effective = effective_config sources.now in
        IfOk (document format text.now) (λ v. IsErrOf result (DocError.Draw DrawError.Memory) →
        AppendsWholeEntries (look_by effective OutputKind.Stdout terminal)
        (pair_shape (label.now, v)) effective.depth (W.contents out.old) (W.contents out.new)) }
    ensures cause { HasDocumentCause (W.faults out.old) (W.faults out.new) result }
{
    let config = PrintConfig::from_env(alloc, sources)?;
    let drawn = draw_document_with(alloc, format, text, label, &config, terminal, out);
    drop(config);
    drawn
}

/// Draws a document under a label to standard output. `terminal` says whether standard output is a
/// terminal.
///
/// The drawing is that of the pair of the label and the document's value. If the label is empty,
/// the root's text is that of the value. The document's values are drawn where the parser put them,
/// without a copy, so that beside the document it takes memory for one entry and a call a level.
///
/// # Errors
///
/// `Syntax`, `Float` and `Date` if the document is refused; nothing was written. `Draw` if `out`
/// failed, and a prefix of the drawing was written, or if memory ran out, and whole entries were
/// written.
pub fn draw_document_with<W: Sink>(
    alloc: Global,
    format: DocFormat,
    text: &str,
    label: &str,
    config: &PrintConfig,
    terminal: bool,
    out: &mut W,
) -> Result<(), DocError>
    // Each of these errors is returned only if it is the document's.
    ensures syntax { IsErrOf result DocError.Syntax
        → document format text.now ≡ Err DocError.Syntax }
    ensures float { IsErrOf result DocError.Float → document format text.now ≡ Err DocError.Float }
    ensures date { IsErrOf result DocError.Date → document format text.now ≡ Err DocError.Date }
    // A call with a refused document returns that error, or out of memory, and does not touch the
    // sink.
    ensures refused { IfErr (document format text.now)
        (λ _. IsErrAnd result (IsRefusal (document format text.now)) × (out.new ≡ out.old)) }
    // Any other document is drawn.
    ensures bytes { IfOk (document format text.now)
        (λ v. IsDrawn (config_look config.now OutputKind.Stdout terminal)
        (pair_shape (label.now, v)) config.now.depth (W.contents out.old)
        (W.contents out.new) result) }
    // In each table of a document that was drawn completely, the keys ascend, and none occurs
    // twice.
    ensures keys { (v : Data) → document format text.now ≡ Ok v → IsOk result → KeysAscend v }
    // If memory ran out, whole entries were appended.
    ensures whole { IfOk (document format text.now) (λ v.
        IsErrOf result (DocError.Draw DrawError.Memory) →
        AppendsWholeEntries (config_look config.now OutputKind.Stdout terminal)
        (pair_shape (label.now, v)) config.now.depth (W.contents out.old)
        (W.contents out.new)) }
    ensures cause { HasDocumentCause (W.faults out.old) (W.faults out.new) result }
{
    let parsed = parse_document(alloc, format, text)?;
    let root = DocumentTop(DocumentNode::root(label, &parsed));
    let drawn = draw_for(alloc, &root, out, OutputKind::Stdout, terminal, config);
    drop(parsed);
    drawn?;
    Ok(())
}

// Reads a text, and returns the document without floats and dates.
fn parse_document(alloc: Global, format: DocFormat, text: &str) -> Result<Parsed, DocError>
    ensures value { IfOk result (λ p. document format text.now ≡ Ok (parsed_of p)) }
    ensures keys { IfOk result (λ p. KeysAscend (parsed_of p)) }
    ensures refused { IfErr result (IsRefusal (document format text.now)) }
{
    match format {
        DocFormat::Toml => parse_toml_document(alloc, text),
        DocFormat::Json => parse_json_document(alloc, text),
    }
}

fn parse_json_document(alloc: Global, text: &str) -> Result<Parsed, DocError>
    ensures value { IfOk result (λ p. document DocFormat.Json text.now ≡ Ok (parsed_of p)) }
    ensures keys { IfOk result (λ p. KeysAscend (parsed_of p)) }
    ensures refused { IfErr result (IsRefusal (document DocFormat.Json text.now)) }
{
    match read_json(alloc, text)? {
        Ok(v) => {
            if has_float(&v) {
                return Err(DocError::Float);
            }
            Ok(Parsed::Json(v))
        }
        Err(_) => Err(DocError::Syntax),
    }
}

fn parse_toml_document(alloc: Global, text: &str) -> Result<Parsed, DocError>
    ensures value { IfOk result (λ p. document DocFormat.Toml text.now ≡ Ok (parsed_of p)) }
    ensures keys { IfOk result (λ p. KeysAscend (parsed_of p)) }
    ensures refused { IfErr result (IsRefusal (document DocFormat.Toml text.now)) }
{
    match read_toml(alloc, text)? {
        Ok(table) => {
            let v = toml::Value::Table(table);
            if let Some(fault) = fault_of(&v) {
                return Err(DocError::from(fault));
            }
            Ok(Parsed::Toml(v))
        }
        Err(_) => Err(DocError::Syntax),
    }
}
