//! Callers that draw values and documents.
ghost use Rattle.std.specs.Prelude.{◌≡◌, false, Ok, Err, IfOk, IsTrue};
ghost use Rattle.ptree.specs.Data.{Data, KeysAscend, pair_shape, value_shape};
ghost use Rattle.ptree.specs.Document.{document};
ghost use Rattle.ptree.specs.Drawing.{config_look, written_look, IsDrawing};
ghost use Rattle.ptree.specs.Value.{data_of};

use ptree::output::tree_bytes;
use ptree::print_config::{OutputKind, PrintConfig};
use ptree::style::{Counted, Sink};
use ptree::value::{DocError, DocFormat, Value, draw_document_with};
use std::alloc::{AllocError, Global};

/// The drawing of a document, in memory. If it is returned, the document has a value, and the
/// drawing is that of the label and the value.
pub fn drawing_of_document(
    alloc: Global,
    format: DocFormat,
    text: &str,
    label: &str,
    config: &PrintConfig,
) -> Result<Vec<u8>, DocError>
    ensures { IfOk result (λ drawn. (v : Data) × (document format text.now ≡ Ok v)
        × IsDrawing (config_look config.now OutputKind.Stdout false) (pair_shape (label.now, v))
        config.now.depth drawn.items) }
{
    let mut out = Counted::new(Vec::new(alloc));
    draw_document_with(alloc, format, text, label, config, false, &mut out)?;
    Ok(out.into_inner())
}

/// Draws a document. If all of it was drawn, it has a value, and the keys of each table ascend.
pub fn draw_sorted<W: Sink>(
    alloc: Global,
    format: DocFormat,
    text: &str,
    config: &PrintConfig,
    out: &mut W,
) -> Result<(), DocError>
    ensures { IfOk result (λ _.
        (v : Data) × (document format text.now ≡ Ok v) × KeysAscend v) }
{
    draw_document_with(alloc, format, text, "", config, false, out)?;
    Ok(())
}

/// Draws a document, or says that it is none that can be drawn, and then it has written nothing.
pub fn is_bad_document<W: Sink>(
    alloc: Global,
    text: &str,
    config: &PrintConfig,
    out: &mut W,
) -> bool
    ensures { IsTrue result → (e : DocError) × (document DocFormat.Json text.now ≡ Err e)
        × (out.new ≡ out.old) }
{
    match draw_document_with(alloc, DocFormat::Json, text, "", config, false, out) {
        Err(DocError::Syntax | DocError::Float | DocError::Date) => true,
        Ok(()) | Err(DocError::Draw(_)) => false,
    }
}

/// The drawing of a value and that of its copy are the same.
pub fn drawing_of_copy(
    alloc: Global,
    value: &Value,
    config: &PrintConfig,
) -> Result<Vec<u8>, AllocError>
    ensures { IfOk result (λ drawn.
        IsDrawing (written_look config.now) (value_shape (data_of value.now)) config.now.depth
        drawn.items) }
{
    let copy = value.clone()?;
    tree_bytes(alloc, &copy, config)
}
