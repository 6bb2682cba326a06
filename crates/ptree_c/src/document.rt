//! Draws JSON and TOML documents.
ghost use Rattle.std.specs.Prelude.{◌≡◌, ◌⊎◌, ◌<◌, IfOk, IfErr};
ghost use Rattle.ptree.specs.Config.{config_of};
ghost use Rattle.ptree_c.specs.Calls.{IsDocumentDrawing, IsDrawingOfDocument, IsFormat, IsTextRefusal, IsDocumentRefusal};
ghost use Rattle.ptree_c.specs.Fields.{config_value};
ghost use Rattle.ptree_c.specs.Presets.{config_at, IsPresetRefusal};
ghost use Rattle.ptree_c.specs.Refusals.{IsRefused, IsFieldsRefusal};
ghost use Rattle.ptree_c.specs.Rooms.{HasPut};

use crate::answer::{put_bytes, refuse};
use crate::fields::{ConfigFields, config_of_fields};
use crate::preset::config;
use crate::refusal::Refusal;
use crate::room::Found;
use ptree::PrintConfig;
use ptree::style::Counted;
use ptree::value::{DocError, DocFormat, draw_document_with};
use std::alloc::Global;
use std::str;

// The format of a number.
fn format_of(number: u32) -> Result<DocFormat, Refusal>
    ensures format { IfOk result (IsFormat number) }
    ensures refused { IfErr result (λ e. (e ≡ Refusal.Format) × (1 < number)) }
{
    match number {
        0 => Ok(DocFormat::Json),
        1 => Ok(DocFormat::Toml),
        _ => Err(Refusal::Format),
    }
}

// The drawing of a document in memory.
fn draw_in_memory(
    alloc: Global,
    format: DocFormat,
    text: &str,
    label: &str,
    config: &PrintConfig,
) -> Result<Vec<u8>, Refusal>
    ensures drawn { IfOk result (λ drawn.
        IsDrawingOfDocument (config_of config.now) format label.now text.now drawn.items) }
    ensures refused { IfErr result (IsTextRefusal format text.now) }
{
    let mut out = Counted::new(Vec::new(alloc));
    match draw_document_with(alloc, format, text, label, config, false, &mut out) {
        Ok(()) => Ok(out.into_inner()),
        Err(DocError::Syntax) => Err(Refusal::Syntax),
        Err(DocError::Float) => Err(Refusal::Float),
        Err(DocError::Date) => Err(Refusal::Date),
        // A vector fails only if memory ran out.
        Err(DocError::Draw(_)) => Err(Refusal::Memory),
    }
}

// The drawing of a document under a label.
fn drawing_of_document(
    alloc: Global,
    text: &[u8],
    label: &[u8],
    format: u32,
    config: &PrintConfig,
) -> Result<Vec<u8>, Refusal>
    ensures drawn { IfOk result (λ drawing.
        IsDocumentDrawing (config_of config.now) format label.now text.now drawing.items) }
    ensures refused { IfErr result (IsDocumentRefusal format label.now text.now) }
{
    let format = format_of(format)?;
    let Ok(text) = str::from_utf8(text) else {
        return Err(Refusal::Utf8(0));
    };
    let Ok(label) = str::from_utf8(label) else {
        return Err(Refusal::Utf8(1));
    };
    draw_in_memory(alloc, format, text, label, config)
}

// Puts the drawing of a document under a label, as a configuration says, into the memory of the
// caller.
fn put_drawing(
    alloc: Global,
    text: &[u8],
    label: &[u8],
    format: u32,
    config: PrintConfig,
    out: &mut [u8],
    found: &mut Found,
) -> u32
    ensures drawn { result ≡ 0 → HasPut (IsDocumentDrawing (config_of config) format label.now
        text.now) 0 out.old out.new found.new }
    ensures kept { 0 < result → out.new ≡ out.old }
    ensures refused { 0 < result → (e : Refusal) × IsRefused result found.new e
        × IsDocumentRefusal format label.now text.now e }
{
    let drawing = drawing_of_document(alloc, text, label, format, &config);
    drop(config);
    match drawing {
        Ok(drawing) => put_bytes(&drawing, 0, out, found),
        Err(refusal) => refuse(refusal, found),
    }
}

/// Draws a document under a label into `out`, as much as there is room for, down to a depth, as a
/// preset does. Format 0 is JSON, and 1 is TOML. `found` gets the length of the whole drawing.
#[unsafe(no_mangle)]
pub extern "C" fn ptree_draw_document(
    alloc: Global,
    text: &[u8],
    label: &[u8],
    format: u32,
    preset: u32,
    depth: u32,
    out: &mut [u8],
    found: &mut Found,
) -> u32
    ensures drawn { result ≡ 0 → HasPut (IsDocumentDrawing (config_at preset depth) format
        label.now text.now) 0 out.old out.new found.new }
    ensures kept { 0 < result → out.new ≡ out.old }
    ensures refused { 0 < result → (e : Refusal) × IsRefused result found.new e
        × (IsPresetRefusal preset e ⊎ IsDocumentRefusal format label.now text.now e) }
    ensures unknown { 10 < preset → result ≡ 4 }
{
    match config(alloc, preset, depth) {
        Ok(config) => put_drawing(alloc, text, label, format, config, out, found),
        Err(refusal) => refuse(refusal, found),
    }
}

/// Draws a document under a label into `out`, as much as there is room for, as the fields of a
/// configuration say, whose texts are parts of `names`. Format 0 is JSON, and 1 is TOML. `found`
/// gets the length of the whole drawing.
#[unsafe(no_mangle)]
pub extern "C" fn ptree_draw_document_with(
    alloc: Global,
    text: &[u8],
    label: &[u8],
    format: u32,
    config: &ConfigFields,
    names: &[u8],
    out: &mut [u8],
    found: &mut Found,
) -> u32
    ensures drawn { result ≡ 0 → HasPut (IsDocumentDrawing (config_value names.now config.now)
        format label.now text.now) 0 out.old out.new found.new }
    ensures kept { 0 < result → out.new ≡ out.old }
    ensures refused { 0 < result → (e : Refusal) × IsRefused result found.new e
        × (IsFieldsRefusal config.now e ⊎ IsDocumentRefusal format label.now text.now e) }
    ensures styled { 2 < config.now.styled → result ≡ 17 }
{
    match config_of_fields(alloc, names, config) {
        Ok(config) => put_drawing(alloc, text, label, format, config, out, found),
        Err(refusal) => refuse(refusal, found),
    }
}
