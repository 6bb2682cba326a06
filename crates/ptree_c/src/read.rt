//! Reads a drawing.
ghost use Rattle.std.specs.Prelude.{◌≡◌, ◌⊎◌, ◌<◌, ℕ, List, IfOk, IfErr, IsErrOf, length};
ghost use Rattle.ptree.specs.Drawing.{written_look};
ghost use Rattle.ptree.specs.Readable.{HasReadablePieces};
ghost use Rattle.ptree.specs.Scanned.{IsError};
ghost use Rattle.ptree_c.specs.Calls.{AreItemsOf, IsReadRefusal};
ghost use Rattle.ptree_c.specs.Fields.{depth_of, look_of};
ghost use Rattle.ptree_c.specs.Presets.{look_at, IsPresetRefusal};
ghost use Rattle.ptree_c.specs.Refusals.{IsRefused, IsFieldsRefusal};
ghost use Rattle.ptree_c.specs.Rooms.{filled, found_sizes};

use crate::answer::{refuse, report};
use crate::fields::{ConfigFields, config_of_fields};
use crate::items::Item;
use crate::preset::config;
use crate::refusal::Refusal;
use crate::room::{Found, fill};
use ptree::PrintConfig;
use ptree::read::{ItemReader, ReadError, pieces_readable};
use std::alloc::Global;
use std::str;

// Items, and their texts.
#[derive(Drop)]
struct Flat {
    items: Vec<Item>,
    texts: Vec<u8>,
}

// The items of the tree whose drawing a text is.
fn flat_items(alloc: Global, text: &str, config: &PrintConfig) -> Result<Flat, ReadError>
    requires { HasReadablePieces config.now }
    ensures items { IfOk result (λ flat.
        AreItemsOf (written_look config.now) config.now.depth text.now flat.items.items
        flat.texts.items) }
    ensures error { IfErr result (IsError (written_look config.now) config.now.depth text.now) }
{
    let mut reader = ItemReader::new(alloc, text, config)?;
    let mut items = Vec::new(alloc);
    let mut texts = Vec::new(alloc);
    while let Some(item) = reader.next_item()? {
        texts.extend_from_slice(item.text.as_str().as_bytes())?;
        items.push(Item {
            end: texts.len(),
            level: item.level as u32,
        })?;
    }
    Ok(Flat { items, texts })
}

// The items of the tree whose drawing bytes are, or why they are none.
fn items_of_text(alloc: Global, text: &[u8], config: &PrintConfig) -> Result<Flat, Refusal>
    ensures items { IfOk result (λ flat.
        AreItemsOf (written_look config.now) config.now.depth text.now flat.items.items
        flat.texts.items) }
    ensures refused { IfErr result
        (IsReadRefusal (written_look config.now) config.now.depth text.now) }
{
    let Ok(text) = str::from_utf8(text) else {
        return Err(Refusal::Utf8(0));
    };
    if !pieces_readable(alloc, config)? {
        return Err(Refusal::Pieces);
    }
    match flat_items(alloc, text, config) {
        Ok(flat) => Ok(flat),
        Err(ReadError::Line(line)) => Err(Refusal::Line(line)),
        Err(ReadError::End) => Err(Refusal::Incomplete),
        Err(ReadError::Memory) => Err(Refusal::Memory),
    }
}

// The items of what a preset draws.
fn items_by_preset(alloc: Global, text: &[u8], preset: u32, depth: u32) -> Result<Flat, Refusal>
    ensures items { IfOk result (λ flat.
        AreItemsOf (look_at preset depth) depth text.now flat.items.items flat.texts.items) }
    ensures refused { IfErr result (λ e. IsPresetRefusal preset e
        ⊎ IsReadRefusal (look_at preset depth) depth text.now e) }
    ensures unknown { 10 < preset → IsErrOf result Refusal.Preset }
{
    let config = config(alloc, preset, depth)?;
    let items = items_of_text(alloc, text, &config);
    drop(config);
    items
}

// The items of what is drawn as fields say.
fn items_by_fields(
    alloc: Global,
    text: &[u8],
    fields: &ConfigFields,
    names: &[u8],
) -> Result<Flat, Refusal>
    ensures items { IfOk result (λ flat.
        AreItemsOf (look_of names.now fields.now) (depth_of names.now fields.now) text.now
        flat.items.items flat.texts.items) }
    ensures refused { IfErr result (λ e. IsFieldsRefusal fields.now e
        ⊎ IsReadRefusal (look_of names.now fields.now) (depth_of names.now fields.now) text.now e) }
    ensures styled { 2 < fields.now.styled → IsErrOf result Refusal.Styled }
{
    let config = config_of_fields(alloc, names, fields)?;
    let items = items_of_text(alloc, text, &config);
    drop(config);
    items
}

// Puts items and their texts into the memory of the caller.
fn put_items(flat: &Flat, items: &mut [Item], texts: &mut [u8], found: &mut Found) -> u32
    ensures done { result ≡ 0 }
    ensures items { items.new ≡ filled items.old flat.now.items.items }
    ensures texts { texts.new ≡ filled texts.old flat.now.texts.items }
    ensures found { found.new
        ≡ found_sizes (length flat.now.texts.items) (length flat.now.items.items) }
{
    fill(items, &flat.items);
    fill(texts, &flat.texts);
    report(flat.texts.len(), flat.items.len(), found)
}

/// Reads what a preset draws down to a depth, into `items` and `texts`, as much as there is room
/// for in each. `found` gets the number of items and the bytes of all texts, or after a refusal the
/// line that cannot continue the drawing.
#[unsafe(no_mangle)]
pub extern "C" fn ptree_read(
    alloc: Global,
    text: &[u8],
    preset: u32,
    depth: u32,
    items: &mut [Item],
    texts: &mut [u8],
    found: &mut Found,
) -> u32
    ensures read { result ≡ 0 → (got : List Item) × (labels : List ℕ)
        × AreItemsOf (look_at preset depth) depth text.now got labels
        × (items.new ≡ filled items.old got) × (texts.new ≡ filled texts.old labels)
        × (found.new ≡ found_sizes (length labels) (length got)) }
    ensures kept { 0 < result → (items.new ≡ items.old) × (texts.new ≡ texts.old) }
    ensures refused { 0 < result → (e : Refusal) × IsRefused result found.new e
        × (IsPresetRefusal preset e ⊎ IsReadRefusal (look_at preset depth) depth text.now e) }
    ensures unknown { 10 < preset → result ≡ 4 }
{
    match items_by_preset(alloc, text, preset, depth) {
        Ok(flat) => put_items(&flat, items, texts, found),
        Err(refusal) => refuse(refusal, found),
    }
}

/// Reads what is drawn as the fields of a configuration say, whose texts are parts of `names`, into
/// `items` and `texts`, as much as there is room for in each. `found` gets the number of items and
/// the bytes of all texts, or after a refusal the line that cannot continue the drawing.
#[unsafe(no_mangle)]
pub extern "C" fn ptree_read_with(
    alloc: Global,
    text: &[u8],
    config: &ConfigFields,
    names: &[u8],
    items: &mut [Item],
    texts: &mut [u8],
    found: &mut Found,
) -> u32
    ensures read { result ≡ 0 → (got : List Item) × (labels : List ℕ)
        × AreItemsOf (look_of names.now config.now) (depth_of names.now config.now) text.now got
        labels
        × (items.new ≡ filled items.old got) × (texts.new ≡ filled texts.old labels)
        × (found.new ≡ found_sizes (length labels) (length got)) }
    ensures kept { 0 < result → (items.new ≡ items.old) × (texts.new ≡ texts.old) }
    ensures refused { 0 < result → (e : Refusal) × IsRefused result found.new e
        × (IsFieldsRefusal config.now e
        ⊎ IsReadRefusal (look_of names.now config.now) (depth_of names.now config.now) text.now e) }
    ensures styled { 2 < config.now.styled → result ≡ 17 }
{
    match items_by_fields(alloc, text, config, names) {
        Ok(flat) => put_items(&flat, items, texts, found),
        Err(refusal) => refuse(refusal, found),
    }
}
