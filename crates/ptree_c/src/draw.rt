//! Draws items.
ghost use Rattle.std.specs.Prelude.{◌≡◌, ◌⊎◌, ◌<◌, length};
ghost use Rattle.ptree_c.specs.Calls.{IsItemsDrawing};
ghost use Rattle.ptree_c.specs.Fields.{depth_of, look_of};
ghost use Rattle.ptree_c.specs.Outlines.{AreRight, IsItemsRefusal};
ghost use Rattle.ptree_c.specs.Presets.{look_at, IsPresetRefusal};
ghost use Rattle.ptree_c.specs.Refusals.{IsRefused, IsFieldsRefusal};
ghost use Rattle.ptree_c.specs.Rooms.{HasPut};

use crate::answer::refuse;
use crate::fields::{ConfigFields, config_of_fields};
use crate::items::Item;
use crate::outline::put_outline;
use crate::preset::config;
use crate::refusal::Refusal;
use crate::room::Found;
use std::alloc::Global;

/// Draws items into `out`, as much as there is room for, down to a depth, as a preset does. `found`
/// gets the length of the whole drawing.
#[unsafe(no_mangle)]
pub extern "C" fn ptree_draw(
    alloc: Global,
    items: &[Item],
    texts: &[u8],
    preset: u32,
    depth: u32,
    out: &mut [u8],
    found: &mut Found,
) -> u32
    ensures drawn { result ≡ 0 → HasPut (IsItemsDrawing (look_at preset depth) depth items.now
        texts.now) (length items.now) out.old out.new found.new }
    ensures kept { 1 < result → out.new ≡ out.old }
    ensures right { result ≡ 0 → AreRight texts.now items.now }
    ensures refused { 0 < result → (e : Refusal) × IsRefused result found.new e
        × (IsPresetRefusal preset e ⊎ IsItemsRefusal texts.now items.now e) }
    ensures unknown { 10 < preset → result ≡ 4 }
{
    match config(alloc, preset, depth) {
        Ok(config) => put_outline(alloc, items, texts, config, out, found),
        Err(refusal) => refuse(refusal, found),
    }
}

/// Draws items into `out`, as much as there is room for, as the fields of a configuration say. Its
/// texts are parts of `names`. `found` gets the length of the whole drawing.
#[unsafe(no_mangle)]
pub extern "C" fn ptree_draw_with(
    alloc: Global,
    items: &[Item],
    texts: &[u8],
    config: &ConfigFields,
    names: &[u8],
    out: &mut [u8],
    found: &mut Found,
) -> u32
    ensures drawn { result ≡ 0 → HasPut (IsItemsDrawing
        (look_of names.now config.now) (depth_of names.now config.now) items.now texts.now)
        (length items.now) out.old out.new found.new }
    ensures kept { 1 < result → out.new ≡ out.old }
    ensures right { result ≡ 0 → AreRight texts.now items.now }
    ensures refused { 0 < result → (e : Refusal) × IsRefused result found.new e
        × (IsFieldsRefusal config.now e ⊎ IsItemsRefusal texts.now items.now e) }
    ensures styled { 2 < config.now.styled → result ≡ 17 }
{
    match config_of_fields(alloc, names, config) {
        Ok(config) => put_outline(alloc, items, texts, config, out, found),
        Err(refusal) => refuse(refusal, found),
    }
}
