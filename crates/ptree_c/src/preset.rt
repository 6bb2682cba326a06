//! The configurations that C names by a number.
ghost use Rattle.std.specs.Prelude.{◌≡◌, ◌<◌, ℕ, List, IfOk, IfErr, IsErrOf, OnOk, length};
ghost use Rattle.ptree.specs.Config.{config_of};
ghost use Rattle.ptree_c.specs.Fields.{config_value};
ghost use Rattle.ptree_c.specs.Presets.{config_at, numbered_config, IsPresetRefusal, IsReadablePreset, IsReadableRefusal};
ghost use Rattle.ptree_c.specs.Refusals.{refusal_number, IsRefused};
ghost use Rattle.ptree_c.specs.Rooms.{filled, found_sizes};

use crate::answer::{put_bytes, refuse};
use crate::fields::{ConfigFields, Written, fields_of_config};
use crate::refusal::Refusal;
use crate::room::Found;
use ptree::PrintConfig;
use ptree::presets::Preset;
use ptree::read::pieces_readable;
use std::alloc::Global;

/// The presets by their numbers, from 1 on. 0 is the default configuration.
pub const PRESETS: [Preset; 10] = [
    Preset::Tree,
    Preset::TreeAscii,
    Preset::CargoTree,
    Preset::CargoTreeAscii,
    Preset::Findmnt,
    Preset::FindmntAscii,
    Preset::Sqlite,
    Preset::Maven,
    Preset::Clang,
    Preset::Ps,
];

/// The configuration of a preset's number, with this depth.
pub(crate) fn config(alloc: Global, preset: u32, depth: u32) -> Result<PrintConfig, Refusal>
    ensures value { IfOk result (λ config. config_of config ≡ config_at preset depth) }
    ensures refused { IfErr result (IsPresetRefusal preset) }
    ensures unknown { 10 < preset → IsErrOf result Refusal.Preset }
{
    let mut config = numbered(alloc, preset)?;
    config.depth = depth;
    Ok(config)
}

// The configuration of a preset's number.
fn numbered(alloc: Global, preset: u32) -> Result<PrintConfig, Refusal>
    ensures value { IfOk result (λ config. config_of config ≡ numbered_config preset) }
    ensures refused { IfErr result (IsPresetRefusal preset) }
    ensures unknown { 10 < preset → IsErrOf result Refusal.Preset }
{
    if preset == 0 {
        return Ok(PrintConfig::default(alloc)?);
    }
    let Some(preset) = PRESETS.get(preset as usize - 1) else {
        return Err(Refusal::Preset);
    };
    Ok(preset.config(alloc)?)
}

// Whether drawings of a preset can be read.
fn readable(alloc: Global, preset: u32) -> Result<(), Refusal>
    ensures readable { OnOk result (IsReadablePreset preset) }
    ensures refused { IfErr result (IsReadableRefusal preset) }
    ensures unknown { 10 < preset → IsErrOf result Refusal.Preset }
{
    let config = numbered(alloc, preset)?;
    let is_readable = pieces_readable(alloc, &config);
    drop(config);
    if is_readable? {
        Ok(())
    } else {
        Err(Refusal::Pieces)
    }
}

// The fields of a preset.
fn fields_of_preset(alloc: Global, preset: u32) -> Result<Written, Refusal>
    ensures fields { IfOk result (λ written.
        config_value written.names.items written.fields ≡ numbered_config preset) }
    ensures refused { IfErr result (IsPresetRefusal preset) }
    ensures unknown { 10 < preset → IsErrOf result Refusal.Preset }
{
    let config = numbered(alloc, preset)?;
    let written = fields_of_config(alloc, &config);
    drop(config);
    Ok(written?)
}

/// Puts fields of a configuration into `config`, and their texts into `names`.
pub(crate) fn put_fields(
    written: &Written,
    config: &mut ConfigFields,
    names: &mut [u8],
    found: &mut Found,
) -> u32
    ensures done { result ≡ 0 }
    ensures fields { config.new ≡ written.now.fields }
    ensures names { names.new ≡ filled names.old written.now.names.items }
    ensures found { found.new ≡ found_sizes (length written.now.names.items) 0 }
{
    *config = written.fields;
    put_bytes(&written.names, 0, names, found)
}

/// Puts the fields of a preset's configuration into `config`, and their texts into `names`, as much
/// as there is room for. `found` gets the length of all texts.
#[unsafe(no_mangle)]
pub extern "C" fn ptree_config(
    alloc: Global,
    preset: u32,
    config: &mut ConfigFields,
    names: &mut [u8],
    found: &mut Found,
) -> u32
    ensures made { result ≡ 0 → (texts : List ℕ)
        × (config_value texts config.new ≡ numbered_config preset)
        × (names.new ≡ filled names.old texts) × (found.new ≡ found_sizes (length texts) 0) }
    ensures kept { 0 < result → (config.new ≡ config.old) × (names.new ≡ names.old) }
    ensures refused { 0 < result → (e : Refusal) × IsRefused result found.new e
        × IsPresetRefusal preset e }
    ensures unknown { 10 < preset → result ≡ 4 }
{
    match fields_of_preset(alloc, preset) {
        Ok(written) => put_fields(&written, config, names, found),
        Err(refusal) => refuse(refusal, found),
    }
}

/// Tests whether there is a preset of that number, and its drawings can be read: 0, or else 1, 4 or
/// 5.
#[unsafe(no_mangle)]
pub extern "C" fn ptree_is_readable(alloc: Global, preset: u32) -> u32
    ensures readable { result ≡ 0 → IsReadablePreset preset }
    ensures refused { 0 < result → (e : Refusal) × (result ≡ refusal_number e)
        × IsReadableRefusal preset e }
    ensures unknown { 10 < preset → result ≡ 4 }
{
    match readable(alloc, preset) {
        Ok(()) => 0,
        Err(refusal) => refusal.number(),
    }
}
