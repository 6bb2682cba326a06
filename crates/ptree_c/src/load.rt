//! Loads configurations from the text of a file and from variables.
ghost use Rattle.std.specs.Prelude.{◌≡◌, ◌<◌, ℕ, List, IfOk, length};
ghost use Rattle.ptree.specs.Sources.{variables_of};
ghost use Rattle.ptree_c.specs.Loads.{file_parts, file_given, variable_texts, AreSources, AreLoaded};
ghost use Rattle.ptree_c.specs.Refusals.{IsRefused};
ghost use Rattle.ptree_c.specs.Rooms.{filled, found_sizes};

use crate::answer::refuse;
use crate::fields::{ConfigFields, Part, Written, fields_of_config, text_of_part};
use crate::items::text_of;
use crate::preset::put_fields;
use crate::refusal::Refusal;
use crate::room::Found;
use ptree::print_config::{FileSource, Sources, load, syntax_line};
use std::alloc::Global;

/// A variable. Its name and its value are parts of the texts that a call is given with it.
#[repr(C)]
#[derive(Clone, Copy)]
pub struct Variable {
    /// The name.
    pub name: Part,

    /// The value.
    pub value: Part,
}

// The file of a format's number: 0 is JSON, 1 is TOML, 2 is no file, and 3 is one that could not be
// read.
fn file_of(alloc: Global, format: u32, text: &[u8]) -> Result<FileSource, Refusal>
    ensures { IfOk result (λ file. file_parts file ≡ file_given format text.now) }
{
    match format {
        0 => Ok(FileSource::Json(text_of(alloc, text, 0)?)),
        1 => Ok(FileSource::Toml(text_of(alloc, text, 0)?)),
        2 => Ok(FileSource::Absent),
        3 => Ok(FileSource::Unreadable),
        _ => Err(Refusal::Format),
    }
}

// The names and values of variables.
fn pairs_of(
    alloc: Global,
    variables: &[Variable],
    texts: &[u8],
) -> Result<Vec<(String, String)>, Refusal>
    ensures { IfOk result (λ pairs.
        variables_of pairs.items ≡ variable_texts texts.now variables.now) }
{
    let mut pairs = Vec::with_capacity(alloc, variables.len())?;
    let mut rest = variables;
    while let Some((variable, tail)) = rest.split_first() {
        let name = text_of_part(alloc, texts, variable.name)?;
        let value = text_of_part(alloc, texts, variable.value)?;
        pairs.push((name, value))?;
        rest = tail;
    }
    Ok(pairs)
}

/// The sources that C gives.
pub(crate) fn sources_of(
    alloc: Global,
    file: &[u8],
    format: u32,
    variables: &[Variable],
    texts: &[u8],
) -> Result<Sources, Refusal>
    ensures { IfOk result (AreSources file.now format variables.now texts.now) }
{
    Ok(Sources {
        file: file_of(alloc, format, file)?,
        variables: pairs_of(alloc, variables, texts)?,
    })
}

// The fields of the configuration of sources.
fn fields_of_sources(alloc: Global, sources: &Sources) -> Result<Written, Refusal>
    ensures { IfOk result (λ written.
        AreLoaded sources.now written.names.items written.fields) }
{
    match load(alloc, sources)? {
        Some(config) => {
            let written = fields_of_config(alloc, &config);
            drop(config);
            Ok(written?)
        }
        None => Err(Refusal::Fault(syntax_line(alloc, &sources.file)?.unwrap_or(0))),
    }
}

// The fields of the configuration of the sources that C gives.
fn fields_loaded(
    alloc: Global,
    file: &[u8],
    format: u32,
    variables: &[Variable],
    texts: &[u8],
) -> Result<Written, Refusal>
    ensures { IfOk result (λ written. (s : Sources)
        × AreSources file.now format variables.now texts.now s
        × AreLoaded s written.names.items written.fields) }
{
    let sources = sources_of(alloc, file, format, variables, texts)?;
    fields_of_sources(alloc, &sources)
}

/// Puts the fields of the configuration of a file and of variables into `config`, and their texts
/// into `names`, as much as there is room for. Format 0 is JSON, 1 is TOML, 2 is no file, and 3 is
/// one that could not be read. The names and values of the variables are parts of `texts`. `found`
/// gets the length of all texts, or after a fault in the file's syntax its line.
#[unsafe(no_mangle)]
pub extern "C" fn ptree_load(
    alloc: Global,
    file: &[u8],
    format: u32,
    variables: &[Variable],
    texts: &[u8],
    config: &mut ConfigFields,
    names: &mut [u8],
    found: &mut Found,
) -> u32
    ensures loaded { result ≡ 0 → (s : Sources) × (got : List ℕ)
        × AreSources file.now format variables.now texts.now s
        × AreLoaded s got config.new
        × (names.new ≡ filled names.old got) × (found.new ≡ found_sizes (length got) 0) }
    ensures kept { 0 < result → (config.new ≡ config.old) × (names.new ≡ names.old) }
    ensures refused { 0 < result → (e : Refusal) × IsRefused result found.new e }
{
    match fields_loaded(alloc, file, format, variables, texts) {
        Ok(written) => put_fields(&written, config, names, found),
        Err(refusal) => refuse(refusal, found),
    }
}
