//! Callers that load configurations.
ghost use Rattle.std.specs.Prelude.{◌≡◌, ◌↔◌, false, Some, None, IfOk, IfSome, IsTrue, MatchResult, unwrap_or};
ghost use Rattle.ptree.specs.Config.{config_of, default_config};
ghost use Rattle.ptree.specs.Drawing.{IsDrawing, look_by, config_look};
ghost use Rattle.ptree.specs.Loading.{SayNothing, file_fault, loaded_config, effective_config};
ghost use Rattle.ptree.specs.Sources.{last_value, variables_of};
ghost use Rattle.ptree.specs.declared.print_config.OutputKind.{OutputKind};
ghost use Rattle.ptree.specs.declared.print_config.parse.Spelling.{Spelling};

use ptree::item::TreeItem;
use ptree::output::{tree_bytes, write_tree};
use ptree::print_config::{
    Fault, FileSource, OutputKind, PrintConfig, Sources, Spelling, faults, first_fault, last_value,
    syntax_line,
};
use ptree::style::{Counted, DrawError};
use std::alloc::{AllocError, Global};

/// The configuration of sources, or their first fault: if there is no fault, `from_env` returns
/// their configuration.
pub fn load_or_fault(
    alloc: Global,
    sources: &Sources,
) -> Result<Result<PrintConfig, Fault>, AllocError>
    ensures { IfOk result (λ loaded. MatchResult loaded
        (λ config. loaded_config sources.now ≡ Some (config_of config))
        (λ _. loaded_config sources.now ≡ None)) }
{
    match first_fault(alloc, sources)? {
        Some(fault) => Ok(Err(fault)),
        None => Ok(Ok(PrintConfig::from_env(alloc, sources)?)),
    }
}

/// How many faults there are after the first one. If there is a fault at all, nothing is loaded.
pub fn faults_after_first(alloc: Global, sources: &Sources) -> Result<Option<usize>, AllocError>
    ensures { IfOk result (λ o. IfSome o (λ _. loaded_config sources.now ≡ None)) }
{
    let found = faults(alloc, sources)?;
    match found.as_slice() {
        [] => Ok(None),
        [_, others @ ..] => Ok(Some(others.len())),
    }
}

/// Whether there is a file, and a text in it that is no document of its format.
pub fn has_bad_syntax(alloc: Global, file: &FileSource) -> Result<bool, AllocError>
    ensures { IfOk result (λ b. IsTrue b ↔ (file_fault file.now ≡ Some Fault.Syntax)) }
{
    Ok(syntax_line(alloc, file)?.is_some())
}

/// The value of the last variable of exactly this name, or else the given value.
pub fn value_or<'a>(name: &str, variables: &'a [(String, String)], otherwise: &'a str) -> &'a str
    ensures { result.now
        ≡ unwrap_or (last_value Spelling.Exact name.now (variables_of variables.now))
        otherwise.now }
{
    last_value(Spelling::Exact, name, variables).unwrap_or(otherwise)
}

/// What no sources give is the default.
pub fn load_nothing(alloc: Global) -> Result<PrintConfig, AllocError>
    ensures { IfOk result (λ config. config_of config ≡ default_config) }
{
    let sources = Sources {
        file: FileSource::Absent,
        variables: Vec::new(alloc),
    };
    PrintConfig::from_env(alloc, &sources)
}

/// The drawing of any item under sources, in memory: what the sources mean gives it.
pub fn drawing_under<T>(alloc: Global, item: &T, sources: &Sources) -> Result<Vec<u8>, DrawError>
where
    T: TreeItem,
    T::Child: TreeItem<Child = T::Child> + Drop,
    ensures { IfOk result (λ v. let effective = effective_config sources.now in
        IsDrawing (look_by effective OutputKind.Unknown false) (T.shape item.now) effective.depth
        v.items) }
{
    let mut out = Counted::new(Vec::new(alloc));
    write_tree(alloc, item, &mut out, sources)?;
    Ok(out.into_inner())
}

/// The drawing of any item without a file, and without a variable of a field: that under the
/// default, with every level that there can be.
pub fn drawing_unset<T>(alloc: Global, item: &T, sources: &Sources) -> Result<Vec<u8>, AllocError>
where
    T: TreeItem,
    T::Child: TreeItem<Child = T::Child> + Drop,
    requires { SayNothing sources.now }
    ensures { IfOk result (λ v.
        IsDrawing (look_by default_config OutputKind.Unknown false) (T.shape item.now)
        4294967295 v.items) }
{
    tree_bytes(alloc, item, &PrintConfig::from_env(alloc, sources)?)
}

/// Two configurations that hold the same give one drawing, wherever their texts lie.
pub fn drawing_of_same<T>(
    alloc: Global,
    item: &T,
    config: &PrintConfig,
    other: &PrintConfig,
) -> Result<Vec<u8>, AllocError>
where
    T: TreeItem,
    T::Child: TreeItem<Child = T::Child> + Drop,
    requires { config_of config.now ≡ config_of other.now }
    ensures { IfOk result (λ v.
        IsDrawing (config_look other.now OutputKind.Unknown false) (T.shape item.now)
        other.now.depth v.items) }
{
    tree_bytes(alloc, item, config)
}

/// Whether a configuration holds what the default does.
pub fn is_default(alloc: Global, config: &PrintConfig) -> Result<bool, AllocError>
    ensures { IfOk result (λ is_it.
        IsTrue is_it ↔ (config_of config.now ≡ default_config)) }
{
    Ok(*config == PrintConfig::default(alloc)?)
}
