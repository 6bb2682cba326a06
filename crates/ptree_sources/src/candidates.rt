//! Where programs look for the configuration file.
ghost use Rattle.std.specs.Prelude.{◌≡◌, map, option_map, IfOk, string_bytes};
ghost use Rattle.ptree.specs.Sources.{variables_of};
ghost use Rattle.ptree_sources.specs.Candidates.{config_folder, folder_paths, candidates_in};
ghost use Rattle.ptree_sources.specs.OwnTypes.{candidates_of};

use crate::paths::{Candidates, named_paths, with_endings};
use ptree::print_config::{Spelling, last_value};
use std::alloc::{AllocError, Global};

/// Returns the paths of the configuration file, given the environment variables. Names of variables
/// are compared exactly, and the last one of a name counts.
///
/// `PTREE_CONFIG` names a file by its path. Without the ending `.toml` or `.json` it names the two
/// files with these endings. If `PTREE_CONFIG` is not set, the file is `ptree.toml` or `ptree.json`
/// in the folder that `XDG_CONFIG_HOME` names, if that begins with a slash, or else in `.config` of
/// `HOME`, unless that is empty.
///
/// # Errors
///
/// Memory ran out.
pub fn candidates(alloc: Global, variables: &[(String, String)]) -> Result<Candidates, AllocError>
    ensures { IfOk result (λ c. candidates_of c ≡ candidates_in (variables_of variables.now)) }
{
    let Some(value) = last_value(Spelling::Exact, "PTREE_CONFIG", variables) else {
        let paths = folder_paths(alloc, variables)?;
        return Ok(Candidates {
            named: false,
            paths,
        });
    };
    let paths = named_paths(alloc, value)?;
    Ok(Candidates { named: true, paths })
}

// Returns the paths in the user's configuration folder, if there is one.
fn folder_paths(alloc: Global, variables: &[(String, String)]) -> Result<Vec<String>, AllocError>
    ensures { IfOk result (λ paths. map string_bytes paths.items
        ≡ folder_paths (config_folder (variables_of variables.now))) }
{
    let Some(folder) = config_folder(alloc, variables)? else {
        return Ok(Vec::new(alloc));
    };
    let stem = [folder.as_str(), "/ptree"].concat(alloc)?;
    with_endings(alloc, stem.as_str())
}

// Returns the user's configuration folder.
fn config_folder(
    alloc: Global,
    variables: &[(String, String)],
) -> Result<Option<String>, AllocError>
    ensures { IfOk result (λ folder.
        option_map string_bytes folder ≡ config_folder (variables_of variables.now)) }
{
    if let Some(folder) = last_value(Spelling::Exact, "XDG_CONFIG_HOME", variables) {
        if folder.as_bytes().starts_with(b"/") {
            return Ok(Some(String::from_str(alloc, folder)?));
        }
    }
    match last_value(Spelling::Exact, "HOME", variables) {
        Some("") | None => Ok(None),
        Some(home) => Ok(Some([home, "/.config"].concat(alloc)?)),
    }
}
