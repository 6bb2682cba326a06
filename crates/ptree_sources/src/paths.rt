//! Paths of the configuration file.
ghost use Rattle.std.specs.Prelude.{◌≡◌, map, IfOk, string_bytes};
ghost use Rattle.ptree_sources.specs.Candidates.{is_path, with_endings, named_paths};

use std::alloc::{AllocError, Global};

/// Paths in the order in which they are tried, and whether the user named them.
#[derive(Debug, Drop)]
pub struct Candidates {
    /// Whether `PTREE_CONFIG` names them.
    pub named: bool,

    /// The paths, in order.
    pub paths: Vec<String>,
}

// Whether a value of `PTREE_CONFIG` is a path as it is.
fn is_path(value: &str) -> bool
    ensures { result ≡ is_path value.now }
{
    let bytes = value.as_bytes();
    bytes.ends_with(b".json") || bytes.ends_with(b".toml")
}

/// Returns the paths that a value of `PTREE_CONFIG` names: the value itself if it ends in `.toml`
/// or `.json`, and otherwise the value with each of these endings.
///
/// # Errors
///
/// Memory ran out.
pub fn named_paths(alloc: Global, value: &str) -> Result<Vec<String>, AllocError>
    ensures { IfOk result (λ paths. map string_bytes paths.items ≡ named_paths value.now) }
{
    if !is_path(value) {
        return with_endings(alloc, value);
    }
    let mut paths = Vec::with_capacity(alloc, 1)?;
    paths.push(String::from_str(alloc, value)?)?;
    Ok(paths)
}

/// Returns the paths of a file in both formats: the stem with `.toml`, and with `.json`.
///
/// # Errors
///
/// Memory ran out.
pub fn with_endings(alloc: Global, stem: &str) -> Result<Vec<String>, AllocError>
    ensures { IfOk result (λ paths. map string_bytes paths.items ≡ with_endings stem.now) }
{
    let mut paths = Vec::with_capacity(alloc, 2)?;
    paths.push([stem, ".toml"].concat(alloc)?)?;
    paths.push([stem, ".json"].concat(alloc)?)?;
    Ok(paths)
}
