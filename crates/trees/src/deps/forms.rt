//! The forms of inputs, by what they begin with, and by their names and lines.
ghost use Rattle.std.specs.List.{list_any};
ghost use Rattle.std.specs.Prelude.{◌≡◌, MatchOption, is_some};
ghost use Rattle.std.specs.Str.{bytes_eq};
ghost use Rattle.trees.specs.Depending.{begins_as, has_tables, is_lock, is_other_line, other_names, IsOwn};

use crate::source::Source;

const PNPM: &str = "lock files of pnpm are not supported";

const YARN: &str = "lock files of yarn are not supported";

const PDM: &str = "lock files of PDM are not supported";

const COMPOSER: &str = "lock files of Composer are not supported";

const GO: &str = "not a lock file; use what `go mod graph` prints";

/// Whether an input is a lock file.
pub fn is_lock(source: &Source) -> bool
    ensures { result ≡ is_lock source.now }
{
    begins_as(source, "{") || has_tables(source)
}

/// Whether an input begins with a text, behind white space.
pub fn begins_as(source: &Source, start: &str) -> bool
    ensures { result ≡ begins_as start.now source.now }
{
    source.unmarked().trim_start().starts_with(start)
}

// Whether an input has tables of packages, or says as a poetry.lock does that there are none.
fn has_tables(source: &Source) -> bool
    ensures { result ≡ has_tables source.now }
{
    let text = source.unmarked();
    text.contains("[[package]]") || text.contains("package = []")
}

/// Says of an input that is a list of another program, by its name or a line, that it is not read.
pub fn form_not_read(source: &Source) -> Option<&'static str>
    ensures { MatchOption result (IsOwn source.now) (λ _. IsOwn source.now → ⊥) }
{
    if let Some(wrong) = name_not_read(source.label()) {
        return Some(wrong);
    }
    for line in source.unmarked().lines() {
        if let Some(wrong) = line_not_read(line) {
            return Some(wrong);
        }
    }
    None
}

// Says so of a file with such a name.
fn name_not_read(name: &str) -> Option<&'static str>
    ensures { is_some result ≡ list_any (bytes_eq name.now) other_names }
{
    match name {
        "pnpm-lock.yaml" => Some(PNPM),
        "yarn.lock" => Some(YARN),
        "pdm.lock" => Some(PDM),
        "composer.lock" => Some(COMPOSER),
        "Cargo.toml" | "package.json" | "pyproject.toml" => {
            Some("not a lock file; use the one beside it")
        },
        "go.mod" => Some(GO),
        _ => None,
    }
}

// Says so of a text with such a line.
fn line_not_read(line: &str) -> Option<&'static str>
    ensures { is_some result ≡ is_other_line line.now }
{
    if line.starts_with("lockfileVersion:") {
        Some(PNPM)
    } else if line.starts_with("# yarn lockfile ") || line.starts_with("__metadata:") {
        Some(YARN)
    } else if line.starts_with("go 1.") {
        Some(GO)
    } else if line.starts_with("lock_version = ") {
        Some(PDM)
    } else if line.starts_with("    \"_readme\": [") {
        Some(COMPOSER)
    } else {
        None
    }
}
