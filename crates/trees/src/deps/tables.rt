//! The packages of lock files in TOML: tables `[[package]]`.

pub mod search;

use crate::deps::tables::search::Needing;
use crate::deps::{Packages, Refusal, poetry};
use crate::source::behind;
use std::alloc::{AllocError, Global};
use toml::Value;

const VERSIONS: &str = "versions other than 1, 3 and 4 are not supported";

const LOCK_VERSIONS: &str = "lock-versions other than 1.x and 2.x are not supported";

/// A package of a lock file.
#[derive(Clone, Copy)]
pub struct Package<'a> {
    pub name: &'a str,

    /// The version, or nothing.
    pub version: &'a str,

    /// Where it comes from, or nothing.
    pub source: &'a str,

    // That without the `#` and the revision at its end.
    origin: &'a str,

    /// The table in which it stands.
    pub table: &'a Value,
}

/// Returns the packages of a lock file, and what they need.
///
/// # Errors
///
/// It is no such file, and memory.
pub fn packages(alloc: Global, lock: &Value) -> Result<Packages, Refusal> {
    if let Some(wrong) = wrong_format(lock) {
        return Err(Refusal::of(alloc, &[wrong]));
    }
    // Only Poetry writes a hash of what the file was made from.
    let is_poetry = lock
        .get("metadata")
        .is_some_and(|it| it.get("content-hash").is_some());
    let tables = tables(alloc, lock)?;
    let names = if is_poetry {
        normal_names(alloc, &tables)?
    } else {
        Vec::new(alloc)
    };
    let mut locked = locked(alloc, &tables, &names)?;
    linked(alloc, &mut locked, is_poetry)
}

// Returns what is not known of a lock file's format, if anything is.
fn wrong_format(lock: &Value) -> Option<&'static str> {
    match lock.get("version") {
        Some(version) if !matches!(version.as_integer(), Some(1 | 3 | 4)) => return Some(VERSIONS),
        _ => {}
    }
    let metadata = lock.get("metadata")?;
    match (metadata.get("lock-version"), metadata.get("content-hash")) {
        _ if !metadata.is_table() => Some("metadata is not a table"),
        (Some(version), _) if !is_lock_version(version) => Some(LOCK_VERSIONS),
        (_, Some(hash)) if !hash.is_str() => Some("content-hash is not a text"),
        _ => None,
    }
}

// Whether a version is one of those of a `poetry.lock`: `1.` or `2.` and digits.
fn is_lock_version(version: &Value) -> bool {
    let text = version.as_str().unwrap_or("");
    let digits = behind(text, "1.").or(behind(text, "2.")).unwrap_or("");
    !digits.is_empty() && digits.trim_matches(|c: char| c.is_ascii_digit()).is_empty()
}

// Returns the tables of packages. The first versions of Cargo.lock have one of them at `root`.
fn tables(alloc: Global, lock: &Value) -> Result<Vec<&Value>, Refusal> {
    let Some(Value::Array(others)) = lock.get("package") else {
        return Err(Refusal::of(alloc, &["no packages"]));
    };
    let mut tables = Vec::new(alloc);
    for table in lock.get("root").into_iter().chain(others.iter()) {
        tables.push(table)?;
    }
    Ok(tables)
}

// Returns the names of packages in the form in which Poetry compares them.
fn normal_names(alloc: Global, tables: &[&Value]) -> Result<Vec<String>, Refusal> {
    let mut names = Vec::new(alloc);
    for table in tables {
        names.push(poetry::normal_name(alloc, name(alloc, table)?)?)?;
    }
    Ok(names)
}

// Returns the packages of tables, by the names given, or else by those in the tables.
fn locked<'a>(
    alloc: Global,
    tables: &[&'a Value],
    names: &'a [String],
) -> Result<Vec<Package<'a>>, Refusal> {
    let mut locked = Vec::new(alloc);
    for (number, table) in tables.iter().enumerate() {
        let name = match names.get(number) {
            Some(name) => name.as_str(),
            None => name(alloc, table)?,
        };
        locked.push(Package::of(alloc, table, name)?)?;
    }
    Ok(locked)
}

// Returns the name in a table.
fn name<'a>(alloc: Global, table: &'a Value) -> Result<&'a str, Refusal> {
    match text(table, "name") {
        Some(name) => Ok(name),
        None => Err(Refusal::of(alloc, &["a package has no name"])),
    }
}

// Puts packages into order, and returns them as they are drawn, with what they need.
fn linked(alloc: Global, locked: &mut [Package<'_>], is_poetry: bool) -> Result<Packages, Refusal> {
    locked.sort_unstable_by(|one, other| one.key().cmp(&other.key()));
    let mut packages = labelled(alloc, locked)?;
    let mut needed = Vec::new(alloc);
    for (number, package) in locked.iter().enumerate() {
        let needing = Needing { package, locked };
        if is_poetry {
            needing.push_locked(alloc, &mut needed)?;
        } else {
            needing.push_listed(alloc, &mut needed)?;
        }
        packages.push_needs(number, &needed)?;
        needed.clear();
    }
    Ok(packages)
}

/// Returns the text at a key of a table.
pub fn text<'a>(table: &'a Value, key: &str) -> Option<&'a str> {
    table.get(key)?.as_str()
}

/// Returns the text of a source: itself, or the URL or the first text of a table.
pub fn source_text(source: &Value) -> Option<&str> {
    match source {
        Value::String(text) => Some(text.as_str()),
        Value::Table(parts) => parts.get("url").or(parts.values().next())?.as_str(),
        _ => None,
    }
}

// Returns the source in a table, or nothing.
fn source(table: &Value) -> Option<&str> {
    table.get("source").map_or(Some(""), |it| source_text(it))
}

// Returns a source without the `#` and the revision at its end.
fn without_revision(source: &str) -> &str {
    source.split_once('#').map_or(source, |(source, _)| source)
}

impl<'a> Package<'a> {
    // Returns the package of a table, with a name.
    fn of(alloc: Global, table: &'a Value, name: &'a str) -> Result<Package<'a>, Refusal> {
        if table.get("replace").is_some() {
            return Err(Refusal::of(alloc, &[name, " is replaced, which is not supported"]));
        }
        let (source, version) = match (source(table), version(table)) {
            (Some(source), Some(version)) => (source, version),
            (None, _) => return Err(Refusal::of(alloc, &["invalid source of ", name])),
            (_, None) => return Err(Refusal::of(alloc, &[name, " has no version"])),
        };
        Ok(Package {
            name,
            version,
            source,
            origin: without_revision(source),
            table,
        })
    }

    // Returns what it is ordered by, and differs in. A need in a Cargo.lock names no revision.
    fn key(&self) -> (&'a str, &'a str, &'a str) {
        (self.name, self.version, self.origin)
    }

    // Whether another one has the name and the version of it.
    fn is_twin(&self, other: Option<&Package<'_>>) -> bool {
        other.is_some_and(|other| self.name == other.name && self.version == other.version)
    }

    // Returns the label, with the source if another package has the same name and version.
    fn label(&self, alloc: Global, has_twin: bool) -> Result<String, AllocError> {
        let mut label = String::from_str(alloc, self.name)?;
        if !self.version.is_empty() {
            label.push_str(" v")?;
            label.push_str(self.version)?;
        }
        if has_twin && !self.source.is_empty() {
            label.push_str(" (")?;
            label.push_str(self.source)?;
            label.push(')')?;
        }
        Ok(label)
    }
}

// Returns the version in a table. In a `uv.lock` a package whose source is a folder may have none.
fn version(table: &Value) -> Option<&str> {
    match table.get("version") {
        Some(version) => version.as_str(),
        None if table.get("source")?.is_table() => Some(""),
        None => None,
    }
}

// Returns packages in order as they are drawn, and so far without needs.
fn labelled(alloc: Global, packages: &[Package<'_>]) -> Result<Packages, Refusal> {
    let mut drawn = Packages::new(alloc);
    for (number, package) in packages.iter().enumerate() {
        let before = packages.get(number.wrapping_sub(1));
        let after = packages.get(number.saturating_add(1));
        if after.is_some_and(|after| after.key() == package.key()) {
            let parts = [package.name, " ", package.version, " occurs twice"];
            return Err(Refusal::of(alloc, &parts));
        }
        let has_twin = package.is_twin(before) || package.is_twin(after);
        drawn.labels.push(package.label(alloc, has_twin)?)?;
    }
    Ok(drawn)
}
