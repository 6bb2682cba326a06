//! Lock files of npm: `package-lock.json`.

mod entry;
mod installed;
mod workspaces;

use crate::deps::npm::entry::Entry;
use crate::deps::npm::installed::Installed;
use crate::deps::{Packages, Refusal};
use serde_json::{Map, Value};
use std::alloc::{AllocError, Global};

const OLD: &str = "lockfileVersion 1 is not supported; npm 7 and later write newer ones";

const NO_PACKAGES: &str = "no object at packages, as a lock file of npm has";

const ALIAS: &str = " is a link by another name than its package has, which is not supported";

// What a lock file has, in the order of the paths.
#[derive(Drop)]
struct Lock<'a> {
    entries: Vec<Entry<'a>>,

    // The entries that are no links.
    packages: Vec<Entry<'a>>,
}

/// Returns the packages of a lock file, and what they need. The file's name is that of a project
/// without one.
///
/// # Errors
///
/// It is no such file, and memory.
pub fn packages(alloc: Global, file: &str, lock: &Value) -> Result<Packages, Refusal> {
    let version = lock.get("lockfileVersion");
    let Some(Value::Object(entries)) = lock.get("packages") else {
        let is_old = version.is_some() && lock.get("dependencies").is_some();
        return Err(Refusal::of(alloc, &[if is_old { OLD } else { NO_PACKAGES }]));
    };
    if !matches!(version.and_then(|version| version.as_u64()), Some(2 | 3)) {
        let wrong = "no lockfileVersion 2 or 3, as a lock file of npm has";
        return Err(Refusal::of(alloc, &[wrong]));
    }
    let project = Entry::read(alloc, "", lock, file)?;
    // npm leaves out a project of which it has nothing but the name.
    if entries.is_empty() {
        return Ok(labelled(alloc, &[project])?);
    }
    Lock::of(alloc, entries, project.name)?.packages(alloc)
}

// Returns packages as they are drawn, and so far without needs.
fn labelled(alloc: Global, entries: &[Entry<'_>]) -> Result<Packages, AllocError> {
    let mut packages = Packages::new(alloc);
    for entry in entries {
        packages.labels.push(entry.label(alloc)?)?;
        packages.paths.push(String::from_str(alloc, entry.path)?)?;
    }
    Ok(packages)
}

// Returns the number of the entry with a path.
fn find(entries: &[Entry<'_>], path: &str) -> Option<usize> {
    entries.binary_search_by(|entry| entry.path.cmp(path)).ok()
}

impl<'a> Lock<'a> {
    // Returns what is in an object, by paths. A project has this name if it gives itself none.
    fn of(
        alloc: Global,
        packages: &'a Map<String, Value>,
        project: &'a str,
    ) -> Result<Lock<'a>, Refusal> {
        let mut lock = Lock {
            entries: Vec::new(alloc),
            packages: Vec::new(alloc),
        };
        for (path, value) in packages.iter() {
            let entry = Entry::read(alloc, path.as_str(), value, project)?;
            lock.entries.push(entry)?;
            if entry.target.is_none() {
                lock.packages.push(entry)?;
            }
        }
        Ok(lock)
    }

    // Returns the packages, and what they need.
    fn packages(&self, alloc: Global) -> Result<Packages, Refusal> {
        let installed = self.installed(alloc)?;
        let mut packages = labelled(alloc, &self.packages)?;
        for (number, package) in self.packages.iter().enumerate() {
            let names = self.names(alloc, package)?;
            let needed = installed.find(alloc, package.path, &names)?;
            packages.push_needs(number, &needed)?;
        }
        drop(installed);
        Ok(packages)
    }

    // Returns what is installed in each `node_modules`: packages, and those to which links lead.
    fn installed(&self, alloc: Global) -> Result<Installed<'a>, Refusal> {
        let mut installed = Installed::new(alloc);
        for entry in &self.entries {
            let package = self.number(alloc, entry)?;
            if let Some(folder) = entry.folder {
                if !installed.add(alloc, folder, entry.name, package)? {
                    let alike = " differs from another path in case alone, which is not supported";
                    return Err(Refusal::of(alloc, &[entry.path, alike]));
                }
            }
        }
        Ok(installed)
    }

    // Returns the number of the package that an entry is, or to which it leads.
    fn number(&self, alloc: Global, entry: &Entry<'a>) -> Result<usize, Refusal> {
        let target = entry.target.unwrap_or(entry.path);
        let Some(number) = find(&self.packages, target) else {
            let parts = [entry.path, " links to ", target, ", which is missing"];
            return Err(Refusal::of(alloc, &parts));
        };
        match self.packages.get(number) {
            Some(package) if package.name == entry.name => Ok(number),
            _ => Err(Refusal::of(alloc, &[entry.path, ALIAS])),
        }
    }

    // Whether a package is in the `node_modules` of the project or of another package.
    fn is_installed(&self, package: &Entry<'a>) -> bool {
        let is_package = |folder: &str| folder.is_empty() || find(&self.entries, folder).is_some();
        package.folder.is_some_and(is_package)
    }

    // Returns the names of what a package needs, each once and in order. What it is developed with
    // counts unless it is installed.
    fn names(&self, alloc: Global, package: &Entry<'a>) -> Result<Vec<&'a str>, Refusal> {
        let mut names = Vec::new(alloc);
        if !self.is_installed(package) {
            package.push_names(alloc, "devDependencies", &mut names)?;
        }
        for list in ["dependencies", "optionalDependencies", "peerDependencies"] {
            package.push_names(alloc, list, &mut names)?;
        }
        if package.path.is_empty() {
            self.push_workspaces(alloc, package, &mut names)?;
        }
        names.sort_unstable();
        names.dedup();
        Ok(names)
    }

    // Adds the names of the project's workspaces. Their patterns are a list, or one at `packages`.
    fn push_workspaces(
        &self,
        alloc: Global,
        project: &Entry<'a>,
        names: &mut Vec<&'a str>,
    ) -> Result<(), Refusal> {
        let Some(patterns) = project.value.get("workspaces") else {
            return Ok(());
        };
        let Some(patterns) = patterns.get("packages").unwrap_or(patterns).as_array() else {
            return Err(Refusal::of(alloc, &["workspaces is not a list"]));
        };
        for pattern in patterns {
            let Some(plain) = workspaces::plain(pattern) else {
                let wrong = format!(in alloc; "workspaces can be a/b, a/* or a/**, not {pattern}")?;
                return Err(Refusal::Wrong(wrong));
            };
            self.push_meant(plain, names)?;
        }
        Ok(())
    }

    // Adds the names of the packages whose paths a pattern means: of at most one if it has no star.
    fn push_meant(&self, pattern: &str, names: &mut Vec<&'a str>) -> Result<(), AllocError> {
        let numbers = match find(&self.packages, pattern) {
            _ if pattern.contains('*') => 0..self.packages.len(),
            Some(number) => number..number.saturating_add(1),
            None => 0..0,
        };
        for package in self.packages.get(numbers).unwrap_or(&[]) {
            if workspaces::means(pattern, package.path) {
                names.push(package.own_name)?;
            }
        }
        Ok(())
    }
}
