//! Finds the package that another one needs.

use crate::deps::Refusal;
use crate::deps::tables::{Package, without_revision};
use std::alloc::Global;

/// A package that needs others, and all that are locked, in order.
#[derive(Clone, Copy)]
pub struct Needing<'a> {
    pub package: &'a Package<'a>,
    pub locked: &'a [Package<'a>],
}

/// What is known of a package that another one needs.
#[derive(Clone, Copy)]
pub struct Wanted<'a> {
    pub name: &'a str,
    pub version: Option<&'a str>,
    pub source: Option<&'a str>,
}

impl Needing<'_> {
    /// Returns the number of the package that is wanted, if there is one.
    ///
    /// # Errors
    ///
    /// There are several, and memory.
    pub fn find(&self, alloc: Global, wanted: Wanted<'_>) -> Result<Option<usize>, Refusal> {
        let packages = self.locked;
        let start = packages.partition_point(|package| wanted.is_behind(package));
        let Some(found) = wanted.first(packages, start) else {
            return Ok(None);
        };
        // A package in a folder has no source, so it cannot be named with one. It is the first.
        let is_local = packages.get(found).is_some_and(|it| it.source.is_empty());
        if wanted.version.is_some() && is_local {
            return Ok(Some(found));
        }
        match wanted.first(packages, found.saturating_add(1)) {
            Some(_) => Err(self.needs(alloc, wanted.name, ", of which there are several")),
            None => Ok(Some(found)),
        }
    }

    /// Says what is wrong with something that it has.
    pub fn has(&self, alloc: Global, wrong: &str) -> Refusal {
        Refusal::of(alloc, &[self.package.name, " has ", wrong])
    }

    /// Says what is wrong with what it needs by a name.
    pub fn needs(&self, alloc: Global, name: &str, wrong: &str) -> Refusal {
        Refusal::of(alloc, &[self.package.name, " needs ", name, wrong])
    }
}

impl Wanted<'_> {
    // Returns the number of the first package from one on that can be wanted.
    fn first(&self, packages: &[Package<'_>], start: usize) -> Option<usize> {
        for number in start..packages.len() {
            let package = &packages[number];
            if !self.has_version(package) {
                return None;
            }
            if self.has_source(package) {
                return Some(number);
            }
        }
        None
    }

    // Whether a package stands before those that can be wanted.
    fn is_behind(&self, package: &Package<'_>) -> bool {
        (package.name, package.version) < (self.name, self.version.unwrap_or(""))
    }

    // Whether a package has the name and the version that are known.
    fn has_version(&self, package: &Package<'_>) -> bool {
        package.name == self.name && self.version.unwrap_or(package.version) == package.version
    }

    // Whether it has the source that is known.
    fn has_source(&self, package: &Package<'_>) -> bool {
        let source = self.source.map(|source| without_revision(source));
        source.unwrap_or(package.origin) == package.origin
    }
}
