//! What is installed in the `node_modules` of folders.

use std::alloc::{AllocError, Global};
use std::collections::BTreeMap;

// The numbers of the packages in a `node_modules`, by their names in lower case.
type Names = BTreeMap<String, usize>;

/// The packages in each `node_modules`, by the folders that have those.
#[derive(Drop)]
pub struct Installed<'a> {
    folders: BTreeMap<&'a str, Names>,
}

impl<'a> Installed<'a> {
    /// Returns nothing that is installed.
    pub fn new(alloc: Global) -> Installed<'a> {
        Installed {
            folders: BTreeMap::new(alloc),
        }
    }

    /// Adds the package of a name. Returns whether none is there whose name differs in case alone.
    ///
    /// # Errors
    ///
    /// Memory ran out.
    pub fn add(
        &mut self,
        alloc: Global,
        folder: &'a str,
        name: &str,
        package: usize,
    ) -> Result<bool, AllocError> {
        let names = self.folders.entry(folder)?;
        let names = names.or_insert(BTreeMap::new(alloc));
        Ok(names.insert(name.to_lowercase(alloc)?, package)?.is_none())
    }

    /// Returns what the package at a path needs by some names, in whatever case, as npm compares
    /// them: what is in the `node_modules` of the nearest folder that has it, from the path up.
    ///
    /// # Errors
    ///
    /// Memory ran out.
    pub fn find(
        &self,
        alloc: Global,
        path: &str,
        names: &[&str],
    ) -> Result<Vec<usize>, AllocError> {
        let folders = self.folders_above(alloc, path)?;
        let mut found = Vec::new(alloc);
        for name in names {
            let name = name.to_lowercase(alloc)?;
            if let Some(package) = folders.iter().find_map(|names| names.get(name.as_str())) {
                found.push(*package)?;
            }
        }
        Ok(found)
    }

    // Returns the folders with a `node_modules`, from a path up to the project.
    fn folders_above(&self, alloc: Global, path: &str) -> Result<Vec<&Names>, AllocError> {
        let mut folders = Vec::new(alloc);
        let ends = path.rmatch_indices('/').map(|(end, _)| end);
        for end in [path.len()].into_iter().chain(ends).chain([0]) {
            if let Some(names) = self.folders.get(path.get(..end).unwrap_or("")) {
                folders.push(names)?;
            }
        }
        Ok(folders)
    }
}
