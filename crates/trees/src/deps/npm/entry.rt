//! What a lock file of npm has at a path.

use crate::deps::Refusal;
use serde_json::Value;
use std::alloc::{AllocError, Global};

/// A package at its path, or a link to one. The project is at the empty path.
#[derive(Clone, Copy)]
pub struct Entry<'a> {
    pub path: &'a str,
    pub value: &'a Value,

    /// The name that it gives itself, or that of its folder.
    pub own_name: &'a str,

    /// The name by which it is drawn: the one in a `node_modules`, or else its own.
    pub name: &'a str,

    /// The folder in whose `node_modules` it is, if it is in one.
    pub folder: Option<&'a str>,

    /// The path to which it leads, if it is a link. The project is none.
    pub target: Option<&'a str>,
}

impl<'a> Entry<'a> {
    /// Returns what is at a path. A project has this name if it gives itself none.
    ///
    /// # Errors
    ///
    /// What is wrong with it, and memory.
    pub fn read(
        alloc: Global,
        path: &'a str,
        value: &'a Value,
        project: &'a str,
    ) -> Result<Entry<'a>, Refusal> {
        let last = last_name(path, project);
        let own_name = text(value, "name").unwrap_or(last);
        let folder = folder(path, last);
        let entry = Entry {
            path,
            value,
            own_name,
            name: if folder.is_some() { last } else { own_name },
            folder,
            target: target(path, value),
        };
        entry.check(alloc)?;
        Ok(entry)
    }

    /// Returns the label: a name, the own name behind `@npm:` if it is another, and the version.
    ///
    /// # Errors
    ///
    /// Memory ran out.
    pub fn label(&self, alloc: Global) -> Result<String, AllocError> {
        let mut label = String::from_str(alloc, self.name)?;
        if self.own_name != self.name && !self.own_name.is_empty() {
            label.push_str("@npm:")?;
            label.push_str(self.own_name)?;
        }
        if let Some(version) = text(self.value, "version") {
            label.push('@')?;
            label.push_str(version)?;
        }
        Ok(label)
    }

    // Checks the path, and the kinds of what is there.
    fn check(&self, alloc: Global) -> Result<(), Refusal> {
        let whose = self.whose();
        if !self.value.is_object() {
            return Err(Refusal::of(alloc, &[whose, " is not a package"]));
        }
        if self.path == ".." || self.path.starts_with("../") {
            let outside = " is outside of the project, which is not supported";
            return Err(Refusal::of(alloc, &[whose, outside]));
        }
        if !self.path.is_empty() && !self.path.split('/').all(|part| is_name(part)) {
            return Err(Refusal::of(alloc, &["invalid path ", whose]));
        }
        self.check_kinds(alloc)
    }

    // Checks that the name and the version are texts, and that a link says where it leads.
    fn check_kinds(&self, alloc: Global) -> Result<(), Refusal> {
        for key in ["name", "version"] {
            match self.value.get(key) {
                None | Some(Value::String(_)) => {}
                Some(_) => return Err(self.invalid(alloc, key)),
            }
        }
        match self.value.get("link") {
            None | Some(Value::Bool(false)) => Ok(()),
            Some(Value::Bool(true)) if self.path.is_empty() || self.target.is_some() => Ok(()),
            Some(_) => Err(self.invalid(alloc, "link")),
        }
    }

    /// Adds the names in a list of needs.
    ///
    /// # Errors
    ///
    /// It is of another kind, and memory.
    pub fn push_names(
        &self,
        alloc: Global,
        list: &str,
        names: &mut Vec<&'a str>,
    ) -> Result<(), Refusal> {
        // npm takes an empty list of JSON for none.
        let needs = match self.value.get(list) {
            Some(Value::Object(needs)) => needs,
            Some(Value::Array(items)) if items.is_empty() => return Ok(()),
            Some(_) => return Err(self.invalid(alloc, list)),
            None => return Ok(()),
        };
        for (name, version) in needs.iter() {
            if !version.is_string() {
                let parts = ["version of ", name.as_str(), " in ", list];
                return Err(self.invalid(alloc, parts.concat(alloc)?.as_str()));
            }
            names.push(name.as_str())?;
        }
        Ok(())
    }

    // Says that a part of it is of another kind.
    fn invalid(&self, alloc: Global, part: &str) -> Refusal {
        Refusal::of(alloc, &["invalid ", part, " of ", self.whose()])
    }

    // Returns what a message calls it.
    fn whose(&self) -> &'a str {
        if self.path.is_empty() {
            "the project"
        } else {
            self.path
        }
    }
}

// Returns the text at a key.
fn text<'a>(value: &'a Value, key: &str) -> Option<&'a str> {
    value.get(key)?.as_str()
}

// Returns the path to which what is at a path leads, if it is a link.
fn target<'a>(path: &str, value: &'a Value) -> Option<&'a str> {
    match value.get("link") {
        Some(Value::Bool(true)) if !path.is_empty() => text(value, "resolved"),
        _ => None,
    }
}

// Returns the last name of a path, with an `@scope/` before it, or that of the project.
fn last_name<'a>(path: &'a str, project: &'a str) -> &'a str {
    if path.is_empty() {
        return project;
    }
    let (above, name) = path.rsplit_once('/').unwrap_or(("", path));
    let (_, scope) = above.rsplit_once('/').unwrap_or(("", above));
    if !scope.starts_with('@') {
        return name;
    }
    let start = above.len().saturating_sub(scope.len());
    path.get(start..).unwrap_or(name)
}

// Returns the folder in whose `node_modules` a path with this last name is, if it is in one.
fn folder<'a>(path: &'a str, name: &str) -> Option<&'a str> {
    let inner = path.strip_suffix(name)?.strip_suffix("node_modules/")?;
    if inner.is_empty() {
        Some(inner)
    } else {
        inner.strip_suffix('/')
    }
}

/// Whether a part of a path is the name of a file or folder.
pub fn is_name(part: &str) -> bool {
    part != "" && part != "." && part != ".."
}
