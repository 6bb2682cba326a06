//! Dependencies of lock files and of lists of pairs.
ghost use Rattle.std.specs.Prelude.{◌≡◌, ⊤, true, IfOk, IfErr};
ghost use Rattle.trees.specs.Depending.{edges_of_needs, IsGraphIn, IsNoName};
ghost use Rattle.trees.specs.DependingParts.{labels_of, names_in, needs_in, needs_of, paths_in, paths_of, AreRead, AreWithin, HasRoot, IsWhole};
ghost use Rattle.trees.specs.Meaning.{HoldsNoGraph, HoldsNoPairs, IsGraphOf};
ghost use Rattle.trees.specs.Reading.{IsInput, FailsFor};
ghost use Rattle.trees.specs.Shown.{AreShownLabels};

mod cargo;
mod forms;
mod network;
mod npm;
mod pairs;
mod poetry;
mod root;
mod tables;
mod tops;

use crate::command::Deps;
use crate::deps::forms::{begins_as, form_not_read, is_lock};
use crate::deps::network::{Network, graph, linked};
use crate::document::{json_value, toml_value};
use crate::failure::Failure;
use crate::source::Source;
use ptree::graph::{Graph, NodeIndex};
use std::alloc::{AllocError, AllocFailed, Global};

/// What is drawn: a graph, and the node at the root.
#[derive(Drop)]
pub struct Dependencies {
    pub graph: Graph<String>,
    pub root: NodeIndex,
}

/// What is read of an input: packages, and what they need.
#[derive(Drop)]
pub struct Packages {
    /// How they are drawn, in the order in which what nothing needs is drawn.
    pub labels: Vec<String>,

    /// Their paths in a `package-lock.json`, and else nothing.
    pub paths: Vec<String>,

    /// What they need, in the order in which it is drawn.
    pub needs: Vec<Need>,
}

impl Packages {
    /// Returns none.
    pub fn new(alloc: Global) -> Packages {
        Packages {
            labels: Vec::new(alloc),
            paths: Vec::new(alloc),
            needs: Vec::new(alloc),
        }
    }

    /// Adds what a package needs, by the numbers.
    ///
    /// # Errors
    ///
    /// Memory ran out.
    pub fn push_needs(&mut self, needing: usize, all_needed: &[usize]) -> Result<(), AllocError> {
        for needed in all_needed {
            let needed = *needed;
            self.needs.push(Need { needing, needed })?;
        }
        Ok(())
    }
}

/// That a package needs another one, by their numbers.
#[derive(Clone, Copy)]
pub struct Need {
    pub needing: usize,
    pub needed: usize,
}

/// Why a lock file is not read.
#[derive(Drop)]
pub enum Refusal {
    /// What is wrong with it.
    Wrong(String),

    Memory,
}

impl Refusal {
    /// Says what is wrong, in parts that may be names of the file.
    pub fn of(alloc: Global, parts: &[&str]) -> Refusal {
        match parts.concat(alloc) {
            Ok(wrong) => Refusal::Wrong(wrong),
            Err(_) => Refusal::Memory,
        }
    }
}

impl From<AllocError> for Refusal {
    fn from(_e: AllocError) -> Refusal {
        Refusal::Memory
    }
}

impl<T: Drop> From<AllocFailed<T>> for Refusal {
    fn from(_e: AllocFailed<T>) -> Refusal {
        Refusal::Memory
    }
}

/// Returns the dependencies of a lock file, or of lines of two words, or the reverse.
///
/// The root is the node named, or else what nothing needs. Several of those stand below a root with
/// the name of the input. For a terminal the labels are escaped.
///
/// # Errors
///
/// `Input` if the text is none of these, or not one node has the name, and `Memory`.
pub fn read_dependencies(
    alloc: Global,
    source: &Source,
    deps: Deps<'_>,
    is_terminal: bool,
) -> Result<Dependencies, Failure>
    ensures labels { IfOk result (λ d. is_terminal ≡ true → AreShownLabels d.graph) }
    ensures graph { IfOk result
        (IsGraphOf source.now deps.entry.root deps.entry.is_inverse is_terminal) }
    ensures failed { IfErr result
        (FailsFor (HoldsNoGraph source.now deps.entry.root) ⊥) }
{
    let packages = read(alloc, source)?;
    drawn(alloc, source, packages, deps, is_terminal)
}

// Reads the packages of an input in one of the forms.
fn read(alloc: Global, source: &Source) -> Result<Packages, Failure>
    ensures read { IfOk result (AreRead source.now) }
    ensures failed { IfErr result (FailsFor (HoldsNoPairs source.now) ⊥) }
{
    if let Some(wrong) = form_not_read(source) {
        Err(source.wrong(alloc, wrong)?)
    } else if is_lock(source) {
        locked(alloc, source)
    } else if begins_as(source, "[") {
        Err(source.wrong(alloc, "neither a lock file nor lines of two words")?)
    } else {
        pairs::packages(alloc, source)
    }
}

// Reads the packages of a lock file in its format. Each of their needs is one of them.
fn locked(alloc: Global, source: &Source) -> Result<Packages, Failure>
    ensures within { IfOk result AreWithin }
    ensures failed { IfErr result (FailsFor ⊤ ⊥) }
{
    let read = if begins_as(source, "{") {
        let lock = json_value(alloc, source)?;
        npm::packages(alloc, source.label(), &lock)
    } else {
        let lock = toml_value(alloc, source)?;
        tables::packages(alloc, &lock)
    };
    match read {
        Ok(packages) if are_within(&packages) => Ok(packages),
        Ok(_) => Err(wrong(alloc, source, &["no dependencies"])),
        Err(refusal) => Err(refused(alloc, source, refusal)),
    }
}

// Whether what each package needs is one of them.
fn are_within(packages: &Packages) -> bool
    ensures { result ≡ true → AreWithin packages.now }
{
    let count = packages.labels.len();
    for need in &packages.needs {
        if need.needing >= count || need.needed >= count {
            return false;
        }
    }
    true
}

// Returns what is drawn of packages, from the one with a name on, or from what nothing needs. Each
// of their needs is one of them.
fn drawn(
    alloc: Global,
    source: &Source,
    packages: Packages,
    deps: Deps<'_>,
    is_terminal: bool,
) -> Result<Dependencies, Failure>
    requires { AreWithin packages }
    ensures labels { IfOk result (λ d. is_terminal ≡ true → AreShownLabels d.graph) }
    ensures graph { IfOk result (IsGraphIn source.now deps.entry.root is_terminal
        (paths_in packages) (names_in packages)
        (edges_of_needs deps.entry.is_inverse (needs_in packages))) }
    ensures failed { IfErr result (FailsFor
        (IsNoName deps.entry.root (paths_in packages) (names_in packages)) ⊥) }
{
    let mut network = linked(alloc, packages, deps.is_inverse)?;
    let root = root_of(alloc, source, &mut network, deps.root)?;
    // A node's neighbours are drawn newest edge first.
    network.edges.reverse();
    let graph = graph(alloc, source, &network, is_terminal)?;
    drop(network);
    Ok(Dependencies { graph, root })
}

// Returns the node with a name, or else what nothing needs.
fn root_of(
    alloc: Global,
    source: &Source,
    network: &mut Network,
    name: Option<&str>,
) -> Result<NodeIndex, Failure>
    ensures root { IsWhole network.old → IfOk result
        (λ r. HasRoot source.now name.entry network.old network.new r.0) }
    ensures failed { IfErr result
        (FailsFor (IsNoName name.entry (paths_of network.old) (labels_of network.old)) ⊥) }
{
    match name {
        Some(name) => root::named(alloc, source, network, name),
        None => Ok(tops::top(alloc, source.label(), network)?),
    }
}

// Says what is wrong with an input, in parts that may be names of the input.
fn wrong(alloc: Global, source: &Source, parts: &[&str]) -> Failure
    ensures { FailsFor ⊤ ⊥ result }
{
    refused(alloc, source, Refusal::of(alloc, parts))
}

// Says why a lock file is not read.
fn refused(alloc: Global, source: &Source, refusal: Refusal) -> Failure
    ensures { FailsFor ⊤ ⊥ result }
{
    match refusal {
        Refusal::Wrong(wrong) => source
            .wrong(alloc, wrong.as_str())
            .unwrap_or(Failure::Memory),
        Refusal::Memory => Failure::Memory,
    }
}
