//! The root that is asked for.
ghost use Rattle.std.specs.Prelude.{◌≡◌, ◌≢◌, ⊤, [], ◌∷◌, length, map, IfOk, IfErr};
ghost use Rattle.trees.specs.DependingParts.{labels_of, paths_of, is_meant, meant_nodes};
ghost use Rattle.trees.specs.Naming.{is_called, is_labelled, is_version, own_name, version_text, IsRootNode, LacksRoot};
ghost use Rattle.trees.specs.Reading.{FailsFor};

use crate::deps::network::Network;
use crate::deps::wrong;
use crate::failure::Failure;
use crate::source::{Source, behind};
use crate::suggest::Nearest;
use ptree::graph::NodeIndex;
use std::alloc::{AllocError, Global};

/// Returns the node with this name: its label or its path, or else what its label or its alias is
/// called, with a version or without. The version stands behind `@` or a blank, maybe with a `v`.
///
/// # Errors
///
/// `Input` if there is no such node, or several, and `Memory`.
pub fn named(
    alloc: Global,
    source: &Source,
    network: &Network,
    name: &str,
) -> Result<NodeIndex, Failure>
    ensures root { IfOk result
        (λ r. IsRootNode (labels_of network.now) (paths_of network.now) name.now r.0) }
    ensures failed { IfErr result
        (FailsFor (LacksRoot (labels_of network.now) (paths_of network.now) name.now) ⊥) }
{
    let whole = nodes(alloc, network, name, true)?;
    if !whole.is_empty() {
        return only(alloc, source, network, name, &whole);
    }
    let parts = nodes(alloc, network, name, false)?;
    only(alloc, source, network, name, &parts)
}

// Returns the only one of the nodes that have a name.
fn only(
    alloc: Global,
    source: &Source,
    network: &Network,
    name: &str,
    found: &[NodeIndex],
) -> Result<NodeIndex, Failure>
    ensures only { IfOk result (λ r. found.now ≡ r ∷ []) }
    ensures failed { IfErr result (FailsFor (length found.now ≢ 1) ⊥) }
{
    match found {
        [only] => Ok(*only),
        [] => Err(unknown(alloc, source, network, name)),
        several => Err(ambiguous(alloc, source, network, name, several)?),
    }
}

// Returns the nodes that have a name as their label or path, or in a part of these.
fn nodes(
    alloc: Global,
    network: &Network,
    name: &str,
    is_whole: bool,
) -> Result<Vec<NodeIndex>, AllocError>
    ensures { IfOk result
        (λ found. map (λ n. n.0) found.items ≡ meant_nodes is_whole network.now name.now) }
{
    let mut found = Vec::new(alloc);
    for (i, label) in network.labels.iter().enumerate() {
        if is_meant(network, i, label.as_str(), name, is_whole) {
            found.push(NodeIndex(i))?;
        }
    }
    Ok(found)
}

// Whether a name means a node: all of its label or path, or a part of its label.
fn is_meant(network: &Network, node: usize, label: &str, name: &str, is_whole: bool) -> bool
    ensures { result ≡ is_meant is_whole (paths_of network.now) name.now node label.now }
{
    if !is_whole {
        return is_labelled(label, name);
    }
    match network.paths.get(node) {
        Some(path) => label == name || path.as_str() == name,
        None => label == name,
    }
}

// Whether a label has a name, maybe with a version, or what it is an alias of.
fn is_labelled(label: &str, name: &str) -> bool
    ensures { result ≡ is_labelled name.now label.now }
{
    if is_called(label, name) {
        return true;
    }
    let (_, version) = parts(label);
    match version.strip_prefix("npm:") {
        Some(real) => is_called(real, name),
        None => false,
    }
}

// Whether a text has a name, and its version if it has one.
fn is_called(text: &str, name: &str) -> bool
    ensures { result ≡ is_called name.now text.now }
{
    let (own, version) = parts(text);
    let (wanted, wanted_version) = parts(name);
    own == wanted && is_version(version, wanted_version)
}

// Whether a version is the one that is wanted, if one is, alone or with a source behind it.
fn is_version(version: &str, wanted: &str) -> bool
    ensures { result ≡ is_version wanted.now version.now }
{
    if wanted.is_empty() {
        return true;
    }
    match version.strip_prefix(wanted) {
        Some(rest) => rest.is_empty() || rest.starts_with(" ("),
        None => false,
    }
}

// Returns a name and its version, without what stands between them. A name may begin with `@`.
fn parts(text: &str) -> (&str, &str)
    ensures name { result.0.now ≡ own_name text.now }
    ensures version { result.1.now ≡ version_text text.now }
{
    let rest = text.strip_prefix('@').unwrap_or(text);
    let Some((_, version)) = rest.split_once([' ', '@']) else {
        return (text, "");
    };
    let end = text.len().saturating_sub(version.len()).saturating_sub(1);
    (
        text.get(..end).unwrap_or(text),
        version.strip_prefix('v').unwrap_or(version),
    )
}

// Says that no node has a name, and which name may be meant.
fn unknown(alloc: Global, source: &Source, network: &Network, name: &str) -> Failure
    ensures { FailsFor ⊤ ⊥ result }
{
    let mut nearest = Nearest::to(name);
    for label in &network.labels {
        nearest.try_word(parts(label.as_str()).0);
        nearest.try_word(label.as_str());
    }
    let start = "no package is named ";
    match longer(network, name).or(nearest.word) {
        Some(near) => wrong(alloc, source, &[start, name, "; did you mean ", near, "?"]),
        None => wrong(alloc, source, &[start, name]),
    }
}

// Returns the first label that is a name, which may have blanks, with a version.
fn longer<'a>(network: &'a Network, name: &str) -> Option<&'a str> {
    let mut labels = network.labels.iter().map(|label| label.as_str());
    labels.find(|label| behind(label, name).is_some_and(|rest| rest.starts_with([' ', '@'])))
}

// Says which nodes have a name, with their paths if they have some.
fn ambiguous(
    alloc: Global,
    source: &Source,
    network: &Network,
    name: &str,
    found: &[NodeIndex],
) -> Result<Failure, AllocError>
    ensures { IfOk result (FailsFor ⊤ ⊥) }
{
    let mut words = format!(in alloc; "several packages are named {name}")?;
    for (i, node) in found.iter().enumerate() {
        words.push_str(if i == 0 { ": " } else { ", " })?;
        if let Some(label) = network.labels.get(node.0) {
            words.push_str(label.as_str())?;
        }
        if let Some(path) = network.paths.get(node.0) {
            write!(words, " in {path}")?;
        }
    }
    Ok(wrong(alloc, source, &[words.as_str()]))
}
