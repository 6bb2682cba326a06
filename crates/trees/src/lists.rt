//! Trees of paths, and the indented text of a tree.
ghost use Rattle.std.specs.Prelude.{◌≡◌, ◌≤◌, ℕ, ◌==◌, ◌&&◌, ◌++◌, not, true, false, List, map, is_some, string_bytes, MatchOption, IfOk, IfErr, IsErrOf, OnOk};
ghost use Rattle.std.specs.List.{list_any, slice_split};
ghost use Rattle.ptree.specs.Tree.{tree_of, height};
ghost use Rattle.ptree_trees.specs.Parts.{begins_with};
ghost use Rattle.ptree_trees.specs.Paths.{names, names_of};
ghost use Rattle.trees.specs.Listing.{byte_order_mark, path_lines, source_lines, from_first, path_names, given_paths, is_absolute, is_relative, is_quoted, is_cut_off, are_wrong, root_text, IsFolders, HasPaths, IsListing};
ghost use Rattle.trees.specs.ListingParts.{own_names, IsBehindStart, is_first_absolute, beside, is_unlike, is_wrong_line, are_wrong_lines};
ghost use Rattle.trees.specs.Outlining.{IsKeptText, IsKeptRoot, AreKeptTexts, LosesText, IsReadBack};
ghost use Rattle.trees.specs.Reading.{FailsFor};
ghost use Rattle.trees.specs.Writing.{IsShownForm, AreShownTexts, IsIndented};

pub mod outlines;

use crate::command::{Indented, Paths};
use crate::failure::Failure;
use crate::levels::{TOO_DEEP, has_more_names};
use crate::lists::outlines::known_bullet;
use crate::source::{Source, behind};
use ptree::item::StringItem;
use ptree_trees::escape::{escaped, escaped_item};
use ptree_trees::indented::{Form, WriteError, indented_text, is_line_text};
use ptree_trees::paths::{paths_tree, sorted_paths_tree};
use std::alloc::{AllocError, Global};

/// Returns the tree of the paths in an input: its lines, or its parts between zero bytes.
///
/// What is before the first name other than `.` doesn't count, nor do slashes at the end, nor paths
/// without such a name, nor a byte order mark before the text. The root's text is the label, or
/// else `/` if the paths begin with it, or else `.`. The names in a folder stand in the order in
/// which they come first, or sorted by their bytes.
///
/// # Errors
///
/// `Input` with the number of the path if it is the last one and lacks the zero byte in which paths
/// end, or if it holds a zero byte, or has more names than there are levels, or if it is a line that
/// begins with a quotation mark, as one does that git quotes, or if it begins with `/` and those
/// before it don't, or the reverse, and there is no label. `Memory` if memory ran out.
pub fn paths(alloc: Global, source: &Source, paths: Paths<'_>) -> Result<StringItem, Failure>
    ensures listing { IfOk result (λ t. IsListing source.now paths.entry (tree_of t)) }
    // Each path stands in the tree, and nothing else.
    ensures stands { IfOk result (λ t. HasPaths
        (tree_of t).children (given_paths (source_lines source.now paths.entry))) }
    // `Input` says that the paths are wrong.
    ensures failed { IfErr result (FailsFor
        (are_wrong paths.entry.ends_in_zero paths.entry.label
        (source_lines source.now paths.entry) ≡ true) ⊥) }
{
    let lines = lines_of(alloc, source.unmarked(), paths.ends_in_zero)?;
    let are_absolute = is_first_absolute(lines.as_slice());
    let others = beside(paths.label, are_absolute);
    check_lines(alloc, source, lines.as_slice(), others, paths.ends_in_zero)?;
    let given = given_paths(alloc, lines.as_slice())?;
    drop(lines);
    let root = root_of(paths.label, are_absolute);
    Ok(folders(alloc, root, given.as_slice(), paths.is_sorted)?)
}

// Returns the lines of a text, or its parts between zero bytes.
fn lines_of(alloc: Global, text: &str, ends_in_zero: bool) -> Result<Vec<&str>, AllocError>
    ensures { IfOk result (λ lines. map (λ l. l.now) lines.items ≡ path_lines ends_in_zero text.now) }
{
    if ends_in_zero {
        return parts_of(alloc, text);
    }
    let mut found = Vec::new(alloc);
    for line in text.lines() {
        found.push(line)?;
    }
    Ok(found)
}

// Returns the parts of a text between zero bytes.
fn parts_of(alloc: Global, text: &str) -> Result<Vec<&str>, AllocError>
    ensures { IfOk result (λ parts.
        map (λ p. p.now) parts.items ≡ slice_split (λ b. b == 0) text.now) }
{
    let mut found = Vec::new(alloc);
    for part in text.split('\0') {
        found.push(part)?;
    }
    Ok(found)
}

// Whether the first path that is not empty begins with a slash.
fn is_first_absolute(lines: &[&str]) -> bool
    ensures { result ≡ is_first_absolute (map (λ l. l.now) lines.now) }
{
    for line in lines {
        if !line.is_empty() {
            return is_absolute(line);
        }
    }
    false
}

// Returns whether all paths have to begin with a slash, or none may; with a label, nothing.
fn beside(label: Option<&str>, are_absolute: bool) -> Option<bool>
    ensures { result ≡ beside label.entry are_absolute }
{
    match label {
        Some(_) => None,
        None => Some(are_absolute),
    }
}

// Fails if the last path is cut off, or else one is wrong, with its number.
fn check_lines(
    alloc: Global,
    source: &Source,
    lines: &[&str],
    others: Option<bool>,
    ends_in_zero: bool,
) -> Result<(), Failure>
    ensures right { OnOk result
        (are_wrong_lines ends_in_zero others (map (λ l. l.now) lines.now) ≡ false) }
    ensures failed { IfErr result (FailsFor
        (are_wrong_lines ends_in_zero others (map (λ l. l.now) lines.now) ≡ true) ⊥) }
{
    if is_cut_off(lines, ends_in_zero) {
        let wrong = "the path has no zero byte at its end; without -0 paths are lines";
        return Err(source.wrong_at(alloc, lines.len(), wrong)?);
    }
    for (i, line) in lines.iter().enumerate() {
        if let Some(wrong) = wrong_line(line, others, ends_in_zero) {
            return Err(source.wrong_at(alloc, i.saturating_add(1), wrong)?);
        }
    }
    Ok(())
}

// Whether paths end in a zero byte, but the last one does not.
fn is_cut_off(lines: &[&str], ends_in_zero: bool) -> bool
    ensures { result ≡ is_cut_off ends_in_zero (map (λ l. l.now) lines.now) }
{
    match lines.last() {
        Some(path) => ends_in_zero && !path.is_empty(),
        None => false,
    }
}

// Returns what is wrong with a path, if anything.
fn wrong_line(path: &str, others: Option<bool>, ends_in_zero: bool) -> Option<&'static str>
    ensures { is_some result ≡ is_wrong_line ends_in_zero others path.now }
{
    if has_zero(path) {
        Some("the path has a zero byte; use -0 if paths end in one")
    } else if has_more_names(names_of(path)) {
        Some(TOO_DEEP)
    } else if is_quoted(path, ends_in_zero) {
        Some("the path is quoted, as git does; use -0 with git ls-files -z")
    } else if is_unlike(path, others) {
        Some("only some paths begin with /; use --label to give all one root")
    } else {
        None
    }
}

// Whether a text has a zero byte.
fn has_zero(text: &str) -> bool
    ensures { result ≡ list_any (λ b. b == 0) text.now }
{
    text.contains('\0')
}

// Whether a path begins with a quotation mark, where paths are lines.
fn is_quoted(path: &str, ends_in_zero: bool) -> bool
    ensures { result ≡ (not ends_in_zero && is_quoted path.now) }
{
    !ends_in_zero && path.starts_with('"')
}

// Whether a path begins unlike the others, where that counts.
fn is_unlike(path: &str, others: Option<bool>) -> bool
    ensures { result ≡ is_unlike others path.now }
{
    match others {
        Some(true) => is_relative(path),
        Some(false) => is_absolute(path),
        None => false,
    }
}

// Whether a path begins with a slash.
fn is_absolute(path: &str) -> bool
    ensures { result ≡ is_absolute path.now }
{
    path.starts_with('/')
}

// Whether a path begins with something else than a slash.
fn is_relative(path: &str) -> bool
    ensures { result ≡ is_relative path.now }
{
    if path.is_empty() {
        return false;
    }
    !is_absolute(path)
}

// Returns each path that has names, without what doesn't count before and behind them.
fn given_paths<'a>(alloc: Global, lines: &[&'a str]) -> Result<Vec<&'a str>, AllocError>
    ensures { IfOk result (λ given.
        names_of 47 given.items ≡ given_paths (map (λ l. l.now) lines.now)) }
{
    let mut given = Vec::new(alloc);
    for line in lines {
        let names = names_of(line);
        if !names.is_empty() {
            given.push(names)?;
        }
    }
    Ok(given)
}

// Returns a path without what doesn't count before its names, and without the slashes behind them.
fn names_of(path: &str) -> &str
    ensures { own_names result.now ≡ path_names path.now }
{
    without_start(path).trim_end_matches('/')
}

// Returns a path from its first name on that is neither empty nor `.`.
fn without_start(path: &str) -> &str
    ensures { own_names result.now ≡ from_first (names 47 path.now) }
{
    let mut rest = path;
    while let Some(more) = behind_start(rest) {
        rest = more;
    }
    if rest == "." { "" } else { rest }
}

// Returns what is behind a slash or `./` at the start of a path.
fn behind_start(path: &str) -> Option<&str>
    ensures { MatchOption result ((rest : List ℕ) → IsBehindStart path.now rest → ⊥)
        (λ rest. IsBehindStart path.now rest.now) }
{
    match behind(path, "/") {
        Some(rest) => Some(rest),
        None => behind(path, "./"),
    }
}

// Returns the text of the root: the label, or else `/` if the paths begin with it, or else `.`.
fn root_of(label: Option<&str>, are_absolute: bool) -> &str
    ensures { result.now ≡ root_text label.entry are_absolute }
{
    match label {
        Some(label) => label,
        None if are_absolute => "/",
        None => ".",
    }
}

// Returns the tree of paths below a root.
fn folders(
    alloc: Global,
    root: &str,
    paths: &[&str],
    is_sorted: bool,
) -> Result<StringItem, AllocError>
    ensures root { IfOk result (λ t. (tree_of t).text ≡ root.now) }
    ensures below { IfOk result (λ t.
        IsFolders is_sorted (tree_of t).children (names_of 47 paths.now)) }
{
    if is_sorted {
        return sorted_paths_tree(alloc, root, paths, '/');
    }
    paths_tree(alloc, root, paths, '/')
}

/// Returns the indented form of a tree, of which `outline` with the same options makes the tree
/// again; but for a terminal the texts and the bullet are escaped.
///
/// # Errors
///
/// `Input` with the line if `outline` would make another text of one in the tree, and `Memory`.
pub fn indented(
    alloc: Global,
    source: &Source,
    tree: &StringItem,
    indented: Indented<'_>,
) -> Result<String, Failure>
    ensures form { IfOk result (λ text.
        IsIndented indented.entry (tree_of tree.now) (string_bytes text)) }
    ensures back { height (tree_of tree.now).children ≤ 5000 → IfOk result (λ text.
        IsReadBack indented.entry (tree_of tree.now) (string_bytes text)) }
    // `Input` says that `outline` would make another text of one in the tree, were none escaped.
    ensures failed { IfErr result (FailsFor (LosesText indented.entry (tree_of tree.now)) ⊥) }
{
    check_texts(alloc, source, tree, indented.bullet)?;
    let form = Form {
        unit: indented.unit,
        bullet: indented.bullet.unwrap_or(""),
    };
    match shown_form(alloc, tree, &form, indented.is_terminal) {
        Ok(text) => Ok(text),
        Err(WriteError::Text) => Err(source.wrong(alloc, "a text cannot be indented")?),
        Err(WriteError::Memory) => Err(Failure::Memory),
    }
}

// Fails if `outline` would make another text of one in the tree, with the line that it stands on.
fn check_texts(
    alloc: Global,
    source: &Source,
    tree: &StringItem,
    bullet: Option<&str>,
) -> Result<(), Failure>
    ensures kept { OnOk result (AreKeptTexts bullet.entry (tree_of tree.now)) }
    ensures failed { IfErr result (FailsFor (AreKeptTexts bullet.entry (tree_of tree.now) → ⊥) ⊥) }
{
    if let Some(wrong) = wrong_root(tree.text.as_str(), bullet) {
        return Err(source.wrong_at(alloc, 1, wrong)?);
    }
    let items = tree.items(alloc)?;
    for (i, entry) in items.iter().enumerate() {
        let (_, item) = *entry;
        if let Some(wrong) = wrong_text(item.text.as_str(), bullet.unwrap_or("")) {
            return Err(source.wrong_at(alloc, i.saturating_add(1), wrong)?);
        }
    }
    Ok(())
}

// Returns what is wrong with the root's text, if anything: `outline` would read its start as
// something else.
fn wrong_root(text: &str, bullet: Option<&str>) -> Option<&'static str>
    ensures { MatchOption result (IsKeptRoot bullet.entry text.now)
        (λ _. IsKeptRoot bullet.entry text.now → ⊥) }
{
    if bullet.is_none() && !known_bullet(text).is_empty() {
        return Some("the root's text begins with a bullet; use --bullet, '' for none");
    }
    wrong_start(bullet.unwrap_or(""), text)
}

// Returns what begins with a byte order mark, if the first line does.
fn wrong_start(bullet: &str, text: &str) -> Option<&'static str>
    ensures { is_some result ≡ begins_with byte_order_mark (bullet.now ++ text.now) }
{
    if bullet.is_empty() && text.starts_with('\u{feff}') {
        Some("the root's text begins with a byte order mark; use --bullet")
    } else if bullet.starts_with('\u{feff}') {
        Some("the bullet begins with a byte order mark; use another --bullet")
    } else {
        None
    }
}

// Returns why `outline` would not make a text again that stands behind a bullet, if it wouldn't.
fn wrong_text(text: &str, bullet: &str) -> Option<&'static str>
    ensures { MatchOption result (IsKeptText bullet.now text.now)
        (λ _. IsKeptText bullet.now text.now → ⊥) }
{
    if text.contains('\n') {
        Some("a text of several lines cannot be indented")
    } else if text.ends_with('\r') {
        Some("a text that ends in a carriage return cannot be indented")
    } else if bullet.is_empty() && (text.is_empty() || !is_line_text(text)) {
        Some("a text that is empty, or begins with a space or tab, needs a --bullet")
    } else {
        None
    }
}

// Returns the indented form of a tree, for a terminal with its texts, and the bullet, escaped.
fn shown_form(
    alloc: Global,
    tree: &StringItem,
    form: &Form<'_>,
    is_terminal: bool,
) -> Result<String, WriteError>
    ensures form { IfOk result (λ text. IsShownForm is_terminal
        form.now.unit.now form.now.bullet.now (tree_of tree.now) (string_bytes text)) }
    ensures text { IsErrOf result WriteError.Text
        → AreShownTexts is_terminal form.now.bullet.now (tree_of tree.now) → ⊥ }
{
    if is_terminal {
        return escaped_form(alloc, tree, form);
    }
    indented_text(alloc, tree, form)
}

// Returns the indented form of a tree with its texts, and the bullet, escaped.
fn escaped_form(alloc: Global, tree: &StringItem, form: &Form<'_>) -> Result<String, WriteError>
    ensures form { IfOk result (λ text. IsShownForm true
        form.now.unit.now form.now.bullet.now (tree_of tree.now) (string_bytes text)) }
    ensures text { IsErrOf result WriteError.Text
        → AreShownTexts true form.now.bullet.now (tree_of tree.now) → ⊥ }
{
    let bullet = escaped(alloc, form.bullet)?;
    let tree = escaped_item(alloc, tree)?;
    let form = Form {
        unit: form.unit,
        bullet: bullet.as_str(),
    };
    indented_text(alloc, &tree, &form)
}
