//! Documents as trees, with floats and dates as the crates of their formats write them.
ghost use Rattle.std.specs.Prelude.{◌≡◌, ◌<◌, ◌∷◌, ◌++◌, ⊤, true, [], map, length, codes, option_map, string_bytes, IfOk, IfErr, OnOk, MatchOption};
ghost use Rattle.serde_json.specs.View as json_view;
ghost use Rattle.toml.specs.View as toml_view;
ghost use Rattle.ptree.specs.declared.value.document.DocFormat.{DocFormat};
ghost use Rattle.ptree.specs.declared.value.document.DocFormat.TheVariants.{Json, Toml};
ghost use Rattle.ptree.specs.File.{FileNode, json, toml};
ghost use Rattle.ptree.specs.Tree.{tree_of};
ghost use Rattle.ptree_trees.specs.RefusedPath.{Path, step_of, path_of};
ghost use Rattle.trees.specs.Documents.{IsDocumentOf, FindsPart, steps_in, LeadsBy, IsPartAsked, IsFirstRefused, IsAllowed, IsNodeTree, IsRootText, IsTreeIn, IsPartTree, refused_kind, step_text, steps_text, path_text, place_text, shown_keys, NamesRefused, NamesLine, SaysMissing, NamesMissing, NamesWrongIn, NamesWrong};
ghost use Rattle.trees.specs.Reading.{IsInput, Says, FailsToMake};

use crate::command::Document;
use crate::failure::Failure;
use crate::source::{Source, behind};
use crate::words::number;
use ptree::item::StringItem;
use ptree::print_config::{FileSource, syntax_line};
use ptree_trees::documents::{Step, json_refused_path, json_tree, toml_refused_path, toml_tree};
use ptree_trees::escape::escaped;
use std::alloc::{AllocError, Global};
use std::mem;

/// The value of a document in one of the formats.
pub trait Value: Sized + Drop {
    /// The format.
    ghost format: { DocFormat };

    /// What a value means.
    ghost node: { Self → FileNode };

    /// Returns what a strict call refuses in the format.
    fn refused_kind() -> &'static str
        ensures { result.now ≡ refused_kind format };

    /// Returns the value of an input.
    ///
    /// # Errors
    ///
    /// `Input` with the line if the text is not of the format, and `Memory`.
    fn read(alloc: Global, source: &Source) -> Result<Self, Failure>
        ensures value { IfOk result (λ v. IsDocumentOf format source.now (node v)) }
        ensures failed { IfErr result (FailsToMake ⊥ (IsDocumentOf format source.now)) }
        ensures line { IfErr result (NamesLine source.now) };

    /// Returns the part at a key or, in a list, at a position counted from 0. The rest is freed.
    fn part(self, key: &str) -> Option<Self>
        ensures { FindsPart (node self) key.now (option_map node result) };

    /// Returns the path to the first value that a strict call refuses, if there is one.
    ///
    /// # Errors
    ///
    /// Memory ran out.
    fn refused_path(&self, alloc: Global) -> Result<Option<Vec<Step>>, AllocError>
        ensures { IfOk result (λ path. IsFirstRefused (node self.now) (option_map path_of path)) };

    /// Returns the tree of the value under a label.
    ///
    /// # Errors
    ///
    /// Memory ran out.
    fn tree(self, alloc: Global, label: &str) -> Result<StringItem, AllocError>
        ensures { IfOk result (λ t. IsNodeTree label.now (node self) (tree_of t)) };
}

impl Value for serde_json::Value {
    ghost format = { Json };

    ghost node = { λ v. json (json_view.view v) };

    fn refused_kind() -> &'static str {
        "a float"
    }

    fn read(alloc: Global, source: &Source) -> Result<serde_json::Value, Failure> {
        json_value(alloc, source)
    }

    fn part(self, key: &str) -> Option<serde_json::Value> {
        match self.get(key) {
            Some(_) => json_part(self, key),
            None => json_part(self, number(key)?),
        }
    }

    fn refused_path(&self, alloc: Global) -> Result<Option<Vec<Step>>, AllocError> {
        json_refused_path(alloc, self)
    }

    fn tree(self, alloc: Global, label: &str) -> Result<StringItem, AllocError> {
        json_tree(alloc, label, self)
    }
}

impl Value for toml::Value {
    ghost format = { Toml };

    ghost node = { λ v. toml (toml_view.view v) };

    fn refused_kind() -> &'static str {
        "a float, a date or a time"
    }

    fn read(alloc: Global, source: &Source) -> Result<toml::Value, Failure> {
        toml_value(alloc, source)
    }

    fn part(self, key: &str) -> Option<toml::Value> {
        match self.get(key) {
            Some(_) => toml_part(self, key),
            None => toml_part(self, number(key)?),
        }
    }

    fn refused_path(&self, alloc: Global) -> Result<Option<Vec<Step>>, AllocError> {
        toml_refused_path(alloc, self)
    }

    fn tree(self, alloc: Global, label: &str) -> Result<StringItem, AllocError> {
        toml_tree(alloc, label, self)
    }
}

// Takes the part at a key or a position out of a JSON value.
fn json_part<I: serde_json::Index + Drop>(
    value: serde_json::Value,
    index: I,
) -> Option<serde_json::Value>
    ensures { option_map json_view.view result ≡ I.finds index (json_view.view value) }
{
    let mut value = value;
    match value.get_mut(index) {
        Some(part) => Some(part.take()),
        None => None,
    }
}

// Takes the part at a key or a position out of a TOML value.
fn toml_part<I: toml::value::Index + Drop>(value: toml::Value, index: I) -> Option<toml::Value>
    ensures { option_map toml_view.view result ≡ I.finds index (toml_view.view value) }
{
    let mut value = value;
    match value.get_mut(index) {
        Some(part) => Some(mem::replace(part, toml::Value::Boolean(false))),
        None => None,
    }
}

/// Returns the tree of a document, or of the part that is asked for.
///
/// # Errors
///
/// `Input` if the text is no document, with a line; if nothing is at the keys asked for, with the
/// first that leads to nothing; or if what a strict call refuses is there, with the path to it.
/// `Memory` if memory ran out.
pub fn tree<V: Value>(
    alloc: Global,
    source: &Source,
    document: Document<'_>,
) -> Result<StringItem, Failure>
    ensures drawn { IfOk result
        (λ t. IsPartTree V.format source.now document.entry (tree_of t)) }
    ensures failed { IfErr result
        (FailsToMake ⊥ (IsPartTree V.format source.now document.entry)) }
    // And `Input` names a line, the first key that leads to nothing, or the path to the first value
    // that a strict call refuses.
    ensures place { IfErr result
        (NamesWrong V.format source.now document.entry) }
{
    let value = V::read(alloc, source)?;
    tree_of(alloc, source, value, document)
}

// Returns the tree of the part of a value that is asked for.
fn tree_of<V: Value>(
    alloc: Global,
    source: &Source,
    value: V,
    document: Document<'_>,
) -> Result<StringItem, Failure>
    ensures drawn { IfOk result
        (λ t. IsTreeIn source.now document.entry (V.node value) (tree_of t)) }
    ensures failed { IfErr result
        (FailsToMake ⊥ (IsTreeIn source.now document.entry (V.node value))) }
    ensures place { IfErr result
        (NamesWrongIn V.format source.now document.entry (V.node value)) }
{
    let part = part_at(alloc, source, value, document.at)?;
    refuse(alloc, source, &part, document)?;
    Ok(part.tree(alloc, root_label(source, document))?)
}

// Fails if the call is strict, and the part has a value that it refuses.
fn refuse<V: Value>(
    alloc: Global,
    source: &Source,
    part: &V,
    document: Document<'_>,
) -> Result<(), Failure>
    ensures allowed { OnOk result (IsAllowed document.entry.is_strict (V.node part.now)) }
    ensures failed { IfErr result
        (FailsToMake ⊥ (λ (_ : ⊤). IsAllowed document.entry.is_strict (V.node part.now))) }
    ensures place { IfErr result (λ e. IsInput e
        → NamesRefused V.format source.now document.entry.at (V.node part.now) e) }
{
    if !document.is_strict {
        return Ok(());
    }
    match part.refused_path(alloc)? {
        Some(path) => Err(refused(alloc, source, V::refused_kind(), document.at, &path)?),
        None => Ok(()),
    }
}

// Returns the part of a value that the keys `at` lead to, or all of it without them.
fn part_at<V: Value>(
    alloc: Global,
    source: &Source,
    value: V,
    at: Option<&str>,
) -> Result<V, Failure>
    ensures part { IfOk result (λ part. IsPartAsked at.entry (V.node value) (V.node part)) }
    ensures failed { IfErr result (FailsToMake ⊥ (IsPartAsked at.entry (V.node value))) }
    ensures missing { IfErr result (λ e. IsInput e
        → NamesMissing source.now at.entry (V.node value) e) }
{
    match at {
        Some(at) => part_below(alloc, source, value, at, at),
        None => Ok(value),
    }
}

// Returns the part of a value that the keys `last` lead to, the end of `at`. It calls itself once
// for each level of the document at most.
fn part_below<V: Value>(
    alloc: Global,
    source: &Source,
    value: V,
    last: &str,
    at: &str,
) -> Result<V, Failure>
    ensures part { IfOk result
        (λ part. LeadsBy (steps_in last.now) (V.node value) (V.node part)) }
    ensures failed { IfErr result
        (FailsToMake ⊥ (LeadsBy (steps_in last.now) (V.node value))) }
    ensures missing { IfErr result (λ e. IsInput e
        → SaysMissing source.now at.now (steps_in last.now) (V.node value) e) }
{
    let (key, rest) = split_step(last);
    let Some(part) = value.part(key) else {
        return Err(missing(alloc, source, at, key)?);
    };
    match rest {
        Some(rest) => part_below(alloc, source, part, rest, at),
        None => Ok(part),
    }
}

// Returns the first of some keys, and what follows its full stop, if it has one.
fn split_step(keys: &str) -> (&str, Option<&str>)
    ensures { MatchOption result.1 (steps_in keys.now ≡ result.0.now ∷ [])
        (λ rest. (steps_in keys.now ≡ result.0.now ∷ steps_in rest.now)
        × (length rest.now < length keys.now)) }
{
    match keys.split_once('.') {
        Some((key, rest)) => (key, Some(rest)),
        None => (keys, None),
    }
}

/// Returns the value of a TOML document.
///
/// # Errors
///
/// `Input` with the line if the text is not TOML, and `Memory`.
pub fn toml_value(alloc: Global, source: &Source) -> Result<toml::Value, Failure>
    ensures value { IfOk result
        (λ v. IsDocumentOf Toml source.now (toml (toml_view.view v))) }
    ensures failed { IfErr result (FailsToMake ⊥ (IsDocumentOf Toml source.now)) }
    ensures line { IfErr result (NamesLine source.now) }
{
    match toml::table_from_str(alloc, source.text.as_str()) {
        Ok(table) => Ok(toml::Value::Table(table)),
        Err(e) if e.is_memory() => Err(Failure::Memory),
        Err(e) => {
            let line = wrong_line(alloc, FileSource::Toml(source.text.clone()?))?;
            let found = line_at(source.text.as_str(), e.span().map_or(0, |span| span.start));
            // (the reader reads a value before it looks whether the key occurs twice)
            let why = if line < found {
                "duplicate key"
            } else {
                e.message()
            };
            let wrong = format!(in alloc; "invalid TOML: {why}")?;
            Err(source.wrong_at(alloc, line, wrong.as_str())?)
        }
    }
}

/// Returns the value of a JSON document, before which a byte order mark doesn't count.
///
/// # Errors
///
/// `Input` with the line if the text is not JSON, and `Memory`.
pub fn json_value(alloc: Global, source: &Source) -> Result<serde_json::Value, Failure>
    ensures value { IfOk result
        (λ v. IsDocumentOf Json source.now (json (json_view.view v))) }
    ensures failed { IfErr result (FailsToMake ⊥ (IsDocumentOf Json source.now)) }
    ensures line { IfErr result (NamesLine source.now) }
{
    match serde_json::Value::from_str(alloc, source.unmarked()) {
        Ok(value) => Ok(value),
        Err(e) if e.is_memory() => Err(Failure::Memory),
        Err(e) => {
            let text = String::from_str(alloc, source.unmarked())?;
            let line = wrong_line(alloc, FileSource::Json(text))?;
            let wrong = if e.is_eof() {
                "the JSON is incomplete"
            } else {
                "invalid JSON"
            };
            Err(source.wrong_at(alloc, line, wrong)?)
        }
    }
}

// Returns the line at which a text stops being a document of its format, or 1 if it doesn't.
fn wrong_line(alloc: Global, file: FileSource) -> Result<usize, AllocError> {
    Ok(syntax_line(alloc, &file)?.unwrap_or(1))
}

// Returns the line, counted from 1, of a byte of a text.
fn line_at(text: &str, place: usize) -> usize {
    let feeds = text.bytes().take(place).filter(|byte| *byte == b'\n');
    feeds.count().saturating_add(1)
}

// Returns the text of the root: the label, or else the keys, or else the last part of the path.
fn root_label<'a>(source: &'a Source, document: Document<'a>) -> &'a str
    ensures { IsRootText document.entry.label document.entry.at source.now result.now }
{
    match (document.label, document.at) {
        (Some(label), _) => label,
        (None, Some(at)) => at,
        (None, None) => source.label(),
    }
}

// Says that nothing is at the keys `at`, and which of them leads to nothing.
fn missing(alloc: Global, source: &Source, at: &str, key: &str) -> Result<Failure, AllocError>
    ensures input { IfOk result IsInput }
    ensures says { IfOk result (Says source.now
        (codes "nothing at "
        ++ (shown_keys at.now ++ (codes ": there is no " ++ shown_keys key.now)))) }
{
    let (at, key) = (shown_keys(at), shown_keys(key));
    let wrong = format!(in alloc; "nothing at {at}: there is no {key}")?;
    source.wrong(alloc, wrong.as_str())
}

// Returns keys as they are shown: the empty text as two quotation marks.
fn shown_keys(keys: &str) -> &str
    ensures { result.now ≡ shown_keys keys.now }
{
    if keys.is_empty() { "''" } else { keys }
}

// Says that what a strict call refuses is at a path, which goes on behind the keys `at`.
fn refused(
    alloc: Global,
    source: &Source,
    what: &str,
    at: Option<&str>,
    path: &[Step],
) -> Result<Failure, AllocError>
    ensures input { IfOk result IsInput }
    ensures says { IfOk result (Says source.now
        (what.now ++ (codes " is at " ++ place_text at.entry (map step_of path.now)))) }
{
    let place = place(alloc, at, path)?;
    let wrong = format!(in alloc; "{what} is at {place}")?;
    source.wrong(alloc, wrong.as_str())
}

// Returns the steps of a path, escaped, behind the keys `at`, or from the top.
fn place(alloc: Global, at: Option<&str>, path: &[Step]) -> Result<String, AllocError>
    ensures { IfOk result (λ s. string_bytes s ≡ place_text at.entry (map step_of path.now)) }
{
    let steps = steps(alloc, path)?;
    let Some(at) = at else {
        return escaped(alloc, from_top(steps.as_str()));
    };
    let keys = escaped(alloc, steps.as_str())?;
    Ok(format!(in alloc; "{at}{keys}")?)
}

// Returns steps without the full stop at their front, or `the top` if there are none.
fn from_top(steps: &str) -> &str
    ensures { (path : Path) → steps.now ≡ steps_text path → result.now ≡ path_text true path }
{
    match behind(steps, ".") {
        Some(keys) => keys,
        None => "the top",
    }
}

// Returns the steps of a path, a full stop before each.
fn steps(alloc: Global, path: &[Step]) -> Result<String, AllocError>
    ensures { IfOk result (λ s. string_bytes s ≡ steps_text (map step_of path.now)) }
{
    let mut steps = String::new(alloc);
    for step in path {
        push_step(&mut steps, step)?;
    }
    Ok(steps)
}

// Adds a full stop and a step.
fn push_step(steps: &mut String, step: &Step) -> Result<(), AllocError>
    ensures { OnOk result (string_bytes steps.new
        ≡ string_bytes steps.old ++ (codes "." ++ step_text (step_of step.now))) }
{
    match step {
        Step::Key(key) => write!(steps, ".{key}"),
        Step::Position(n) => write!(steps, ".{n}"),
    }
}
