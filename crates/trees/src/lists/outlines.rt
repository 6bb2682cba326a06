//! Trees of indented text.
ghost use Rattle.std.specs.Prelude.{◌≡◌, ◌≢◌, ◌↔◌, ⊤, ◌++◌, ◌∷◌, not, [], map, string_bytes, IsTrue, IfOk, IfErr, OnOk};
ghost use Rattle.ptree.specs.Texts.{line_feed};
ghost use Rattle.ptree.specs.Tree.{Tree, tree_of};
ghost use Rattle.ptree_trees.specs.Indented.{begins_blank};
ghost use Rattle.trees.specs.Outlining.{is_filled, filled_lines, text_of_lines, line_indent, first_indent, line_bullet, first_bullet, IsRightForm, labelled_lines, IsFormWithin, HoldsOutline, HoldsNoOtherOutline, FailsToOutline};
ghost use Rattle.trees.specs.Reading.{FailsFor, FailsToMake};

use crate::command::Outline;
use crate::failure::Failure;
use crate::levels::{TOO_DEEP, deep_line};
use crate::source::Source;
use crate::usage::Usage;
use ptree::item::StringItem;
use ptree_trees::indented::{Form, IndentError, is_line_text, is_unit, read_indented};
use std::alloc::{AllocError, Global};

/// Returns the tree of an indented text.
///
/// Without a unit it is the indent of the first line that has one, or else a tab. Without a bullet
/// it is that of the first line, or none. With a label the lines stand one level deeper, below a
/// root with that text. A byte order mark and blank lines don't count, and a last line feed may be
/// missing.
///
/// # Errors
///
/// `Input` if the text has no such form, with the line if one is wrong; `Usage` if nothing could be
/// read back with the unit and the bullet; and `Memory`.
pub fn outline(alloc: Global, source: &Source, outline: Outline<'_>) -> Result<StringItem, Failure>
    ensures some { IfOk result (λ t. HoldsOutline source.now outline.entry (tree_of t)) }
    ensures only { IfOk result (λ t. HoldsNoOtherOutline source.now outline.entry (tree_of t)) }
    // `Input` says that there is no such tree, `Usage` that the unit or the bullet is not right.
    ensures failed { IfErr result (FailsToOutline source.now outline.entry) }
{
    let lines = filled_lines(alloc, source.unmarked())?;
    let form = Form {
        unit: outline.unit.unwrap_or(first_indent(lines.as_slice())),
        bullet: outline.bullet.unwrap_or(first_bullet(lines.as_slice())),
    };
    if !is_right(&form) {
        return Err(Usage::Bullet.failure(alloc)?);
    }
    let text = labelled_text(alloc, &form, outline.label, lines.as_slice())?;
    drop(lines);
    let above = usize::from(outline.label.is_some());
    read_within(alloc, source, text.as_str(), &form, above)
}

// Returns the lines of a text that are not blank.
fn filled_lines(alloc: Global, text: &str) -> Result<Vec<&str>, AllocError>
    ensures { IfOk result (λ lines. map (λ l. l.now) lines.items ≡ filled_lines text.now) }
{
    let mut found = Vec::new(alloc);
    for line in text.lines() {
        if !is_blank(line) {
            found.push(line)?;
        }
    }
    Ok(found)
}

// Whether a line has nothing but blanks and tabs.
fn is_blank(line: &str) -> bool
    ensures { not result ≡ is_filled line.now }
{
    line.is_empty() || is_unit(line)
}

// Returns the indent of the first line that has one, or else a tab.
fn first_indent<'a>(lines: &[&'a str]) -> &'a str
    ensures { result.now ≡ first_indent (map (λ l. l.now) lines.now) }
{
    for line in lines {
        if is_indented(line) {
            return indent_of(line);
        }
    }
    "\t"
}

// Whether a line begins with a blank or a tab.
fn is_indented(line: &str) -> bool
    ensures { result ≡ begins_blank line.now }
{
    line.starts_with(' ') || line.starts_with('\t')
}

// Returns the indent of a line: a tab, or all blanks before its text.
fn indent_of(line: &str) -> &str
    ensures { result.now ≡ line_indent line.now }
{
    if line.starts_with('\t') {
        return "\t";
    }
    line.strip_suffix(line.trim_start_matches(' '))
        .unwrap_or("")
}

// Returns the bullet of the first line, or nothing.
fn first_bullet(lines: &[&str]) -> &'static str
    ensures { result.now ≡ first_bullet (map (λ l. l.now) lines.now) }
{
    match lines.first() {
        Some(line) => known_bullet(line),
        None => "",
    }
}

/// Returns the bullet with which a line begins, or nothing.
pub fn known_bullet(line: &str) -> &'static str
    ensures { result.now ≡ line_bullet line.now }
{
    if line.starts_with("- ") {
        "- "
    } else if line.starts_with("* ") {
        "* "
    } else if line.starts_with("+ ") {
        "+ "
    } else {
        ""
    }
}

// Whether what is written with a unit and a bullet can be read back.
fn is_right(form: &Form<'_>) -> bool
    ensures { IsTrue result ↔ IsRightForm form.now }
{
    is_unit(form.unit) && is_line_text(form.bullet)
}

// Returns the text of lines, below one of the label if there is one.
fn labelled_text(
    alloc: Global,
    form: &Form<'_>,
    label: Option<&str>,
    lines: &[&str],
) -> Result<String, AllocError>
    ensures { IfOk result (λ text. string_bytes text
        ≡ text_of_lines (labelled_lines form.now label.entry (map (λ l. l.now) lines.now))) }
{
    let mut text = String::new(alloc);
    match label {
        Some(label) => {
            push_line(&mut text, form.bullet, label)?;
            push_lines(&mut text, form.unit, lines)?;
        }
        None => push_lines(&mut text, "", lines)?,
    }
    Ok(text)
}

// Adds lines, each behind an indent.
fn push_lines(text: &mut String, indent: &str, lines: &[&str]) -> Result<(), AllocError>
    ensures { OnOk result (string_bytes text.new
        ≡ string_bytes text.old ++ text_of_lines (map (λ l. indent.now ++ l.now) lines.now)) }
{
    for line in lines {
        push_line(text, indent, line)?;
    }
    Ok(())
}

// Adds a line that begins with another text.
fn push_line(text: &mut String, start: &str, line: &str) -> Result<(), AllocError>
    ensures { OnOk result (string_bytes text.new
        ≡ string_bytes text.old ++ ((start.now ++ line.now) ++ line_feed ∷ [])) }
{
    text.push_str(start)?;
    text.push_str(line)?;
    text.push_str("\n")
}

// Returns the tree whose indented form a text is, unless it is too deep. `above` lines of the text
// were put above those of the input.
fn read_within(
    alloc: Global,
    source: &Source,
    text: &str,
    form: &Form<'_>,
    above: usize,
) -> Result<StringItem, Failure>
    requires { IsRightForm form.now }
    ensures some { IfOk result (λ t. IsFormWithin form.now text.now (tree_of t)) }
    ensures only { IfOk result (λ t. (u : Tree) → IsFormWithin form.now text.now u → tree_of t ≡ u) }
    ensures failed { IfErr result (FailsToMake ⊥ (IsFormWithin form.now text.now)) }
{
    if let Some(line) = deep_line(text, form.unit) {
        return Err(wrong_to(alloc, source, text, form, above, line)?);
    }
    match read_indented(alloc, text, form) {
        Ok(tree) => Ok(tree),
        Err(wrong) => Err(wrong_indent(alloc, source, wrong, form, above)?),
    }
}

// Says what is wrong with a text up to this line, which is too deep: a line before it, if that
// continues no indented form, or else this one.
fn wrong_to(
    alloc: Global,
    source: &Source,
    text: &str,
    form: &Form<'_>,
    above: usize,
    line: usize,
) -> Result<Failure, AllocError>
    requires { IsRightForm form.now }
    ensures { IfOk result (FailsFor ⊤ ⊥) }
{
    match read_indented(alloc, before_line(text, line), form) {
        Ok(_) | Err(IndentError::End) => {
            let line = line_of(source.unmarked(), line.saturating_sub(above));
            source.wrong_at(alloc, line, TOO_DEEP)
        }
        Err(wrong) => wrong_indent(alloc, source, wrong, form, above),
    }
}

// Returns the lines of a text before one, which is counted from 1.
fn before_line(text: &str, line: usize) -> &str {
    let mut len = 0usize;
    for before in text.split('\n').take(line.saturating_sub(1)) {
        len = len.saturating_add(before.len()).saturating_add(1);
    }
    text.get(..len).unwrap_or("")
}

// Says why a text has no indented form, of which `above` lines were put above those of the input.
fn wrong_indent(
    alloc: Global,
    source: &Source,
    wrong: IndentError,
    form: &Form<'_>,
    above: usize,
) -> Result<Failure, AllocError>
    ensures { IfOk result (FailsFor (wrong ≢ IndentError.Memory) ⊥) }
{
    match wrong {
        IndentError::Line(line) => {
            let line = line_of(source.unmarked(), line.saturating_sub(above));
            let text = source.unmarked().lines().nth(line.saturating_sub(1));
            source.wrong_at(alloc, line, unlike(text.unwrap_or(""), form.bullet))
        }
        IndentError::End => source.wrong(alloc, "empty"),
        IndentError::Memory => Ok(Failure::Memory),
    }
}

// Says why a line continues no indented form.
fn unlike(line: &str, bullet: &str) -> &'static str {
    let text = line.trim_start_matches([' ', '\t']);
    if !text.starts_with(bullet) {
        "the bullet is missing"
    } else if text.len() == line.len() {
        "a second line without an indent; use --label"
    } else {
        "the indent matches no level"
    }
}

// Returns the number, counted from 1, of the line up to which so many lines are not blank.
fn line_of(text: &str, count: usize) -> usize {
    let mut found = 0usize;
    for (i, line) in text.lines().enumerate() {
        if !is_blank(line) {
            found = found.saturating_add(1);
        }
        if found == count {
            return i.saturating_add(1);
        }
    }
    count
}
