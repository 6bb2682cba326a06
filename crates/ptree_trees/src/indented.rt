//! Writes a tree as indented text, and reads it back.
ghost use Rattle.std.specs.Prelude.{◌≡◌, ◌≢◌, ℕ, ◌↔◌, ◌++◌, ◌∷◌, false, List, string_bytes};
ghost use Rattle.std.specs.Prelude.{MatchOption, IsTrue, IfOk, OnOk, OnErr, IsErrOf, IsOkUnless};
ghost use Rattle.ptree.specs.Outline.{line, outline};
ghost use Rattle.ptree.specs.Texts.{HasNoLineFeed, line_feed};
ghost use Rattle.ptree.specs.Tree.{Tree, tree_of};
ghost use Rattle.ptree_trees.specs.Indented.{IsUnit, IsLineText, AreLineTexts, IsIndentedForm};
ghost use Rattle.ptree_trees.specs.Indented.{IsFirstWrongLine, EndsWrong};
ghost use Rattle.ptree_trees.specs.Indented.{begins_blank, indent, indented_line};
ghost use Rattle.ptree_trees.specs.IndentedReading.{IsNext, IsAdded, IsReading};

use ptree::TreeBuilder;
use ptree::item::StringItem;
use std::alloc::{AllocError, Global};
use std::error::Error;
use std::fmt;

/// How the lines of an indented form begin: with a unit once for each level, and then a bullet.
///
/// ```text
/// - fruits
///   - apples
///   - pears
/// ```
///
/// Here the unit is two blanks, and the bullet a dash and a blank.
#[derive(Debug, Clone, Copy, PartialEq, Eq)]
pub struct Form<'a> {
    /// What stands at the start of a line once for each level: one or more blanks and tabs. The
    /// root's line has none.
    pub unit: &'a str,

    /// What stands before the text of each line, the root's too: `- ` or `* `, for example, or
    /// nothing. It must hold no line feed, and begin with no blank or tab.
    pub bullet: &'a str,
}

/// Why a text was not read.
#[derive(Debug, Clone, Copy, PartialEq, Eq)]
pub enum IndentError {
    /// The line that cannot continue the indented form, counted from 1: the indented form of some
    /// tree begins with the lines before it, and of none with these and the line.
    Line(usize),

    /// The text is incomplete: the indented form of some tree begins with its whole lines, but the
    /// last line's line feed is missing.
    End,

    /// Memory ran out.
    Memory,
}

impl fmt::Display for IndentError {
    fn fmt<W: fmt::Write>(&self, f: &mut fmt::Formatter<W>) -> fmt::Result {
        f.write_str(match self {
            IndentError::Line(line) => {
                return write!(f, "line {line} cannot continue the indented form");
            }
            IndentError::End => "the text is incomplete",
            IndentError::Memory => "out of memory",
        })
    }
}

impl Error for IndentError {}

/// Why a tree was not written.
#[derive(Debug, Clone, Copy, PartialEq, Eq)]
pub enum WriteError {
    /// The line of some item would not be read back: its text or the bullet holds a line feed, or
    /// what follows the indent begins with a blank or a tab.
    Text,

    /// Memory ran out, or a level exceeds 4294967295.
    Memory,
}

impl fmt::Display for WriteError {
    fn fmt<W: fmt::Write>(&self, f: &mut fmt::Formatter<W>) -> fmt::Result {
        f.write_str(match self {
            WriteError::Text => "the text of an item cannot follow an indent",
            WriteError::Memory => "out of memory",
        })
    }
}

impl Error for WriteError {}

/// Whether a text is a unit: one or more blanks and tabs, and nothing else.
pub fn is_unit(text: &str) -> bool
    ensures { IsTrue result ↔ IsUnit text.now }
{
    if text.is_empty() {
        return false;
    }
    text.as_bytes().iter().all(|b| *b == b' ' || *b == b'\t')
}

/// Whether a text can follow an indent: it holds no line feed, and begins with no blank or
/// tab. A bullet must be such a text, and so must be the text of each item if there is no bullet.
pub fn is_line_text(text: &str) -> bool
    ensures { IsTrue result ↔ IsLineText text.now }
{
    if is_indented(text) {
        return false;
    }
    match split_line(text) {
        Some(_) => false,
        None => true,
    }
}

/// Returns the indented form of a tree: a line for each item, in the order in which they are drawn,
/// each with the unit once for each level, the bullet, the item's text, and a line feed. The root
/// has level 0.
///
/// [`read_indented`] reads it back. Time grows with the bytes of the result. Above the result it
/// takes a constant for each item.
///
/// # Errors
///
/// [`WriteError::Text`] if the text of an item or the bullet holds a line feed, or what follows
/// an indent begins with a blank or a tab: the bullet, or the item's text if there is none.
/// [`WriteError::Memory`] if memory ran out.
pub fn indented_text(alloc: Global, item: &StringItem, form: &Form) -> Result<String, WriteError>
    ensures form { IfOk result (λ s. IsIndentedForm form.now (string_bytes s) (tree_of item.now)) }
    ensures text { IsErrOf result WriteError.Text
        → AreLineTexts form.now (outline (tree_of item.now)) → ⊥ }
{
    let items = item.items(alloc)?;
    let mut text = String::new(alloc);
    for entry in &items {
        let (level, item) = *entry;
        if !is_item_text(item.text.as_str(), form.bullet) {
            return Err(WriteError::Text);
        }
        push_line(&mut text, level, item.text.as_str(), form)?;
    }
    Ok(text)
}

/// Appends the indented form of a tree to a text, as [`indented_text`] returns it.
///
/// # Errors
///
/// Those of [`indented_text`]. The text is unchanged.
pub fn write_indented(
    alloc: Global,
    item: &StringItem,
    form: &Form,
    out: &mut String,
) -> Result<(), WriteError>
    ensures form { OnOk result ((text : List ℕ)
        × IsIndentedForm form.now text (tree_of item.now)
        × (string_bytes out.new ≡ string_bytes out.old ++ text)) }
    ensures text { IsErrOf result WriteError.Text
        → AreLineTexts form.now (outline (tree_of item.now)) → ⊥ }
    ensures kept { OnErr result (string_bytes out.new ≡ string_bytes out.old) }
{
    let text = indented_text(alloc, item, form)?;
    out.push_str(text.as_str())?;
    Ok(())
}

/// Returns the tree whose indented form a text is.
///
/// The first line is the root, at level 0. Each further line has at least one unit, and at most one
/// more than the line before it. After the units stands the bullet, and then the item's text,
/// which may be empty. If there is no bullet, the text begins with no blank or tab. A carriage
/// return is an ordinary character. The last line must end in a line feed.
///
/// Time grows with the text's bytes. Above the result it takes a copy of the texts, and a constant
/// for each item.
///
/// # Errors
///
/// [`IndentError::Line`] or [`IndentError::End`] if the text is not the indented form of a tree,
/// and [`IndentError::Memory`] if memory ran out, or a level exceeds 4294967295.
pub fn read_indented(alloc: Global, text: &str, form: &Form) -> Result<StringItem, IndentError>
    requires unit { IsUnit form.now.unit.now }
    requires bullet { IsLineText form.now.bullet.now }
    ensures some { IfOk result (λ t. IsIndentedForm form.now text.now (tree_of t)) }
    // The indented form of a tree reads back as that tree, unless memory runs out.
    ensures back { (t : Tree) → IsIndentedForm form.now text.now t
        → IsOkUnless result IndentError.Memory × IfOk result (λ s. tree_of s ≡ t) }
    ensures line { (n : ℕ) → IsErrOf result (IndentError.Line n)
        → IsFirstWrongLine form.now text.now n }
    ensures end { IsErrOf result IndentError.End → EndsWrong form.now text.now }
{
    read_lines(alloc, text, form)
}

// Whether a text begins with a blank or a tab.
fn is_indented(text: &str) -> bool
    ensures { result ≡ begins_blank text.now }
{
    match text.as_bytes().first() {
        Some(b) => *b == b' ' || *b == b'\t',
        None => false,
    }
}

// Returns the first line, and what follows its line feed.
fn split_line(text: &str) -> Option<(&str, &str)>
    ensures { MatchOption result (HasNoLineFeed text.now)
        (λ r. HasNoLineFeed r.0.now × (text.now ≡ r.0.now ++ line_feed ∷ r.1.now)) }
{
    text.split_once('\n')
}

// Returns what follows a unit or a bullet.
fn strip_front<'a>(text: &'a str, front: &str) -> Option<&'a str>
    ensures { MatchOption result ((rest : List ℕ) → text.now ≢ front.now ++ rest)
        (λ r. text.now ≡ front.now ++ r.now) }
{
    text.strip_prefix(front)
}

// Returns the level of a line, and what follows its indent, or `None` if blanks or tabs
// remain.
fn split_indent<'a>(line: &'a str, unit: &str) -> Option<(usize, &'a str)>
    requires { IsUnit unit.now }
    ensures { MatchOption result
        ((n : ℕ) (t : List ℕ) → begins_blank t ≡ false → line.now ≢ indent unit.now n ++ t)
        (λ r. (begins_blank r.1.now ≡ false) × (line.now ≡ indent unit.now r.0 ++ r.1.now)) }
{
    let mut level = 0;
    let mut rest = line;
    while let Some(more) = strip_front(rest, unit) {
        level += 1;
        rest = more;
    }
    if is_indented(rest) {
        return None;
    }
    Some((level, rest))
}

// Adds the item of a line, which has this number.
fn add_line(
    builder: &mut TreeBuilder,
    alloc: Global,
    line: &str,
    form: &Form,
    number: usize,
) -> Result<(), IndentError>
    requires { IsUnit form.now.unit.now }
    ensures added { OnOk result (IsAdded form.now builder.old builder.new line.now) }
    ensures number { (n : ℕ) → IsErrOf result (IndentError.Line n) → n ≡ number }
    ensures wrong { IsErrOf result (IndentError.Line number) → (level : ℕ) (text : List ℕ)
        → IsNext form.now builder.old.level line.now level text → ⊥ }
    ensures end { IsErrOf result IndentError.End → ⊥ }
{
    let Some((level, own)) = split_indent(line, form.unit) else {
        return Err(IndentError::Line(number));
    };
    let Some(own) = strip_front(own, form.bullet) else {
        return Err(IndentError::Line(number));
    };
    if level == 0 || level - 1 > builder.level() as usize {
        return Err(IndentError::Line(number));
    }
    let Ok(level) = u32::try_from(level) else {
        return Err(IndentError::Memory);
    };
    let text = String::from_str(alloc, own)?;
    if builder.add_at_level(level, text).is_err() {
        return Err(IndentError::Memory);
    }
    Ok(())
}

// Returns the text of the root that has this line, or `None` if no root has it.
fn root_text<'a>(line: &'a str, form: &Form) -> Option<&'a str>
    ensures { MatchOption result
        ((t : List ℕ) → begins_blank (form.now.bullet.now ++ t) ≡ false
        → line.now ≢ form.now.bullet.now ++ t)
        (λ r. (begins_blank line.now ≡ false) × (line.now ≡ form.now.bullet.now ++ r.now)) }
{
    if is_indented(line) {
        return None;
    }
    strip_front(line, form.bullet)
}

// Reads an indented form.
fn read_lines(alloc: Global, text: &str, form: &Form) -> Result<StringItem, IndentError>
    requires unit { IsUnit form.now.unit.now }
    requires bullet { IsLineText form.now.bullet.now }
    ensures { IsReading form.now text.now result }
{
    let Some((first, behind)) = split_line(text) else {
        return Err(IndentError::End);
    };
    let Some(root) = root_text(first, form) else {
        return Err(IndentError::Line(1));
    };
    let mut builder = TreeBuilder::new(alloc, String::from_str(alloc, root)?);
    let mut rest = behind;
    let mut lines = 1;
    while let Some((line, more)) = split_line(rest) {
        lines += 1;
        add_line(&mut builder, alloc, line, form, lines)?;
        rest = more;
    }
    if !rest.is_empty() {
        return Err(IndentError::End);
    }
    Ok(builder.build()?)
}

// Whether a bullet and the text of an item can follow an indent.
fn is_item_text(text: &str, bullet: &str) -> bool
    ensures { IsTrue result ↔ IsLineText (bullet.now ++ text.now) }
{
    if bullet.is_empty() {
        return is_line_text(text);
    }
    if !is_line_text(bullet) {
        return false;
    }
    match split_line(text) {
        Some(_) => false,
        None => true,
    }
}

// Appends the line of an item.
fn push_line(out: &mut String, level: u32, text: &str, form: &Form) -> Result<(), AllocError>
    ensures { OnOk result (string_bytes out.new
        ≡ string_bytes out.old ++ indented_line form.now (line level text.now)) }
{
    for _i in 0..level {
        out.push_str(form.unit)?;
    }
    out.push_str(form.bullet)?;
    out.push_str(text)?;
    out.push_str("\n")
}
