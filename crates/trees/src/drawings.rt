//! Reads drawings, and says where a text is none.
ghost use Rattle.std.specs.Prelude.{◌≡◌, ◌≤◌, ◌-◌, [], ◌∷◌, ◌++◌, ◌⊎◌, None, IfOk, IfErr, OnOk, string_bytes};
ghost use Rattle.ptree.specs.Config.{config_of};
ghost use Rattle.ptree.specs.Continuation.{first_lines, line_count};
ghost use Rattle.ptree.specs.Drawing.{written_look};
ghost use Rattle.ptree.specs.ItemReader.{IsCountOfRest};
ghost use Rattle.ptree.specs.Readable.{HasReadablePieces};
ghost use Rattle.ptree.specs.Scanned.{IsError};
ghost use Rattle.ptree.specs.Texts.{line_feed, HasNoLineFeed};
ghost use Rattle.ptree.specs.Tree.{tree_of};
ghost use Rattle.trees.specs.Expected.{IsWholeLine, IsLineAt, IsHint, TellsLine, IsWhyEnd, TellsEnd};
ghost use Rattle.trees.specs.Named.{AddsOther, IsUnreadBy};
ghost use Rattle.trees.specs.Reading.{HoldDifference, HoldsCount, HoldsDrawing, HoldsNoOther, IsRedrawn, FailsToRead, NamesPlace};

use crate::expected::{beginnings, is_too_deep};
use crate::failure::Failure;
use crate::levels::TOO_DEEP;
use crate::pieces::{count_items, reading};
use crate::source::Source;
use crate::usage::Usage;
use ptree::item::StringItem;
use ptree::print_config::PrintConfig;
use ptree::read::{ItemReader, ReadError, pieces_readable, read_tree_or_line};
use ptree_trees::difference::{DrawingsError, ItemDifference, first_drawn_difference};
use ptree_trees::escape::escaped;
use std::alloc::{AllocError, Global};

/// Returns the tree that a text is the drawing of.
///
/// # Errors
///
/// `Input` if the text could not be read, or with the first wrong line if it is no drawing, and
/// with the name of other pieces under which it is one. `Usage` if drawings with the pieces cannot
/// be read back. `Memory` if memory ran out.
pub fn read(alloc: Global, source: &Source, config: &PrintConfig) -> Result<StringItem, Failure>
    ensures some { IfOk result (λ t. HoldsDrawing (config_of config.now) source.now (tree_of t)) }
    ensures only { IfOk result (λ t. HoldsNoOther (config_of config.now) source.now (tree_of t)) }
    // What is drawn of the tree that was read is the text.
    ensures redrawn { IfOk result (λ t. IsRedrawn (config_of config.now) source.now (tree_of t)) }
    // `Input` says that there is no such tree, `Usage` that the pieces are not readable.
    ensures failed { IfErr result (FailsToRead (config_of config.now) source.now) }
    // And `Input` says why the source could not be read, or names the first wrong line, if there
    // is one.
    ensures place { IfErr result (NamesPlace (config_of config.now) source.now) }
{
    expect_readable(alloc, source, config)?;
    match read_tree_or_line(alloc, source.text.as_str(), config) {
        Ok(tree) => Ok(tree),
        Err(error) => Err(why_none(alloc, source, error, config)?),
    }
}

/// Returns how many items that tree has, without making it.
///
/// # Errors
///
/// Those of [`read`].
pub fn count(alloc: Global, source: &Source, config: &PrintConfig) -> Result<usize, Failure>
    ensures some { IfOk result (HoldsCount (config_of config.now) source.now) }
    ensures failed { IfErr result (FailsToRead (config_of config.now) source.now) }
    ensures place { IfErr result (NamesPlace (config_of config.now) source.now) }
{
    expect_readable(alloc, source, config)?;
    match count_items(alloc, source.text.as_str(), config) {
        Ok(count) => Ok(count),
        Err(error) => Err(why_none(alloc, source, error, config)?),
    }
}

/// Returns the first difference of the trees that two texts are the drawings of, or `None` if they
/// are equal.
///
/// # Errors
///
/// Those of [`read`], of the left text first.
pub fn difference<'a>(
    alloc: Global,
    left: &'a Source,
    right: &'a Source,
    config: &PrintConfig,
) -> Result<Option<ItemDifference<'a>>, Failure>
    ensures some { IfOk result (HoldDifference (config_of config.now) left.now right.now) }
    ensures failed { IfErr result (λ e. FailsToRead (config_of config.now) left.now e
        ⊎ FailsToRead (config_of config.now) right.now e) }
{
    expect_readable(alloc, left, config)?;
    if right.fault.is_some() {
        count(alloc, left, config)?;
    }
    expect_readable(alloc, right, config)?;
    match first_drawn_difference(alloc, left.text.as_str(), right.text.as_str(), config) {
        Ok(first) => Ok(first),
        Err(DrawingsError::Left(error)) => Err(why_none(alloc, left, error, config)?),
        Err(DrawingsError::Right(error)) => Err(why_none(alloc, right, error, config)?),
    }
}

// Refuses a source that could not be read, and pieces that are not readable.
fn expect_readable(alloc: Global, source: &Source, config: &PrintConfig) -> Result<(), Failure>
    ensures read { OnOk result (source.now.fault ≡ None) }
    ensures readable { OnOk result (HasReadablePieces config.now) }
    ensures failed { IfErr result (FailsToRead (config_of config.now) source.now) }
    ensures place { IfErr result (NamesPlace (config_of config.now) source.now) }
{
    if let Some(fault) = &source.fault {
        return Err(Failure::Input(fault.clone()?));
    }
    if !pieces_readable(alloc, config)? {
        return Err(Usage::Unreadable.failure(alloc)?);
    }
    Ok(())
}

// Returns why a text is no drawing.
fn why_none(
    alloc: Global,
    source: &Source,
    error: ReadError,
    config: &PrintConfig,
) -> Result<Failure, AllocError>
    requires read { source.now.fault ≡ None }
    requires readable { HasReadablePieces config.now }
    requires error { IsError
        (written_look config.now) config.now.depth (string_bytes source.now.text) error }
    ensures failed { IfOk result (FailsToRead (config_of config.now) source.now) }
    ensures place { IfOk result (NamesPlace (config_of config.now) source.now) }
{
    let text = source.text.as_str();
    match error {
        ReadError::Memory => Ok(Failure::Memory),
        ReadError::Line(line) => {
            let wrong = wrong_line(alloc, text, line, config)?;
            Ok(source.wrong_at(alloc, line, wrong.as_str())?)
        }
        ReadError::End => {
            let wrong = wrong_end(alloc, text, config)?;
            Ok(source.wrong(alloc, wrong.as_str())?)
        }
    }
}

// Says that a line is wrong and shows it, escaped. Then it says with which pieces the text is a
// drawing or, if there are none, what could stand there.
fn wrong_line(
    alloc: Global,
    text: &str,
    line: usize,
    config: &PrintConfig,
) -> Result<String, AllocError>
    requires readable { HasReadablePieces config.now }
    requires unread { IsUnreadBy (config_of config.now) text.now }
    requires line { IsWholeLine text.now line }
    ensures { IfOk result (λ said.
        TellsLine (config_of config.now) text.now line (string_bytes said)) }
{
    let (before, wrong) = split_at_line(text, line);
    if is_too_deep(alloc, wrong, config)? {
        return String::from_str(alloc, TOO_DEEP);
    }
    let hint = hint(alloc, text, before, config)?;
    let wrong = escaped(alloc, wrong)?;
    Ok(format!(in alloc; "cannot continue the drawing:\n  {wrong}{hint}")?)
}

// Says with which pieces a text is a drawing or, if there are none, what could stand behind the
// lines before the wrong one.
fn hint(alloc: Global, text: &str, before: &str, config: &PrintConfig) -> Result<String, AllocError>
    requires readable { HasReadablePieces config.now }
    requires unread { IsUnreadBy (config_of config.now) text.now }
    ensures { IfOk result (λ hint.
        IsHint (config_of config.now) text.now before.now (string_bytes hint)) }
{
    let mut hint = String::new(alloc);
    if push_other(alloc, &mut hint, text, config)? {
        return Ok(hint);
    }
    let could = beginnings(alloc, before, config)?;
    if could.is_empty() {
        return Ok(hint);
    }
    write!(hint, "\nexpected one of:{could}")?;
    Ok(hint)
}

// Returns the lines before a line, and the line.
fn split_at_line(text: &str, line: usize) -> (&str, &str)
    requires { IsWholeLine text.now line }
    ensures before { result.0.now ≡ first_lines (line - 1) text.now }
    ensures line { IsLineAt text.now line result.1.now }
{
    let mut rest = text;
    for _passed in 0..line - 1 {
        rest = split_line(rest).1;
    }
    let before = text.strip_suffix(rest).unwrap_or("");
    (before, split_line(rest).0)
}

// Returns the first of some lines, and what follows its line feed.
fn split_line(text: &str) -> (&str, &str)
    requires { 1 ≤ line_count text.now }
    ensures { HasNoLineFeed result.0.now × (text.now ≡ result.0.now ++ line_feed ∷ result.1.now) }
{
    match text.split_once('\n') {
        Some((line, rest)) => (line, rest),
        None => (text, ""),
    }
}

// Says why a text that ends too early is no drawing, and with which pieces it is one.
fn wrong_end(alloc: Global, text: &str, config: &PrintConfig) -> Result<String, AllocError>
    requires { IsUnreadBy (config_of config.now) text.now }
    ensures { IfOk result (λ said. TellsEnd (config_of config.now) text.now (string_bytes said)) }
{
    let mut said = String::from_str(alloc, why_end(text))?;
    push_other(alloc, &mut said, text, config)?;
    Ok(said)
}

// Says why a text that ends too early is no drawing.
fn why_end(text: &str) -> &'static str
    ensures { IsWhyEnd text.now result.now }
{
    if text.is_empty() {
        "not a drawing: empty"
    } else if text.ends_with('\n') {
        "the drawing is incomplete: an item is missing below the last line"
    } else {
        "the drawing is incomplete: its last line does not end in a line feed"
    }
}

// Adds the name of pieces with which the text is a drawing, if there are some.
fn push_other(
    alloc: Global,
    said: &mut String,
    text: &str,
    config: &PrintConfig,
) -> Result<bool, AllocError>
    requires { IsUnreadBy (config_of config.now) text.now }
    ensures { IfOk result (λ b. AddsOther (config_of config.now) text.now b
        (string_bytes said.old) (string_bytes said.new)) }
{
    let Some(pieces) = reading(alloc, text, config)? else {
        return Ok(false);
    };
    said.push_str("\nit is a drawing with --as ")?;
    said.push_str(pieces.name())?;
    Ok(true)
}
