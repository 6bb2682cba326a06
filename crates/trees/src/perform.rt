//! Does what a command asks for.
ghost use Rattle.std.specs.Prelude.{◌≡◌, ◌≢◌, ◌+◌, ◌⊎◌, true, false, None, IfOk, IfErr, IsErr, OnOk, option_map, string_bytes};
ghost use Rattle.ptree.specs.Config.{config_of};
ghost use Rattle.ptree.specs.Loading.{first_fault};
ghost use Rattle.ptree.specs.Tree.{tree_of};
ghost use Rattle.ptree.specs.Writing.{AppendsPart};
ghost use Rattle.ptree_trees.specs.Change.{kept_tree};
ghost use Rattle.ptree_trees.specs.Parts.{has_part};
ghost use Rattle.trees.specs.Asked.{reading_value};
ghost use Rattle.trees.specs.Changing.{IsPart, IsKept, IsConverted, FailsToConvert};
ghost use Rattle.trees.specs.Listing.{IsListed, FailsToList};
ghost use Rattle.trees.specs.Reading.{HoldDifference, HoldsDrawing, HoldsNoOther, HoldsSome, IsRedrawn, FailsToRead, FailsToMake, NamesPlace};
ghost use Rattle.trees.specs.Shown.{IsNone, ShowsOnly};
ghost use Rattle.trees.specs.Telling.{failure_faults, TellsWhether, TellsOnlyIf, TellsOfTexts, TellsOfCommand};
ghost use Rattle.trees.specs.Writing.{WritesSaid, AreSettings, Writes, IsIndentation, FailsToIndent, IsGiven, FailsToGive, Draws, DrawsNeeds, Converts, ConvertsBack, WritesOfCommand, ShowsOfCommand, ShowsDrawing, ShowsMerged, LeavesIfWrong, Compares};

mod drawn;
mod reports;

use crate::command::{Command, Convert, Deps, Diff, Drawing, Indented, Paths, Tree};
use crate::deps::read_dependencies;
use crate::failure::Failure;
use crate::perform::drawn::{Drawn, config, draw};
use crate::perform::reports::check;
use crate::pieces::Pieces;
use crate::screen::shown;
use crate::settings::{self, Settings};
use crate::source::Source;
use crate::{compare, document, drawings, lists};
use ptree::item::StringItem;
use ptree::print_config::PrintConfig;
use ptree::style::{Sink, put_all};
use ptree_trees::change::{kept, sorted};
use ptree_trees::difference::ItemDifference;
use std::alloc::{AllocError, Global};

/// Does what a command asks for. All else is done before the first byte is written.
///
/// # Errors
///
/// `Usage` if drawings with the pieces cannot be read back, `Input` if an input is wrong, `Said` if
/// what was written is a refusal, `Output` if writing failed, and `Memory`.
pub fn perform<W: Sink>(
    alloc: Global,
    command: Command<'_>,
    out: &mut W,
    found: &Settings,
) -> Result<(), Failure>
    ensures told { TellsOfCommand found.now.sources command.entry result }
    ensures written { WritesOfCommand found.now.sources command.entry
        (W.contents out.old) (W.contents out.new) result }
    ensures quiet { LeavesIfWrong out.old out.new result }
    ensures cause { W.faults out.new ≡ W.faults out.old + failure_faults result }
    ensures shown { ShowsOfCommand found.now.sources command.entry
        (W.contents out.old) (W.contents out.new) }
{
    match command {
        Command::Draw(source, tree, drawing) => draw_source(
            alloc, source, tree, drawing, out, found,
        ),
        Command::Deps(source, deps, drawing) => draw_deps(alloc, source, deps, drawing, out, found),
        Command::Indented(source, indented) => write_indented(alloc, source, indented, out, found),
        Command::Check(sources, pieces, screen) => {
            check(alloc, sources, pieces, screen, out, found)
        }
        Command::Convert(source, convert) => draw_converted(alloc, source, convert, out, found),
        Command::Diff(left, right, diff) => compare_drawings(alloc, left, right, diff, out, found),
        Command::Config => show_settings(alloc, out, found),
    }
}

// Writes a text, which may be a refusal.
fn say<W: Sink>(out: &mut W, text: &str, is_refusal: bool) -> Result<(), Failure>
    ensures told { TellsWhether result (is_refusal ≡ false) }
    ensures part { AppendsPart (W.contents out.old) (W.contents out.new) text.now }
    ensures written { WritesSaid (W.contents out.old) (W.contents out.new) result
        (λ bytes. bytes ≡ text.now) (λ e. e ≡ Failure.Memory) }
    ensures quiet { LeavesIfWrong out.old out.new result }
    ensures cause { W.faults out.new ≡ W.faults out.old + failure_faults result }
{
    write_text(out, text)?;
    if is_refusal {
        return Err(Failure::Said);
    }
    Ok(())
}

// Writes a text.
fn write_text<W: Sink>(out: &mut W, text: &str) -> Result<(), Failure>
    ensures written { Writes (W.contents out.old) (W.contents out.new) result
        (λ bytes. bytes ≡ text.now) (λ e. e ≡ Failure.Memory) }
    ensures quiet { LeavesIfWrong out.old out.new result }
    ensures cause { W.faults out.new ≡ W.faults out.old + failure_faults result }
{
    Ok(put_all(out, text.as_bytes())?)
}

// Draws the tree of an input.
fn draw_source<W: Sink>(
    alloc: Global,
    source: &Source,
    tree: Tree<'_>,
    drawing: Drawing,
    out: &mut W,
    found: &Settings,
) -> Result<(), Failure>
    ensures written { Draws found.now.sources source.now tree.entry drawing
        (W.contents out.old) (W.contents out.new) result }
    ensures quiet { LeavesIfWrong out.old out.new result }
    ensures cause { W.faults out.new ≡ W.faults out.old + failure_faults result }
    ensures shown { ShowsDrawing found.now.sources drawing
        (W.contents out.old) (W.contents out.new) }
{
    let tree = tree_of(alloc, source, tree)?;
    let drawn = draw(alloc, Drawn::Tree(&tree), drawing, out, found);
    drop(tree);
    drawn
}

// Returns the tree of an input.
fn tree_of(alloc: Global, source: &Source, tree: Tree<'_>) -> Result<StringItem, Failure>
    ensures given { IfOk result (λ t. IsGiven source.now tree.entry (tree_of t)) }
    ensures failed { IfErr result (FailsToGive source.now tree.entry) }
{
    match tree {
        Tree::Json(document) => document::tree::<serde_json::Value>(alloc, source, document),
        Tree::Toml(document) => document::tree::<toml::Value>(alloc, source, document),
        Tree::Paths(paths) => listed(alloc, source, paths),
        Tree::Outline(outline) => lists::outlines::outline(alloc, source, outline),
    }
}

// Returns what is kept of the tree of paths.
fn listed(alloc: Global, source: &Source, paths: Paths<'_>) -> Result<StringItem, Failure>
    ensures listed { IfOk result (λ t. IsListed source.now paths.entry (tree_of t)) }
    ensures failed { IfErr result (FailsToList source.now paths.entry) }
{
    let tree = lists::paths(alloc, source, paths)?;
    kept_part(alloc, source, tree, paths.keep)
}

// Returns a tree, or what contains a text in it.
fn kept_part(
    alloc: Global,
    source: &Source,
    tree: StringItem,
    keep: Option<&str>,
) -> Result<StringItem, Failure>
    ensures kept { IfOk result (λ t. IsKept keep.entry (tree_of tree) (tree_of t)) }
    ensures failed { IfErr result (FailsToMake ⊥ (IsKept keep.entry (tree_of tree))) }
{
    match keep {
        Some(part) => part_of(alloc, source, &tree, part),
        None => Ok(tree),
    }
}

// Returns what contains a text in a tree.
fn part_of(
    alloc: Global,
    source: &Source,
    tree: &StringItem,
    part: &str,
) -> Result<StringItem, Failure>
    ensures part { IfOk result (λ t. IsPart part.now (tree_of tree.now) (tree_of t)) }
    ensures failed { IfErr result (FailsToMake ⊥ (IsPart part.now (tree_of tree.now))) }
{
    match containing(alloc, tree, part)? {
        Some(tree) => Ok(tree),
        None => {
            let wrong = format!(in alloc; "nothing contains {part}")?;
            Err(source.wrong(alloc, wrong.as_str())?)
        }
    }
}

// Returns what contains a text in a tree, if anything does.
fn containing(
    alloc: Global,
    tree: &StringItem,
    part: &str,
) -> Result<Option<StringItem>, AllocError>
    ensures { IfOk result (λ kept.
        option_map tree_of kept ≡ kept_tree (has_part part.now) (tree_of tree.now)) }
{
    kept(alloc, tree, |text: &str| text.contains(part))
}

// Draws dependencies.
fn draw_deps<W: Sink>(
    alloc: Global,
    source: &Source,
    deps: Deps<'_>,
    drawing: Drawing,
    out: &mut W,
    found: &Settings,
) -> Result<(), Failure>
    ensures written { DrawsNeeds found.now.sources source.now deps.entry drawing
        (W.contents out.old) (W.contents out.new) result }
    ensures quiet { LeavesIfWrong out.old out.new result }
    ensures cause { W.faults out.new ≡ W.faults out.old + failure_faults result }
    ensures shown { ShowsDrawing found.now.sources drawing
        (W.contents out.old) (W.contents out.new) }
{
    let dependencies = read_dependencies(alloc, source, deps, drawing.screen.is_terminal)?;
    let graph = Drawn::Graph(source, &dependencies, deps.walks);
    let drawn = draw(alloc, graph, drawing, out, found);
    drop(dependencies);
    drawn
}

// Returns the configuration by which drawings are read, with the pieces that are named, or with
// those of the settings.
fn reading_config(
    alloc: Global,
    pieces: Option<Pieces>,
    found: &Settings,
) -> Result<PrintConfig, AllocError>
    ensures { IfOk result (λ config. config_of config ≡ reading_value found.now.sources pieces) }
{
    config(alloc, Drawing::read_with(pieces), found)
}

// Returns the tree of a drawing, made with the pieces that are named, or with those of the
// settings.
fn read_drawing(
    alloc: Global,
    source: &Source,
    pieces: Option<Pieces>,
    found: &Settings,
) -> Result<StringItem, Failure>
    ensures some { IfOk result (λ t.
        HoldsDrawing (reading_value found.now.sources pieces) source.now (tree_of t)) }
    ensures only { IfOk result (λ t.
        HoldsNoOther (reading_value found.now.sources pieces) source.now (tree_of t)) }
    ensures redrawn { IfOk result (λ t.
        IsRedrawn (reading_value found.now.sources pieces) source.now (tree_of t)) }
    ensures failed { IfErr result
        (FailsToRead (reading_value found.now.sources pieces) source.now) }
    ensures place { IfErr result
        (NamesPlace (reading_value found.now.sources pieces) source.now) }
{
    let config = reading_config(alloc, pieces, found)?;
    let tree = drawings::read(alloc, source, &config);
    drop(config);
    tree
}

// Fails if an input is no drawing that can be read so.
fn expect_drawing(
    alloc: Global,
    source: &Source,
    pieces: Option<Pieces>,
    found: &Settings,
) -> Result<(), Failure>
    ensures some { OnOk result
        (HoldsSome (reading_value found.now.sources pieces) source.now) }
    ensures failed { IfErr result
        (FailsToRead (reading_value found.now.sources pieces) source.now) }
{
    let config = reading_config(alloc, pieces, found)?;
    let count = drawings::count(alloc, source, &config);
    drop(config);
    count?;
    Ok(())
}

// Returns the first difference of the trees of two drawings, if they differ.
fn find_difference<'a>(
    alloc: Global,
    left: &'a Source,
    right: &'a Source,
    pieces: Option<Pieces>,
    found: &Settings,
) -> Result<Option<ItemDifference<'a>>, Failure>
    ensures some { IfOk result
        (HoldDifference (reading_value found.now.sources pieces) left.now right.now) }
    ensures failed { IfErr result (λ e.
        FailsToRead (reading_value found.now.sources pieces) left.now e
        ⊎ FailsToRead (reading_value found.now.sources pieces) right.now e) }
{
    let config = reading_config(alloc, pieces, found)?;
    let first = drawings::difference(alloc, left, right, &config);
    drop(config);
    first
}

// Writes a drawing as indented text.
fn write_indented<W: Sink>(
    alloc: Global,
    source: &Source,
    indented: Indented<'_>,
    out: &mut W,
    found: &Settings,
) -> Result<(), Failure>
    ensures written { Writes (W.contents out.old) (W.contents out.new) result
        (IsIndentation found.now.sources source.now indented.entry)
        (FailsToIndent found.now.sources source.now indented.entry) }
    ensures quiet { LeavesIfWrong out.old out.new result }
    ensures cause { W.faults out.new ≡ W.faults out.old + failure_faults result }
    ensures shown { ShowsOnly indented.entry.is_terminal (λ part. part ≡ indented.entry.unit.now)
        (W.contents out.old) (W.contents out.new) }
{
    let text = indented_text(alloc, source, indented, found)?;
    write_text(out, text.as_str())
}

// Returns a drawing as indented text.
fn indented_text(
    alloc: Global,
    source: &Source,
    indented: Indented<'_>,
    found: &Settings,
) -> Result<String, Failure>
    ensures text { IfOk result (λ text.
        IsIndentation found.now.sources source.now indented.entry (string_bytes text)) }
    ensures failed { IfErr result (FailsToIndent found.now.sources source.now indented.entry) }
{
    let tree = read_drawing(alloc, source, indented.pieces, found)?;
    lists::indented(alloc, source, &tree, indented)
}

// Draws a drawing with other pieces.
fn draw_converted<W: Sink>(
    alloc: Global,
    source: &Source,
    convert: Convert<'_>,
    out: &mut W,
    found: &Settings,
) -> Result<(), Failure>
    ensures written { Converts found.now.sources source.now convert.entry
        (W.contents out.old) (W.contents out.new) result }
    // What was converted from other pieces to these is the same text again.
    ensures back { ConvertsBack found.now.sources source.now convert.entry
        (W.contents out.old) (W.contents out.new) result }
    ensures quiet { LeavesIfWrong out.old out.new result }
    ensures cause { W.faults out.new ≡ W.faults out.old + failure_faults result }
    ensures shown { ShowsDrawing found.now.sources convert.entry.drawing
        (W.contents out.old) (W.contents out.new) }
{
    let tree = converted(alloc, source, convert, found)?;
    draw(alloc, Drawn::Tree(&tree), convert.drawing, out, found)
}

// Returns what is kept of the tree of a drawing, sorted if that is asked for.
fn converted(
    alloc: Global,
    source: &Source,
    convert: Convert<'_>,
    found: &Settings,
) -> Result<StringItem, Failure>
    ensures converted { IfOk result (λ t.
        IsConverted found.now.sources source.now convert.entry (tree_of t)) }
    ensures failed { IfErr result (FailsToConvert found.now.sources source.now convert.entry) }
{
    let tree = read_drawing(alloc, source, convert.pieces, found)?;
    let tree = kept_part(alloc, source, tree, convert.keep)?;
    if convert.is_sorted {
        return Ok(sorted(alloc, &tree)?);
    }
    Ok(tree)
}

// Compares two drawings.
fn compare_drawings<W: Sink>(
    alloc: Global,
    left: &Source,
    right: &Source,
    diff: Diff,
    out: &mut W,
    found: &Settings,
) -> Result<(), Failure>
    ensures told { TellsOfTexts (reading_value found.now.sources diff.drawing.pieces)
        left.now right.now result }
    ensures written { Compares found.now.sources left.now right.now diff
        (W.contents out.old) (W.contents out.new) result }
    ensures quiet { LeavesIfWrong out.old out.new result }
    ensures cause { W.faults out.new ≡ W.faults out.old + failure_faults result }
    ensures shown { ShowsMerged found.now.sources diff.drawing
        (W.contents out.old) (W.contents out.new) }
{
    if left.text == right.text {
        return expect_drawing(alloc, left, diff.drawing.pieces, found);
    }
    if diff.shows_all {
        return show_all(alloc, left, right, diff, out, found);
    }
    show_first(alloc, left, right, diff, out, found)
}

// Shows all differences of two drawings whose texts differ.
fn show_all<W: Sink>(
    alloc: Global,
    left: &Source,
    right: &Source,
    diff: Diff,
    out: &mut W,
    found: &Settings,
) -> Result<(), Failure>
    requires all { diff.shows_all ≡ true }
    ensures different { IsErr result }
    ensures left_drawn { TellsOnlyIf result
        (HoldsSome (reading_value found.now.sources diff.drawing.pieces) left.now) }
    ensures right_drawn { TellsOnlyIf result
        (HoldsSome (reading_value found.now.sources diff.drawing.pieces) right.now) }
    ensures written { Compares found.now.sources left.now right.now diff
        (W.contents out.old) (W.contents out.new) result }
    ensures quiet { LeavesIfWrong out.old out.new result }
    ensures cause { W.faults out.new ≡ W.faults out.old + failure_faults result }
{
    let tree = read_drawing(alloc, left, diff.drawing.pieces, found)?;
    let other = read_drawing(alloc, right, diff.drawing.pieces, found)?;
    draw(alloc, Drawn::Both(&tree, &other), diff.drawing, out, found)
}

// Shows the first difference of two drawings whose texts differ.
fn show_first<W: Sink>(
    alloc: Global,
    left: &Source,
    right: &Source,
    diff: Diff,
    out: &mut W,
    found: &Settings,
) -> Result<(), Failure>
    requires first { diff.shows_all ≡ false }
    requires differ { string_bytes left.now.text ≢ string_bytes right.now.text }
    ensures different { IsErr result }
    ensures left_drawn { TellsOnlyIf result
        (HoldsSome (reading_value found.now.sources diff.drawing.pieces) left.now) }
    ensures right_drawn { TellsOnlyIf result
        (HoldsSome (reading_value found.now.sources diff.drawing.pieces) right.now) }
    ensures written { Compares found.now.sources left.now right.now diff
        (W.contents out.old) (W.contents out.new) result }
    ensures quiet { LeavesIfWrong out.old out.new result }
    ensures cause { W.faults out.new ≡ W.faults out.old + failure_faults result }
{
    let Some(first) = find_difference(alloc, left, right, diff.drawing.pieces, found)? else {
        return Ok(());
    };
    let said = compare::first(alloc, &first)?;
    say(out, said.as_str(), true)
}

// Says which settings hold.
fn show_settings<W: Sink>(alloc: Global, out: &mut W, found: &Settings) -> Result<(), Failure>
    ensures told { TellsWhether result (first_fault found.now.sources ≡ None) }
    ensures written { WritesSaid (W.contents out.old) (W.contents out.new) result
        (AreSettings found.now.sources) (λ e. e ≡ Failure.Memory) }
    ensures quiet { LeavesIfWrong out.old out.new result }
    ensures cause { W.faults out.new ≡ W.faults out.old + failure_faults result }
    // In a file too.
    ensures shown { ShowsOnly true IsNone (W.contents out.old) (W.contents out.new) }
{
    let report = settings::describe(alloc, found)?;
    let said = shown(alloc, report.text.as_str())?;
    say(out, said.as_str(), report.has_faults)
}
