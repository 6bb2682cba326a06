//! Draws trees and graphs by the settings.
ghost use Rattle.std.specs.Prelude.{◌≡◌, ◌+◌, ℕ, false, List, IfOk, IsErr};
ghost use Rattle.ptree.specs.Config.{config_of};
ghost use Rattle.ptree.specs.Tree.{tree_of};
ghost use Rattle.ptree.specs.Writing.{HasCause, IsWritten};
ghost use Rattle.trees.specs.Asked.{drawing_value, with_drawing};
ghost use Rattle.trees.specs.Merging.{IsMergeDrawing};
ghost use Rattle.trees.specs.Reading.{FailsFor};
ghost use Rattle.trees.specs.Telling.{failure_faults};
ghost use Rattle.trees.specs.Writing.{Writes, IsTreeDrawing, IsGraphDrawing, IsGraphTooDeep, WritesDrawn, LeavesIfWrong, WritesRefusal};

use crate::command::Drawing;
use crate::compare::{self, Look};
use crate::deps::Dependencies;
use crate::failure::Failure;
use crate::levels::{LEVELS, TOO_DEEP_GRAPH, has_more_below};
use crate::screen::show_pieces;
use crate::settings::Settings;
use crate::source::Source;
use ptree::graph::{REPEATED_MARK, write_graph_once_with, write_graph_with};
use ptree::item::StringItem;
use ptree::output::write_tree_with;
use ptree::print_config::{PrintConfig, StyleWhen};
use ptree::style::{DrawError, Sink};
use ptree_trees::escape::escaped_item;
use std::alloc::{AllocError, Global};

/// What a command draws.
#[derive(Clone, Copy)]
pub enum Drawn<'a> {
    Tree(&'a StringItem),

    // Whether what is below a node is drawn wherever the node stands.
    Graph(&'a Source, &'a Dependencies, bool),

    // Two trees in one.
    Both(&'a StringItem, &'a StringItem),
}

/// Draws trees or a graph.
pub fn draw<W: Sink>(
    alloc: Global,
    drawn: Drawn<'_>,
    drawing: Drawing,
    out: &mut W,
    found: &Settings,
) -> Result<(), Failure>
    ensures written { WritesDrawn (drawing_value found.now.sources drawing)
        drawing.screen.is_terminal drawn.entry (W.contents out.old) (W.contents out.new) result }
    ensures quiet { LeavesIfWrong out.old out.new result }
    ensures cause { W.faults out.new ≡ W.faults out.old + failure_faults result }
{
    let config = config(alloc, drawing, found)?;
    let written = write_drawing(alloc, drawn, drawing.screen.is_terminal, out, &config);
    drop(config);
    written
}

// Writes a drawing.
fn write_drawing<W: Sink>(
    alloc: Global,
    drawn: Drawn<'_>,
    is_terminal: bool,
    out: &mut W,
    config: &PrintConfig,
) -> Result<(), Failure>
    ensures written { WritesDrawn (config_of config.now) is_terminal
        drawn.entry (W.contents out.old) (W.contents out.new) result }
    ensures quiet { LeavesIfWrong out.old out.new result }
    ensures cause { W.faults out.new ≡ W.faults out.old + failure_faults result }
{
    match drawn {
        Drawn::Tree(tree) => write_tree(alloc, tree, is_terminal, out, config),
        Drawn::Graph(source, graph, walks) => {
            write_graph(alloc, source, graph, walks, out, config)
        }
        Drawn::Both(left, right) => write_both(alloc, left, right, is_terminal, out, config),
    }
}

// Writes the drawing of a tree, for a terminal with its texts escaped.
fn write_tree<W: Sink>(
    alloc: Global,
    tree: &StringItem,
    is_terminal: bool,
    out: &mut W,
    config: &PrintConfig,
) -> Result<(), Failure>
    ensures written { Writes (W.contents out.old) (W.contents out.new) result
        (IsTreeDrawing (config_of config.now) is_terminal (tree_of tree.now))
        (λ e. e ≡ Failure.Memory) }
    ensures quiet { LeavesIfWrong out.old out.new result }
    ensures cause { W.faults out.new ≡ W.faults out.old + failure_faults result }
{
    if is_terminal {
        let tree = escaped_item(alloc, tree)?;
        return write_as_is(alloc, &tree, out, config);
    }
    write_as_is(alloc, tree, out, config)
}

// Writes the drawing of a tree.
fn write_as_is<W: Sink>(
    alloc: Global,
    tree: &StringItem,
    out: &mut W,
    config: &PrintConfig,
) -> Result<(), Failure>
    ensures written { Writes (W.contents out.old) (W.contents out.new) result
        (IsTreeDrawing (config_of config.now) false (tree_of tree.now))
        (λ e. e ≡ Failure.Memory) }
    ensures quiet { LeavesIfWrong out.old out.new result }
    ensures cause { W.faults out.new ≡ W.faults out.old + failure_faults result }
{
    Ok(write_tree_with(alloc, tree, out, config)?)
}

/// Returns the configuration of the settings, with what is said of a drawing.
pub fn config(alloc: Global, drawing: Drawing, found: &Settings) -> Result<PrintConfig, AllocError>
    ensures { IfOk result (λ config. config_of config ≡ drawing_value found.now.sources drawing) }
{
    let mut config = found.config.clone()?;
    set_drawing(alloc, &mut config, drawing)?;
    Ok(config)
}

// Sets what is said of a drawing.
fn set_drawing(alloc: Global, config: &mut PrintConfig, drawing: Drawing) -> Result<(), AllocError>
    ensures { IfOk result (λ _.
        config_of config.new ≡ with_drawing drawing (config_of config.old)) }
{
    config.depth = drawing.depth.unwrap_or(config.depth);
    config.styled = drawing.screen.when(drawing.styled.unwrap_or(config.styled));
    if let Some(pieces) = drawing.pieces {
        pieces.set(alloc, config)?;
    }
    if drawing.screen.is_terminal {
        show_pieces(alloc, config)?;
    }
    Ok(())
}

// Writes the drawing of a graph: what is below a node once, or wherever the node stands.
fn write_graph<W: Sink>(
    alloc: Global,
    source: &Source,
    dependencies: &Dependencies,
    walks: bool,
    out: &mut W,
    config: &PrintConfig,
) -> Result<(), Failure>
    ensures written { Writes (W.contents out.old) (W.contents out.new) result
        (IsGraphDrawing (config_of config.now) dependencies.now walks)
        (FailsFor (IsGraphTooDeep (config_of config.now) dependencies.now walks) ⊥) }
    ensures quiet { LeavesIfWrong out.old out.new result }
    ensures cause { W.faults out.new ≡ W.faults out.old + failure_faults result }
{
    let Dependencies { graph, root } = dependencies;
    if config.depth > LEVELS && has_more_below(alloc, graph, *root, walks)? {
        return Err(source.wrong(alloc, TOO_DEEP_GRAPH)?);
    }
    if walks {
        return Ok(write_graph_with(alloc, graph, *root, out, config)?);
    }
    Ok(write_once(alloc, dependencies, out, config)?)
}

// Writes the drawing of a graph with each node expanded once.
fn write_once<W: Sink>(
    alloc: Global,
    dependencies: &Dependencies,
    out: &mut W,
    config: &PrintConfig,
) -> Result<(), DrawError>
    ensures written { (bytes : List ℕ) × IsGraphDrawing (config_of config.now) dependencies.now false bytes
        × IsWritten (W.contents out.old) (W.contents out.new) result bytes }
    ensures cause { HasCause (W.faults out.old) (W.faults out.new) result }
{
    let Dependencies { graph, root } = dependencies;
    write_graph_once_with(alloc, graph, *root, REPEATED_MARK, out, config)
}

// Writes the drawing of two trees in one.
fn write_both<W: Sink>(
    alloc: Global,
    left: &StringItem,
    right: &StringItem,
    is_terminal: bool,
    out: &mut W,
    config: &PrintConfig,
) -> Result<(), Failure>
    ensures different { IsErr result }
    ensures written { WritesRefusal (W.contents out.old) (W.contents out.new) result
        (IsMergeDrawing (config_of config.now) is_terminal
        (tree_of left.now) (tree_of right.now)) (λ e. e ≡ Failure.Memory) }
    ensures quiet { LeavesIfWrong out.old out.new result }
    ensures cause { W.faults out.new ≡ W.faults out.old + failure_faults result }
{
    let look = Look {
        is_colored: config.styled == StyleWhen::Always,
        is_escaped: is_terminal,
    };
    let both = compare::both(alloc, left, right, look)?;
    let written = write_tree_with(alloc, &both, out, config);
    drop(both);
    written?;
    Err(Failure::Said)
}
