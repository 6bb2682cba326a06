//! Draws a graph.
ghost use Rattle.std.specs.Prelude.{◌≡◌, ◌↔◌, ℕ, ◌<◌, List, length, map, All, IfOk};
ghost use Rattle.ptree.specs.Children.{children_of};
ghost use Rattle.ptree.specs.Drawing.{look_by, written_look, IsDrawing};
ghost use Rattle.ptree.specs.Graph.{weights_of, edges_of, neighbors_of, node_shape, walks};
ghost use Rattle.ptree.specs.Loading.{effective_config};
ghost use Rattle.ptree.specs.Shape.{kids};
ghost use Rattle.ptree.specs.Style.{style_of, painted_text};
ghost use Rattle.ptree.specs.Tree.{shape_of_tree};
ghost use Rattle.ptree.specs.declared.print_config.OutputKind.{OutputKind};
ghost use Rattle.ptree.specs.Writing.{IsWritten, HasCause, TakesNoMemory, IsDrawn, LeavesWholeEntries};

use super::{Graph, NodeIndex};
use crate::item::{Children, Shaped, TreeItem};
use crate::output::{print_tree, write_tree_with};
use crate::print_config::{OutputKind, PrintConfig, Sources};
use crate::sink::{DrawError, DrawResult, Sink};
use crate::style::Style;
use std::alloc::{AllocError, Global};

/// What a node's weight is drawn as.
pub trait Label {
    /// The text that it denotes.
    ghost text: { Self → List ℕ };

    /// Writes the text, painted.
    ///
    /// # Errors
    ///
    /// `Write` or `Zero` if `f` failed, and `Memory`. A prefix of the painted text was written.
    fn write_label<W: Sink>(&self, alloc: Global, f: &mut W, style: &Style) -> Result<(), DrawError>
        ensures bytes { IsWritten (W.contents f.old) (W.contents f.new) result
            (painted_text (style_of style.now) (text self.now)) }
        ensures cause { HasCause (W.faults f.old) (W.faults f.new) result };
}

impl Label for String {
    ghost use Rattle.std.specs.Prelude.{string_bytes};

    ghost text = { string_bytes };

    /// Writes the text itself, painted. It does not allocate.
    #[inline(always)]
    fn write_label<W: Sink>(&self, _alloc: Global, f: &mut W, style: &Style) -> DrawResult
        ensures bytes { IsWritten (W.contents f.old) (W.contents f.new) result
            (painted_text (style_of style.now) (string_bytes self.now)) }
        ensures cause { HasCause (W.faults f.old) (W.faults f.new) result }
        ensures memory { TakesNoMemory result }
    {
        style.write_painted(f, self.as_str())
    }
}

impl Label for &str {
    ghost text = { λ s. s.now };

    /// Writes the text itself, painted. It does not allocate.
    #[inline(always)]
    fn write_label<W: Sink>(&self, _alloc: Global, f: &mut W, style: &Style) -> DrawResult
        ensures bytes { IsWritten (W.contents f.old) (W.contents f.new) result
            (painted_text (style_of style.now) self.now.now) }
        ensures cause { HasCause (W.faults f.old) (W.faults f.new) result }
        ensures memory { TakesNoMemory result }
    {
        style.write_painted(f, self)
    }
}

impl Label for u64 {
    ghost use Rattle.std.specs.Prelude.{decimal};

    ghost text = { decimal };

    /// Writes the number in decimal, painted.
    fn write_label<W: Sink>(&self, alloc: Global, f: &mut W, style: &Style) -> DrawResult {
        let digits = self.to_string(alloc)?;
        style.write_painted(f, digits.as_str())
    }
}

/// A node of a graph as an item: its weight, and its neighbours below it. In a graph with a cycle
/// the item is infinite.
#[derive_where(Clone, Copy)]
pub struct GraphNode<'a, N> {
    /// The graph.
    pub graph: &'a Graph<N>,

    /// The node's number. If the graph has no such node, the item writes nothing and has no
    /// children.
    pub node: NodeIndex,
}

impl<N: Label> Shaped for GraphNode<'_, N> {
    ghost use Rattle.ptree.specs.Graph.{node_shape};

    ghost shape = { λ g. node_shape N.text g.graph.now g.node.0 };
}

impl<'a, N: Label> TreeItem for GraphNode<'a, N> {
    type Child = GraphNode<'a, N>;

    /// Writes the weight's text, painted, or nothing if there is no such node.
    fn write_self<W: Sink>(&self, alloc: Global, f: &mut W, style: &Style) -> DrawResult {
        match self.graph.node_weight(self.node) {
            Some(weight) => weight.write_label(alloc, f, style),
            None => Ok(()),
        }
    }

    /// Returns an item for each neighbour, newest edge first.
    fn children(&self, alloc: Global) -> Result<Children<'_, GraphNode<'a, N>>, AllocError>
        ensures shapes { IfOk result (λ c.
            map (λ x. node_shape N.text x.graph.now x.node.0) (children_of c)
            ≡ kids (node_shape N.text self.now.graph.now self.now.node.0)) }
        // They are the neighbours, in the same graph.
        ensures nodes { IfOk result (λ c.
            map (λ x. x.node.0) (children_of c)
            ≡ neighbors_of (edges_of self.now.graph.now) self.now.node.0) }
        ensures graph { IfOk result (λ c.
            All (λ x. x.graph.now ≡ self.now.graph.now) (children_of c)) }
    {
        let graph = self.graph;
        let nodes = graph.targets(
            alloc,
            self.node,
            |number| GraphNode {
                graph,
                node: NodeIndex(number),
            },
        )?;
        Ok(Children::Made(nodes))
    }
}

/// Draws a graph from a start node, to a sink that is not standard output.
///
/// If the graph has a cycle, only the configured depth ends its drawing.
///
/// # Errors
///
/// `Write` or `Zero` if `f` failed, and `Memory`. A prefix of the drawing was written; if memory
/// ran out, whole entries.
pub fn write_graph_with<N: Label, W: Sink>(
    alloc: Global,
    graph: &Graph<N>,
    start: NodeIndex,
    f: &mut W,
    config: &PrintConfig,
) -> Result<(), DrawError>
    ensures bytes { IsDrawn (written_look config.now) (node_shape N.text graph.now start.0)
        config.now.depth (W.contents f.old) (W.contents f.new) result }
    ensures whole { LeavesWholeEntries (written_look config.now)
        (node_shape N.text graph.now start.0) config.now.depth (W.contents f.old) (W.contents f.new)
        result }
    ensures cause { HasCause (W.faults f.old) (W.faults f.new) result }
    // The drawings of a node are those of the tree of the walks from it.
    ensures walks { start.0 < length (weights_of graph.now) → (text : List ℕ)
        → IsDrawing (written_look config.now) (node_shape N.text graph.now start.0) config.now.depth
        text
        ↔ IsDrawing (written_look config.now)
        (shape_of_tree (walks N.text graph.now start.0 config.now.depth)) config.now.depth
        text }
{
    write_tree_with(alloc, &GraphNode { graph, node: start }, f, config)
}

/// Draws as [`write_graph_with`], but to standard output, and under the configuration that sources
/// denote ([`PrintConfig::from_env`]). `terminal` says whether standard output is a terminal.
///
/// # Errors
///
/// Those of [`write_graph_with`].
pub fn print_graph<N: Label, W: Sink>(
    alloc: Global,
    graph: &Graph<N>,
    start: NodeIndex,
    out: &mut W,
    terminal: bool,
    sources: &Sources,
) -> Result<(), DrawError>
    ensures bytes { let effective = effective_config sources.now in
        IsDrawn (look_by effective OutputKind.Stdout terminal) (node_shape N.text graph.now start.0)
        effective.depth (W.contents out.old) (W.contents out.new) result }
    ensures whole { let effective = effective_config sources.now in
        LeavesWholeEntries (look_by effective OutputKind.Stdout terminal)
        (node_shape N.text graph.now start.0) effective.depth (W.contents out.old)
        (W.contents out.new) result }
    ensures cause { HasCause (W.faults out.old) (W.faults out.new) result }
    // The drawings of a node are those of the tree of the walks from it.
    ensures walks { let effective = effective_config sources.now in
        let look = look_by effective OutputKind.Stdout terminal in
        start.0 < length (weights_of graph.now) → (text : List ℕ)
        → IsDrawing look (node_shape N.text graph.now start.0) effective.depth text
        ↔ IsDrawing look (shape_of_tree (walks N.text graph.now start.0 effective.depth))
        effective.depth text }
{
    print_tree(
        alloc,
        &GraphNode { graph, node: start },
        out,
        terminal,
        sources,
    )
}
