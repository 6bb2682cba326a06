//! Callers of graphs.
ghost use Rattle.std.specs.Prelude.{◌≡◌, ◌≢◌, ◌↔◌, ◌<◌, IsTrue, ℕ, suc, [], Bool, List, length, map, count_by, IfOk, string_bytes};
ghost use Rattle.ptree.specs.Address.{Address};
ghost use Rattle.ptree.specs.Drawing.{look_by, written_look, IsDrawing};
ghost use Rattle.ptree.specs.Graph.{weights_of, edges_of, neighbors_of, node_shape, turned};
ghost use Rattle.ptree.specs.Loading.{effective_config};
ghost use Rattle.ptree.specs.Occurrence.{OccurrenceTree, IsExpandedOnce, IsExpanded, IsMetBefore, HasOneTree, NoneRepeated, StandsAt, occurrence_at, occurrence_count, occurrence_kids, occurrence_own, occurrence_shape, occurrence_tree, is_repeated_size, size_below};
ghost use Rattle.ptree.specs.Style.{style_of};
ghost use Rattle.ptree.specs.Writing.{IsWritten, HasCause, IsDrawn, LeavesWholeEntries};
ghost use Rattle.ptree.specs.declared.print_config.OutputKind.{OutputKind};
ghost use Rattle.examples.specs.declared.graphs.Package.{Package};

use ptree::PrintConfig;
use ptree::graph::{
    Expanded, Graph, Label, NodeIndex, OccurrenceItem, Occurrences, Place, REPEATED_MARK,
    print_graph, print_graph_once, write_graph_once_with,
};
use ptree::item::TreeItem;
use ptree::print_config::Sources;
use ptree::style::{DrawError, Sink, Style};
use std::alloc::{AllocError, Global};

/// A weight of a caller's own.
#[derive(Drop)]
pub struct Package {
    pub name: String,
    pub size: u64,
}

impl Label for Package {
    ghost text = { λ p. string_bytes p.name };

    fn write_label<W: Sink>(&self, _: Global, f: &mut W, style: &Style) -> Result<(), DrawError> {
        style.write_painted(f, self.name.as_str())
    }
}

/// What a package needs.
pub fn needs(graph: &Graph<Package>, which: NodeIndex) -> Result<Vec<NodeIndex>, AllocError>
    ensures { IfOk result (λ v.
        map (λ n. n.0) v.items ≡ neighbors_of (edges_of graph.now) which.0) }
{
    graph.neighbors(which)
}

/// The packages that need a package directly, in place of those that it needs. Reversing the graph
/// does not allocate.
pub fn needed_by(graph: Graph<Package>, which: NodeIndex) -> Result<Vec<NodeIndex>, AllocError>
    ensures { IfOk result (λ v.
        map (λ n. n.0) v.items ≡ neighbors_of (map turned (edges_of graph)) which.0) }
{
    let turned = graph.reversed();
    turned.neighbors(which)
}

/// Turns a graph round twice, and has it as it was.
pub fn turned_twice(graph: Graph<Package>) -> Graph<Package>
    ensures weights { weights_of result ≡ weights_of graph }
    ensures edges { edges_of result ≡ map turned (map turned (edges_of graph)) }
{
    graph.reversed().reversed()
}

/// Each package's needs once. There is one tree of them and no other, and there is one occurrence
/// more than there are needs of packages that are expanded.
pub fn needs_once(graph: &Graph<Package>, which: NodeIndex) -> Result<Occurrences, AllocError>
    ensures tree { IfOk result (λ o.
        IsExpandedOnce (neighbors_of (edges_of graph.now)) which.0 9 (occurrence_tree o)) }
    ensures one_tree { HasOneTree (neighbors_of (edges_of graph.now)) which.0 9 }
    ensures size { IfOk result (λ o. (expanded : ℕ → Bool)
        × ((v : ℕ) → IsTrue (expanded v) ↔ IsExpanded (occurrence_tree o) v)
        × (occurrence_count (occurrence_tree o)
        ≡ suc (count_by (λ e. expanded e.0) (edges_of graph.now)))) }
{
    graph.expanded_once(which, 9)
}

/// How many times a package is named where each one's needs are shown once: as often as the tree
/// has occurrences.
pub fn times_named(graph: &Graph<Package>, which: NodeIndex) -> Result<usize, AllocError>
    ensures { IfOk result (λ n. (t : OccurrenceTree)
        → IsExpandedOnce (neighbors_of (edges_of graph.now)) which.0 9 t → n ≡ occurrence_count t) }
{
    Ok(graph.expanded_once(which, 9)?.places.len())
}

/// The same, of a package that needs something: of its occurrences above the depth, the first has
/// its needs below it, and the others have nothing.
pub fn first_needs_once(graph: &Graph<Package>, which: NodeIndex) -> Result<Occurrences, AllocError>
    requires { neighbors_of (edges_of graph.now) which.0 ≢ [] }
    ensures { IfOk result (λ o. (a : Address) (p : OccurrenceTree)
        → StandsAt (occurrence_tree o) a p → p.node ≡ which.0 → length a < 9
        → (occurrence_kids p ≢ []) ↔ (IsMetBefore 9 (occurrence_tree o) a p.node → ⊥)) }
{
    graph.expanded_once(which, 9)
}

/// The same, of a graph without edges: nothing is repeated.
pub fn no_needs_once(graph: &Graph<Package>, which: NodeIndex) -> Result<Occurrences, AllocError>
    requires { (v : ℕ) → neighbors_of (edges_of graph.now) v ≡ [] }
    ensures { IfOk result (λ o. NoneRepeated (occurrence_tree o)) }
{
    graph.expanded_once(which, 9)
}

/// The graph that items are of, with the mark of `cargo tree`.
pub fn marked<'a>(graph: &'a Graph<Package>, occurrence: &'a Occurrences) -> Expanded<'a, Package>
    ensures graph { result.graph.now ≡ graph.now }
    ensures mark { result.mark.now ≡ REPEATED_MARK.now }
    ensures occurrence { result.occurrence.now ≡ occurrence.now }
{
    Expanded {
        graph,
        mark: REPEATED_MARK,
        occurrence,
    }
}

/// Writes the item of a place of an expanded graph: the package's name, and the mark if it is
/// repeated.
pub fn write_need<W: Sink>(
    alloc: Global,
    expanded: &Expanded<'_, Package>,
    index: usize,
    f: &mut W,
    style: &Style,
) -> Result<(), DrawError>
    ensures bytes { IsWritten (W.contents f.old) (W.contents f.new) result
        (occurrence_own (λ p. string_bytes p.name) expanded.now.graph.now expanded.now.mark.now
        (occurrence_at expanded.now.occurrence.now index) (style_of style.now)) }
    ensures cause { HasCause (W.faults f.old) (W.faults f.new) result }
{
    OccurrenceItem { expanded, index }.write_self(alloc, f, style)
}

/// How many packages are right below a place of it.
pub fn needs_below(
    alloc: Global,
    expanded: &Expanded<'_, Package>,
    index: usize,
) -> Result<usize, AllocError>
    ensures { IfOk result (λ n.
        n ≡ length (occurrence_kids (occurrence_at expanded.now.occurrence.now index))) }
{
    let item = OccurrenceItem { expanded, index };
    let below = item.children(alloc)?;
    Ok(below.as_slice().len())
}

/// Whether the needs of the package at a place are below an earlier one, and how many packages are
/// below this one.
pub fn at_place(place: &Place) -> (bool, usize)
    ensures earlier { result.0 ≡ is_repeated_size place.now.size }
    ensures below { result.1 ≡ size_below place.now.size }
{
    (place.is_repeated(), place.below())
}

/// Draws each package's needs once, as `cargo tree` does.
pub fn draw_needs_once<W: Sink>(
    alloc: Global,
    graph: &Graph<Package>,
    which: NodeIndex,
    f: &mut W,
    config: &PrintConfig,
) -> Result<(), DrawError>
    ensures bytes { (t : OccurrenceTree)
        → IsExpandedOnce (neighbors_of (edges_of graph.now)) which.0 config.now.depth t
        → IsDrawn (written_look config.now)
        (occurrence_shape (λ p. string_bytes p.name) graph.now REPEATED_MARK.now t)
        config.now.depth (W.contents f.old) (W.contents f.new) result }
    ensures whole { (t : OccurrenceTree)
        → IsExpandedOnce (neighbors_of (edges_of graph.now)) which.0 config.now.depth t
        → LeavesWholeEntries (written_look config.now)
        (occurrence_shape (λ p. string_bytes p.name) graph.now REPEATED_MARK.now t)
        config.now.depth (W.contents f.old) (W.contents f.new) result }
    ensures cause { HasCause (W.faults f.old) (W.faults f.new) result }
    ensures one_tree { HasOneTree (neighbors_of (edges_of graph.now)) which.0 config.now.depth }
    ensures walks { (t : OccurrenceTree)
        → IsExpandedOnce (neighbors_of (edges_of graph.now)) which.0 config.now.depth t
        → NoneRepeated t → (text : List ℕ) → IsDrawing (written_look config.now)
        (occurrence_shape (λ p. string_bytes p.name) graph.now REPEATED_MARK.now t)
        config.now.depth text
        ↔ IsDrawing (written_look config.now)
        (node_shape (λ p. string_bytes p.name) graph.now which.0) config.now.depth text }
{
    write_graph_once_with(alloc, graph, which, REPEATED_MARK, f, config)
}

/// Prints each package's needs once, under the sources that the caller has.
pub fn print_needs_once<W: Sink>(
    alloc: Global,
    graph: &Graph<Package>,
    which: NodeIndex,
    out: &mut W,
    terminal: bool,
    sources: &Sources,
) -> Result<(), DrawError>
    ensures bytes { let effective = effective_config sources.now in (t : OccurrenceTree)
        → IsExpandedOnce (neighbors_of (edges_of graph.now)) which.0 effective.depth t
        → IsDrawn (look_by effective OutputKind.Stdout terminal)
        (occurrence_shape (λ p. string_bytes p.name) graph.now REPEATED_MARK.now t) effective.depth
        (W.contents out.old) (W.contents out.new) result }
    ensures whole { let effective = effective_config sources.now in (t : OccurrenceTree)
        → IsExpandedOnce (neighbors_of (edges_of graph.now)) which.0 effective.depth t
        → LeavesWholeEntries (look_by effective OutputKind.Stdout terminal)
        (occurrence_shape (λ p. string_bytes p.name) graph.now REPEATED_MARK.now t) effective.depth
        (W.contents out.old) (W.contents out.new) result }
    ensures cause { HasCause (W.faults out.old) (W.faults out.new) result }
    ensures one_tree { HasOneTree (neighbors_of (edges_of graph.now)) which.0
        (effective_config sources.now).depth }
    ensures walks { let effective = effective_config sources.now in
        let look = look_by effective OutputKind.Stdout terminal in
        let text = λ (p : Package). string_bytes p.name in (t : OccurrenceTree)
        → IsExpandedOnce (neighbors_of (edges_of graph.now)) which.0 effective.depth t
        → NoneRepeated t → (drawing : List ℕ)
        → IsDrawing look (occurrence_shape text graph.now REPEATED_MARK.now t) effective.depth
        drawing
        ↔ IsDrawing look (node_shape text graph.now which.0) effective.depth drawing }
{
    print_graph_once(alloc, graph, which, REPEATED_MARK, out, terminal, sources)
}

/// Prints all walks from a package along what is needed, under the sources that the caller has.
pub fn print_needs<W: Sink>(
    alloc: Global,
    graph: &Graph<Package>,
    which: NodeIndex,
    out: &mut W,
    terminal: bool,
    sources: &Sources,
) -> Result<(), DrawError>
    ensures { let effective = effective_config sources.now in
        IsDrawn (look_by effective OutputKind.Stdout terminal)
        (node_shape (λ p. string_bytes p.name) graph.now which.0) effective.depth
        (W.contents out.old) (W.contents out.new) result }
{
    print_graph(alloc, graph, which, out, terminal, sources)
}
