//! Draws graphs.
ghost use Rattle.std.specs.Prelude.{◌≡◌, ◌<◌, ◌++◌, [], ◌∷◌, Some, None, IfOk, IsErrOf, OnOk, map, option_copied, string_bytes, String};
ghost use Rattle.std.specs.declared.alloc.Global.{Global};
ghost use Rattle.ptree.specs.Drawing.{written_look};
ghost use Rattle.ptree.specs.declared.graph.Graph.{Graph};
ghost use Rattle.ptree.specs.Graph.{weights_of, edges_of};
ghost use Rattle.ptree_c.specs.Fields.{depth_of, look_of};
ghost use Rattle.ptree_c.specs.Graphs.{labels_from, HasPutGraph, IsGraphDrawing, IsGraphOf};
ghost use Rattle.ptree_c.specs.Refusals.{IsRefused};

use crate::answer::{put_bytes, refuse};
use crate::fields::{ConfigFields, config_of_fields};
use crate::items::text_between;
use crate::refusal::Refusal;
use crate::room::Found;
use ptree::PrintConfig;
use ptree::graph::{EdgeError, Graph, GraphNode, NodeIndex, write_graph_once_with};
use ptree::output::tree_bytes;
use ptree::style::Counted;
use std::alloc::{AllocError, Global};
use std::str;

/// An edge, by the places of its nodes, which are counted from 0.
#[repr(C)]
#[derive(Clone, Copy)]
pub struct Edge {
    /// The node that the edge leaves.
    pub source: usize,

    /// The node that it leads to.
    pub target: usize,
}

// The graph of nodes, whose texts end at these places of the texts, without edges.
fn graph_of_nodes(alloc: Global, ends: &[usize], texts: &[u8]) -> Result<Graph<String>, Refusal>
    ensures labels { IfOk result (λ graph.
        map string_bytes (weights_of graph) ≡ labels_from 0 texts.now ends.now) }
    ensures edges { IfOk result (λ graph. edges_of graph ≡ []) }
{
    let mut graph = Graph::new(alloc);
    let mut from = 0;
    let mut rest = ends;
    while let Some((end, tail)) = rest.split_first() {
        let place = ends.len().saturating_sub(rest.len());
        let text = text_between(alloc, texts, from, *end, place)?;
        graph.add_node(text)?;
        from = *end;
        rest = tail;
    }
    Ok(graph)
}

// Adds the edge at a place.
fn add_edge(graph: &mut Graph<String>, edge: Edge, place: usize) -> Result<(), Refusal>
    ensures edges { OnOk result
        (edges_of graph.new ≡ edges_of graph.old ++ (edge.source, edge.target) ∷ []) }
    ensures nodes { weights_of graph.new ≡ weights_of graph.old }
{
    match graph.extend_with_edges(&[(NodeIndex(edge.source), NodeIndex(edge.target))]) {
        Ok(()) => Ok(()),
        Err(EdgeError::NoNode) => Err(Refusal::Edge(place)),
        Err(EdgeError::Memory) => Err(Refusal::Memory),
    }
}

// The graph of nodes and edges.
fn graph_of(
    alloc: Global,
    ends: &[usize],
    texts: &[u8],
    edges: &[Edge],
) -> Result<Graph<String>, Refusal>
    ensures { IfOk result (IsGraphOf ends.now texts.now edges.now) }
{
    let mut graph = graph_of_nodes(alloc, ends, texts)?;
    let mut rest = edges;
    while let Some((edge, tail)) = rest.split_first() {
        let place = edges.len().saturating_sub(rest.len());
        add_edge(&mut graph, *edge, place)?;
        rest = tail;
    }
    Ok(graph)
}

// The drawing of all walks from a node.
fn drawing_of_walks(
    alloc: Global,
    graph: &Graph<String>,
    start: usize,
    config: &PrintConfig,
) -> Result<Vec<u8>, AllocError>
    ensures { IfOk result (λ drawing.
        IsGraphDrawing None (written_look config.now) config.now.depth graph.now start
        drawing.items) }
{
    let node = GraphNode {
        graph,
        node: NodeIndex(start),
    };
    tree_bytes(alloc, &node, config)
}

// The drawing of a graph from a node, with each node expanded once.
fn drawing_of_once(
    alloc: Global,
    graph: &Graph<String>,
    start: usize,
    mark: &str,
    config: &PrintConfig,
) -> Result<Vec<u8>, AllocError>
    ensures { IfOk result (λ drawing.
        IsGraphDrawing (Some mark.now) (written_look config.now) config.now.depth graph.now start
        drawing.items) }
{
    let mut out = Counted::new(Vec::new(alloc));
    // A vector fails only if memory ran out.
    match write_graph_once_with(alloc, graph, NodeIndex(start), mark, &mut out, config) {
        Ok(()) => Ok(out.into_inner()),
        Err(_) => Err(AllocError),
    }
}

// A mark as a text.
fn mark_of(mark: Option<&[u8]>) -> Result<Option<&str>, Refusal>
    ensures { IfOk result (λ text. option_copied text ≡ option_copied mark.entry) }
{
    match mark {
        Some(mark) => match str::from_utf8(mark) {
            Ok(mark) => Ok(Some(mark)),
            Err(_) => Err(Refusal::Part),
        },
        None => Ok(None),
    }
}

// The drawing of the graph that C gives: of all walks, or with a mark of each node expanded once.
fn drawing_given(
    alloc: Global,
    config: &PrintConfig,
    ends: &[usize],
    texts: &[u8],
    edges: &[Edge],
    start: usize,
    mark: Option<&[u8]>,
) -> Result<Vec<u8>, Refusal>
    ensures { IfOk result (λ drawing. (g : Graph (String Global))
        × IsGraphOf ends.now texts.now edges.now g × IsGraphDrawing (option_copied mark.entry)
        (written_look config.now) config.now.depth g start drawing.items) }
{
    let mark = mark_of(mark)?;
    let graph = graph_of(alloc, ends, texts, edges)?;
    match mark {
        Some(mark) => Ok(drawing_of_once(alloc, &graph, start, mark, config)?),
        None => Ok(drawing_of_walks(alloc, &graph, start, config)?),
    }
}

// The same as fields say.
fn drawing_by_fields(
    alloc: Global,
    ends: &[usize],
    texts: &[u8],
    edges: &[Edge],
    start: usize,
    mark: Option<&[u8]>,
    fields: &ConfigFields,
    names: &[u8],
) -> Result<Vec<u8>, Refusal>
    ensures drawn { IfOk result (λ drawing. (g : Graph (String Global))
        × IsGraphOf ends.now texts.now edges.now g × IsGraphDrawing (option_copied mark.entry)
        (look_of names.now fields.now) (depth_of names.now fields.now) g start drawing.items) }
    ensures styled { 2 < fields.now.styled → IsErrOf result Refusal.Styled }
{
    let config = config_of_fields(alloc, names, fields)?;
    let drawing = drawing_given(alloc, &config, ends, texts, edges, start, mark);
    drop(config);
    drawing
}

/// Draws all walks of a graph from the node at `start` into `out`, as much as there is room for, as
/// the fields of a configuration say, whose texts are parts of `names`. `ends` says where each
/// node's text ends. In a graph with a cycle only the depth ends the drawing. `found` gets the
/// length of the whole drawing.
#[unsafe(no_mangle)]
pub extern "C" fn ptree_draw_walks(
    alloc: Global,
    ends: &[usize],
    texts: &[u8],
    edges: &[Edge],
    start: usize,
    config: &ConfigFields,
    names: &[u8],
    out: &mut [u8],
    found: &mut Found,
) -> u32
    ensures drawn { result ≡ 0 → HasPutGraph (λ g. IsGraphDrawing None
        (look_of names.now config.now) (depth_of names.now config.now) g start)
        ends.now texts.now edges.now out.old out.new found.new }
    ensures kept { 0 < result → out.new ≡ out.old }
    ensures refused { 0 < result → (e : Refusal) × IsRefused result found.new e }
    ensures styled { 2 < config.now.styled → result ≡ 17 }
{
    match drawing_by_fields(alloc, ends, texts, edges, start, None, config, names) {
        Ok(drawing) => put_bytes(&drawing, 0, out, found),
        Err(refusal) => refuse(refusal, found),
    }
}

/// Draws a graph from the node at `start` into `out`, with each node expanded at its first place
/// only, and `mark` after its label at the later ones. Otherwise it is as [`ptree_draw_walks`].
#[unsafe(no_mangle)]
pub extern "C" fn ptree_draw_once(
    alloc: Global,
    ends: &[usize],
    texts: &[u8],
    edges: &[Edge],
    start: usize,
    mark: &[u8],
    config: &ConfigFields,
    names: &[u8],
    out: &mut [u8],
    found: &mut Found,
) -> u32
    ensures drawn { result ≡ 0 → HasPutGraph (λ g. IsGraphDrawing (Some mark.now)
        (look_of names.now config.now) (depth_of names.now config.now) g start)
        ends.now texts.now edges.now out.old out.new found.new }
    ensures kept { 0 < result → out.new ≡ out.old }
    ensures refused { 0 < result → (e : Refusal) × IsRefused result found.new e }
    ensures styled { 2 < config.now.styled → result ≡ 17 }
{
    match drawing_by_fields(alloc, ends, texts, edges, start, Some(mark), config, names) {
        Ok(drawing) => put_bytes(&drawing, 0, out, found),
        Err(refusal) => refuse(refusal, found),
    }
}
