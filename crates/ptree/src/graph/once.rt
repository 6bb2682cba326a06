//! Graphs drawn with each node expanded once.
ghost use Rattle.std.specs.Prelude.{◌≡◌, ◌↔◌, ◌++◌, [], ◌<◌, ℕ, List, drop, IfSome, IfNone, OnOk, option_copied};
ghost use Rattle.ptree.specs.Drawing.{look_by, config_look, written_look, IsDrawing};
ghost use Rattle.ptree.specs.Graph.{edges_of, neighbors_of, node_shape};
ghost use Rattle.ptree.specs.Growing.{place_at, IsNextPlace};
ghost use Rattle.ptree.specs.Loading.{effective_config};
ghost use Rattle.ptree.specs.Occurrence.{OccurrenceTree, IsExpandedOnce, NoneRepeated, HasOneTree, trees_in, mark_text, weight_own, occurrence_shape};
ghost use Rattle.ptree.specs.Style.{style_of, plain_value, painted_text};
ghost use Rattle.ptree.specs.Writing.{IsWritten, HasCause, HasErrorCause, IsDrawn, LeavesWholeEntries};
ghost use Rattle.ptree.specs.declared.sink.DrawError.TheVariants.{Memory};
ghost use Rattle.ptree.specs.declared.print_config.OutputKind.{OutputKind};

use super::places::{Occurrences, Place};
use super::row::{Marked, Start};
use super::{Graph, Label, NodeIndex};
use crate::item::{Children, Shaped, TreeItem};
use crate::output::draw_for;
use crate::print_config::{OutputKind, PrintConfig, Sources};
use crate::sink::{DrawError, Sink, Stop, put_all, put_or_stop};
use crate::style::Style;
use crate::style::codes::Codes;
use std::alloc::{AllocError, Global};

/// The mark that `cargo tree` puts after the label of a repeated package.
pub const REPEATED_MARK: &str = " (*)";

/// A graph that is expanded once, and the text that marks what is repeated: what its items have in
/// common.
pub struct Expanded<'a, N> {
    /// The graph.
    pub graph: &'a Graph<N>,

    /// The text after the label of a repeated occurrence.
    pub mark: &'a str,

    /// The occurrences.
    pub occurrence: &'a Occurrences,
}

impl<N> Clone for Expanded<'_, N> {
    ghost use Rattle.std.specs.Prelude.{⊤};

    ghost is_clone = { λ x y. y ≡ x };

    ghost is_infallible = { λ _. ⊤ };

    fn clone(&self) -> Result<Self, AllocError> {
        Ok(*self)
    }
}

impl<N> Copy for Expanded<'_, N> {}

/// An occurrence as an item: its node's weight, and the mark after it where it is repeated.
pub struct OccurrenceItem<'a, N> {
    /// The graph that is expanded.
    pub expanded: &'a Expanded<'a, N>,

    /// The number of the occurrence. One that no occurrence has means an item that writes nothing
    /// and has no children.
    pub index: usize,
}

impl<N> Clone for OccurrenceItem<'_, N> {
    ghost use Rattle.std.specs.Prelude.{⊤};

    ghost is_clone = { λ x y. y ≡ x };

    ghost is_infallible = { λ _. ⊤ };

    fn clone(&self) -> Result<Self, AllocError> {
        Ok(*self)
    }
}

impl<N> Copy for OccurrenceItem<'_, N> {}

impl<N> OccurrenceItem<'_, N> {
    // How much room the items below need. It says what room to make, and nothing else.
    #[inline(always)]
    fn room(&self, left: usize) -> usize {
        if left == 0 {
            return 0;
        }
        self.expanded.graph.degree(self.place().node)
    }

    // The occurrence, or one of a number that no node has.
    #[inline(always)]
    fn place(&self) -> Place
        ensures { result
            ≡ place_at self.now.expanded.now.occurrence.now.places.items self.now.index }
    {
        match self.expanded.occurrence.places.get(self.index) {
            Some(place) => *place,
            None => Place::leaf(NodeIndex(usize::MAX), false),
        }
    }
}

impl<N: Label> Shaped for OccurrenceItem<'_, N> {
    ghost use Rattle.ptree.specs.Occurrence.{occurrence_shape, occurrence_at};

    ghost shape = { λ i. occurrence_shape N.text i.expanded.now.graph.now i.expanded.now.mark.now
        (occurrence_at i.expanded.now.occurrence.now i.index) };
}

impl<'a, N: Label> TreeItem for OccurrenceItem<'a, N> {
    type Child = OccurrenceItem<'a, N>;

    /// Writes the weight's text, and the mark of a repeated occurrence, painted as one; nothing at
    /// all where there is no such node.
    #[inline(always)]
    fn write_self<W: Sink>(
        &self,
        alloc: Global,
        f: &mut W,
        style: &Style,
    ) -> Result<(), DrawError> {
        let expanded = self.expanded;
        let place = self.place();
        let weight = expanded.graph.node_weight(place.node);
        write_weight(alloc, f, style, weight, expanded.mark, place.is_repeated())
    }

    /// Makes an item of each occurrence below it.
    #[inline(always)]
    fn children(&self, alloc: Global) -> Result<Children<'_, OccurrenceItem<'a, N>>, AllocError> {
        let expanded = self.expanded;
        let places = expanded.occurrence.places.as_slice();
        let mut left = self.place().below();
        let mut index = self.index.saturating_add(1);
        let mut items = Vec::with_capacity(alloc, self.room(left))?;
        while let Some(below) = next_below(places, index, left) {
            items.push(OccurrenceItem { expanded, index })?;
            left = (left - 1).saturating_sub(below);
            index = index.saturating_add(1).saturating_add(below);
        }
        Ok(Children::Made(items))
    }
}

// How many occurrences are below the one at an index, if it is one of those that are left.
#[inline(always)]
fn next_below(places: &[Place], index: usize, left: usize) -> Option<usize>
    ensures some { IfSome result (λ below. IsNextPlace places.now index left below) }
    ensures none { IfNone result (trees_in left (drop index places.now) ≡ []) }
{
    if left == 0 {
        return None;
    }
    Some(places.get(index)?.below())
}

// Writes the text of a weight, and the mark after it where it is repeated, painted as one; nothing
// where there is none.
#[inline(always)]
pub(super) fn write_weight<N: Label, W: Sink>(
    alloc: Global,
    f: &mut W,
    style: &Style,
    weight: Option<&N>,
    mark: &str,
    repeated: bool,
) -> Result<(), DrawError>
    ensures bytes { IsWritten (W.contents f.old) (W.contents f.new) result
        (weight_own N.text mark.now repeated (option_copied weight.entry) (style_of style.now)) }
    ensures cause { HasCause (W.faults f.old) (W.faults f.new) result }
{
    match weight {
        Some(weight) => write_marked(alloc, f, style, weight, mark, repeated),
        None => Ok(()),
    }
}

// Writes a weight's text, and a mark after it where it is repeated, painted as one. It holds one
// copy of what writes a label: what would be very large is not inlined, whatever it is marked.
#[inline(always)]
fn write_marked<N: Label, W: Sink>(
    alloc: Global,
    f: &mut W,
    style: &Style,
    weight: &N,
    mark: &str,
    repeated: bool,
) -> Result<(), DrawError>
    ensures bytes { IsWritten (W.contents f.old) (W.contents f.new) result
        (painted_text (style_of style.now) (N.text weight.now ++ mark_text mark.now repeated)) }
    ensures cause { HasCause (W.faults f.old) (W.faults f.new) result }
{
    if style.is_plain() {
        // A `?` would hold the error twice in the stack of each level.
        return match weight.write_label(alloc, f, style) {
            Ok(()) => put_mark(f, mark.as_bytes(), repeated),
            Err(e) => Err(e),
        };
    }
    write_styled(alloc, f, style, weight, mark_after(mark, repeated))
}

// Writes a weight's text and a mark after it, painted as one, in any style. It does so by a call
// with a small result, since the room for a big one would be cleared at each place.
#[inline(always)]
fn write_styled<N: Label, W: Sink>(
    alloc: Global,
    f: &mut W,
    style: &Style,
    weight: &N,
    mark: &str,
) -> Result<(), DrawError>
    ensures bytes { IsWritten (W.contents f.old) (W.contents f.new) result
        (painted_text (style_of style.now) (N.text weight.now ++ mark.now)) }
    ensures cause { HasCause (W.faults f.old) (W.faults f.new) result }
{
    let mut error = DrawError::Memory;
    match write_or_stop(alloc, f, style, weight, mark, &mut error) {
        Ok(()) => Ok(()),
        Err(_) => Err(error),
    }
}

// Does what `write_with_codes` does, and stores a failure in `error`. It is a function of its own,
// since each call pays for the buffer of the codes.
#[inline(never)]
fn write_or_stop<N: Label, W: Sink>(
    alloc: Global,
    f: &mut W,
    style: &Style,
    weight: &N,
    mark: &str,
    error: &mut DrawError,
) -> Result<(), Stop>
    requires { error.old ≡ Memory }
    ensures bytes { IsWritten (W.contents f.old) (W.contents f.new) result
        (painted_text (style_of style.now) (N.text weight.now ++ mark.now)) }
    ensures cause { HasErrorCause (W.faults f.old) (W.faults f.new) error.new }
    ensures error { OnOk result (error.new ≡ Memory) }
{
    match write_with_codes(alloc, f, style, weight, mark) {
        Ok(()) => Ok(()),
        Err(e) => {
            *error = e;
            Err(Stop)
        }
    }
}

// Returns what is after a label: the mark where it is repeated, and else nothing.
fn mark_after(mark: &str, repeated: bool) -> &str
    ensures { result.now ≡ mark_text mark.now repeated }
{
    if repeated { mark } else { "" }
}

// Writes a weight's text as it is.
fn write_plain<N: Label, W: Sink>(alloc: Global, f: &mut W, weight: &N) -> Result<(), DrawError>
    ensures bytes { IsWritten (W.contents f.old) (W.contents f.new) result
        (painted_text plain_value (N.text weight.now)) }
    ensures cause { HasCause (W.faults f.old) (W.faults f.new) result }
{
    let plain = Style::default();
    let written = weight.write_label(alloc, f, &plain);
    drop(plain);
    written
}

// Writes a mark where it is repeated. One of four bytes, as [`REPEATED_MARK`] is, is copied at
// once, because their number is known.
#[inline(always)]
fn put_mark<W: Sink>(f: &mut W, mark: &[u8], repeated: bool) -> Result<(), DrawError>
    ensures bytes { IsWritten (W.contents f.old) (W.contents f.new) result
        (mark_text mark.now repeated) }
    ensures cause { HasCause (W.faults f.old) (W.faults f.new) result }
{
    if !repeated {
        return Ok(());
    }
    match mark {
        [a, b, c, d] => put_all(f, &[*a, *b, *c, *d]),
        _ => put_any_mark(f, mark),
    }
}

// Writes a mark of any length, by a call with a small result, as `write_styled` does.
#[inline(always)]
fn put_any_mark<W: Sink>(f: &mut W, mark: &[u8]) -> Result<(), DrawError>
    ensures bytes { IsWritten (W.contents f.old) (W.contents f.new) result mark.now }
    ensures cause { HasCause (W.faults f.old) (W.faults f.new) result }
{
    let mut error = DrawError::Memory;
    match put_or_stop_called(f, mark, &mut error) {
        Ok(()) => Ok(()),
        Err(_) => Err(error),
    }
}

// Does what `put_or_stop` does. It is a function of its own, since it is seldom called.
#[cold]
#[inline(never)]
fn put_or_stop_called<W: Sink>(f: &mut W, bytes: &[u8], error: &mut DrawError) -> Result<(), Stop>
    requires { error.old ≡ Memory }
    ensures bytes { IsWritten (W.contents f.old) (W.contents f.new) result bytes.now }
    ensures cause { HasErrorCause (W.faults f.old) (W.faults f.new) error.new }
    ensures error { OnOk result (error.new ≡ Memory) }
{
    put_or_stop(f, bytes, error)
}

// Writes a weight's text and a mark after it, painted as one, in any style.
fn write_with_codes<N: Label, W: Sink>(
    alloc: Global,
    f: &mut W,
    style: &Style,
    weight: &N,
    mark: &str,
) -> Result<(), DrawError>
    ensures bytes { IsWritten (W.contents f.old) (W.contents f.new) result
        (painted_text (style_of style.now) (N.text weight.now ++ mark.now)) }
    ensures cause { HasCause (W.faults f.old) (W.faults f.new) result }
{
    if mark.is_empty() {
        return weight.write_label(alloc, f, style);
    }
    let codes = Codes::of(style);
    put_all(f, codes.as_bytes())?;
    write_plain(alloc, f, weight)?;
    put_all(f, mark.as_bytes())?;
    put_all(f, codes.reset().as_bytes())
}

/// Draws a graph from a start node, to a sink that is not standard output, with each node expanded
/// once ([`Graph::expanded_once`]). The drawing ends at the configured depth.
///
/// A repeated occurrence has the mark after its label. `cargo tree` has [`REPEATED_MARK`]; an empty
/// mark writes nothing.
///
/// Time grows with what is drawn. Memory holds one entry and a flag for each node up to the last
/// one that is expanded, and the stack grows with the levels of the drawing.
///
/// # Errors
///
/// `Write` or `Zero` if `f` failed, and `Memory`. A prefix of the drawing was written; if memory
/// ran out, whole entries.
pub fn write_graph_once_with<N: Label, W: Sink>(
    alloc: Global,
    graph: &Graph<N>,
    start: NodeIndex,
    mark: &str,
    f: &mut W,
    config: &PrintConfig,
) -> Result<(), DrawError>
    // The drawing is that of the one tree that is the graph expanded once.
    ensures bytes { (t : OccurrenceTree)
        → IsExpandedOnce (neighbors_of (edges_of graph.now)) start.0 config.now.depth t
        → IsDrawn (written_look config.now) (occurrence_shape N.text graph.now mark.now t)
        config.now.depth (W.contents f.old) (W.contents f.new) result }
    ensures whole { (t : OccurrenceTree)
        → IsExpandedOnce (neighbors_of (edges_of graph.now)) start.0 config.now.depth t
        → LeavesWholeEntries (written_look config.now)
        (occurrence_shape N.text graph.now mark.now t) config.now.depth (W.contents f.old)
        (W.contents f.new) result }
    ensures cause { HasCause (W.faults f.old) (W.faults f.new) result }
    ensures one_tree { HasOneTree (neighbors_of (edges_of graph.now)) start.0 config.now.depth }
    // Where none is repeated, the drawings are those of the walks.
    ensures walks { (t : OccurrenceTree)
        → IsExpandedOnce (neighbors_of (edges_of graph.now)) start.0 config.now.depth t
        → NoneRepeated t → (text : List ℕ) → IsDrawing (written_look config.now)
        (occurrence_shape N.text graph.now mark.now t) config.now.depth text
        ↔ IsDrawing (written_look config.now) (node_shape N.text graph.now start.0)
        config.now.depth text }
{
    draw_once(
        alloc,
        graph,
        start,
        mark,
        f,
        OutputKind::Unknown,
        false,
        config,
    )
}

/// Draws as [`write_graph_once_with`], but to standard output, and under the configuration that
/// sources denote ([`PrintConfig::from_env`]). `terminal` says whether standard output is a
/// terminal.
///
/// # Errors
///
/// Those of [`write_graph_once_with`].
pub fn print_graph_once<N: Label, W: Sink>(
    alloc: Global,
    graph: &Graph<N>,
    start: NodeIndex,
    mark: &str,
    out: &mut W,
    terminal: bool,
    sources: &Sources,
) -> Result<(), DrawError>
    // The drawing is that of the one tree that is the graph expanded once.
    ensures bytes { let effective = effective_config sources.now in (t : OccurrenceTree)
        → IsExpandedOnce (neighbors_of (edges_of graph.now)) start.0 effective.depth t
        → IsDrawn (look_by effective OutputKind.Stdout terminal)
        (occurrence_shape N.text graph.now mark.now t) effective.depth (W.contents out.old)
        (W.contents out.new) result }
    ensures whole { let effective = effective_config sources.now in (t : OccurrenceTree)
        → IsExpandedOnce (neighbors_of (edges_of graph.now)) start.0 effective.depth t
        → LeavesWholeEntries (look_by effective OutputKind.Stdout terminal)
        (occurrence_shape N.text graph.now mark.now t) effective.depth (W.contents out.old)
        (W.contents out.new) result }
    ensures cause { HasCause (W.faults out.old) (W.faults out.new) result }
    ensures one_tree { HasOneTree (neighbors_of (edges_of graph.now)) start.0
        (effective_config sources.now).depth }
    // Where none is repeated, the drawings are those of the walks.
    ensures walks { let effective = effective_config sources.now in
        let look = look_by effective OutputKind.Stdout terminal in (t : OccurrenceTree)
        → IsExpandedOnce (neighbors_of (edges_of graph.now)) start.0 effective.depth t
        → NoneRepeated t → (text : List ℕ)
        → IsDrawing look (occurrence_shape N.text graph.now mark.now t) effective.depth text
        ↔ IsDrawing look (node_shape N.text graph.now start.0) effective.depth text }
{
    let config = PrintConfig::from_env(alloc, sources)?;
    let drawn = draw_once(
        alloc,
        graph,
        start,
        mark,
        out,
        OutputKind::Stdout,
        terminal,
        &config,
    );
    drop(config);
    drawn
}

// Draws for output of a kind, `terminal` saying whether standard output is a terminal.
fn draw_once<N: Label, W: Sink>(
    alloc: Global,
    graph: &Graph<N>,
    start: NodeIndex,
    mark: &str,
    f: &mut W,
    output_kind: OutputKind,
    terminal: bool,
    config: &PrintConfig,
) -> Result<(), DrawError>
    ensures bytes { (t : OccurrenceTree)
        → IsExpandedOnce (neighbors_of (edges_of graph.now)) start.0 config.now.depth t
        → IsDrawn (config_look config.now output_kind terminal)
        (occurrence_shape N.text graph.now mark.now t) config.now.depth (W.contents f.old)
        (W.contents f.new) result }
    ensures whole { (t : OccurrenceTree)
        → IsExpandedOnce (neighbors_of (edges_of graph.now)) start.0 config.now.depth t
        → LeavesWholeEntries (config_look config.now output_kind terminal)
        (occurrence_shape N.text graph.now mark.now t) config.now.depth (W.contents f.old)
        (W.contents f.new) result }
    ensures cause { HasCause (W.faults f.old) (W.faults f.new) result }
{
    let root = Start {
        marked: Marked { graph, mark },
        node: start,
    };
    draw_for(alloc, &root, f, output_kind, terminal, config)
}
