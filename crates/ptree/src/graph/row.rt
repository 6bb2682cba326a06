//! Draws a graph with each node expanded once, along its edges, as the engine draws items. Nothing
//! is made for an occurrence.
ghost use Rattle.std.specs.Prelude.{◌≡◌, ℕ, true, false, Some, None, slice_get, length, take, map, ◌≤◌, ◌<◌, ◌≢◌, ◌++◌, [], OnOk, OnErr, Err, List, eqb};
ghost use Rattle.std.specs.List.{concat};
ghost use Rattle.ptree.specs.Entries.{item_entries, kid_entries, entries_below, drawn_entries};
ghost use Rattle.ptree.specs.Graph.{weights_of, edges_of, neighbors_of};
ghost use Rattle.ptree.specs.GraphLinks.{newest_from};
ghost use Rattle.ptree.specs.Growing.{flags_of, leaf_shape, grow, kids_grown, kids_seen};
ghost use Rattle.ptree.specs.Looks.{look_of, own_entry};
ghost use Rattle.ptree.specs.Occurrence.{occurrence_shape};
ghost use Rattle.ptree.specs.Pen.{brush_look, buffer_of, HoldsPassing, HoldsOwnText};
ghost use Rattle.ptree.specs.Pieces.{passing_piece};
ghost use Rattle.ptree.specs.Style.{start_codes};
ghost use Rattle.ptree.specs.Writing.{AppendsFirst, IsWritten, AreWritten, HasCause, HasErrorCause};
ghost use Rattle.ptree.specs.declared.sink.DrawError.TheVariants.{Memory};

use super::once::write_weight;
use super::places::{is_flagged, set_flag};
use super::{Edge, Graph, Label, NodeIndex};
use crate::item::{Children, Shaped, TreeItem};
use crate::output::brush::Brush;
use crate::output::engine::{Drawn, draw_entry};
use crate::output::pen::Pen;
use crate::sink::{DrawError, Sink, Stop};
use crate::style::Style;
use std::alloc::{AllocError, Global};

// A graph that is drawn, and the text that marks what is repeated.
#[derive(Drop)]
pub(super) struct Marked<'a, N> {
    pub(super) graph: &'a Graph<N>,
    pub(super) mark: &'a str,
}

// What is drawn of an occurrence, without what is below it. Whether it is the start is a part of
// the type, so that what draws one has one caller, the loop over a row, and is inlined there.
#[derive(Drop)]
struct Leaf<'a, N, const IS_START: bool> {
    weight: Option<&'a N>,
    mark: &'a str,
    repeated: bool,
}

impl<N: Label, const IS_START: bool> Shaped for Leaf<'_, N, IS_START> {
    ghost use Rattle.std.specs.Prelude.{option_copied};
    ghost use Rattle.ptree.specs.Growing.{leaf_shape};

    ghost shape = { λ l. leaf_shape N.text (option_copied l.weight) l.mark.now l.repeated };
}

impl<'a, N: Label, const IS_START: bool> TreeItem for Leaf<'a, N, IS_START> {
    type Child = Leaf<'a, N, IS_START>;

    #[inline(always)]
    fn write_self<W: Sink>(
        &self,
        alloc: Global,
        f: &mut W,
        style: &Style,
    ) -> Result<(), DrawError> {
        write_weight(alloc, f, style, self.weight, self.mark, self.repeated)
    }

    fn children(&self, _alloc: Global) -> Result<Children<'_, Leaf<'a, N, IS_START>>, AllocError> {
        Ok(Children::Lent(&[]))
    }
}

// Whether no older edge is from the same node.
#[inline(always)]
fn is_oldest(edge: &Edge) -> bool
    ensures { result ≡ eqb edge.now.next 0 }
{
    edge.next == 0
}

// Draws an occurrence of a node and what is below it, where the nodes that are seen are expanded
// already. It takes and leaves the buffer as the engine does with an item.
#[cycle(draw_row)]
#[inline(always)]
fn draw_node<N: Label, W: Sink>(
    marked: &Marked<'_, N>,
    node: NodeIndex,
    seen: &mut Vec<bool>,
    f: &mut W,
    pen: &mut Pen,
    brush: &Brush<'_>,
    width: usize,
    is_last: bool,
    levels_left: u32,
) -> Result<(), Stop>
    requires error { pen.old.error ≡ Memory }
    requires width { width ≤ length (buffer_of pen.old) }
    requires turned { HoldsOwnText brush.now pen.old width (Some is_last) }
    requires length { length seen.old.items ≤ length (weights_of marked.now.graph.now) }
    requires node { node.0 < length (weights_of marked.now.graph.now) }
    ensures bytes { (outer : List ℕ)
        → HoldsPassing brush.now pen.old width outer
        → AreWritten (W.contents f.old) (W.contents f.new) result pen.new.error
        (item_entries (brush_look brush.now) levels_left outer is_last
        (occurrence_shape N.text marked.now.graph.now marked.now.mark.now
        (grow (neighbors_of (edges_of marked.now.graph.now)) levels_left
        (flags_of marked.now.graph.now seen.old.items) node.0).occurrence)) }
    ensures seen { OnOk result (flags_of marked.now.graph.now seen.new.items
        ≡ (grow (neighbors_of (edges_of marked.now.graph.now)) levels_left
        (flags_of marked.now.graph.now seen.old.items) node.0).seen) }
    ensures length { OnOk result
        (length seen.new.items ≤ length (weights_of marked.now.graph.now)) }
    ensures cause { HasErrorCause (W.faults f.old) (W.faults f.new) pen.new.error }
    ensures error { OnOk result (pen.new.error ≡ Memory) }
    ensures kept { OnOk result
        (take width (buffer_of pen.new) ≡ take width (buffer_of pen.old)) }
    ensures turned { OnOk result
        (pen.new.turned ≡ true → buffer_of pen.new ≡ buffer_of pen.old) }
{
    let record = &marked.graph.nodes[node.0];
    let repeated = is_flagged(seen, node.0);
    let leaf = Leaf::<N, false> {
        weight: Some(&record.weight),
        mark: marked.mark,
        repeated,
    };
    draw_entry(&leaf, f, pen, brush, width, Some(is_last))?;
    if repeated || levels_left == 0 {
        return Ok(());
    }
    let newest = record.newest;
    if newest == 0 {
        return Ok(());
    }
    pen.pass(width, brush, is_last)?;
    draw_row(marked, node, newest, seen, f, pen, brush, levels_left - 1)
}

// Draws a node's neighbours, side by side, and what is below them. The node is seen from now on,
// and the newest edge from it is given. The buffer holds the branch's start codes and the passing
// text of the node.
#[cycle(draw_row)]
fn draw_row<N: Label, W: Sink>(
    marked: &Marked<'_, N>,
    node: NodeIndex,
    newest: usize,
    seen: &mut Vec<bool>,
    f: &mut W,
    pen: &mut Pen,
    brush: &Brush<'_>,
    levels_left: u32,
) -> Result<(), Stop>
    requires error { pen.old.error ≡ Memory }
    requires turned { pen.old.turned ≡ false }
    requires length { length seen.old.items ≤ length (weights_of marked.now.graph.now) }
    requires node { node.0 < length (weights_of marked.now.graph.now) }
    requires newest { newest ≡ newest_from (edges_of marked.now.graph.now) node.0 }
    requires some { newest ≢ 0 }
    ensures bytes { (outer : List ℕ)
        → buffer_of pen.old ≡ start_codes (brush_look brush.now).branch ++ outer
        → AreWritten (W.contents f.old) (W.contents f.new) result pen.new.error
        (let look = brush_look brush.now in kid_entries look
        (entries_below look levels_left) outer
        (map (occurrence_shape N.text marked.now.graph.now marked.now.mark.now)
        (kids_grown (neighbors_of (edges_of marked.now.graph.now)) levels_left
        (flags_of marked.now.graph.now seen.old.items) node.0))) }
    ensures seen { OnOk result (flags_of marked.now.graph.now seen.new.items
        ≡ kids_seen (neighbors_of (edges_of marked.now.graph.now)) levels_left
        (flags_of marked.now.graph.now seen.old.items) node.0) }
    ensures length { OnOk result
        (length seen.new.items ≤ length (weights_of marked.now.graph.now)) }
    ensures cause { HasErrorCause (W.faults f.old) (W.faults f.new) pen.new.error }
    ensures error { OnOk result (pen.new.error ≡ Memory) }
    ensures kept { OnOk result (buffer_of pen.new ≡ buffer_of pen.old) }
    ensures turned { OnOk result (pen.new.turned ≡ false) }
{
    set_flag(seen, node.0)?;
    let width = pen.line.len();
    let mut number = newest;
    while number > 0 {
        let edge = &marked.graph.edges[number - 1];
        let is_last = is_oldest(edge);
        pen.turn(width, brush, is_last)?;
        draw_node(
            marked,
            NodeIndex(edge.target),
            seen,
            f,
            pen,
            brush,
            width,
            is_last,
            levels_left,
        )?;
        number = edge.next;
    }
    pen.cut(width);
    Ok(())
}

// The node that a drawing starts from.
#[derive(Drop)]
pub(super) struct Start<'a, N> {
    pub(super) marked: Marked<'a, N>,
    pub(super) node: NodeIndex,
}

impl<N: Label> Drawn for Start<'_, N> {
    ghost use Rattle.ptree.specs.Growing.{grown_from};
    ghost use Rattle.ptree.specs.Occurrence.{occurrence_shape};

    ghost shape_to = { λ s depth. let graph = s.marked.graph.now in
        occurrence_shape N.text graph s.marked.mark.now
        (grown_from graph depth [] s.node.0).occurrence };

    fn draw_own<W: Sink>(
        &self,
        f: &mut W,
        pen: &mut Pen,
        brush: &Brush<'_>,
        width: usize,
    ) -> Result<(), Stop> {
        let leaf = Leaf::<N, true> {
            weight: self.marked.graph.node_weight(self.node),
            mark: self.marked.mark,
            repeated: false,
        };
        draw_entry(&leaf, f, pen, brush, width, None)
    }

    fn draw_below<W: Sink>(
        &self,
        f: &mut W,
        pen: &mut Pen,
        brush: &Brush<'_>,
        depth: u32,
    ) -> Result<(), Stop> {
        let newest = self.marked.graph.newest(self.node);
        if newest == 0 {
            return Ok(());
        }
        let mut seen = Vec::new(brush.alloc);
        draw_row(
            &self.marked,
            self.node,
            newest,
            &mut seen,
            f,
            pen,
            brush,
            depth - 1,
        )
    }
}
