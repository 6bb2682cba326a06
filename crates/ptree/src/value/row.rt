//! Draws the values of a document where its parser put them, as the engine draws items. Nothing is
//! made for a value.
ghost use Rattle.std.specs.Prelude.{◌≡◌, ℕ, false, true, Some, List, ◌≤◌, ◌++◌, [], ◌∷◌, eqb, length, map, take, OnOk, OnErr, MatchOption};
ghost use Rattle.ptree.specs.Data.{value_pairs, pair_shape};
ghost use Rattle.ptree.specs.Entries.{item_entries, kid_entries, entries_below};
ghost use Rattle.ptree.specs.Looks.{own_entry};
ghost use Rattle.ptree.specs.Parts.{part_of, node_pair_of, row_pairs};
ghost use Rattle.ptree.specs.Pen.{brush_look, buffer_of, HoldsPassing, HoldsOwnText};
ghost use Rattle.ptree.specs.Shape.{kids};
ghost use Rattle.ptree.specs.Style.{start_codes};
ghost use Rattle.ptree.specs.Writing.{IsWritten, AreWritten, HasErrorCause};
ghost use Rattle.ptree.specs.declared.sink.DrawError.TheVariants.{Memory};

use super::node::DocumentNode;
use crate::output::brush::Brush;
use crate::output::engine::{Drawn, draw_entry};
use crate::output::pen::Pen;
use crate::parsed::ParsedPart;
use crate::sink::{Sink, Stop};
use std::collections::btree_map::Iter;

// The children of a value that are left.
#[derive(Drop)]
enum Row<'a> {
    // Elements of an array of JSON.
    JsonItems(&'a [serde_json::Value]),

    // Members of an object of JSON.
    JsonMembers(Iter<'a, String, serde_json::Value>),

    // Elements of an array of TOML.
    TomlItems(&'a [toml::Value]),

    // Entries of a table of TOML.
    TomlMembers(Iter<'a, String, toml::Value>),
}

impl<'a> Row<'a> {
    // Returns the children of a value. Only a list or a table has any.
    #[inline(always)]
    fn of(part: &ParsedPart<'a>) -> Row<'a>
        ensures { row_pairs result ≡ value_pairs (part_of part.now) }
    {
        match part {
            ParsedPart::Json(serde_json::Value::Array(items)) => Row::JsonItems(items.as_slice()),
            ParsedPart::Json(serde_json::Value::Object(members)) => {
                Row::JsonMembers(members.iter())
            }
            ParsedPart::Toml(toml::Value::Array(items)) => Row::TomlItems(items.as_slice()),
            ParsedPart::Toml(toml::Value::Table(members)) => Row::TomlMembers(members.iter()),
            _ => Row::JsonItems(&[]),
        }
    }

    // Whether none is left.
    #[inline(always)]
    fn is_empty(&self) -> bool
        ensures { result ≡ eqb (length (row_pairs self.now)) 0 }
    {
        match self {
            Row::JsonItems(items) => items.is_empty(),
            Row::JsonMembers(members) => members.len() == 0,
            Row::TomlItems(items) => items.is_empty(),
            Row::TomlMembers(members) => members.len() == 0,
        }
    }

    // Takes the next child.
    #[inline(always)]
    fn next(&mut self) -> Option<DocumentNode<'a>>
        ensures { MatchOption result (row_pairs self.old ≡ [])
            (λ node. row_pairs self.old ≡ node_pair_of node ∷ row_pairs self.new) }
    {
        match self {
            Row::JsonItems(items) => {
                let (item, others) = items.split_first()?;
                *items = others;
                Some(DocumentNode::Labelled("", ParsedPart::Json(item)))
            }
            Row::JsonMembers(members) => {
                let (key, member) = members.next()?;
                Some(DocumentNode::Entry(key.as_str(), ParsedPart::Json(member)))
            }
            Row::TomlItems(items) => {
                let (item, others) = items.split_first()?;
                *items = others;
                Some(DocumentNode::Labelled("", ParsedPart::Toml(item)))
            }
            Row::TomlMembers(members) => {
                let (key, member) = members.next()?;
                Some(DocumentNode::Entry(key.as_str(), ParsedPart::Toml(member)))
            }
        }
    }
}

// Draws a value and what is below it. It takes and leaves the buffer as the engine does with an
// item.
#[cycle(draw_row)]
#[inline(always)]
fn draw_node<W: Sink>(
    node: &DocumentNode<'_>,
    f: &mut W,
    pen: &mut Pen,
    brush: &Brush<'_>,
    width: usize,
    is_last: bool,
    levels_left: u32,
) -> Result<(), Stop>
    requires error { pen.old.error ≡ Memory }
    requires width { width ≤ length (buffer_of pen.old) }
    requires turned { HoldsOwnText brush.now pen.old width (Some is_last) }
    ensures bytes { (outer : List ℕ)
        → HoldsPassing brush.now pen.old width outer
        → AreWritten (W.contents f.old) (W.contents f.new) result pen.new.error
        (item_entries (brush_look brush.now) levels_left outer is_last
        (pair_shape (node_pair_of node.now))) }
    ensures cause { HasErrorCause (W.faults f.old) (W.faults f.new) pen.new.error }
    ensures error { OnOk result (pen.new.error ≡ Memory) }
    ensures kept { OnOk result
        (take width (buffer_of pen.new) ≡ take width (buffer_of pen.old)) }
    ensures turned { OnOk result
        (pen.new.turned ≡ true → buffer_of pen.new ≡ buffer_of pen.old) }
{
    draw_entry(node, f, pen, brush, width, Some(is_last))?;
    let part = node.part();
    if levels_left == 0 || !part.is_list() {
        return Ok(());
    }
    pen.pass(width, brush, is_last)?;
    draw_row(part, f, pen, brush, levels_left - 1)
}

// Draws the children of a value, and what is below them. The buffer holds the branch's start codes
// and that value's passing text.
#[cycle(draw_row)]
fn draw_row<W: Sink>(
    part: &ParsedPart<'_>,
    f: &mut W,
    pen: &mut Pen,
    brush: &Brush<'_>,
    levels_left: u32,
) -> Result<(), Stop>
    requires error { pen.old.error ≡ Memory }
    requires turned { pen.old.turned ≡ false }
    ensures bytes { (outer : List ℕ)
        → buffer_of pen.old ≡ start_codes (brush_look brush.now).branch ++ outer
        → AreWritten (W.contents f.old) (W.contents f.new) result pen.new.error
        (let look = brush_look brush.now in kid_entries look
        (entries_below look levels_left) outer (map pair_shape (value_pairs (part_of part.now)))) }
    ensures cause { HasErrorCause (W.faults f.old) (W.faults f.new) pen.new.error }
    ensures error { OnOk result (pen.new.error ≡ Memory) }
    ensures kept { OnOk result (buffer_of pen.new ≡ buffer_of pen.old) }
    ensures turned { OnOk result (pen.new.turned ≡ false) }
{
    let width = pen.line.len();
    let mut row = Row::of(part);
    while let Some(node) = row.next() {
        let is_last = row.is_empty();
        pen.turn(width, brush, is_last)?;
        draw_node(&node, f, pen, brush, width, is_last, levels_left)?;
    }
    pen.cut(width);
    Ok(())
}

/// A document at the top of a drawing: a label and a value.
#[derive(Drop)]
pub(super) struct DocumentTop<'a>(pub(super) DocumentNode<'a>);

impl Drawn for DocumentTop<'_> {
    ghost shape_to = { λ t depth. pair_shape (node_pair_of t.0) };

    fn draw_own<W: Sink>(
        &self,
        f: &mut W,
        pen: &mut Pen,
        brush: &Brush<'_>,
        width: usize,
    ) -> Result<(), Stop> {
        draw_entry(&self.0, f, pen, brush, width, None)
    }

    fn draw_below<W: Sink>(
        &self,
        f: &mut W,
        pen: &mut Pen,
        brush: &Brush<'_>,
        depth: u32,
    ) -> Result<(), Stop> {
        draw_row(self.0.part(), f, pen, brush, depth - 1)
    }
}
