//! The drawing engine.
ghost use Rattle.std.specs.Prelude.{◌≡◌, ℕ, ◌-◌, true, false, Some, None, length, take, ◌≤◌, ◌≢◌, ◌++◌, [], OnOk, OnErr, Err, List, map};
ghost use Rattle.std.specs.List.{concat};
ghost use Rattle.ptree.specs.Pen.{brush_look, buffer_of, HoldsPassing, HoldsOwnText};
ghost use Rattle.ptree.specs.Entries.{item_entries, kid_entries, entries_below, drawn_entries};
ghost use Rattle.ptree.specs.Looks.{look_of, own_entry};
ghost use Rattle.ptree.specs.Pieces.{passing_piece};
ghost use Rattle.ptree.specs.Shape.{Shape, kids};
ghost use Rattle.ptree.specs.Style.{start_codes};
ghost use Rattle.ptree.specs.Writing.{AppendsFirst, IsWritten, AreWritten, HasCause, HasErrorCause};
ghost use Rattle.ptree.specs.declared.sink.DrawError.TheVariants.{Memory};

use crate::item::TreeItem;
use crate::output::brush::Brush;
use crate::output::look::Look;
use crate::output::pen::Pen;
use crate::sink::{DrawError, Sink, Stop, put_or_stop};
use std::alloc::Global;

// Writes the buffer. A sink that gathers bytes mostly has room for it, and takes it without a call.
#[inline(always)]
fn put_buffer<W: Sink>(f: &mut W, bytes: &[u8], error: &mut DrawError) -> Result<(), Stop>
    requires { error.old ≡ Memory }
    ensures bytes { IsWritten (W.contents f.old) (W.contents f.new) result bytes.now }
    ensures cause { HasErrorCause (W.faults f.old) (W.faults f.new) error.new }
    ensures error { OnOk result (error.new ≡ Memory) }
    ensures memory { OnErr result (error.new ≢ Memory) }
{
    if f.put_if_room(bytes) {
        return Ok(());
    }
    put_without_room(f, bytes, error)
}

// Writes the buffer, which a sink mostly takes at once. It is a function of its own, so that what a
// sink needs while it takes an entry is no part of the stack of each level.
#[inline(never)]
fn put_without_room<W: Sink>(f: &mut W, bytes: &[u8], error: &mut DrawError) -> Result<(), Stop>
    requires { error.old ≡ Memory }
    ensures bytes { IsWritten (W.contents f.old) (W.contents f.new) result bytes.now }
    ensures cause { HasErrorCause (W.faults f.old) (W.faults f.new) error.new }
    ensures error { OnOk result (error.new ≡ Memory) }
    ensures memory { OnErr result (error.new ≢ Memory) }
{
    match f.put(bytes) {
        Ok(n) if n == bytes.len() => Ok(()),
        Ok(0) => {
            *error = DrawError::Zero;
            Err(Stop)
        }
        Ok(n) => put_rest(f, &bytes[n..], error),
        Err(e) => {
            *error = DrawError::Write(e);
            Err(Stop)
        }
    }
}

// Writes what a sink has not taken at once. It is a function of its own, since it is seldom called.
#[cold]
#[inline(never)]
fn put_rest<W: Sink>(f: &mut W, bytes: &[u8], error: &mut DrawError) -> Result<(), Stop>
    requires { error.old ≡ Memory }
    ensures bytes { IsWritten (W.contents f.old) (W.contents f.new) result bytes.now }
    ensures cause { HasErrorCause (W.faults f.old) (W.faults f.new) error.new }
    ensures error { OnOk result (error.new ≡ Memory) }
    ensures memory { OnErr result (error.new ≢ Memory) }
{
    put_or_stop(f, bytes, error)
}

// Gathers one entry, that of a root (`None`) or of a child. The first `width` bytes of the buffer are
// the branch's start codes and the passing text of its parent. Its turning piece with the end codes
// follows them. What the buffer held stays before what is gathered.
#[inline(always)]
pub(crate) fn gather_entry<C: TreeItem>(
    item: &C,
    pen: &mut Pen,
    brush: &Brush<'_>,
    width: usize,
    last: Option<bool>,
) -> Result<(), Stop>
    requires width { width ≤ length (buffer_of pen.old) }
    requires turned { HoldsOwnText brush.now pen.old width last }
    ensures entry { OnOk result ((outer : List ℕ)
        → HoldsPassing brush.now pen.old width outer
        → buffer_of pen.new
        ≡ own_entry (brush_look brush.now) outer last (C.shape item.now)) }
    ensures kept { take (length (buffer_of pen.old)) (buffer_of pen.new) ≡ buffer_of pen.old }
    ensures turned { pen.new.turned ≡ pen.old.turned }
    ensures error { pen.new.error ≡ pen.old.error }
{
    let start = pen.line.len();
    match item.write_self(brush.alloc, &mut pen.line, &brush.look.leaf) {
        Ok(()) => {}
        Err(_) => return Err(Stop),
    }
    pen.line.continue_lines(start, width, brush, last)?;
    pen.line.end_line()?;
    Ok(())
}

// Draws one entry: a root (`None`) or a child. The first `width` bytes of the buffer are the
// branch's start codes and the passing text of its parent. Its turning piece with the end codes
// follows them. The buffer holds the same afterwards.
#[inline(always)]
pub(crate) fn draw_entry<C: TreeItem, W: Sink>(
    item: &C,
    f: &mut W,
    pen: &mut Pen,
    brush: &Brush<'_>,
    width: usize,
    last: Option<bool>,
) -> Result<(), Stop>
    requires error { pen.old.error ≡ Memory }
    requires width { width ≤ length (buffer_of pen.old) }
    requires turned { HoldsOwnText brush.now pen.old width last }
    ensures bytes { (outer : List ℕ)
        → HoldsPassing brush.now pen.old width outer
        → IsWritten (W.contents f.old) (W.contents f.new) result
        (own_entry (brush_look brush.now) outer last (C.shape item.now)) }
    ensures memory { OnErr result (pen.new.error ≡ Memory → W.contents f.new ≡ W.contents f.old) }
    ensures cause { HasErrorCause (W.faults f.old) (W.faults f.new) pen.new.error }
    ensures error { OnOk result (pen.new.error ≡ Memory) }
    ensures kept { OnOk result (buffer_of pen.new ≡ buffer_of pen.old) }
    ensures turned { pen.new.turned ≡ pen.old.turned }
{
    let start = pen.line.len();
    gather_entry(item, pen, brush, width, last)?;
    put_buffer(f, pen.line.as_slice(), &mut pen.error)?;
    pen.line.truncate(start);
    Ok(())
}

// Draws an item and what is below it. The first `width` bytes of the buffer are the branch's start
// codes and the passing text of the item's parent. The item's turning piece follows them.
#[cycle(draw)]
#[inline(always)]
fn draw_item<C: TreeItem<Child = C> + Drop, W: Sink>(
    item: &C,
    f: &mut W,
    pen: &mut Pen,
    brush: &Brush<'_>,
    width: usize,
    is_last: bool,
    levels_left: u32,
) -> Result<(), Stop>
    requires error { pen.old.error ≡ Memory }
    requires width { width ≤ length (buffer_of pen.old) }
    requires turned { HoldsOwnText brush.now pen.old width (Some is_last) }
    ensures bytes { (outer : List ℕ)
        → HoldsPassing brush.now pen.old width outer
        → AreWritten (W.contents f.old) (W.contents f.new) result pen.new.error
        (item_entries (brush_look brush.now) levels_left outer is_last
        (C.shape item.now)) }
    ensures cause { HasErrorCause (W.faults f.old) (W.faults f.new) pen.new.error }
    ensures error { OnOk result (pen.new.error ≡ Memory) }
    ensures kept { OnOk result
        (take width (buffer_of pen.new) ≡ take width (buffer_of pen.old)) }
    ensures turned { OnOk result
        (pen.new.turned ≡ true → buffer_of pen.new ≡ buffer_of pen.old) }
{
    draw_entry(item, f, pen, brush, width, Some(is_last))?;
    if levels_left == 0 {
        return Ok(());
    }
    let children = item.children(brush.alloc)?;
    if children.as_slice().is_empty() {
        return Ok(());
    }
    pen.pass(width, brush, is_last)?;
    draw_children(children.as_slice(), f, pen, brush, levels_left - 1)
}

// Draws the children of one item, and what is below them. The buffer holds the branch's start codes
// and that item's passing text.
#[cycle(draw)]
fn draw_children<C: TreeItem<Child = C> + Drop, W: Sink>(
    items: &[C],
    f: &mut W,
    pen: &mut Pen,
    brush: &Brush<'_>,
    levels_left: u32,
) -> Result<(), Stop>
    requires error { pen.old.error ≡ Memory }
    requires turned { pen.old.turned ≡ false }
    ensures bytes { (outer : List ℕ)
        → buffer_of pen.old ≡ start_codes (brush_look brush.now).branch ++ outer
        → AreWritten (W.contents f.old) (W.contents f.new) result pen.new.error
        (let look = brush_look brush.now in kid_entries look
        (entries_below look levels_left) outer (map C.shape items.now)) }
    ensures cause { HasErrorCause (W.faults f.old) (W.faults f.new) pen.new.error }
    ensures error { OnOk result (pen.new.error ≡ Memory) }
    ensures kept { OnOk result (buffer_of pen.new ≡ buffer_of pen.old) }
    ensures turned { OnOk result (pen.new.turned ≡ false) }
{
    let width = pen.line.len();
    let mut rest = items;
    while let Some((item, others)) = rest.split_first() {
        let is_last = others.is_empty();
        pen.turn(width, brush, is_last)?;
        draw_item(item, f, pen, brush, width, is_last, levels_left)?;
        rest = others;
    }
    pen.cut(width);
    Ok(())
}

/// What can be drawn: a root, whose own entry and what is below it are drawn by two calls.
pub(crate) trait Drawn {
    /// The tree of a drawing to a depth. Where a graph's nodes are expanded once, it depends on that.
    ghost shape_to: { Self → ℕ → Shape };

    /// Draws the root's own entry, as [`draw_entry`] does. It is the same at each depth.
    fn draw_own<W: Sink>(
        &self,
        f: &mut W,
        pen: &mut Pen,
        brush: &Brush<'_>,
        width: usize,
    ) -> Result<(), Stop>
        requires error { pen.old.error ≡ Memory }
        requires width { width ≤ length (buffer_of pen.old) }
        requires turned { HoldsOwnText brush.now pen.old width None }
        ensures bytes { (depth : ℕ) (outer : List ℕ)
            → HoldsPassing brush.now pen.old width outer
            → IsWritten (W.contents f.old) (W.contents f.new) result
            (own_entry (brush_look brush.now) outer None (Self.shape_to self.now depth)) }
        ensures memory { OnErr result
            (pen.new.error ≡ Memory → W.contents f.new ≡ W.contents f.old) }
        ensures cause { HasErrorCause (W.faults f.old) (W.faults f.new) pen.new.error }
        ensures error { OnOk result (pen.new.error ≡ Memory) }
        ensures kept { OnOk result (buffer_of pen.new ≡ buffer_of pen.old) }
        ensures turned { pen.new.turned ≡ pen.old.turned };

    /// Draws what is below the root, to a depth above 0. The buffer holds the branch's start codes.
    fn draw_below<W: Sink>(
        &self,
        f: &mut W,
        pen: &mut Pen,
        brush: &Brush<'_>,
        depth: u32,
    ) -> Result<(), Stop>
        requires some { depth ≢ 0 }
        requires error { pen.old.error ≡ Memory }
        requires turned { pen.old.turned ≡ false }
        requires start { buffer_of pen.old ≡ start_codes (brush_look brush.now).branch }
        ensures bytes { AreWritten (W.contents f.old) (W.contents f.new) result pen.new.error
            (let look = brush_look brush.now in kid_entries look
            (entries_below look (depth - 1)) [] (kids (Self.shape_to self.now depth))) }
        ensures cause { HasErrorCause (W.faults f.old) (W.faults f.new) pen.new.error }
        ensures error { OnOk result (pen.new.error ≡ Memory) };
}

/// An item at the top of a drawing.
#[derive(Drop)]
pub(crate) struct Top<'a, T>(pub(crate) &'a T);

impl<T> Drawn for Top<'_, T>
where
    T: TreeItem,
    T::Child: TreeItem<Child = T::Child> + Drop,
{
    ghost shape_to = { λ t depth. T.shape t.0.now };

    fn draw_own<W: Sink>(
        &self,
        f: &mut W,
        pen: &mut Pen,
        brush: &Brush<'_>,
        width: usize,
    ) -> Result<(), Stop> {
        draw_entry(self.0, f, pen, brush, width, None)
    }

    fn draw_below<W: Sink>(
        &self,
        f: &mut W,
        pen: &mut Pen,
        brush: &Brush<'_>,
        depth: u32,
    ) -> Result<(), Stop> {
        let children = self.0.children(brush.alloc)?;
        draw_children(children.as_slice(), f, pen, brush, depth - 1)
    }
}

// Draws a root and what is below it. The buffer holds the branch's start codes.
fn draw_root<D: Drawn, W: Sink>(
    root: &D,
    f: &mut W,
    pen: &mut Pen,
    brush: &Brush<'_>,
    depth: u32,
) -> Result<(), Stop>
    requires error { pen.old.error ≡ Memory }
    requires turned { pen.old.turned ≡ false }
    requires start { buffer_of pen.old ≡ start_codes (brush_look brush.now).branch }
    ensures bytes { AreWritten (W.contents f.old) (W.contents f.new) result pen.new.error
        (drawn_entries (brush_look brush.now) depth (D.shape_to root.now depth)) }
    ensures error { OnOk result (pen.new.error ≡ Memory) }
    ensures cause { HasErrorCause (W.faults f.old) (W.faults f.new) pen.new.error }
{
    let width = pen.line.len();
    pen.line.append(brush.end().as_bytes())?;
    root.draw_own(f, pen, brush, width)?;
    pen.line.truncate(width);
    if depth == 0 {
        return Ok(());
    }
    root.draw_below(f, pen, brush, depth)
}

/// Draws a root and what is below it in a look. All texts around prefixes are made before the first
/// byte is written.
pub(crate) fn draw<D: Drawn, W: Sink>(
    alloc: Global,
    root: &D,
    f: &mut W,
    look: Look<'_>,
    depth: u32,
) -> Result<(), DrawError>
    ensures bytes { IsWritten (W.contents f.old) (W.contents f.new) result
        (concat (drawn_entries (look_of look.entry) depth (D.shape_to root.now depth))) }
    ensures whole { result ≡ Err Memory
        → AppendsFirst (W.contents f.old) (W.contents f.new)
        (drawn_entries (look_of look.entry) depth (D.shape_to root.now depth)) }
    ensures cause { HasCause (W.faults f.old) (W.faults f.new) result }
{
    let mut pen = Pen::new(alloc, &look.branch)?;
    let brush = Brush::new(alloc, look)?;
    let drawn = draw_root(root, f, &mut pen, &brush, depth);
    drop(brush);
    match drawn {
        Ok(()) => Ok(()),
        Err(_) => Err(pen.into_error()),
    }
}
