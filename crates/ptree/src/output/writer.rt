//! Draws items one by one.
ghost use Rattle.std.specs.Prelude.{◌≡◌, ◌<◌, ◌≤◌, ◌-◌, ◌+◌, ◌++◌, ◌∷◌, [], Some, None, true, false, length, take, IfOk, OnOk};
ghost use Rattle.ptree.specs.GivenItems.{entry_below, entry_behind, path_with};
ghost use Rattle.ptree.specs.Looks.{own_text};
ghost use Rattle.ptree.specs.Pen.{brush_look, buffer_of};
ghost use Rattle.ptree.specs.Rungs.{StandsAt, flags_of, above, front_below, Begins};

use crate::builder::AddError;
use crate::item::{Root, StringItem, TreeItem};
use crate::output::brush::Brush;
use crate::output::engine::gather_entry;
use crate::output::look::Look;
use crate::output::pen::Pen;
use crate::print_config::{OutputKind, PrintConfig};
use crate::sink::{DrawError, Sink, put_all};
use std::alloc::{AllocError, Global};
use std::error::Error;
use std::fmt;

// An item of a path: how many bytes its entry begins with that its parent's level puts there, and
// whether it is its parent's last child.
#[derive(Clone, Copy)]
struct Rung {
    width: usize,
    is_last: bool,
}

// Goes below the last item of a path, and returns how many bytes are before each entry there.
#[inline(always)]
fn descend(
    pen: &mut Pen,
    brush: &Brush<'_>,
    root: usize,
    rungs: &[Rung],
) -> Result<usize, AllocError>
    requires { StandsAt (brush_look brush.now) (buffer_of pen.old) pen.old.turned root rungs.now }
    ensures stands { StandsAt (brush_look brush.now) (buffer_of pen.new) pen.new.turned root rungs.now }
    ensures front { OnOk result
        (buffer_of pen.new ≡ front_below (brush_look brush.now) (flags_of rungs.now)) }
    ensures width { IfOk result (λ n. n ≡ length (buffer_of pen.new)) }
    ensures turned { pen.new.turned ≡ false }
{
    match rungs.last() {
        Some(rung) => {
            pen.pass(rung.width, brush, rung.is_last)?;
            Ok(pen.line.len())
        }
        None => {
            pen.cut(root);
            Ok(pen.line.len())
        }
    }
}

// Goes to a new item below the last one of a path.
#[inline(never)]
fn go_down(
    pen: &mut Pen,
    brush: &Brush<'_>,
    root: usize,
    rungs: &mut Vec<Rung>,
    is_last: bool,
) -> Result<(), AllocError>
    requires { StandsAt (brush_look brush.now) (buffer_of pen.old) pen.old.turned root
        rungs.old.items }
    ensures stands { StandsAt (brush_look brush.now) (buffer_of pen.new) pen.new.turned root
        rungs.new.items }
    ensures path { OnOk result
        (flags_of rungs.new.items ≡ flags_of rungs.old.items ++ is_last ∷ []) }
{
    let width = descend(pen, brush, root, rungs)?;
    rungs.push(Rung { width, is_last })?;
    Ok(())
}

// Leaves a path at a level. A turning piece stays only if the last item is at that level.
#[inline(always)]
fn leave(pen: &mut Pen, rungs: &mut Vec<Rung>, level: usize)
    ensures path { rungs.new.items ≡ take level rungs.old.items }
    ensures line { pen.new.line ≡ pen.old.line }
    ensures turned { pen.new.turned ≡ true
        → (pen.old.turned ≡ true) × (length rungs.old.items ≤ level) }
{
    if level < rungs.len() {
        pen.turned = false;
        rungs.truncate(level);
    }
}

// Goes to a new item at the level of an item of a path, below the same parent.
#[inline(always)]
fn go_up(
    pen: &mut Pen,
    brush: &Brush<'_>,
    root: usize,
    rungs: &mut Vec<Rung>,
    level: usize,
    is_last: bool,
)
    requires stands { StandsAt (brush_look brush.now) (buffer_of pen.old) pen.old.turned root
        rungs.old.items }
    requires some { 0 < level }
    requires within { level ≤ length rungs.old.items }
    ensures stands { StandsAt (brush_look brush.now) (buffer_of pen.new) pen.new.turned root
        rungs.new.items }
    ensures path { flags_of rungs.new.items
        ≡ take (level - 1) (flags_of rungs.old.items) ++ is_last ∷ [] }
{
    leave(pen, rungs, level);
    rungs[level - 1].is_last = is_last;
}

// Puts a new item at a level on a path, at most one below its last item.
#[inline(always)]
fn settle(
    pen: &mut Pen,
    brush: &Brush<'_>,
    root: usize,
    rungs: &mut Vec<Rung>,
    level: usize,
    is_last: bool,
) -> Result<(), AllocError>
    requires stands { StandsAt (brush_look brush.now) (buffer_of pen.old) pen.old.turned root
        rungs.old.items }
    requires some { 0 < level }
    requires within { level ≤ length rungs.old.items + 1 }
    ensures stands { StandsAt (brush_look brush.now) (buffer_of pen.new) pen.new.turned root
        rungs.new.items }
    ensures path { OnOk result (flags_of rungs.new.items
        ≡ take (level - 1) (flags_of rungs.old.items) ++ is_last ∷ []) }
    ensures length { OnOk result (length rungs.new.items ≡ level) }
{
    if level > rungs.len() {
        return go_down(pen, brush, root, rungs, is_last);
    }
    go_up(pen, brush, root, rungs, level, is_last);
    Ok(())
}

// Goes to a new root.
fn begin(
    pen: &mut Pen,
    brush: &Brush<'_>,
    root: usize,
    rungs: &mut Vec<Rung>,
) -> Result<usize, AllocError>
    requires { StandsAt (brush_look brush.now) (buffer_of pen.old) pen.old.turned root
        rungs.old.items }
    ensures stands { StandsAt (brush_look brush.now) (buffer_of pen.new) pen.new.turned root
        rungs.new.items }
    ensures path { flags_of rungs.new.items ≡ [] }
    ensures width { IfOk result (λ n. n ≡ length (front_below (brush_look brush.now) [])) }
    ensures front { OnOk result (buffer_of pen.new ≡ front_below (brush_look brush.now) []
        ++ own_text (brush_look brush.now) None) }
{
    rungs.clear();
    pen.cut(root);
    pen.line.append(brush.end().as_bytes())?;
    Ok(root)
}

// Gathers the entry of the last item of a path, or of a root.
#[inline(always)]
fn gather<T: TreeItem>(
    item: &T,
    pen: &mut Pen,
    brush: &Brush<'_>,
    root: usize,
    rungs: &[Rung],
    width: usize,
    last: Option<bool>,
) -> Result<(), AllocError>
    requires stands { StandsAt (brush_look brush.now) (buffer_of pen.old) pen.old.turned root
        rungs.now }
    requires width { width
        ≡ length (front_below (brush_look brush.now) (above (flags_of rungs.now))) }
    requires front { buffer_of pen.old
        ≡ front_below (brush_look brush.now) (above (flags_of rungs.now))
        ++ own_text (brush_look brush.now) last }
    ensures stands { StandsAt (brush_look brush.now) (buffer_of pen.new) pen.new.turned root
        rungs.now }
    ensures entry { OnOk result (buffer_of pen.new
        ≡ entry_below (brush_look brush.now) (above (flags_of rungs.now)) last
        ((T.shape item.now).own [] (brush_look brush.now).leaf)) }
{
    match gather_entry(item, pen, brush, width, last) {
        Ok(()) => Ok(()),
        Err(_) => Err(AllocError),
    }
}

/// Why an item was not drawn.
#[derive(Debug, Drop)]
pub enum ItemError {
    /// No item can follow at that level.
    Level,

    /// Drawing failed.
    Draw(DrawError),
}

impl fmt::Display for ItemError {
    fn fmt<W: fmt::Write>(&self, f: &mut fmt::Formatter<W>) -> fmt::Result {
        f.write_str(match self {
            ItemError::Draw(e) => return write!(f, "{e}"),
            ItemError::Level => "no item can follow at that level",
        })
    }
}

impl Error for ItemError {}

/// Draws items one by one, in the order of drawing, and holds no tree: each is given by its level and
/// by whether it is its parent's last child.
///
/// An item takes time by the bytes of its entry, however deep it is. The writer takes memory for one
/// entry, and 16 bytes a level.
#[derive(Drop)]
pub struct ItemWriter<'a> {
    brush: Brush<'a>,
    pen: Pen,
    root: usize,
    rungs: Vec<Rung>,
    ghost stands: { StandsAt (brush_look brush) (buffer_of pen) pen.turned root rungs.items },
}

// Makes the entry of a root. It is a function of its own, since it is seldom called.
#[inline(never)]
fn make_root<T: TreeItem>(
    item: &T,
    pen: &mut Pen,
    brush: &Brush<'_>,
    root: usize,
    rungs: &mut Vec<Rung>,
) -> Result<(), AllocError>
    requires { StandsAt (brush_look brush.now) (buffer_of pen.old) pen.old.turned root
        rungs.old.items }
    ensures stands { StandsAt (brush_look brush.now) (buffer_of pen.new) pen.new.turned root
        rungs.new.items }
    ensures path { OnOk result (flags_of rungs.new.items ≡ []) }
    ensures entry { OnOk result (buffer_of pen.new
        ≡ entry_below (brush_look brush.now) [] None
        ((T.shape item.now).own [] (brush_look brush.now).leaf)) }
{
    let width = begin(pen, brush, root, rungs)?;
    gather(item, pen, brush, root, rungs, width, None)
}

// Makes the entry of an item at a level, at most one below the last item of a path.
#[inline(always)]
fn make_entry<T: TreeItem>(
    item: &T,
    pen: &mut Pen,
    brush: &Brush<'_>,
    root: usize,
    rungs: &mut Vec<Rung>,
    level: usize,
    is_last: bool,
) -> Result<(), AllocError>
    requires stands { StandsAt (brush_look brush.now) (buffer_of pen.old) pen.old.turned root
        rungs.old.items }
    requires within { level ≤ length rungs.old.items + 1 }
    ensures stands { StandsAt (brush_look brush.now) (buffer_of pen.new) pen.new.turned root
        rungs.new.items }
    ensures path { OnOk result
        (flags_of rungs.new.items ≡ path_with (flags_of rungs.old.items) level is_last) }
    ensures entry { OnOk result (buffer_of pen.new
        ≡ entry_behind (brush_look brush.now) (flags_of rungs.old.items) level is_last
        ((T.shape item.now).own [] (brush_look brush.now).leaf)) }
{
    if level == 0 {
        return make_root(item, pen, brush, root, rungs);
    }
    settle(pen, brush, root, rungs, level, is_last)?;
    let width = rungs[level - 1].width;
    pen.turn_again(width, brush, is_last)?;
    gather(item, pen, brush, root, rungs, width, Some(is_last))
}

impl<'a> ItemWriter<'a> {
    ghost use Rattle.std.specs.Prelude.{◌↔◌, ◌≢◌, List, ℕ, IsErrOf};
    ghost use Rattle.ptree.specs.Drawing.{config_look};
    ghost use Rattle.ptree.specs.GivenItems.{DrawsItems, DrawsLines};
    ghost use Rattle.ptree.specs.ItemWriter.{writer_look, path_of, entry_of, item_faults};
    ghost use Rattle.ptree.specs.Style.{painted_text};
    ghost use Rattle.ptree.specs.Writing.{IsWritten};

    /// Starts before a root, for output of a kind. `terminal` says whether standard output is a
    /// terminal.
    ///
    /// # Errors
    ///
    /// Memory ran out.
    pub fn new(
        alloc: Global,
        config: &'a PrintConfig,
        output_kind: OutputKind,
        terminal: bool,
    ) -> Result<ItemWriter<'a>, AllocError>
        ensures look { IfOk result (λ w.
            writer_look w ≡ config_look config.now output_kind terminal) }
        ensures path { IfOk result (λ w. path_of w ≡ []) }
        // The entries of the items of a shape, in the order of drawing, are its drawing.
        ensures items { DrawsItems (config_look config.now output_kind terminal) }
        ensures lines { DrawsLines (config_look config.now output_kind terminal) }
    {
        let look = Look::of_config(alloc, config, output_kind, terminal)?;
        let pen = Pen::new(alloc, &look.branch)?;
        let brush = Brush::new(alloc, look)?;
        let root = pen.line.len();
        Ok(ItemWriter {
            brush,
            pen,
            root,
            rungs: Vec::new(alloc),
        })
    }

    // Goes back to before a root. It is a function of its own, since it is seldom called.
    #[cold]
    #[inline(never)]
    fn restart(&mut self)
        ensures path { path_of self.new ≡ [] }
        ensures look { writer_look self.new ≡ writer_look self.old }
    {
        self.rungs.clear();
        self.pen.cut(self.root);
    }

    /// Returns the level of the last item, or 0 if there is none. The next item can be at most one
    /// level below it.
    #[inline(always)]
    pub fn level(&self) -> usize
        ensures { result ≡ length (path_of self.now) }
    {
        self.rungs.len()
    }

    /// Goes below an item that was drawn elsewhere, a level below the last one.
    ///
    /// # Errors
    ///
    /// Memory ran out.
    pub fn open(&mut self, is_last: bool) -> Result<(), AllocError>
        ensures path { OnOk result (path_of self.new ≡ path_of self.old ++ is_last ∷ []) }
        ensures look { writer_look self.new ≡ writer_look self.old }
    {
        go_down(
            &mut self.pen,
            &self.brush,
            self.root,
            &mut self.rungs,
            is_last,
        )?;
        Ok(())
    }

    /// Makes the entry of the next item, which [`entry`](Self::entry) returns until another call.
    ///
    /// A root has level 0, and `is_last` means nothing there. A level and a flag that no tree has
    /// there are drawn as they say.
    ///
    /// # Errors
    ///
    /// `Level` if the item is more than a level below the last one; the writer is unchanged. `Memory`
    /// if memory ran out; the writer is as new.
    #[inline(always)]
    pub fn make<T: TreeItem>(&mut self, level: u32, is_last: bool, item: &T) -> Result<(), AddError>
        ensures entry { OnOk result (entry_of self.new
            ≡ entry_behind (writer_look self.old) (path_of self.old) level is_last
            ((T.shape item.now).own [] (writer_look self.old).leaf)) }
        ensures path { OnOk result
            (path_of self.new ≡ path_with (path_of self.old) level is_last) }
        ensures look { writer_look self.new ≡ writer_look self.old }
        ensures refused { IsErrOf result AddError.Level ↔ length (path_of self.old) + 1 < level }
        ensures kept { IsErrOf result AddError.Level → self.new ≡ self.old }
        ensures lost { IsErrOf result AddError.Memory → path_of self.new ≡ [] }
    {
        let place = level as usize;
        if place > self.rungs.len() + 1 {
            return Err(AddError::Level);
        }
        let made = make_entry(
            item,
            &mut self.pen,
            &self.brush,
            self.root,
            &mut self.rungs,
            place,
            is_last,
        );
        if made.is_err() {
            self.restart();
            return Err(AddError::Memory);
        }
        Ok(())
    }

    /// Makes the entry of an item with a text, as [`make`](Self::make) does. The text is painted.
    ///
    /// # Errors
    ///
    /// As [`make`](Self::make).
    #[inline(always)]
    pub fn make_text(&mut self, level: u32, is_last: bool, text: &str) -> Result<(), AddError>
        ensures entry { OnOk result (entry_of self.new
            ≡ entry_behind (writer_look self.old) (path_of self.old) level is_last
            (painted_text (writer_look self.old).leaf text.now)) }
        ensures path { OnOk result
            (path_of self.new ≡ path_with (path_of self.old) level is_last) }
        ensures look { writer_look self.new ≡ writer_look self.old }
        ensures refused { IsErrOf result AddError.Level ↔ length (path_of self.old) + 1 < level }
        ensures kept { IsErrOf result AddError.Level → self.new ≡ self.old }
        ensures lost { IsErrOf result AddError.Memory → path_of self.new ≡ [] }
    {
        let item: Root<'_, StringItem> = Root {
            text,
            children: &[],
        };
        self.make(level, is_last, &item)
    }

    /// Returns the entry that the last call made. It ends in a line feed.
    #[inline(always)]
    pub fn entry(&self) -> &[u8]
        ensures { result.now ≡ entry_of self.now }
    {
        self.pen.line.as_slice()
    }

    /// Draws the next item: its entry is made as [`make`](Self::make) does, and put at once.
    ///
    /// # Errors
    ///
    /// `Level` if the item is more than a level below the last one; nothing is written, and the
    /// writer is unchanged. `Draw` if `f` failed, or if memory ran out: then nothing is written. After
    /// `Draw` the writer is as new.
    pub fn put<T: TreeItem, W: Sink>(
        &mut self,
        level: u32,
        is_last: bool,
        item: &T,
        f: &mut W,
    ) -> Result<(), ItemError>
        // Success appends exactly the entry, and an error a prefix of it.
        ensures bytes { IsWritten (W.contents f.old) (W.contents f.new) result
            (entry_behind (writer_look self.old) (path_of self.old) level is_last
            ((T.shape item.now).own [] (writer_look self.old).leaf)) }
        ensures path { OnOk result
            (path_of self.new ≡ path_with (path_of self.old) level is_last) }
        ensures look { writer_look self.new ≡ writer_look self.old }
        ensures refused { IsErrOf result ItemError.Level ↔ length (path_of self.old) + 1 < level }
        ensures kept { IsErrOf result ItemError.Level → (self.new ≡ self.old) × (f.new ≡ f.old) }
        ensures lost { (e : DrawError) → IsErrOf result (ItemError.Draw e) → path_of self.new ≡ [] }
        ensures whole { IsErrOf result (ItemError.Draw DrawError.Memory) → f.new ≡ f.old }
        ensures cause { W.faults f.new ≡ W.faults f.old + item_faults result }
    {
        self.make(level, is_last, item)?;
        let put = put_all(f, self.entry());
        if let Err(e) = put {
            self.restart();
            return Err(ItemError::Draw(e));
        }
        Ok(())
    }
}
