//! Callers that draw items one by one.
ghost use Rattle.std.specs.Io.KnownBytes.{Appends};
ghost use Rattle.std.specs.Prelude.{◌≡◌, ◌≤◌, ◌+◌, [], ℕ, List, length, map, nat_lt, if◌then◌else◌, OnOk, IsErrOf};
ghost use Rattle.ptree.specs.Address.{Address, IsAddressList};
ghost use Rattle.ptree.specs.Drawing.{written_look, IsDrawing};
ghost use Rattle.ptree.specs.GivenItems.{AreAt, AreGivenAs, entry_behind, given_text};
ghost use Rattle.ptree.specs.ItemWriter.{writer_look, path_of};
ghost use Rattle.ptree.specs.Outline.{outline};
ghost use Rattle.ptree.specs.Shape.{Shape, kids};
ghost use Rattle.ptree.specs.Tree.{Tree, height, shape_of_tree};
ghost use Rattle.examples.specs.Given.{given};

use ptree::PrintConfig;
use ptree::item::{Root, StringItem, TreeItem};
use ptree::output::{ItemError, ItemWriter};
use ptree::print_config::OutputKind;
use ptree::sink::{DrawError, Sink};
use std::alloc::Global;
use std::io::{self, BufRead, Lines};

/// An item that is given: its level, and whether it is its parent's last child.
#[derive(Clone, Copy)]
pub struct Given<'a, T> {
    /// The level.
    pub level: u32,

    /// Whether the item is its parent's last child.
    pub is_last: bool,

    /// The item.
    pub item: &'a T,
}

/// Draws items by a writer, one by one.
pub fn put_given<T: TreeItem, W: Sink>(
    writer: &mut ItemWriter<'_>,
    items: &[Given<'_, T>],
    f: &mut W,
) -> Result<(), ItemError>
    ensures { OnOk result (Appends (W.contents f.old) (W.contents f.new)
        (given_text (writer_look writer.old) (path_of writer.old)
        (map (given T.shape (writer_look writer.old)) items.now))) }
{
    for place in 0..items.len() {
        let given = &items[place];
        writer.put(given.level, given.is_last, given.item, f)?;
    }
    Ok(())
}

/// Draws an item at a level, or at the deepest one at which an item can follow.
pub fn put_within<T: TreeItem, W: Sink>(
    writer: &mut ItemWriter<'_>,
    level: u32,
    is_last: bool,
    item: &T,
    f: &mut W,
) -> Result<(), ItemError>
    ensures drawn { OnOk result (let deepest = length (path_of writer.old) + 1 in
        Appends (W.contents f.old) (W.contents f.new)
        (entry_behind (writer_look writer.old) (path_of writer.old)
        (if nat_lt deepest level then deepest else level) is_last
        ((T.shape item.now).own [] (writer_look writer.old).leaf))) }
    ensures never { IsErrOf result ItemError.Level → ⊥ }
    ensures lost { (e : DrawError) → IsErrOf result (ItemError.Draw e) → path_of writer.new ≡ [] }
{
    match writer.put(level, is_last, item, f) {
        Err(ItemError::Level) => writer.put((writer.level() + 1) as u32, is_last, item, f),
        drawn => drawn,
    }
}

/// Draws items one by one. If they are those of a shape down to a depth, in the order of drawing and
/// each with its level and its flag, that is the shape's drawing. If they are those of a tree of
/// texts, where the levels behind an item tell whether it is a last child, that is the tree's.
pub fn draw_given<T: TreeItem, W: Sink>(
    alloc: Global,
    items: &[Given<'_, T>],
    f: &mut W,
    config: &PrintConfig,
) -> Result<(), ItemError>
    ensures items { OnOk result ((x : Shape) (depth : ℕ) (list : List Address)
        → IsAddressList kids x depth list
        → AreAt (written_look config.now) x list
        (map (given T.shape (written_look config.now)) items.now)
        → (drawing : List ℕ) × IsDrawing (written_look config.now) x depth drawing
        × Appends (W.contents f.old) (W.contents f.new) drawing) }
    ensures lines { OnOk result ((t : Tree) (depth : ℕ) → height t.children ≤ depth
        → AreGivenAs (written_look config.now) (outline t)
        (map (given T.shape (written_look config.now)) items.now)
        → (drawing : List ℕ) × IsDrawing (written_look config.now) (shape_of_tree t) depth drawing
        × Appends (W.contents f.old) (W.contents f.new) drawing) }
{
    let mut writer = ItemWriter::new(alloc, config, OutputKind::Unknown, false)?;
    let drawn = put_given(&mut writer, items, f);
    drop(writer);
    drawn
}

// An item with a text.
fn one_text(text: &str) -> Root<'_, StringItem> {
    Root {
        text,
        children: &[],
    }
}

/// Draws the lines of a log below its name, each as it comes. One is held back, since it has to be
/// known whether it is the last one.
pub fn draw_log<R: BufRead + Drop, W: Sink>(
    alloc: Global,
    name: &str,
    log: Lines<R>,
    f: &mut W,
    config: &PrintConfig,
) -> io::Result<()> {
    let mut writer = ItemWriter::new(alloc, config, OutputKind::Unknown, false)?;
    writer.put(0, true, &one_text(name), f)?;
    let mut held: Option<String> = None;
    for line in log {
        let line = line?;
        if let Some(before) = held.replace(line) {
            writer.put(1, false, &one_text(before.as_str()), f)?;
        }
    }
    if let Some(last) = held {
        writer.put(1, true, &one_text(last.as_str()), f)?;
    }
    Ok(())
}
