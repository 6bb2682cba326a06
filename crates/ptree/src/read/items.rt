//! Reads the items of a drawing without its tree.
ghost use Rattle.std.specs.Prelude.{◌≡◌, ℕ, ◌<◌, ◌≤◌, ◌+◌, ◌^◌, ◌↔◌, [], List, length, map, IsSome, IfErr, IfOk, IfSome, MatchOption, Ok, None};
ghost use Rattle.std.proofs.Props.{props};
ghost use Rattle.ptree.specs.Drawing.{written_look};
ghost use Rattle.ptree.specs.Looks.{look_of};
ghost use Rattle.ptree.specs.Pieces.{pieces_of};
ghost use Rattle.ptree.specs.Reached.{IsPath};
ghost use Rattle.ptree.specs.Readable.{IsReadableWith, HasReadablePieces, equal_or_prefix_free-prop};
ghost use Rattle.ptree.specs.ReadItems.{item_line};
ghost use Rattle.ptree.specs.Outline.{Line};
ghost use Rattle.ptree.specs.Scanned.{IsError, IsItemEnd, IsReading, IsScanned};

use crate::print_config::PrintConfig;
use crate::read::ReadError;
use crate::read::lines::{Frame, ReadText};
use crate::read::path::Path;
use crate::read::scan::{ItemEnd, Place, read_item, read_start};
use std::alloc::Global;

/// An item of a drawing that was read without its tree.
#[derive(Debug, Drop)]
pub struct ReadItem<'a> {
    /// The level. The root has level 0.
    pub level: usize,

    /// The text.
    pub text: ReadText<'a>,
}

/// Reads the items of a drawing one by one, in the order of the drawing, and makes no tree.
///
/// A text of one line stays a part of the drawing, so reading takes memory for a few bytes a level,
/// and for a text of several lines at a time. All items together take time for the bytes of the
/// drawing. Whether the text is a drawing is known only behind its last item: the items before an
/// error may be those of no tree.
#[derive(Drop)]
pub struct ItemReader<'a, 'c> {
    frame: Frame<'c>,
    text: &'a str,
    place: Place<'a>,
    path: Path<'a>,

    // The text on the own line of the next item. There is none behind the last one and an error.
    next: Option<&'a str>,
    ghost readable: { let look = look_of frame.look in IsReadableWith look.pieces look.marker } by { Prim.hlevel (props, equal_or_prefix_free-prop) },
    ghost opened: { IsPath (pieces_of frame.look.pieces) path },
    ghost room: { place.lines + length place.rest.now ≤ length text.now },
}

impl<'a, 'c> ItemReader<'a, 'c> {
    ghost use Rattle.ptree.specs.Drawing.{Look};
    ghost use Rattle.ptree.specs.DrawnForm.{IsDrawnForm};
    ghost use Rattle.ptree.specs.ItemReader.{HasRead, IsCountOfRest, IsNext, IsNextLevel, bytes_left};
    ghost use Rattle.ptree.specs.Tree.{Tree};

    /// Starts before the first item of a text, and reads its line.
    ///
    /// The call requires readable pieces, as [`read_tree`](crate::read::read_tree) does.
    ///
    /// # Errors
    ///
    /// [`ReadError::Line`] with 1 if no drawing begins with the first line, [`ReadError::End`] if that
    /// has no line feed, and [`ReadError::Memory`] if memory ran out.
    pub fn new(
        alloc: Global,
        text: &'a str,
        config: &'c PrintConfig,
    ) -> Result<ItemReader<'a, 'c>, ReadError>
        requires { HasReadablePieces config.now }
        ensures start { IfOk result (λ reader.
            HasRead (written_look config.now) config.now.depth text.now reader []) }
        ensures some { IfOk result (λ reader. 0 < bytes_left reader) }
        ensures error { IfErr result
            (IsError (written_look config.now) config.now.depth text.now) }
    {
        let frame = Frame::new(alloc, config)?;
        let (own, place) = read_start(text, &frame)?;
        Ok(ItemReader {
            frame,
            text,
            place,
            path: Path::new(alloc),
            next: Some(own),
        })
    }

    /// Returns the next item, or `None` behind the last one: then the text is the drawing of the
    /// tree of these items.
    ///
    /// Behind the last item and behind an error each further call returns `None`.
    ///
    /// # Errors
    ///
    /// As [`read_tree_or_line`](crate::read::read_tree_or_line).
    pub fn next_item(&mut self) -> Result<Option<ReadItem<'a>>, ReadError>
        ensures next { IsNext self.old self.new result }
        ensures left { IfOk result (λ o. MatchOption o (bytes_left self.old ≡ 0)
            (λ item. bytes_left self.new < bytes_left self.old)) }
        ensures over { IfErr result (λ e. bytes_left self.new ≡ 0) }
        // Once nothing is left, a call returns none, and the reader stays as it is.
        ensures ended { bytes_left self.old ≡ 0 → (result ≡ Ok None) × (self.new ≡ self.old) }
        ensures few { bytes_left self.new < 2 ^ 63 }
    {
        self.advance::<2>()
    }

    // Does what `next_item` does. Each caller names another `CALLER`, as those of [`Path::go_on`] do.
    #[inline(always)]
    fn advance<const CALLER: u8>(&mut self) -> Result<Option<ReadItem<'a>>, ReadError>
        ensures next { IsNext self.old self.new result }
        ensures left { IfOk result (λ o. MatchOption o (bytes_left self.old ≡ 0)
            (λ item. bytes_left self.new < bytes_left self.old)) }
        ensures over { IfErr result (λ e. bytes_left self.new ≡ 0) }
        ensures ended { bytes_left self.old ≡ 0 → (result ≡ Ok None) × (self.new ≡ self.old) }
        ensures few { bytes_left self.new < 2 ^ 63 }
    {
        let Some(own) = self.next else {
            return Ok(None);
        };
        let level = self.path.level();
        let (place, path) = (&mut self.place, &mut self.path);
        match read_or_close::<CALLER>(self.text, place, path, own, &self.frame) {
            Ok(ItemEnd { text, next }) => {
                self.next = next;
                Ok(Some(ReadItem { level, text }))
            }
            Err(error) => {
                self.next = None;
                Err(error)
            }
        }
    }

    /// Reads the items that are left, and returns their number: then the text is a drawing, unless a
    /// call before returned an error.
    ///
    /// # Errors
    ///
    /// As [`next_item`](ItemReader::next_item).
    pub fn count_rest(&mut self) -> Result<usize, ReadError>
        ensures count { (look : Look) (depth : ℕ) (text : List ℕ) (done : List Line)
            → HasRead look depth text self.old done → IsCountOfRest look depth text done result }
        ensures over { bytes_left self.new ≡ 0 }
    {
        let mut count = 0;
        while let Some(_item) = self.advance::<3>()? {
            count += 1;
        }
        Ok(count)
    }

    /// Returns the level of the next item, or `None` behind the last one and an error.
    #[inline(always)]
    pub fn next_level(&self) -> Option<usize>
        ensures level { (look : Look) (depth : ℕ) (text : List ℕ) (done : List Line)
            → HasRead look depth text self.now done
            → (t : Tree) → IsDrawnForm look depth text t → IsNextLevel t done result }
        ensures left { IsSome result ↔ (0 < bytes_left self.now) }
    {
        match self.next {
            Some(_) => Some(self.path.level()),
            None => None,
        }
    }
}

// Does what `read_item` does. Behind an error no item is open.
#[inline(always)]
fn read_or_close<'a, const CALLER: u8>(
    text: &'a str,
    place: &mut Place<'a>,
    path: &mut Path<'a>,
    own: &'a str,
    frame: &Frame<'_>,
) -> Result<ItemEnd<'a>, ReadError>
    requires readable { let look = look_of frame.now.look in
        IsReadableWith look.pieces look.marker }
    requires path { IsPath (pieces_of frame.now.look.pieces) path.old }
    requires room { place.old.lines + length place.old.rest.now ≤ length text.now }
    ensures end { (done : List Line)
        → IsScanned (look_of frame.now.look) frame.now.depth text.now place.old.rest.now
        place.old.lines done (length path.old.flags.items) own.now path.old.flags.items
        → IsItemEnd (look_of frame.now.look) frame.now.depth text.now done
        (length path.old.flags.items) place.new path.new result }
    ensures path { IsPath (pieces_of frame.now.look.pieces) path.new }
    ensures room { place.new.lines + length place.new.rest.now ≤ length text.now }
    ensures shorter { IfOk result (λ r. IfSome r.next (λ own.
        length place.new.rest.now < length place.old.rest.now)) }
{
    match read_item::<CALLER>(text, place, path, ReadText::Line(own), frame) {
        Ok(end) => Ok(end),
        Err(error) => {
            *path = Path::new(frame.alloc);
            Err(error)
        }
    }
}

/// Returns all items of a text.
pub(crate) fn read_all<'a>(
    alloc: Global,
    text: &'a str,
    config: &PrintConfig,
) -> Result<Vec<ReadItem<'a>>, ReadError>
    requires { HasReadablePieces config.now }
    ensures { IsReading (λ v. map item_line v.items) (written_look config.now) config.now.depth
        text.now result }
{
    let mut items = Vec::new(alloc);
    let mut reader = ItemReader::new(alloc, text, config)?;
    while let Some(item) = reader.next_item()? {
        items.push(item)?;
    }
    Ok(items)
}
