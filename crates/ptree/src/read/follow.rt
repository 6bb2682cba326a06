//! Which lines can follow a text.
ghost use Rattle.std.specs.Prelude.{◌≡◌, ◌↔◌, ℕ, ◌++◌, [], ◌∷◌, List, map, MatchOption, IfOk, IsTrue, string_bytes};
ghost use Rattle.ptree.specs.Continuation.{IsFollowedBy, AreFlags};
ghost use Rattle.ptree.specs.Drawing.{Look};
ghost use Rattle.ptree.specs.Looks.{look_of};
ghost use Rattle.ptree.specs.OpenDrawing.{IsAfter, IsNext, GoesOnNowhere, WasRead, AreLines, IsClosed};
ghost use Rattle.ptree.specs.Readable.{IsReadableWith};
ghost use Rattle.ptree.specs.Texts.{HasNoLineFeed, line_feed};

use crate::read::lines::{Frame, ReadText, without_end};
use crate::read::path::{Line, Path};
use crate::read::scan::read_root_line;
use std::alloc::{AllocError, Global};

/// A drawing whose first lines were read: the open items, whether there is a root, and whether the
/// last item's text may end with these lines.
#[derive(Drop)]
struct OpenDrawing<'a> {
    path: Path<'a>,
    has_root: bool,
    is_closed: bool,
}

impl<'a> OpenDrawing<'a> {
    // Starts before the first line.
    fn new(alloc: Global) -> OpenDrawing<'a>
        ensures { (look : Look) (depth : ℕ) → IsAfter look depth [] result }
    {
        OpenDrawing {
            path: Path::new(alloc),
            has_root: false,
            is_closed: false,
        }
    }

    // Returns the same drawing once more.
    fn copy<'b>(&self, alloc: Global) -> Result<OpenDrawing<'b>, AllocError>
    where
        'a: 'b,
        ensures { IfOk result (λ copy. (look : Look) (depth : ℕ) (before : List ℕ)
            → IsAfter look depth before self.now → IsAfter look depth before copy) }
    {
        Ok(OpenDrawing {
            path: self.path.copy(alloc)?,
            has_root: self.has_root,
            is_closed: self.is_closed,
        })
    }

    // Reads the next line, and returns what follows it. Returns `None` if no drawing continues with
    // the line, or if it has no line feed.
    #[inline(always)]
    fn go_on(&mut self, text: &'a str, frame: &Frame<'_>) -> Result<Option<&'a str>, AllocError>
        requires readable { let look = look_of frame.now.look in
            IsReadableWith look.pieces look.marker }
        requires after { (before : List ℕ)
            × IsAfter (look_of frame.now.look) frame.now.depth before self.old }
        ensures { IfOk result (λ o. let look = look_of frame.now.look in MatchOption o
            (GoesOnNowhere look frame.now.depth text.now self.old)
            (λ rest. IsNext look frame.now.depth text.now rest.now self.old self.new)) }
    {
        if !self.has_root {
            let Some((own, rest)) = read_root_line(text, frame) else {
                return Ok(None);
            };
            self.has_root = true;
            self.is_closed = is_closed(own, frame);
            return Ok(Some(rest));
        }
        let Some((line, rest)) = self.path.go_on::<1>(text, frame)? else {
            return Ok(None);
        };
        let own = match line {
            Line::Own(own) => {
                if !self.is_closed {
                    return Ok(None);
                }
                own
            }
            Line::Further(own) => own,
        };
        self.is_closed = is_closed(own, frame);
        Ok(Some(rest))
    }

    // Reads more lines, and says whether some drawing continues with them.
    #[inline(never)]
    fn read(&mut self, lines: &'a str, frame: &Frame<'_>) -> Result<bool, AllocError>
        requires readable { let look = look_of frame.now.look in
            IsReadableWith look.pieces look.marker }
        requires lines { AreLines lines.now }
        requires after { (before : List ℕ)
            × IsAfter (look_of frame.now.look) frame.now.depth before self.old }
        ensures { IfOk result (λ goes. (before : List ℕ)
            → IsAfter (look_of frame.now.look) frame.now.depth before self.old
            → WasRead (look_of frame.now.look) frame.now.depth (before ++ lines.now) goes
            self.new) }
    {
        let mut rest = lines;
        while !rest.is_empty() {
            let Some(more) = self.go_on(rest, frame)? else {
                return Ok(false);
            };
            rest = more;
        }
        Ok(true)
    }

    // Whether some drawing continues with these two texts and a line feed.
    fn goes_on_with(&self, part: &str, line: &str, frame: &Frame<'_>) -> Result<bool, AllocError>
        requires readable { let look = look_of frame.now.look in
            IsReadableWith look.pieces look.marker }
        requires after { (before : List ℕ)
            × IsAfter (look_of frame.now.look) frame.now.depth before self.now }
        ensures { IfOk result (λ goes. (before : List ℕ)
            → IsAfter (look_of frame.now.look) frame.now.depth before self.now
            → (IsTrue goes ↔ IsFollowedBy (look_of frame.now.look) frame.now.depth
            (before ++ part.now) line.now)) }
    {
        let text = format!(in frame.alloc; "{part}{line}\n")?;
        let mut open = self.copy(frame.alloc)?;
        open.read(text.as_str(), frame)
    }
}

// Whether a line ends with the codes after a text.
#[inline(always)]
fn is_closed(own: &str, frame: &Frame<'_>) -> bool
    ensures { IsTrue result ↔ IsClosed (look_of frame.now.look) own.now }
{
    frame.drop_leaf_end(ReadText::Line(own)).is_some()
}

// Returns the whole lines of a text, and the rest of it.
fn split_lines(text: &str) -> (&str, &str)
    ensures { AreLines result.0.now × HasNoLineFeed result.1.now
        × (text.now ≡ result.0.now ++ result.1.now) }
{
    match text.rsplit_once('\n') {
        Some((_, part)) => (without_end(text, part), part),
        None => ("", text),
    }
}

/// Returns for each of these lines whether it can follow a text, in a frame.
pub(crate) fn flags_of_lines(
    text: &str,
    lines: &[String],
    frame: &Frame<'_>,
) -> Result<Vec<bool>, AllocError>
    requires { let look = look_of frame.now.look in IsReadableWith look.pieces look.marker }
    ensures { IfOk result (λ flags. AreFlags
        (IsFollowedBy (look_of frame.now.look) frame.now.depth text.now)
        (map string_bytes lines.now) flags.items) }
{
    let (whole, part) = split_lines(text);
    let mut open = OpenDrawing::new(frame.alloc);
    let begins = open.read(whole, frame)?;
    let mut flags = Vec::new(frame.alloc);
    for line in lines {
        let follows = begins && open.goes_on_with(part, line.as_str(), frame)?;
        flags.push(follows)?;
    }
    Ok(flags)
}
