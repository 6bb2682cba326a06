//! The bytes of an entry, as they are gathered.
ghost use Rattle.std.specs.Prelude.{◌≡◌, length, take, ◌+◌, ◌≤◌, ◌++◌, ◌∷◌, [], OnOk, OnErr};
ghost use Rattle.ptree.specs.Texts.{line_feed};

use crate::output::brush::Brush;
use crate::output::feeds::{first_line_feed, may_hold_line_feed};
use crate::output::place::place;
use crate::sink::Sink;
use crate::sink::faults::FaultCount;
use std::alloc::{AllocError, Global};
use std::{io, mem};

/// The bytes of an entry, gathered so that one put writes them: the first `used` bytes of `room`.
/// An entry of several lines is made in `other`, which then is the room. As a sink it fails if it
/// cannot grow.
#[derive(Drop)]
pub(crate) struct LineBuffer {
    room: Vec<u8>,
    used: usize,
    other: Vec<u8>,
    faults: FaultCount,
    ghost fits: { used ≤ length room.items },
}

impl Sink for LineBuffer {
    ghost use Rattle.std.specs.Prelude.{Some};
    ghost use Rattle.ptree.specs.Line.{line_bytes};

    ghost contents = { λ l. Some (line_bytes l) };

    ghost faults = { λ l. l.faults.count };

    #[inline(always)]
    fn put(&mut self, bytes: &[u8]) -> io::Result<usize> {
        match self.append(bytes) {
            Ok(()) => Ok(bytes.len()),
            Err(e) => {
                self.faults = self.faults.next();
                Err(io::Error::from(e))
            }
        }
    }
}

impl LineBuffer {
    ghost use Rattle.ptree.specs.Looks.{further_text};
    ghost use Rattle.ptree.specs.Line.{line_bytes, spread_bytes};
    ghost use Rattle.ptree.specs.Pen.{brush_look};

    // Makes an empty buffer.
    pub(crate) fn new(alloc: Global) -> LineBuffer
        ensures { line_bytes result ≡ [] }
    {
        LineBuffer {
            room: Vec::new(alloc),
            used: 0,
            other: Vec::new(alloc),
            faults: FaultCount::new(),
        }
    }

    // Appends bytes.
    #[inline(always)]
    pub(crate) fn append(&mut self, bytes: &[u8]) -> Result<(), AllocError>
        ensures bytes { OnOk result (line_bytes self.new ≡ line_bytes self.old ++ bytes.now) }
        ensures kept { OnErr result (line_bytes self.new ≡ line_bytes self.old) }
        ensures faults { self.new.faults ≡ self.old.faults }
    {
        if bytes.len() > self.room.len() - self.used {
            self.grow(bytes.len())?;
        }
        let end = self.used + bytes.len();
        place(&mut self.room, self.used, bytes);
        self.used = end;
        Ok(())
    }

    // Makes room for so many bytes more, and an eighth beyond them. All the room is filled, so it
    // does not double. It is a function of its own, since it is seldom called.
    #[cold]
    #[inline(never)]
    fn grow(&mut self, more: usize) -> Result<(), AllocError>
        ensures bytes { line_bytes self.new ≡ line_bytes self.old }
        ensures room { OnOk result (self.new.used + more ≤ length self.new.room.items) }
        ensures faults { self.new.faults ≡ self.old.faults }
    {
        let Some(end) = self.used.checked_add(more) else {
            return Err(AllocError);
        };
        let spare = self.room.len() / 8 + 64;
        self.room.resize(end.saturating_add(spare), 0)
    }

    // Returns the bytes.
    #[inline(always)]
    pub(crate) fn as_slice(&self) -> &[u8]
        ensures { result.now ≡ line_bytes self.now }
    {
        &self.room[..self.used]
    }

    // Returns how many bytes there are.
    #[inline(always)]
    pub(crate) fn len(&self) -> usize
        ensures { result ≡ length (line_bytes self.now) }
    {
        self.used
    }

    // Keeps only the first `width` bytes.
    #[inline(always)]
    pub(crate) fn truncate(&mut self, width: usize)
        requires { width ≤ length (line_bytes self.old) }
        ensures { line_bytes self.new ≡ take width (line_bytes self.old) }
    {
        self.used = width;
    }

    // Replaces what follows the first `width` bytes with a text.
    #[inline(always)]
    pub(crate) fn replace_end(&mut self, width: usize, text: &str) -> Result<(), AllocError>
        requires { width ≤ length (line_bytes self.old) }
        ensures line { OnOk result
            (line_bytes self.new ≡ take width (line_bytes self.old) ++ text.now) }
        ensures kept { OnErr result (line_bytes self.new ≡ take width (line_bytes self.old)) }
    {
        self.truncate(width);
        self.append(text.as_bytes())
    }

    // Puts a line feed.
    #[inline(always)]
    pub(crate) fn end_line(&mut self) -> Result<(), AllocError>
        ensures line { OnOk result (line_bytes self.new ≡ line_bytes self.old ++ line_feed ∷ []) }
        ensures kept { OnErr result (line_bytes self.new ≡ line_bytes self.old) }
    {
        self.append(b"\n")
    }

    // Inserts a text after each line feed that is after the first `start` bytes. The text is the
    // first `width` bytes and what a brush has before further lines.
    #[inline(always)]
    pub(crate) fn continue_lines(
        &mut self,
        start: usize,
        width: usize,
        brush: &Brush<'_>,
        last: Option<bool>,
    ) -> Result<(), AllocError>
        requires within { width ≤ start }
        requires start { start ≤ length (line_bytes self.old) }
        ensures line { OnOk result (line_bytes self.new ≡ spread_bytes start width
            (further_text (brush_look brush.now) last) (line_bytes self.old)) }
        ensures kept { OnErr result (line_bytes self.new ≡ line_bytes self.old) }
    {
        if may_hold_line_feed(&self.room, start, self.used) {
            self.spread(start, width, brush.further(last).as_bytes())
        } else {
            Ok(())
        }
    }

    // Inserts a text after each line feed that is after the first `start` bytes: the first `width`
    // bytes and `further`. It is a function of its own, since it is seldom called.
    #[inline(never)]
    fn spread(&mut self, start: usize, width: usize, further: &[u8]) -> Result<(), AllocError>
        requires within { width ≤ start }
        requires start { start ≤ length (line_bytes self.old) }
        ensures line { OnOk result (line_bytes self.new
            ≡ spread_bytes start width further.now (line_bytes self.old)) }
        ensures kept { OnErr result (line_bytes self.new ≡ line_bytes self.old) }
    {
        let alloc = *self.room.allocator();
        let used = mem::replace(&mut self.used, 0);
        mem::swap(&mut self.room, &mut self.other);
        let held = mem::replace(&mut self.other, Vec::new(alloc));
        let spread = self.append_lines(&held[..used], start, width, further);
        self.other = held;
        if spread.is_err() {
            mem::swap(&mut self.room, &mut self.other);
            self.used = used;
        }
        spread
    }

    // Appends bytes with a text inserted after each line feed that is after the first `start` ones.
    // The text is the first `width` bytes and `further`.
    #[inline(always)]
    fn append_lines(
        &mut self,
        bytes: &[u8],
        start: usize,
        width: usize,
        further: &[u8],
    ) -> Result<(), AllocError>
        requires within { width ≤ start }
        requires start { start ≤ length bytes.now }
        ensures { OnOk result (line_bytes self.new
            ≡ line_bytes self.old ++ spread_bytes start width further.now bytes.now) }
    {
        self.append(&bytes[..start])?;
        let mut rest = &bytes[start..];
        let mut end = first_line_feed(rest);
        while end < rest.len() {
            self.append(&rest[..end + 1])?;
            self.append(&bytes[..width])?;
            self.append(further)?;
            rest = &rest[end + 1..];
            end = first_line_feed(rest);
        }
        self.append(rest)
    }
}
