//! Items that draw the values of a document in place, without a copy.
ghost use Rattle.std.specs.Prelude.{◌≡◌, ◌≢◌, ◌++◌, [], codes, OnOk, OnErr};
ghost use Rattle.ptree.specs.Data.{value_pairs, pair_text, pair_own};
ghost use Rattle.ptree.specs.Parts.{part_of, node_pair_of, parsed_of};
ghost use Rattle.ptree.specs.Shape.{over_shape};
ghost use Rattle.ptree.specs.Style.{style_of, painted_text};
ghost use Rattle.ptree.specs.Writing.{IsWritten, HasCause, HasErrorCause, TakesNoMemory};
ghost use Rattle.ptree.specs.declared.sink.DrawError.TheVariants.{Memory};

use super::text::ROOM;
use crate::item::{Children, Shaped, TreeItem};
use crate::parsed::{Parsed, ParsedPart};
use crate::sink::{DrawError, Sink, Stop, put_or_stop};
use crate::style::Style;
use crate::style::codes::Codes;
use std::alloc::{AllocError, Global};

/// A value in its place in a document, with its label or its key. As an item it is without what is
/// below it.
#[derive(Clone, Copy)]
pub(crate) enum DocumentNode<'a> {
    /// A value under a label, which is empty if there is none.
    Labelled(&'a str, ParsedPart<'a>),

    /// A key of a table and its value.
    Entry(&'a str, ParsedPart<'a>),
}

impl<'a> DocumentNode<'a> {
    /// Returns the root of a document's drawing.
    pub(crate) fn root(label: &'a str, parsed: &'a Parsed) -> DocumentNode<'a>
        ensures { node_pair_of result ≡ (label.now, parsed_of parsed.now) }
    {
        DocumentNode::Labelled(label, parsed.top())
    }

    /// Returns the value.
    #[inline(always)]
    pub(super) fn part(&self) -> &ParsedPart<'a>
        ensures { value_pairs (part_of result.now) ≡ value_pairs (node_pair_of self.now).1 }
    {
        match self {
            DocumentNode::Labelled(_, part) => part,
            DocumentNode::Entry(_, part) => part,
        }
    }
}

impl Shaped for DocumentNode<'_> {
    ghost shape = { λ n. over_shape (pair_own (node_pair_of n)) [] };
}

impl<'a> TreeItem for DocumentNode<'a> {
    type Child = DocumentNode<'a>;

    /// Writes the text painted. It does not allocate.
    #[inline(always)]
    fn write_self<W: Sink>(&self, _alloc: Global, f: &mut W, style: &Style) -> Result<(), DrawError>
        ensures bytes { IsWritten (W.contents f.old) (W.contents f.new) result
            (pair_own (node_pair_of self.now) (style_of style.now)) }
        ensures cause { HasCause (W.faults f.old) (W.faults f.new) result }
        ensures memory { TakesNoMemory result }
    {
        let mut room = [0; ROOM];
        let (label, part) = match self {
            DocumentNode::Labelled(label, part) => (label, part),
            DocumentNode::Entry(key, part) => {
                if !part.is_list() {
                    return write_entry(f, style, key, part.text(&mut room));
                }
                (key, part)
            }
        };
        style.write_painted_bytes(f, labelled_text(label, part, &mut room))
    }

    fn children(&self, _alloc: Global) -> Result<Children<'_, DocumentNode<'a>>, AllocError> {
        Ok(Children::Lent(&[]))
    }
}

// Returns the bytes of the label, or of the value's text if the label is empty.
#[inline(always)]
fn labelled_text<'a>(label: &'a str, part: &'a ParsedPart<'_>, room: &'a mut [u8; ROOM]) -> &'a [u8]
    ensures { result.now ≡ pair_text (label.now, part_of part.now) }
{
    if label.is_empty() {
        part.text(room)
    } else {
        label.as_bytes()
    }
}

// Writes `key = value` painted.
#[inline(always)]
fn write_entry<W: Sink>(f: &mut W, style: &Style, key: &str, value: &[u8]) -> Result<(), DrawError>
    ensures bytes { IsWritten (W.contents f.old) (W.contents f.new) result
        (painted_text (style_of style.now) (key.now ++ codes " = " ++ value.now)) }
    ensures cause { HasCause (W.faults f.old) (W.faults f.new) result }
    ensures memory { TakesNoMemory result }
{
    let mut error = DrawError::Memory;
    let written = if style.is_plain() {
        put_entry(f, key, value, &mut error)
    } else {
        put_painted(f, style, key, value, &mut error)
    };
    match written {
        Ok(()) => Ok(()),
        Err(_) => Err(error),
    }
}

// Writes `key = value` painted in any style, and stores a failure of the sink in `error`. It is a
// function of its own, since each call pays for the buffer of the codes.
#[inline(never)]
fn put_painted<W: Sink>(
    f: &mut W,
    style: &Style,
    key: &str,
    value: &[u8],
    error: &mut DrawError,
) -> Result<(), Stop>
    requires { error.old ≡ Memory }
    ensures bytes { IsWritten (W.contents f.old) (W.contents f.new) result
        (painted_text (style_of style.now) (key.now ++ codes " = " ++ value.now)) }
    ensures cause { HasErrorCause (W.faults f.old) (W.faults f.new) error.new }
    ensures error { OnOk result (error.new ≡ Memory) }
    ensures memory { OnErr result (error.new ≢ Memory) }
{
    let codes = Codes::of(style);
    put_or_stop(f, codes.as_bytes(), error)?;
    put_entry(f, key, value, error)?;
    put_or_stop(f, codes.reset().as_bytes(), error)
}

// Writes `key = value`, and stores a failure of the sink in `error`. It is a function of its own, so
// that a value without a key is written without a call.
#[inline(never)]
fn put_entry<W: Sink>(f: &mut W, key: &str, value: &[u8], error: &mut DrawError) -> Result<(), Stop>
    requires { error.old ≡ Memory }
    ensures bytes { IsWritten (W.contents f.old) (W.contents f.new) result
        (key.now ++ codes " = " ++ value.now) }
    ensures cause { HasErrorCause (W.faults f.old) (W.faults f.new) error.new }
    ensures error { OnOk result (error.new ≡ Memory) }
    ensures memory { OnErr result (error.new ≢ Memory) }
{
    put_or_stop(f, key.as_bytes(), error)?;
    put_or_stop(f, b" = ", error)?;
    put_or_stop(f, value, error)
}
