//! The texts that the engine puts around an item's own bytes.
ghost use Rattle.std.specs.Prelude.{◌≡◌, Some, IfOk, string_bytes};
ghost use Rattle.ptree.specs.Looks.{look_of, AreOwnTexts, AreFurtherTexts, own_text, further_text};

use crate::output::indent::joined;
use crate::output::look::Look;
use std::alloc::{AllocError, Global};

// The texts of a look.
#[derive(Drop)]
struct Texts {
    end: String,
    regular: String,
    last_regular: String,
    root_further: String,
    further: String,
    last_further: String,
}

impl Texts {
    // Makes the texts of a look.
    fn new(alloc: Global, look: &Look<'_>) -> Result<Texts, AllocError>
        ensures own_lines { IfOk result (λ t. AreOwnTexts (look_of look.now)
            (string_bytes t.end) (string_bytes t.regular) (string_bytes t.last_regular)) }
        ensures further_lines { IfOk result (λ t. AreFurtherTexts (look_of look.now)
            (string_bytes t.root_further) (string_bytes t.further)
            (string_bytes t.last_further)) }
    {
        let (pieces, marker) = (&look.pieces, look.marker);
        let end = look.branch.end_text(alloc)?;
        Ok(Texts {
            regular: joined(alloc, pieces.turning(false), "", end.as_str())?,
            last_regular: joined(alloc, pieces.turning(true), "", end.as_str())?,
            root_further: joined(alloc, "", marker, end.as_str())?,
            further: joined(alloc, pieces.passing(false), marker, end.as_str())?,
            last_further: joined(alloc, pieces.passing(true), marker, end.as_str())?,
            end,
        })
    }
}

/// What the engine appends to its buffer.
#[derive(Drop)]
pub(crate) struct Brush<'a> {
    pub(crate) alloc: Global,
    pub(crate) look: Look<'a>,
    texts: Texts,
    ghost own_lines: { AreOwnTexts (look_of look) (string_bytes texts.end)
        (string_bytes texts.regular) (string_bytes texts.last_regular) },
    ghost further_lines: { AreFurtherTexts (look_of look) (string_bytes texts.root_further)
        (string_bytes texts.further) (string_bytes texts.last_further) },
}

impl<'a> Brush<'a> {
    ghost use Rattle.std.specs.Prelude.{None};

    // Makes the brush of a look.
    pub(crate) fn new(alloc: Global, look: Look<'a>) -> Result<Brush<'a>, AllocError>
        ensures { IfOk result (λ b. b.look ≡ look.entry) }
    {
        let texts = Texts::new(alloc, &look)?;
        Ok(Brush { alloc, look, texts })
    }

    // Returns the branch's end codes.
    #[inline(always)]
    pub(crate) fn end(&self) -> &str
        ensures { result.now ≡ own_text (look_of self.now.look) None }
    {
        self.texts.end.as_str()
    }

    // Returns a turning piece with the branch's end codes.
    #[inline(always)]
    pub(crate) fn turn(&self, is_last: bool) -> &str
        ensures { result.now ≡ own_text (look_of self.now.look) (Some is_last) }
    {
        if is_last {
            self.texts.last_regular.as_str()
        } else {
            self.texts.regular.as_str()
        }
    }

    // Returns what is before a further line, after the passing text: the item's passing piece, the
    // marker and the branch's end codes. A root (`None`) has no passing piece.
    pub(crate) fn further(&self, last: Option<bool>) -> &str
        ensures { result.now ≡ further_text (look_of self.now.look) last }
    {
        match last {
            None => self.texts.root_further.as_str(),
            Some(false) => self.texts.further.as_str(),
            Some(true) => self.texts.last_further.as_str(),
        }
    }
}
