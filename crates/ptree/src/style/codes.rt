//! The codes of a style, gathered without allocating, and the call that writes codes.
ghost use Rattle.std.specs.Prelude.{◌≡◌, ◌≢◌, ◌+◌, ◌*◌, ◌≤◌, ◌<◌, [], ◌∷◌, ◌++◌, length, OnOk, OnErr, IsUtf8, decimal, option_map, option_to_list};
ghost use Rattle.ptree.specs.declared.sink.DrawError.TheVariants.{Memory};
ghost use Rattle.ptree.specs.declared.style.codes.TheConstants.{ROOM};
ghost use Rattle.ptree.specs.Color.{color_of, tone_parameters};
ghost use Rattle.ptree.specs.Style.{style_of, code, flags, flag_codes, color_code, side_codes, reset_after, start_codes, end_codes};
ghost use Rattle.ptree.specs.Writing.{IsWritten, HasErrorCause};

use crate::sink::{DrawError, Sink, Stop, put_or_stop};
use crate::style::tone::{Side, Tone, color_tone};
use crate::style::{Color, Style};
use std::str;

// Eight flags have four bytes each, and two colours at most 22 each.
const ROOM: usize = 76;

/// Codes, one after the other.
#[derive(Drop)]
pub struct Codes {
    bytes: [u8; ROOM],
    len: usize,
    ghost within: { len ≤ ROOM },
}

impl Codes {
    ghost use Rattle.ptree.specs.Codes.{IsOfEight, codes_of, joined_codes};

    /// Starts with no code.
    #[inline(always)]
    pub fn none() -> Codes
        ensures { result.len ≡ 0 }
    {
        Codes {
            bytes: [0; ROOM],
            len: 0,
        }
    }

    /// Returns the codes of a style, in order.
    pub fn of(style: &Style) -> Codes
        ensures front { codes_of result ≡ start_codes (style_of style.now) }
        ensures back { reset_after (codes_of result) ≡ end_codes (style_of style.now) }
        ensures utf8 { IsUtf8 (codes_of result) }
    {
        let mut codes = Codes::none();
        codes.gather(style);
        codes
    }

    /// Gathers the codes of a style, in order. Unlike `of`, it copies nothing when it is inlined.
    #[inline(always)]
    pub fn gather(&mut self, style: &Style)
        requires { self.old.len ≡ 0 }
        ensures front { codes_of self.new ≡ start_codes (style_of style.now) }
        ensures back { reset_after (codes_of self.new) ≡ end_codes (style_of style.now) }
        ensures utf8 { IsUtf8 (codes_of self.new) }
    {
        self.push_flags(style);
        self.push_side(&style.foreground, Side::Foreground);
        self.push_side(&style.background, Side::Background);
    }

    /// Returns the codes' bytes.
    pub fn as_bytes(&self) -> &[u8]
        ensures { result.now ≡ codes_of self.now }
    {
        &self.bytes[..self.len]
    }

    /// Returns the codes as a text.
    pub fn as_str(&self) -> &str
        requires { IsUtf8 (codes_of self.now) }
        ensures { result.now ≡ codes_of self.now }
    {
        str::from_utf8(self.as_bytes()).unwrap()
    }

    /// Returns the reset, if there is a code.
    pub fn reset(&self) -> &'static str
        ensures { result.now ≡ reset_after (codes_of self.now) }
    {
        if self.len == 0 { "" } else { "\x1b[0m" }
    }

    // Adds a code for each flag that is set.
    #[inline(always)]
    fn push_flags(&mut self, style: &Style)
        requires { self.old.len + 32 ≤ ROOM }
        ensures text { codes_of self.new
            ≡ codes_of self.old ++ joined_codes (flag_codes (flags (style_of style.now))) }
        ensures len { self.new.len ≤ self.old.len + 32 }
    {
        self.push_flag(style.bold, 1);
        self.push_flag(style.dimmed, 2);
        self.push_flag(style.italic, 3);
        self.push_flag(style.underline, 4);
        self.push_flag(style.blink, 5);
        self.push_flag(style.reverse, 7);
        self.push_flag(style.hidden, 8);
        self.push_flag(style.strikethrough, 9);
    }

    // Adds the flag's code, if it is set. The length is read and stored once, so that the four
    // bytes are stored at once.
    #[inline(always)]
    fn push_flag(&mut self, is_set: bool, digit: u8)
        requires digit { digit < 10 }
        requires room { self.old.len + 4 ≤ ROOM }
        ensures text { codes_of self.new
            ≡ codes_of self.old ++ joined_codes (flag_codes ((is_set, digit) ∷ [])) }
        ensures len { self.new.len ≤ self.old.len + 4 }
    {
        if is_set {
            let at = self.len;
            self.bytes[at] = 27;
            self.bytes[at + 1] = b'[';
            self.bytes[at + 2] = b'0' + digit;
            self.bytes[at + 3] = b'm';
            self.len = at + 4;
        }
    }

    // Adds the code that sets a side, if there is one.
    #[inline(always)]
    fn push_side(&mut self, color: &Option<Color>, side: Side)
        requires { self.old.len + 22 ≤ ROOM }
        ensures text { codes_of self.new
            ≡ codes_of self.old
            ++ joined_codes (side_codes (option_map color_of color.now) side) }
        ensures len { self.new.len ≤ self.old.len + 22 }
    {
        if let Some(color) = color {
            self.push_color(color, side);
        }
    }

    // Adds the code that sets a colour on a side, if it has one. It is a function of its own, since
    // many styles have no colour.
    #[inline(never)]
    fn push_color(&mut self, color: &Color, side: Side)
        requires { self.old.len + 22 ≤ ROOM }
        ensures text { codes_of self.new
            ≡ codes_of self.old
            ++ joined_codes (option_to_list (color_code (color_of color.now) side)) }
        ensures len { self.new.len ≤ self.old.len + 22 }
    {
        if let Some(tone) = color_tone(color) {
            self.push_tone(tone, side);
        }
    }

    // Adds the code that sets a tone on a side.
    fn push_tone(&mut self, tone: Tone, side: Side)
        requires room { self.old.len + 22 ≤ ROOM }
        requires eight { IsOfEight tone }
        ensures text { codes_of self.new
            ≡ codes_of self.old ++ code (tone_parameters side tone) }
        ensures len { self.new.len ≤ self.old.len + 22 }
    {
        match tone {
            Tone::Eight(k) => self.push_code(side.base() + k, &[]),
            Tone::Indexed(n) => self.push_code(side.extended(), &[5, n]),
            Tone::Direct(r, g, b) => self.push_code(side.extended(), &[2, r, g, b]),
        }
    }

    // Adds ESC [, the numbers with `;` between them, and m.
    #[tactic(auto, using(crate::proofs::Styles::Decimals::byte_lengths))]
    fn push_code(&mut self, first: u8, others: &[u8])
        requires { self.old.len + 4 * length others.now + 6 ≤ ROOM }
        ensures text { codes_of self.new
            ≡ codes_of self.old ++ code (first ∷ others.now) }
        ensures len { self.new.len ≤ self.old.len + 4 * length others.now + 6 }
    {
        self.push(27);
        self.push(b'[');
        self.push_number(first);
        for n in others {
            self.push(b';');
            self.push_number(*n);
        }
        self.push(b'm');
    }

    // Adds the number in decimal.
    #[tactic(auto, using(crate::proofs::Styles::Decimals::byte_digits))]
    fn push_number(&mut self, n: u8)
        requires { self.old.len + length (decimal n) ≤ ROOM }
        ensures text { codes_of self.new ≡ codes_of self.old ++ decimal n }
        ensures len { self.new.len ≡ self.old.len + length (decimal n) }
    {
        if n >= 10 {
            self.push_number(n / 10);
        }
        self.push(b'0' + n % 10);
    }

    // Adds one byte, for which there is room.
    fn push(&mut self, byte: u8)
        requires { self.old.len < ROOM }
        ensures text { codes_of self.new ≡ codes_of self.old ++ byte ∷ [] }
        ensures len { self.new.len ≡ self.old.len + 1 }
    {
        self.bytes[self.len] = byte;
        self.len += 1;
    }
}

// Writes codes, as `put_or_stop` does. Usually there is one code, a flag's: its four bytes are
// copied at once, because their number is known.
#[inline(always)]
pub(crate) fn put_codes<W: Sink>(f: &mut W, codes: &[u8], error: &mut DrawError) -> Result<(), Stop>
    requires { error.old ≡ Memory }
    ensures bytes { IsWritten (W.contents f.old) (W.contents f.new) result codes.now }
    ensures cause { HasErrorCause (W.faults f.old) (W.faults f.new) error.new }
    ensures error { OnOk result (error.new ≡ Memory) }
    ensures memory { OnErr result (error.new ≢ Memory) }
{
    match codes {
        [a, b, c, d] => put_or_stop(f, &[*a, *b, *c, *d], error),
        _ => put_or_stop(f, codes, error),
    }
}
