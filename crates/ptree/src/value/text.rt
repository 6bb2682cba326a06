//! The texts of values.
ghost use Rattle.std.specs.Fmt.{signed_decimal};
ghost use Rattle.std.specs.Prelude.{◌≡◌, ◌≤◌, ◌<◌, ◌+◌, ◌-◌, ◌/◌, ◌%◌, ◌∷◌, drop, length, decimal, IsUtf8};
ghost use Rattle.ptree.specs.Data.{value_text};
ghost use Rattle.ptree.specs.Value.{data_of};

use super::Value;
use std::str;

/// The longest text of a number: a sign and 19 digits, or 20 digits.
pub(crate) const ROOM: usize = 20;

// The numbers below 100 as two digits each.
static PAIRS: [u8; 200] = *b"\
    0001020304050607080910111213141516171819\
    2021222324252627282930313233343536373839\
    4041424344454647484950515253545556575859\
    6061626364656667686970717273747576777879\
    8081828384858687888990919293949596979899";

impl Value {
    /// Returns the value's text: one that it holds, or one that is made in `room`.
    pub(crate) fn text<'a>(&'a self, room: &'a mut [u8; ROOM]) -> &'a str
        ensures { result.now ≡ value_text (data_of self.now) }
    {
        match self {
            Value::Bool(true) => "true",
            Value::Bool(false) => "false",
            Value::U8(n) => unsigned(room, u64::from(*n)),
            Value::U16(n) => unsigned(room, u64::from(*n)),
            Value::U32(n) => unsigned(room, u64::from(*n)),
            Value::U64(n) => unsigned(room, *n),
            Value::I8(n) => signed(room, i64::from(*n)),
            Value::I16(n) => signed(room, i64::from(*n)),
            Value::I32(n) => signed(room, i64::from(*n)),
            Value::I64(n) => signed(room, *n),
            Value::Char(c) => c.encode_utf8(room),
            Value::String(text) => text.as_str(),
            Value::Option(Some(value)) => value.text(room),
            Value::Newtype(value) => value.text(room),
            Value::Unit | Value::Option(None) => "",
            Value::Seq(_) | Value::Map(_) | Value::Bytes(_) => "",
        }
    }
}

// Returns a number in decimal.
fn unsigned(room: &mut [u8; ROOM], n: u64) -> &str
    ensures { result.now ≡ decimal n }
{
    let start = write_digits(room, n);
    end_of(room, start)
}

// Returns a number in decimal, with `-` before a negative one.
fn signed(room: &mut [u8; ROOM], n: i64) -> &str
    ensures { result.now ≡ signed_decimal n }
{
    let start = write_signed(room, n);
    end_of(room, start)
}

// Writes a number at the end of the room, with `-` before a negative one, and returns where it
// starts.
pub(super) fn write_signed(room: &mut [u8; ROOM], n: i64) -> usize
    ensures number { drop result room.new ≡ signed_decimal n }
    ensures start { result ≤ ROOM }
{
    let start = write_digits(room, n.unsigned_abs());
    if n >= 0 {
        return start;
    }
    room[start - 1] = b'-';
    start - 1
}

// Writes the digits of a number at the end of the room, and returns where they start. A division
// gives two of them.
#[tactic(auto, using(crate::proofs::Values::NumberTexts::digit_counts))]
pub(super) fn write_digits(room: &mut [u8; ROOM], n: u64) -> usize
    ensures digits { drop result room.new ≡ decimal n }
    ensures start { result + length (decimal n) ≡ ROOM }
{
    let mut start = ROOM;
    let mut left = n;
    while left >= 100 {
        write_pair(room, start, (left % 100) as u8);
        left /= 100;
        start -= 2;
    }
    if left >= 10 {
        write_pair(room, start, left as u8);
        return start - 2;
    }
    room[start - 1] = b'0' + left as u8;
    start - 1
}

// Writes a number below 100 as two digits, which end at a place.
#[inline(always)]
fn write_pair(room: &mut [u8; ROOM], end: usize, pair: u8)
    requires pair { pair < 100 }
    requires low { 2 ≤ end }
    requires high { end ≤ ROOM }
    ensures { drop (end - 2) room.new
        ≡ (48 + pair / 10) ∷ (48 + pair % 10) ∷ drop end room.old }
{
    let at = pair as usize * 2;
    let (tens, ones) = (PAIRS[at], PAIRS[at + 1]);
    room[end - 2] = tens;
    room[end - 1] = ones;
}

// Returns the text at the end of the room.
fn end_of(room: &[u8; ROOM], start: usize) -> &str
    requires start { start ≤ ROOM }
    requires utf8 { IsUtf8 (drop start room.now) }
    ensures { result.now ≡ drop start room.now }
{
    str::from_utf8(&room[start..]).unwrap()
}
