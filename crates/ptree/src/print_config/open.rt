//! What is open at the end of a part of a TOML text: strings, lists, tables and values.
use std::alloc::{AllocError, Global};

// What the end of a text is in.
#[derive(Clone, Copy)]
enum Within {
    // Neither a comment nor a string.
    Plain,
    Comment,
    // A string, after its first quote, and after another one if the flag is set.
    Opened(u8, bool),
    // A string of one line.
    Short(u8),
    // A string of several lines, after so many quotes in a row.
    Long(u8, usize),
    // A string after a backslash, of several lines if the flag is set.
    Escape(bool),
}

impl Within {
    // Returns what the end is in after one more byte.
    fn after(self, byte: u8) -> Within {
        match self {
            Within::Comment if byte != b'\n' => self,
            Within::Opened(quote, twice) if byte == quote => {
                if twice {
                    Within::Long(quote, 0)
                } else {
                    Within::Opened(quote, true)
                }
            }
            Within::Short(quote) if byte == quote => Within::Plain,
            Within::Long(quote, run) if byte == quote => Within::Long(quote, run.saturating_add(1)),
            Within::Opened(quote, false) => Within::in_string(quote, false, byte),
            Within::Short(quote) => Within::in_string(quote, false, byte),
            Within::Long(quote, run) if run < 3 => Within::in_string(quote, true, byte),
            Within::Escape(true) => Within::Long(b'"', 0),
            Within::Escape(false) => Within::Short(b'"'),
            _ => Within::at_start(byte),
        }
    }

    // Returns what a byte begins outside of strings and comments.
    fn at_start(byte: u8) -> Within {
        match byte {
            b'#' => Within::Comment,
            b'"' | b'\'' => Within::Opened(byte, false),
            _ => Within::Plain,
        }
    }

    // Returns what the end is in after a byte of a string that is no quote.
    fn in_string(quote: u8, long: bool, byte: u8) -> Within {
        if byte == b'\\' && quote == b'"' {
            Within::Escape(long)
        } else if long {
            Within::Long(quote, 0)
        } else {
            Within::Short(quote)
        }
    }
}

// A list or a table that is open, or the text as a whole.
#[derive(Clone, Copy)]
struct Open {
    // The byte that closes it, or a blank.
    closing: u8,

    // Where the value of its last key begins, or 0 if that value is over or there is no key.
    value: usize,
}

// Returns what is open at the end of a text, from the outside in.
fn open_at_end(alloc: Global, text: &str) -> Result<Vec<Open>, AllocError> {
    let mut open = Vec::new(alloc);
    open_one(&mut open, b' ')?;
    let mut within = Within::Plain;
    for (at, byte) in text.bytes().enumerate() {
        within = within.after(byte);
        if let Within::Plain = within {
            pass(&mut open, byte, at)?;
        }
    }
    Ok(open)
}

// Goes over a byte outside of strings and comments, which is at this place.
fn pass(open: &mut Vec<Open>, byte: u8, at: usize) -> Result<(), AllocError> {
    match byte {
        b'[' => open_one(open, b']')?,
        b'{' => open_one(open, b'}')?,
        b']' | b'}' if open.len() > 1 => drop(open.pop()),
        b'=' => set_value(open, at.saturating_add(1)),
        b',' => set_value(open, 0),
        b'\n' if open.len() == 1 => set_value(open, 0),
        _ => {}
    }
    Ok(())
}

// Opens a list or a table.
fn open_one(open: &mut Vec<Open>, closing: u8) -> Result<(), AllocError> {
    open.push(Open { closing, value: 0 })?;
    Ok(())
}

// Sets where the value of the innermost one's last key begins.
fn set_value(open: &mut Vec<Open>, value: usize) {
    if let Some(last) = open.last_mut() {
        last.value = value;
    }
}

// Returns a text up to the last key whose value is not over at its end, with 0 as the value, and
// all that is open closed; or an empty text if there is no such key.
pub(super) fn with_last_value(alloc: Global, text: &str) -> Result<String, AllocError> {
    let open = open_at_end(alloc, text)?;
    let mut closed = String::new(alloc);
    for one in open.iter().rev() {
        if closed.is_empty() && one.value > 0 {
            closed.push_str(text.get(..one.value).unwrap_or(text))?;
            closed.push('0')?;
        }
        if !closed.is_empty() {
            closed.push(char::from(one.closing))?;
        }
    }
    Ok(closed)
}
