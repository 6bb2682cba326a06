//! Escapes the characters that a terminal would act on.
ghost use Rattle.std.specs.Char.{digit_char};
ghost use Rattle.std.specs.Prelude.{◌≡◌, ◌≢◌, ◌<◌, ◌≤◌, ◌↔◌, ◌++◌, ◌∷◌, ℕ, List, All, IfOk, OnOk, false, string_bytes};
ghost use Rattle.std.specs.Str.{encode_utf8_all, IsUtf8, NoCharPasses};
ghost use Rattle.ptree.specs.Tree.{tree_of};
ghost use Rattle.ptree_trees.specs.Escape.{backslash, turns_text, is_hidden, is_escaped, letter_u, hex_digits, escape_char, escaped_text, mapped_tree};

use ptree::item::StringItem;
use std::alloc::{AllocError, Global};

/// Returns a text in which an escape replaces each backslash, and each character that a terminal
/// would act on and not show.
///
/// These characters are the controls (below 32, and 127 to 159), the changes of direction (U+061C,
/// U+200E, U+200F, U+202A to U+202E, U+2066 to U+2069), and the separators of lines and paragraphs
/// (U+2028, U+2029). Their escapes are those of JSON: `\b`, `\t`, `\n`, `\f`, `\r`, and for the
/// others `\u` with four lowercase hexadecimal digits. A backslash becomes `\\`, so two different
/// texts never get the same result: the escapes can be read back. All else stays as it is, also
/// quotes, and letters of scripts that run from right to left.
///
/// Use it before a text from elsewhere is drawn. It takes time for each character, and allocates
/// the result.
///
/// # Errors
///
/// Memory ran out.
pub fn escaped(alloc: Global, text: &str) -> Result<String, AllocError>
    ensures text { IfOk result (λ s. string_bytes s ≡ escaped_text text.now) }
    ensures shown { IfOk result (λ s. NoCharPasses is_hidden (string_bytes s)) }
    ensures bytes { IfOk result (λ s. All (λ b. (32 ≤ b) × (b ≢ 127)) (string_bytes s)) }
    ensures apart { IfOk result (λ s. (other : List ℕ) → IsUtf8 other
        → escaped_text other ≡ string_bytes s → other ≡ text.now) }
{
    if !needs_escape(text) {
        return String::from_str(alloc, text);
    }
    let mut out = String::with_capacity(alloc, text.len())?;
    for c in text.chars() {
        push_escaped(&mut out, c)?;
    }
    Ok(out)
}

/// Returns a tree with each of its texts [`escaped`].
///
/// It takes time for each item and each character, and allocates the result. It calls itself once
/// for each level.
///
/// # Errors
///
/// Memory ran out.
pub fn escaped_item(alloc: Global, item: &StringItem) -> Result<StringItem, AllocError>
    ensures { IfOk result (λ s. tree_of s ≡ mapped_tree escaped_text (tree_of item.now)) }
{
    let mut children = Vec::with_capacity(alloc, item.children.len())?;
    for child in &item.children {
        let copy = escaped_item(alloc, child)?;
        children.push(copy)?;
    }
    Ok(StringItem {
        text: escaped(alloc, item.text.as_str())?,
        children,
    })
}

/// Whether [`escaped`] would change a text. It does not allocate.
pub fn needs_escape(text: &str) -> bool
    ensures { (result ≡ false) ↔ (escaped_text text.now ≡ text.now) }
{
    text.chars().any(|c| is_escaped(c))
}

/// Adds what [`escaped`] has for a character.
///
/// # Errors
///
/// Memory ran out.
pub fn push_escaped(out: &mut String, c: char) -> Result<(), AllocError>
    ensures { OnOk result
        (string_bytes out.new ≡ string_bytes out.old ++ encode_utf8_all (escape_char c)) }
{
    match c {
        '\u{8}' => out.push_str("\\b"),
        '\t' => out.push_str("\\t"),
        '\n' => out.push_str("\\n"),
        '\u{c}' => out.push_str("\\f"),
        '\r' => out.push_str("\\r"),
        '\\' => out.push_str("\\\\"),
        _ if is_hidden(c) => push_code(out, c),
        _ => out.push(c),
    }
}

// Adds a backslash, a u and the digits of a character's code.
fn push_code(out: &mut String, c: char) -> Result<(), AllocError>
    requires { c < 65536 }
    ensures { OnOk result
        (string_bytes out.new ≡ string_bytes out.old ++ backslash ∷ letter_u ∷ hex_digits c) }
{
    let code = c as u32;
    out.push_str("\\u")?;
    out.push(hex_digit(code / 4096))?;
    out.push(hex_digit(code / 256 % 16))?;
    out.push(hex_digit(code / 16 % 16))?;
    out.push(hex_digit(code % 16))
}

// Returns a hexadecimal digit.
fn hex_digit(digit: u32) -> char
    requires { digit < 16 }
    ensures { result ≡ digit_char digit }
{
    char::from_digit(digit, 16).unwrap_or('0')
}

// Whether a character has an escape.
fn is_escaped(c: char) -> bool
    ensures { result ≡ is_escaped c }
{
    c == '\\' || is_hidden(c)
}

// Whether a terminal would act on a character and not show it.
fn is_hidden(c: char) -> bool
    ensures { result ≡ is_hidden c }
{
    c.is_control() || turns_text(c) || ('\u{2028}'..='\u{2029}').contains(&c)
}

// Whether a character changes the direction of the text after it.
fn turns_text(c: char) -> bool
    ensures { result ≡ turns_text c }
{
    matches!(
        c,
        '\u{61c}' | '\u{200e}'..='\u{200f}' | '\u{202a}'..='\u{202e}' | '\u{2066}'..='\u{2069}'
    )
}
