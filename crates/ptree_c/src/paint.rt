//! Paints texts, and says what output is styled.
ghost use Rattle.std.specs.Prelude.{◌≡◌, ◌<◌, ◌≤◌, ℕ, List, IfOk, length, string_bytes};
ghost use Rattle.ptree.specs.Style.{painted_text};
ghost use Rattle.ptree_c.specs.Fields.{style_value, number_styled, look_of, output_look};
ghost use Rattle.ptree_c.specs.Refusals.{IsRefused};
ghost use Rattle.ptree_c.specs.Rooms.{filled, found_sizes};
ghost use Rattle.ptree_c.specs.declared.fields.ConfigFields.{ConfigFields};

use crate::answer::{put_bytes, refuse};
use crate::fields::{StyleFields, style_of_fields, styled};
use crate::refusal::Refusal;
use crate::room::Found;
use ptree::print_config::StyleWhen;
use std::alloc::Global;
use std::str;

// A text painted as fields say.
fn painted(
    alloc: Global,
    text: &[u8],
    fields: &StyleFields,
    names: &[u8],
) -> Result<String, Refusal>
    ensures { IfOk result (λ painted.
        string_bytes painted ≡ painted_text (style_value names.now fields.now) text.now) }
{
    let Ok(text) = str::from_utf8(text) else {
        return Err(Refusal::Utf8(0));
    };
    let style = style_of_fields(alloc, names, fields)?;
    Ok(style.paint(alloc, text)?)
}

/// Puts a text, painted as the fields of a style say, into `out`, as much as there is room for. The
/// names of colours are parts of `names`. `found` gets the length of the whole.
#[unsafe(no_mangle)]
pub extern "C" fn ptree_paint(
    alloc: Global,
    text: &[u8],
    style: &StyleFields,
    names: &[u8],
    out: &mut [u8],
    found: &mut Found,
) -> u32
    ensures painted { result ≡ 0
        → (out.new ≡ filled out.old (painted_text (style_value names.now style.now) text.now))
        × (found.new
        ≡ found_sizes (length (painted_text (style_value names.now style.now) text.now)) 0) }
    ensures kept { 0 < result → out.new ≡ out.old }
    ensures refused { 0 < result → (e : Refusal) × IsRefused result found.new e }
{
    match painted(alloc, text, style, names) {
        Ok(text) => put_bytes(text.as_bytes(), 0, out, found),
        Err(refusal) => refuse(refusal, found),
    }
}

/// Returns 1 if output is styled by the number of `styled`, 0 if it is not, and 17 if there is no
/// such number. The other two say whether it is standard output, and whether that is a terminal: 0
/// is no, and any other number is yes.
#[unsafe(no_mangle)]
pub extern "C" fn ptree_is_styled(number: u32, is_standard_output: u32, is_terminal: u32) -> u32
    ensures styled { number ≤ 2 → result ≡ number_styled number is_standard_output is_terminal }
    ensures refused { 2 < number → result ≡ 17 }
    // Fields that say so draw into memory what they would draw to that output.
    ensures look { number ≤ 2 → (names : List ℕ) (fields : ConfigFields) → fields.styled ≡ number
        → look_of names (record fields { styled = result })
        ≡ output_look names fields is_standard_output is_terminal }
{
    match styled(number) {
        Ok(StyleWhen::Never) => 0,
        Ok(StyleWhen::Always) => 1,
        Ok(StyleWhen::Tty) => (is_standard_output != 0 && is_terminal != 0) as u32,
        Err(refusal) => refusal.number(),
    }
}
