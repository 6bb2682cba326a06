//! Draws items that are given one by one, as many at once as the caller likes.
ghost use Rattle.std.specs.Prelude.{◌≡◌, ◌≢◌, ◌≤◌, ◌<◌, ◌+◌, ◌-◌, ◌++◌, ℕ, List, length, take, IfOk, IfErr, IsErrOf, IfSome, OnOk, OnErr, ◌⊎◌};
ghost use Rattle.ptree.specs.Drawing.{written_look};
ghost use Rattle.ptree.specs.ItemWriter.{writer_look, path_of, entry_of};
ghost use Rattle.ptree_c.specs.Fields.{look_of};
ghost use Rattle.ptree_c.specs.Refusals.{IsTextBetween};
ghost use Rattle.ptree_c.specs.Rooms.{filled, IsFilled};
ghost use Rattle.ptree_c.specs.Steps.{path_with, path_after, step_entry, steps_text, IsOnPath, IsNextLength, DrawsTrees, DrawsParts};

use crate::answer::refuse;
use crate::fields::{ConfigFields, Part, config_of_fields, flag};
use crate::refusal::Refusal;
use crate::room::{Found, put_whole};
use crate::texts::Texts;
use ptree::PrintConfig;
use ptree::output::ItemWriter;
use ptree::print_config::OutputKind;
use std::alloc::{AllocError, Global};

/// An item, with whether it is its parent's last child.
#[repr(C)]
#[derive(Clone, Copy)]
pub struct Step {
    /// The item's text.
    pub text: Part,

    /// The item's level; a root has level 0.
    pub level: u32,

    /// Whether the item is its parent's last child: it is if this is not 0.
    pub is_last: u8,
}

// Why no more items were drawn.
#[derive(Clone, Copy)]
enum Stop {
    // All were drawn.
    All,

    // The next entry, of so many bytes, does not fit.
    Full(usize),

    // The next item is refused.
    Refused(Refusal),
}

// Sets the flag of a level. A root has none.
fn set_flag(path: &mut [u8], level: u32, is_last: u8)
    requires { level ≤ length path.old }
    ensures { path.new ≡ path_with path.old level is_last }
{
    if level != 0 {
        path[level as usize - 1] = is_last;
    }
}

// Goes below the items of a path, down to a level.
#[inline(always)]
fn go_below(writer: &mut ItemWriter<'_>, path: &[u8], level: usize) -> Result<(), AllocError>
    requires on_path { IsOnPath path.now writer.old }
    requires within { level ≤ length path.now }
    ensures on_path { OnOk result (IsOnPath path.now writer.new) }
    ensures level { OnOk result (level ≤ length (path_of writer.new)) }
    ensures look { writer_look writer.new ≡ writer_look writer.old }
{
    while writer.level() < level {
        writer.open(flag(path[writer.level()]))?;
    }
    Ok(())
}

// Makes the entry of an item below those of a path.
#[inline(always)]
fn make_step(
    writer: &mut ItemWriter<'_>,
    path: &[u8],
    texts: &Texts<'_>,
    step: &Step,
) -> Result<(), AllocError>
    requires text { IsTextBetween texts.now.bytes.now step.now.text.start step.now.text.end }
    requires on_path { IsOnPath path.now writer.old }
    requires within { step.now.level ≤ length path.now }
    ensures entry { OnOk result (entry_of writer.new
        ≡ step_entry (writer_look writer.old) texts.now.bytes.now path.now step.now) }
    ensures on_path { OnOk result
        (IsOnPath (path_with path.now step.now.level step.now.is_last) writer.new) }
    ensures look { writer_look writer.new ≡ writer_look writer.old }
{
    let level = step.level as usize;
    go_below(writer, path, level.saturating_sub(1))?;
    let text = texts.part(step.text);
    match writer.make_text(step.level, flag(step.is_last), text) {
        Ok(()) => Ok(()),
        Err(_) => Err(AllocError),
    }
}

// Makes the entry of the item at a place.
#[inline(always)]
fn reach_step(
    writer: &mut ItemWriter<'_>,
    path: &[u8],
    texts: &Texts<'_>,
    step: &Step,
    place: usize,
) -> Result<(), Refusal>
    requires { IsOnPath path.now writer.old }
    ensures entry { OnOk result (entry_of writer.new
        ≡ step_entry (writer_look writer.old) texts.now.bytes.now path.now step.now) }
    ensures on_path { OnOk result
        (IsOnPath (path_with path.now step.now.level step.now.is_last) writer.new) }
    ensures look { writer_look writer.new ≡ writer_look writer.old }
    ensures within { OnOk result (step.now.level ≤ length path.now) }
{
    if step.level as usize > path.len() {
        return Err(Refusal::Level(place));
    }
    texts.check(step.text.start, step.text.end, place)?;
    make_step(writer, path, texts, step)?;
    Ok(())
}

// Draws the item at a place, if there is room for its entry, and sets its flag in the path. Returns
// where the entry ends.
#[inline(always)]
fn add_step(
    writer: &mut ItemWriter<'_>,
    path: &mut [u8],
    texts: &Texts<'_>,
    step: &Step,
    place: usize,
    out: &mut [u8],
    at: usize,
) -> Result<usize, Stop>
    requires on_path { IsOnPath path.old writer.old }
    requires room { at ≤ length out.old }
    ensures filled { (room before : List ℕ) → IsFilled room before out.old at
        → IfOk result (λ end. IsFilled room
        (before ++ step_entry (writer_look writer.old) texts.now.bytes.now path.old step.now)
        out.new end) }
    ensures path { OnOk result
        (path.new ≡ path_with path.old step.now.level step.now.is_last) }
    ensures kept { OnErr result ((out.new ≡ out.old) × (path.new ≡ path.old)) }
    ensures on_path { OnOk result (IsOnPath path.new writer.new) }
    ensures look { writer_look writer.new ≡ writer_look writer.old }
    ensures room { IfOk result (λ end. end ≤ length out.old) }
    ensures full { IfErr result (λ stop. (n : ℕ) → stop ≡ Stop.Full n → length out.old < at + n) }
    ensures length { IfErr result (λ stop. (n : ℕ) → stop ≡ Stop.Full n
        → n ≡ length (step_entry (writer_look writer.old) texts.now.bytes.now path.old step.now)) }
    ensures stopped { IfErr result (λ stop. stop ≢ Stop.All) }
{
    match reach_step(writer, path, texts, step, place) {
        Ok(()) => {}
        Err(refusal) => return Err(Stop::Refused(refusal)),
    }
    let entry = writer.entry();
    if entry.len() > out.len() - at {
        return Err(Stop::Full(entry.len()));
    }
    let end = put_whole(out, at, entry);
    set_flag(path, step.level, step.is_last);
    Ok(end)
}

// How many bytes were drawn, of how many items, and why it ended there.
#[derive(Clone, Copy)]
struct Drawn {
    bytes: usize,
    items: usize,
    stop: Stop,
}

// Draws items in turn, as many as there is room for.
fn draw_steps(
    alloc: Global,
    config: &PrintConfig,
    path: &mut [u8],
    texts: &[u8],
    steps: &[Step],
    out: &mut [u8],
) -> Result<Drawn, AllocError>
    ensures items { IfOk result (λ d. d.items ≤ length steps.now) }
    ensures filled { IfOk result (λ d. IsFilled out.old
        (steps_text (written_look config.now) texts.now path.old (take d.items steps.now))
        out.new d.bytes) }
    ensures room { IfOk result (λ d. d.bytes ≤ length out.old) }
    ensures path { IfOk result (λ d. path.new ≡ path_after path.old (take d.items steps.now)) }
    ensures kept { OnErr result ((out.new ≡ out.old) × (path.new ≡ path.old)) }
    ensures all { IfOk result (λ d. d.stop ≡ Stop.All → d.items ≡ length steps.now) }
    ensures full { IfOk result (λ d. (n : ℕ) → d.stop ≡ Stop.Full n
        → length out.old < d.bytes + n) }
    ensures next { IfOk result (λ d. (n : ℕ) → d.stop ≡ Stop.Full n
        → IsNextLength (written_look config.now) texts.now path.new steps.now d.items n) }
{
    let known = Texts::new(texts);
    let mut writer = ItemWriter::new(alloc, config, OutputKind::Unknown, false)?;
    let mut bytes = 0;
    let mut items = 0;
    let mut rest = steps;
    while let Some((step, tail)) = rest.split_first() {
        match add_step(&mut writer, path, &known, step, items, out, bytes) {
            Ok(end) => bytes = end,
            Err(stop) => return Ok(Drawn { bytes, items, stop }),
        }
        items += 1;
        rest = tail;
    }
    Ok(Drawn {
        bytes,
        items,
        stop: Stop::All,
    })
}

// Draws items in turn as the fields of a configuration say.
fn draw_by_fields(
    alloc: Global,
    fields: &ConfigFields,
    names: &[u8],
    path: &mut [u8],
    texts: &[u8],
    steps: &[Step],
    out: &mut [u8],
) -> Result<Drawn, Refusal>
    ensures items { IfOk result (λ d. d.items ≤ length steps.now) }
    ensures filled { IfOk result (λ d. IsFilled out.old
        (steps_text (look_of names.now fields.now) texts.now path.old (take d.items steps.now))
        out.new d.bytes) }
    ensures room { IfOk result (λ d. d.bytes ≤ length out.old) }
    ensures path { IfOk result (λ d. path.new ≡ path_after path.old (take d.items steps.now)) }
    ensures kept { OnErr result ((out.new ≡ out.old) × (path.new ≡ path.old)) }
    ensures all { IfOk result (λ d. d.stop ≡ Stop.All → d.items ≡ length steps.now) }
    ensures full { IfOk result (λ d. (n : ℕ) → d.stop ≡ Stop.Full n
        → length out.old < d.bytes + n) }
    ensures next { IfOk result (λ d. (n : ℕ) → d.stop ≡ Stop.Full n
        → IsNextLength (look_of names.now fields.now) texts.now path.new steps.now d.items n) }
    ensures styled { 2 < fields.now.styled → IsErrOf result Refusal.Styled }
{
    let config = config_of_fields(alloc, names, fields)?;
    let drawn = draw_steps(alloc, &config, path, texts, steps, out);
    drop(config);
    Ok(drawn?)
}

// Reports what was drawn.
fn report(drawn: Drawn, found: &mut Found) -> u32
    ensures length { found.new.bytes ≡ drawn.bytes }
    ensures items { found.new.items ≡ drawn.items }
    ensures all { result ≡ 0 → found.new.place ≡ 0
        → (drawn.stop ≡ Stop.All) ⊎ (drawn.stop ≡ Stop.Full 0) }
    ensures full { result ≡ 0 → 0 < found.new.place → drawn.stop ≡ Stop.Full found.new.place }
{
    found.bytes = drawn.bytes;
    found.items = drawn.items;
    match drawn.stop {
        Stop::All => {
            found.place = 0;
            0
        }
        Stop::Full(length) => {
            found.place = length;
            0
        }
        Stop::Refused(refusal) => {
            found.place = refusal.place();
            refusal.number()
        }
    }
}

/// Draws items that are given in the order of drawing into `out`, as many as there is room for, as
/// the fields of a configuration say, whose texts are parts of `names`. `path` says of the levels
/// from 1 on whether the last item there is its parent's last child; it is as long as the deepest
/// level, and the caller keeps it from call to call. `found` gets the number of items that were
/// drawn and the length of their entries; where the next one's entry had no room, `place` is its
/// length, and else 0.
#[unsafe(no_mangle)]
pub extern "C" fn ptree_draw_steps(
    alloc: Global,
    steps: &[Step],
    texts: &[u8],
    path: &mut [u8],
    config: &ConfigFields,
    names: &[u8],
    out: &mut [u8],
    found: &mut Found,
) -> u32
    ensures items { found.new.items ≤ length steps.now }
    // The entries of the first items were drawn, also where a later one is refused.
    ensures drawn { let text = steps_text (look_of names.now config.now) texts.now path.old
        (take found.new.items steps.now) in
        (out.new ≡ filled out.old text) × (found.new.bytes ≡ length text) }
    ensures path { path.new ≡ path_after path.old (take found.new.items steps.now) }
    ensures room { found.new.bytes ≤ length out.old }
    ensures all { result ≡ 0 → found.new.place ≡ 0 → found.new.items ≡ length steps.now }
    ensures full { result ≡ 0 → 0 < found.new.place
        → length out.old < found.new.bytes + found.new.place }
    // `place` is the length of the next item's entry.
    ensures next { result ≡ 0 → 0 < found.new.place
        → IsNextLength (look_of names.now config.now) texts.now path.new steps.now found.new.items
        found.new.place }
    ensures styled { 2 < config.now.styled → result ≡ 17 }
    // The entries of a tree's items are its drawing, also where several calls draw them.
    ensures trees { DrawsTrees (look_of names.now config.now) texts.now }
    ensures parts { DrawsParts (look_of names.now config.now) texts.now }
{
    match draw_by_fields(alloc, config, names, path, texts, steps, out) {
        Ok(drawn) => report(drawn, found),
        Err(refusal) => refuse(refusal, found),
    }
}
