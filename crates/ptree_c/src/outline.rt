//! Draws the items of an outline without making their tree.
ghost use Rattle.std.specs.Prelude.{◌≡◌, ◌≢◌, ◌<◌, ◌≤◌, ◌+◌, ◌∷◌, ◌++◌, [], ℕ, List, not, length, IfOk, IfErr, IfSome, OnOk};
ghost use Rattle.ptree.specs.Drawing.{written_look};
ghost use Rattle.ptree.specs.ItemWriter.{writer_look, path_of};
ghost use Rattle.ptree_c.specs.Calls.{IsItemsDrawing};
ghost use Rattle.ptree_c.specs.Fields.{is_set};
ghost use Rattle.ptree_c.specs.Outlines.{has_later_item, AreLater, AreLastFlags, AreItems, AreRight, StepsDown, IsFirstWrong, IsItemsRefusal, IsRightAfter, IsWrongAfter, drawn_text, kept_before, kept_path, steps_from};
ghost use Rattle.ptree_c.specs.Refusals.{IsRefused, IsTextBetween};
ghost use Rattle.ptree_c.specs.Rooms.{HasPut, IsFilled};
ghost use Rattle.ptree_c.specs.declared.items.Item.{Item};

use crate::answer::{refuse, report};
use crate::fields::{Part, flag};
use crate::items::Item;
use crate::refusal::Refusal;
use crate::room::{Found, put};
use crate::steps::Step;
use crate::texts::Texts;
use ptree::PrintConfig;
use ptree::output::ItemWriter;
use ptree::print_config::OutputKind;
use std::alloc::{AllocError, Global};

// Checks an item at a place, and its text, by the item before it.
fn check_after(before: &Item, item: &Item, texts: &Texts<'_>, place: usize) -> Result<(), Refusal>
    ensures right { OnOk result (IsRightAfter texts.now.bytes.now before.now item.now) }
    ensures refused { IfErr result
        (IsWrongAfter texts.now.bytes.now before.now place item.now) }
{
    texts.check(before.end, item.end, place)?;
    if item.level == 0 || item.level - 1 > before.level {
        return Err(Refusal::Level(place));
    }
    Ok(())
}

// Checks items and their texts, and returns the deepest level.
fn deepest_of_items(items: &[Item], texts: &Texts<'_>) -> Result<u32, Refusal>
    ensures deepest { IfOk result (λ deepest. AreItems deepest items.now) }
    ensures right { OnOk result (AreRight texts.now.bytes.now items.now) }
    ensures refused { IfErr result (IsFirstWrong texts.now.bytes.now items.now) }
{
    let (mut before, mut rest) = match items.split_first() {
        Some((root, below)) if root.level == 0 => (root, below),
        _ => return Err(Refusal::Level(0)),
    };
    texts.check(0, before.end, 0)?;
    let mut deepest = 0;
    while let Some((item, tail)) = rest.split_first() {
        let place = items.len().saturating_sub(rest.len());
        check_after(before, item, texts, place)?;
        deepest = deepest.max(item.level);
        before = item;
        rest = tail;
    }
    Ok(deepest)
}

// Whether an item at a level is its parent's last child, by what is known of the later items.
fn is_last(later: &[u8], level: usize) -> u8
    requires { level < length later.now }
    ensures { (items : List Item) → AreLater later.now items
        → is_set result ≡ not (has_later_item items level) }
{
    if flag(later[level]) { 0 } else { 1 }
}

// What is known of no later items. There is room for a level more than the deepest one.
fn no_later(alloc: Global, deepest: u32) -> Result<Vec<u8>, AllocError>
    ensures none { IfOk result (λ later. AreLater later.items []) }
    ensures room { IfOk result (λ later. length later.items ≡ deepest + 2) }
{
    let mut later = Vec::new(alloc);
    later.resize(deepest as usize + 2, 0)?;
    Ok(later)
}

// Puts an item at a level before the later items, the first of which is at most one level deeper.
fn put_level(later: &mut Vec<u8>, level: usize)
    requires { level + 1 < length later.old.items }
    ensures later { (deepest : ℕ) (i : Item) (items : List Item) → i.level ≡ level
        → StepsDown deepest level items → AreLater later.old.items items
        → AreLater later.new.items (i ∷ items) }
    ensures length { length later.new.items ≡ length later.old.items }
{
    later[level] = 1;
    later[level + 1] = 0;
}

// Says of each item whether it is its parent's last child. None is deeper than `deepest`.
fn last_flags(alloc: Global, items: &[Item], deepest: u32) -> Result<Vec<u8>, AllocError>
    requires { AreItems deepest items.now }
    ensures flags { IfOk result (λ flags. AreLastFlags items.now flags.items) }
    ensures length { IfOk result (λ flags. length flags.items ≡ length items.now) }
{
    let mut flags = Vec::new(alloc);
    flags.resize(items.len(), 0)?;
    let mut later = no_later(alloc, deepest)?;
    let mut place = items.len();
    while place > 0 {
        place -= 1;
        let level = items[place].level as usize;
        flags[place] = is_last(&later, level);
        put_level(&mut later, level);
    }
    Ok(flags)
}

// Draws an item behind the bytes that end at a place, unless it is deeper than a depth, and returns
// where its entry ends. None if memory ran out.
#[inline(always)]
fn draw_item(
    writer: &mut ItemWriter<'_>,
    texts: &Texts<'_>,
    step: &Step,
    depth: u32,
    out: &mut [u8],
    at: usize,
) -> Option<usize>
    requires { IsTextBetween texts.now.bytes.now step.now.text.start step.now.text.end }
    ensures filled { (room before : List ℕ) → IsFilled room before out.old at
        → IfSome result (IsFilled room (before ++ drawn_text (writer_look writer.old)
        texts.now.bytes.now (path_of writer.old) (kept_before depth step.now [])) out.new) }
    ensures path { IfSome result (λ _.
        path_of writer.new ≡ kept_path depth (path_of writer.old) step.now) }
    ensures look { writer_look writer.new ≡ writer_look writer.old }
{
    if step.level > depth {
        return Some(at);
    }
    let text = texts.part(step.text);
    match writer.make_text(step.level, flag(step.is_last), text) {
        Ok(()) => put(out, at, writer.entry()),
        Err(_) => None,
    }
}

// Draws items down to a depth, each with its flag, as much as there is room for, and returns the
// length of the drawing. None if memory ran out.
fn draw_items(
    writer: &mut ItemWriter<'_>,
    texts: &Texts<'_>,
    items: &[Item],
    flags: &[u8],
    depth: u32,
    out: &mut [u8],
) -> Option<usize>
    requires flags { length flags.now ≡ length items.now }
    requires right { AreRight texts.now.bytes.now items.now }
    ensures { IfSome result (IsFilled out.old (drawn_text (writer_look writer.old)
        texts.now.bytes.now (path_of writer.old) (steps_from depth 0 items.now flags.now)) out.new) }
{
    let mut at = 0;
    let mut from = 0;
    for place in 0..items.len() {
        let item = items[place];
        let step = Step {
            text: Part {
                start: from,
                end: item.end,
            },
            level: item.level,
            is_last: flags[place],
        };
        at = draw_item(writer, texts, &step, depth, out, at)?;
        from = item.end;
    }
    Some(at)
}

// Draws items, as much as there is room for, and returns the length of the drawing.
fn draw_outline(
    alloc: Global,
    items: &[Item],
    texts: &[u8],
    config: &PrintConfig,
    out: &mut [u8],
) -> Result<usize, Refusal>
    ensures drawn { IfOk result (λ size. (drawing : List ℕ)
        × IsItemsDrawing (written_look config.now) config.now.depth items.now texts.now drawing
        × IsFilled out.old drawing out.new size) }
    ensures kept { IfErr result (λ e. e ≢ Refusal.Memory → out.new ≡ out.old) }
    ensures right { OnOk result (AreRight texts.now items.now) }
    ensures refused { IfErr result (IsItemsRefusal texts.now items.now) }
{
    let known = Texts::new(texts);
    let deepest = deepest_of_items(items, &known)?;
    let flags = last_flags(alloc, items, deepest)?;
    let mut writer = ItemWriter::new(alloc, config, OutputKind::Unknown, false)?;
    let drawn = draw_items(&mut writer, &known, items, &flags, config.depth, out);
    drop(writer);
    match drawn {
        Some(size) => Ok(size),
        None => Err(Refusal::Memory),
    }
}

/// Puts the drawing of items, as a configuration says, into the memory of the caller.
pub(crate) fn put_outline(
    alloc: Global,
    items: &[Item],
    texts: &[u8],
    config: PrintConfig,
    out: &mut [u8],
    found: &mut Found,
) -> u32
    ensures drawn { result ≡ 0 → HasPut (IsItemsDrawing (written_look config) config.depth
        items.now texts.now) (length items.now) out.old out.new found.new }
    ensures kept { 1 < result → out.new ≡ out.old }
    ensures right { result ≡ 0 → AreRight texts.now items.now }
    ensures refused { 0 < result → (e : Refusal) × IsRefused result found.new e
        × IsItemsRefusal texts.now items.now e }
{
    let drawn = draw_outline(alloc, items, texts, &config, out);
    drop(config);
    match drawn {
        Ok(size) => report(size, items.len(), found),
        Err(refusal) => refuse(refusal, found),
    }
}
