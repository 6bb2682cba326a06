//! Callers that make and draw items with styles of their own.
ghost use Rattle.std.specs.Prelude.{◌≡◌, length, Some, None, IfOk, IsOkAnd, string_bytes};
ghost use Rattle.ptree.specs.Drawing.{written_look, IsDrawing};
ghost use Rattle.ptree.specs.Style.{StyleValue, style_of, painted_text};
ghost use Rattle.ptree.specs.Tree.{shape_of_tree};
ghost use Rattle.ptree.specs.Writing.{IsWritten, HasCause, TakesNoMemory};
ghost use Rattle.ptree.specs.declared.style.Style.{Style};
ghost use Rattle.ptree_trees.specs.declared.styled.StyledItem.{out-StyledItem};
ghost use Rattle.ptree_trees.specs.Styled.{styled_own, styled_shape, texts_of};

use ptree::item::TreeItem;
use ptree::output::tree_bytes;
use ptree::print_config::PrintConfig;
use ptree::style::{DrawError, Sink, Style};
use ptree_trees::styled::StyledItem;
use std::alloc::{AllocError, Global};

/// Returns the drawing of an item and all below it, each text in its own style or in that of
/// leaves.
pub fn drawn(alloc: Global, item: &StyledItem, config: &PrintConfig) -> Result<Vec<u8>, AllocError>
    ensures { IfOk result (λ v.
        IsDrawing (written_look config.now) (styled_shape item.now) config.now.depth v.items) }
{
    tree_bytes(alloc, item, config)
}

/// Returns the drawing of an item's texts, without the styles of the items.
pub fn drawn_plain(
    alloc: Global,
    item: &StyledItem,
    config: &PrintConfig,
) -> Result<String, AllocError>
    ensures { IfOk result (λ s. IsDrawing (written_look config.now)
        (shape_of_tree (texts_of item.now)) config.now.depth (string_bytes s)) }
{
    let plain = item.plain(alloc)?;
    plain.drawing(alloc, config)
}

/// A leaf with a style writes its text in that style, whatever the style of leaves is.
pub fn leaf_in(alloc: Global, text: &str, style: Style) -> Result<StyledItem, AllocError>
    ensures { IfOk result (λ s. (leaf : StyleValue)
        → styled_own s leaf ≡ painted_text (style_of style) text.now) }
{
    StyledItem::leaf(alloc, text, Some(style))
}

/// A leaf without a style writes its text in the style of leaves.
pub fn leaf_as_others(alloc: Global, text: &str) -> Result<StyledItem, AllocError>
    ensures { IfOk result (λ s. (leaf : StyleValue)
        → styled_own s leaf ≡ painted_text leaf text.now) }
{
    StyledItem::leaf(alloc, text, None)
}

/// A new item has the children that it is given.
pub fn count_of_new(
    alloc: Global,
    text: &str,
    children: Vec<StyledItem>,
) -> Result<usize, AllocError>
    ensures { IfOk result (λ n. n ≡ length children.items) }
{
    let item = StyledItem::new(alloc, text, None, children)?;
    Ok(item.children.len())
}

/// Returns the number of an item's children.
pub fn count_of_lent(alloc: Global, item: &StyledItem) -> Result<usize, AllocError>
    ensures { IsOkAnd result (λ n. n ≡ length (out-StyledItem item.now).children.items) }
{
    let children = item.children(alloc)?;
    Ok(children.as_slice().len())
}

/// Writes an item's text in its own style if it has one, and else in the style of leaves.
pub fn write_item<W: Sink>(
    alloc: Global,
    f: &mut W,
    item: &StyledItem,
    leaf: &Style,
) -> Result<(), DrawError>
    ensures own { (own : Style) → (out-StyledItem item.now).style ≡ Some own
        → IsWritten (W.contents f.old) (W.contents f.new) result
        (painted_text (style_of own) (string_bytes (out-StyledItem item.now).text)) }
    ensures leaf { (out-StyledItem item.now).style ≡ None
        → IsWritten (W.contents f.old) (W.contents f.new) result
        (painted_text (style_of leaf.now) (string_bytes (out-StyledItem item.now).text)) }
    ensures cause { HasCause (W.faults f.old) (W.faults f.new) result }
    ensures memory { TakesNoMemory result }
{
    item.write_self(alloc, f, leaf)
}
