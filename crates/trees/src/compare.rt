//! Compares two trees.
ghost use Rattle.std.specs.Prelude.{◌≡◌, ◌↔◌, ◌++◌, length, map, option_map, IfOk, MatchOption, OnOk, string_bytes};
ghost use Rattle.ptree.specs.ReadItems.{read_text_of};
ghost use Rattle.ptree.specs.Style.{style_of};
ghost use Rattle.ptree.specs.Tree.{Tree, tree_of};
ghost use Rattle.ptree_trees.specs.Difference.{IsItemDifference};
ghost use Rattle.trees.specs.Merging.{TellsDifference, way_text, place_line, side_line, ShowsMerge, ShowsBoth, styled_forest, styled_tree_of, side_mark, side_style, marked_tree, roots_text};
ghost use Rattle.trees.specs.MergingParts.{ArePlaces, AreAllOrNone, HasPlaces, IsFoundAt, LacksText};

use crate::screen::shown_text;
use ptree::item::StringItem;
use ptree::read::ReadText;
use ptree::style::{Color, Style};
use ptree_trees::difference::ItemDifference;
use ptree_trees::escape::escaped;
use ptree_trees::styled::StyledItem;
use std::alloc::{AllocError, Global};

/// Returns what is said of the first difference of two trees: the texts above it, which child it
/// is, and what stands there in each. The texts are escaped, each on one line.
///
/// # Errors
///
/// Memory ran out.
pub fn first(alloc: Global, found: &ItemDifference<'_>) -> Result<String, AllocError>
    ensures { (t u : Tree) → IsItemDifference t u found.now
        → IfOk result (λ s. TellsDifference t u (string_bytes s)) }
{
    let mut said = String::new(alloc);
    push_way(alloc, &mut said, &found.above)?;
    push_place(&mut said, &found.address)?;
    push_side(alloc, &mut said, Side::Left, &found.left)?;
    push_side(alloc, &mut said, Side::Right, &found.right)?;
    Ok(said)
}

// Adds the texts above a difference, from the root on.
fn push_way(alloc: Global, said: &mut String, above: &[ReadText<'_>]) -> Result<(), AllocError>
    ensures { OnOk result (string_bytes said.new
        ≡ string_bytes said.old ++ way_text (map read_text_of above.now)) }
{
    for text in above {
        let text = escaped(alloc, text.as_str())?;
        write!(said, "{text} / ")?;
    }
    Ok(())
}

// Adds which child an address leads to, counted from 1, or that it is the root's.
fn push_place(said: &mut String, address: &[usize]) -> Result<(), AllocError>
    ensures { OnOk result (string_bytes said.new
        ≡ string_bytes said.old ++ place_line address.now) }
{
    match address.last() {
        Some(position) => {
            let child = *position as u128 + 1;
            writeln!(said, "child {child}")
        }
        None => writeln!(said, "root"),
    }
}

// Adds the line of a side: the text that stands there, or that nothing does.
fn push_side(
    alloc: Global,
    said: &mut String,
    side: Side,
    text: &Option<ReadText<'_>>,
) -> Result<(), AllocError>
    ensures { OnOk result (string_bytes said.new ≡ string_bytes said.old
        ++ side_line side (option_map read_text_of text.now)) }
{
    let mark = side.mark();
    let Some(text) = text else {
        return writeln!(said, "{mark}(nothing)");
    };
    let text = escaped(alloc, text.as_str())?;
    writeln!(said, "{mark}{text}")
}

/// How the texts of both trees are shown.
#[derive(Clone, Copy)]
pub struct Look {
    /// Whether those that are in one tree alone are coloured.
    pub is_colored: bool,

    /// Whether they are escaped. Two texts are equal exactly if their escapes are.
    pub is_escaped: bool,
}

// Which of two trees alone has an item.
#[derive(Clone, Copy)]
enum Side {
    Left,
    Right,
}

impl Side {
    // Returns the mark before a text that is in one tree alone.
    fn mark(self) -> &'static str
        ensures { result.now ≡ side_mark self }
    {
        match self {
            Side::Left => "- ",
            Side::Right => "+ ",
        }
    }

    // Returns the style of such a text.
    fn style(self, look: Look) -> Option<Style>
        ensures { option_map style_of result ≡ side_style look self }
    {
        if !look.is_colored {
            return None;
        }
        let mut style = Style::default();
        style.foreground = Some(match self {
            Side::Left => Color::Red,
            Side::Right => Color::Green,
        });
        Some(style)
    }
}

/// Returns a tree of both trees: the items of each in order, where the text of an item is only in
/// the left one behind `- `, in red, and only in the right one behind `+ `, in green.
///
/// # Errors
///
/// Memory ran out.
#[cycle(both)]
pub fn both(
    alloc: Global,
    left: &StringItem,
    right: &StringItem,
    look: Look,
) -> Result<StyledItem, AllocError>
    ensures { IfOk result (λ s.
        ShowsBoth look (tree_of left.now) (tree_of right.now) (styled_tree_of s)) }
{
    let text = both_texts(alloc, left.text.as_str(), right.text.as_str(), look)?;
    let children = both_children(alloc, left, right, look)?;
    StyledItem::new(alloc, text.as_str(), None, children)
}

// Returns the text of both items, or both texts with their marks.
fn both_texts(alloc: Global, left: &str, right: &str, look: Look) -> Result<String, AllocError>
    ensures { IfOk result (λ s. string_bytes s ≡ roots_text look left.now right.now) }
{
    let text = shown_text(alloc, left, look.is_escaped)?;
    if left == right {
        return Ok(text);
    }
    let other = shown_text(alloc, right, look.is_escaped)?;
    format!(in alloc; "- {text}\n+ {other}")
}

// Returns the children of both items. An item of the left one goes with the next item of the right
// one that has its text; what is passed over is only in one.
#[cycle(both)]
fn both_children(
    alloc: Global,
    left: &StringItem,
    right: &StringItem,
    look: Look,
) -> Result<Vec<StyledItem>, AllocError>
    ensures { IfOk result (λ v.
        ShowsMerge look (tree_of left.now).children (tree_of right.now).children
        (styled_forest (map styled_tree_of v.items))) }
{
    let others = right.children.as_slice();
    let mut places = Places::new(alloc, others);
    let mut taken = 0;
    let mut made = Vec::new(alloc);
    for child in &left.children {
        match places.next_with(taken, child.text.as_str())? {
            Some(at) => {
                push_right(alloc, &mut made, &others[taken..at], look)?;
                made.push(both(alloc, child, &others[at], look)?)?;
                taken = at + 1;
            }
            None => made.push(marked(alloc, Side::Left, child, look)?)?,
        }
    }
    push_right(alloc, &mut made, &others[taken..], look)?;
    Ok(made)
}

// Items among which texts are looked for.
#[derive(Drop)]
struct Places<'a> {
    items: &'a [StringItem],

    // Their texts with their positions, ascending. It is empty until it is needed.
    sorted: Vec<(&'a str, usize)>,
    ghost places: { AreAllOrNone items.now sorted.items },
}

impl<'a> Places<'a> {
    // Nothing is sorted at first.
    fn new(alloc: Global, items: &'a [StringItem]) -> Places<'a>
        ensures { result.items.now ≡ items.now }
    {
        Places {
            items,
            sorted: Vec::new(alloc),
        }
    }

    // Returns the position of the first item with a text, from a position on.
    fn next_with(&mut self, from: usize, text: &str) -> Result<Option<usize>, AllocError>
        ensures found { IfOk result (λ o. MatchOption o
            (LacksText self.old.items.now from (length self.old.items.now) text.now)
            (IsFoundAt self.old.items.now from text.now)) }
        ensures kept { self.new.items.now ≡ self.old.items.now }
    {
        let Some(item) = self.items.get(from) else {
            return Ok(None);
        };
        if item.text.as_str() == text {
            return Ok(Some(from));
        }
        if self.sorted.is_empty() {
            self.sorted = sorted_places(*self.sorted.allocator(), self.items)?;
        }
        let at = match self.sorted.binary_search(&(text, from)) {
            Ok(at) | Err(at) => at,
        };
        match self.sorted.get(at) {
            Some((found, position)) if *found == text => Ok(Some(*position)),
            _ => Ok(None),
        }
    }
}

// Returns the texts of items with their positions, ascending.
fn sorted_places<'a>(
    alloc: Global,
    items: &'a [StringItem],
) -> Result<Vec<(&'a str, usize)>, AllocError>
    ensures places { IfOk result (λ v. ArePlaces items.now v.items) }
    ensures all { IfOk result (λ v. HasPlaces items.now (length items.now) v.items) }
{
    let mut places = Vec::new(alloc);
    for (i, item) in items.iter().enumerate() {
        places.push((item.text.as_str(), i))?;
    }
    places.sort_unstable();
    Ok(places)
}

// Adds items that are only in the right tree.
fn push_right(
    alloc: Global,
    made: &mut Vec<StyledItem>,
    items: &[StringItem],
    look: Look,
) -> Result<(), AllocError>
    ensures { OnOk result (map styled_tree_of made.new.items ≡ map styled_tree_of made.old.items
        ++ map (marked_tree look Side.Right) (map tree_of items.now)) }
{
    for item in items {
        made.push(marked(alloc, Side::Right, item, look)?)?;
    }
    Ok(())
}

// Returns an item and those below it with a mark before their texts, in its colour.
fn marked(
    alloc: Global,
    side: Side,
    item: &StringItem,
    look: Look,
) -> Result<StyledItem, AllocError>
    ensures { IfOk result (λ s. styled_tree_of s ≡ marked_tree look side (tree_of item.now)) }
{
    let text = shown_text(alloc, item.text.as_str(), look.is_escaped)?;
    let text = format!(in alloc; "{}{text}", side.mark())?;
    let mut children = Vec::new(alloc);
    for child in &item.children {
        children.push(marked(alloc, side, child, look)?)?;
    }
    StyledItem::new(alloc, text.as_str(), side.style(look), children)
}
