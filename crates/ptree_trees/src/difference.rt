//! Finds the first difference of two trees.
ghost use Rattle.std.specs.Prelude.{◌≡◌, ◌≢◌, ◌↔◌, ℕ, ◌<◌, ◌≤◌, [], List, option_map, reverse, IfErr, IfOk, IfSome, IsTrue, MatchResult, Some, None};
ghost use Rattle.ptree.specs.Drawing.{Look, written_look};
ghost use Rattle.ptree.specs.ItemReader.{HasRead, bytes_left};
ghost use Rattle.ptree.specs.Outline.{Line};
ghost use Rattle.ptree.specs.ReadItems.{read_text_of};
ghost use Rattle.ptree.specs.Readable.{HasReadablePieces};
ghost use Rattle.ptree.specs.Scanned.{IsError};
ghost use Rattle.ptree.specs.Tree.{tree_of};
ghost use Rattle.ptree_trees.specs.Difference.{DifferAt, AreSameBefore, StandThere, AreDrawingsWith, IsErrorOf};
ghost use Rattle.ptree_trees.specs.Found.{IsFound, FindsFrom, HasLeft, IsReading, IsReadOn, IsOtherReadOn, first_below};

use ptree::item::StringItem;
use ptree::print_config::PrintConfig;
use ptree::read::{ItemReader, ReadError, ReadText};
use std::alloc::{AllocError, Global};
use std::error::Error;
use std::fmt;

/// Where two trees differ, and what stands there in each.
#[derive(Debug, Drop)]
pub struct Difference<'a> {
    /// The positions of children that lead there from the root, counted from 0.
    pub address: Vec<usize>,

    /// The item there in the left tree, if there is one.
    pub left: Option<&'a StringItem>,

    /// The item there in the right tree, if there is one.
    pub right: Option<&'a StringItem>,
}

/// Returns the first difference of two trees, or `None` exactly if they are equal.
///
/// Two trees differ at an address if another text stands there in each, or nothing in one of them.
/// The result is the least such address, in the order in which a drawing shows the items: an item
/// before those below it, and those before its next sibling.
///
/// It takes time for each item up to the difference, and for the bytes of their texts. It allocates
/// only the address.
///
/// # Errors
///
/// Memory ran out.
pub fn first_difference<'a>(
    alloc: Global,
    left: &'a StringItem,
    right: &'a StringItem,
) -> Result<Option<Difference<'a>>, AllocError>
    ensures differ { IfOk result (λ o. IfSome o (λ d.
        DifferAt (tree_of left.now) (tree_of right.now) d.address.items)) }
    ensures stand { IfOk result (λ o. IfSome o (λ d.
        StandThere (tree_of left.now) (tree_of right.now) d)) }
    ensures least { IfOk result (λ o. IfSome o (λ d.
        AreSameBefore (tree_of left.now) (tree_of right.now) d.address.items)) }
    ensures none { IfOk result (λ o. (o ≡ None) ↔ (tree_of left.now ≡ tree_of right.now)) }
{
    let Some(mut found) = find_difference(alloc, left, right)? else {
        return Ok(None);
    };
    found.address.reverse();
    Ok(Some(found))
}

/// Where the trees of two drawings differ, and what stands there in each.
#[derive(Debug, Drop)]
pub struct ItemDifference<'a> {
    /// The positions of children that lead there from the root, counted from 0.
    pub address: Vec<usize>,

    /// The texts above it, from the root on.
    pub above: Vec<ReadText<'a>>,

    /// The text there in the left drawing, if an item stands there.
    pub left: Option<ReadText<'a>>,

    /// The text there in the right drawing, if an item stands there.
    pub right: Option<ReadText<'a>>,
}

/// Which of two texts was not read, and why.
#[derive(Debug, Clone, Copy, PartialEq, Eq)]
pub enum DrawingsError {
    /// The left one.
    Left(ReadError),

    /// The right one. The left one is a drawing.
    Right(ReadError),
}

impl fmt::Display for DrawingsError {
    fn fmt<W: fmt::Write>(&self, f: &mut fmt::Formatter<W>) -> fmt::Result {
        match self {
            DrawingsError::Left(ReadError::Memory) | DrawingsError::Right(ReadError::Memory) => {
                f.write_str("out of memory")
            }
            DrawingsError::Left(error) => write!(f, "the left drawing: {error}"),
            DrawingsError::Right(error) => write!(f, "the right drawing: {error}"),
        }
    }
}

impl Error for DrawingsError {}

/// Returns the first difference of the trees of two drawings, or `None` exactly if they are equal.
///
/// It is that which [`first_difference`] returns of the trees, and no tree is made. Both texts are
/// read to their ends, so it takes time for their bytes, and a call a level. It allocates the
/// address, the texts above it, and what two [`ItemReader`]s do.
///
/// The call requires readable pieces, as [`read_tree`](ptree::read::read_tree) does.
///
/// # Errors
///
/// A text is no drawing, or memory ran out. Of two wrong texts the left one is reported.
pub fn first_drawn_difference<'a>(
    alloc: Global,
    left: &'a str,
    right: &'a str,
    config: &PrintConfig,
) -> Result<Option<ItemDifference<'a>>, DrawingsError>
    requires { HasReadablePieces config.now }
    ensures differ { IfOk result
        (AreDrawingsWith (written_look config.now) config.now.depth left.now right.now) }
    ensures wrong { IfErr result
        (IsErrorOf (written_look config.now) config.now.depth left.now right.now) }
{
    let mut items = match ItemReader::new(alloc, left, config) {
        Ok(items) => items,
        Err(error) => return Err(DrawingsError::Left(error)),
    };
    let found = match ItemReader::new(alloc, right, config) {
        Ok(mut others) => find_first(alloc, &mut items, &mut others),
        Err(error) => Err(wrong_right(&mut items, error)),
    };
    drop(items);
    found
}

// Returns that the right text is wrong or, if the left one is too, that this is.
fn wrong_right(items: &mut ItemReader<'_, '_>, error: ReadError) -> DrawingsError
    ensures { (look : Look) (depth : ℕ) (x y : List ℕ) → IsReading look depth x items.old
        → IsError look depth y error → IsErrorOf look depth x y result }
{
    match items.count_rest() {
        Ok(_) => DrawingsError::Right(error),
        Err(error) => DrawingsError::Left(error),
    }
}

// Finds the first difference of two drawings, and reads both to their ends.
fn find_first<'a>(
    alloc: Global,
    items: &mut ItemReader<'a, '_>,
    others: &mut ItemReader<'a, '_>,
) -> Result<Option<ItemDifference<'a>>, DrawingsError>
    requires left { 0 < bytes_left items.old }
    requires right { 0 < bytes_left others.old }
    ensures { (look : Look) (depth : ℕ) (x y : List ℕ) → HasRead look depth x items.old []
        → HasRead look depth y others.old [] → MatchResult result
        (AreDrawingsWith look depth x y) (IsErrorOf look depth x y) }
{
    let found = match find_from(alloc, items, others) {
        Ok(found) => found,
        Err(error) => return Err(DrawingsError::Left(error)),
    };
    let first = match found {
        Found::Nothing => None,
        Found::Difference(mut first) => {
            first.address.reverse();
            first.above.reverse();
            Some(first)
        }
        Found::Wrong(error) => return Err(wrong_right(items, error)),
    };
    if let Err(error) = others.count_rest() {
        return Err(wrong_right(items, error));
    }
    match items.count_rest() {
        Ok(_) => Ok(first),
        Err(error) => Err(DrawingsError::Left(error)),
    }
}

// What a search for the first difference to a text has found: nothing, a difference, whose address
// and texts above it are in reverse order, or why the text is no drawing.
#[derive(Drop)]
enum Found<'a> {
    Nothing,
    Difference(ItemDifference<'a>),
    Wrong(ReadError),
}

// Finds the first difference in the next items and those below them. If there is none, the readers
// are behind these afterwards. The address and the texts above it are in reverse order. An error is
// that of the left drawing.
fn find_from<'a>(
    alloc: Global,
    left: &mut ItemReader<'a, '_>,
    right: &mut ItemReader<'a, '_>,
) -> Result<Found<'a>, ReadError>
    requires left { 0 < bytes_left left.old }
    requires right { 0 < bytes_left right.old }
    ensures left { (look : Look) (depth : ℕ) (x : List ℕ) → IsReading look depth x left.old
        → IsReadOn look depth x left.new result }
    ensures right { (look : Look) (depth : ℕ) (x : List ℕ) → IsReading look depth x right.old
        → IfOk result (IsOtherReadOn look depth x right.new) }
    ensures found { (look : Look) (depth : ℕ) (x y : List ℕ)
        → IfOk result (FindsFrom look depth x y left.old right.old left.new right.new) }
    ensures fewer { bytes_left left.new < bytes_left left.old }
{
    let Some(own) = left.next_item()? else {
        return Ok(Found::Nothing);
    };
    let other = match right.next_item() {
        Ok(Some(other)) => other,
        Ok(None) => return Ok(Found::Nothing),
        Err(error) => return Ok(Found::Wrong(error)),
    };
    let (level, text) = (own.level, own.text);
    if text.as_str() != other.text.as_str() {
        let (address, above) = (Vec::new(alloc), Vec::new(alloc));
        return Ok(differ_at(address, above, Some(text), Some(other.text)));
    }
    let mut i = 0;
    while is_below(left, level) && is_below(right, level) {
        match find_from(alloc, left, right)? {
            Found::Nothing => i += 1,
            Found::Difference(mut below) => {
                below.address.push(i)?;
                below.above.push(text)?;
                return Ok(Found::Difference(below));
            }
            Found::Wrong(error) => return Ok(Found::Wrong(error)),
        }
    }
    if !is_below(left, level) && !is_below(right, level) {
        return Ok(Found::Nothing);
    }
    let a = text_below(left, level)?;
    let b = match text_below(right, level) {
        Ok(b) => b,
        Err(error) => return Ok(Found::Wrong(error)),
    };
    let (address, above) = (vec![in alloc; i]?, vec![in alloc; text]?);
    Ok(differ_at(address, above, a, b))
}

// Whether the next item is below a level.
#[inline(always)]
fn is_below(reader: &ItemReader<'_, '_>, level: usize) -> bool
    ensures below { (look : Look) (depth : ℕ) (x : List ℕ) (lines : List Line)
        → HasLeft look depth x reader.now lines
        → (IsTrue result ↔ (first_below level lines ≢ None)) }
    ensures some { IsTrue result → 0 < bytes_left reader.now }
{
    match reader.next_level() {
        Some(next) => next > level,
        None => false,
    }
}

// Reads the next item if it is below a level, and returns its text.
fn text_below<'a>(
    reader: &mut ItemReader<'a, '_>,
    level: usize,
) -> Result<Option<ReadText<'a>>, ReadError>
    ensures text { (look : Look) (depth : ℕ) (x : List ℕ) (lines : List Line)
        → HasLeft look depth x reader.old lines
        → IfOk result (λ o. option_map read_text_of o ≡ first_below level lines) }
    ensures reading { (look : Look) (depth : ℕ) (x : List ℕ) → IsReading look depth x reader.old
        → IsReadOn look depth x reader.new result }
    ensures fewer { bytes_left reader.new ≤ bytes_left reader.old }
{
    if !is_below(reader, level) {
        return Ok(None);
    }
    match reader.next_item()? {
        Some(item) => Ok(Some(item.text)),
        None => Ok(None),
    }
}

// Returns the difference at an address, with the texts above it and there.
fn differ_at<'a>(
    address: Vec<usize>,
    above: Vec<ReadText<'a>>,
    left: Option<ReadText<'a>>,
    right: Option<ReadText<'a>>,
) -> Found<'a>
    ensures { result ≡ Found.Difference (record {
      address = address;
      above = above.entry;
      left = left.entry;
      right = right.entry;
    }) }
{
    Found::Difference(ItemDifference {
        address,
        above,
        left,
        right,
    })
}

// Finds the first difference. Its address is in reverse order.
fn find_difference<'a>(
    alloc: Global,
    left: &'a StringItem,
    right: &'a StringItem,
) -> Result<Option<Difference<'a>>, AllocError>
    ensures { IfOk result (λ o. IsFound (tree_of left.now) (tree_of right.now) o) }
{
    if left.text != right.text {
        return Ok(found_at(Vec::new(alloc), Some(left), Some(right)));
    }
    for (i, child) in left.children.iter().enumerate() {
        let Some(other) = right.children.get(i) else {
            return Ok(found_at(vec![in alloc; i]?, Some(child), None));
        };
        if let Some(mut found) = find_difference(alloc, child, other)? {
            found.address.push(i)?;
            return Ok(Some(found));
        }
    }
    let Some(other) = right.children.get(left.children.len()) else {
        return Ok(None);
    };
    let end = vec![in alloc; left.children.len()]?;
    Ok(found_at(end, None, Some(other)))
}

// Returns the difference at an address, and what stands there in each tree.
fn found_at<'a>(
    address: Vec<usize>,
    left: Option<&'a StringItem>,
    right: Option<&'a StringItem>,
) -> Option<Difference<'a>>
    ensures { result ≡ Some (record { address = address; left = left.entry; right = right.entry }) }
{
    Some(Difference {
        address,
        left,
        right,
    })
}
