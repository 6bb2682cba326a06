//! Callers that read drawings.
ghost use Rattle.std.specs.Prelude.{◌≡◌, ◌↔◌, ◌≤◌, ◌<◌, ◌-◌, false, IfOk, IsOkUnless, IfSome, IsTrue, IsSomeAnd, Ok, None, string_bytes};
ghost use Rattle.ptree.specs.Continuation.{HasContinuation, IsFollowedBy, first_lines};
ghost use Rattle.ptree.specs.declared.read.ReadError.{ReadError};
ghost use Rattle.ptree.specs.DrawnForm.{IsDrawnForm};
ghost use Rattle.ptree.specs.Drawing.{look_by, written_look};
ghost use Rattle.ptree.specs.Preset.{preset_of};
ghost use Rattle.ptree.specs.Readable.{HasReadablePieces};
ghost use Rattle.ptree.specs.ReadItems.{read_text_of};
ghost use Rattle.ptree.specs.Tree.{Tree, tree_of, height};
ghost use Rattle.ptree.specs.declared.print_config.OutputKind.{OutputKind};

use ptree::item::StringItem;
use ptree::presets::Preset;
use ptree::print_config::{ASCII_CHARS_TICK, IndentChars, PrintConfig, StaticIndentChars};
use ptree::read::{
    ItemReader, ReadError, ReadItem, ReadText, lines_that_follow, pieces_readable, read_tree,
    read_tree_or_line,
};
use std::alloc::{AllocError, Global};

/// Draws a tree and reads it back. Whatever its texts, what comes back is the tree.
pub fn there_and_back(
    alloc: Global,
    tree: &StringItem,
    config: &PrintConfig,
) -> Result<Option<StringItem>, AllocError>
    requires readable { HasReadablePieces config.now }
    requires within { height (tree_of tree.now).children ≤ config.now.depth }
    ensures { IfOk result (λ o. IsSomeAnd o (λ t. tree_of t ≡ tree_of tree.now)) }
{
    let drawing = tree.drawing(alloc, config)?;
    read_tree(alloc, drawing.as_str(), config)
}

/// Draws a tree and reads it back, which finds no wrong line.
pub fn there_and_back_by_lines(
    alloc: Global,
    tree: &StringItem,
    config: &PrintConfig,
) -> Result<StringItem, ReadError>
    requires readable { HasReadablePieces config.now }
    requires within { height (tree_of tree.now).children ≤ config.now.depth }
    ensures tree { IfOk result (λ t. tree_of t ≡ tree_of tree.now) }
    ensures err { IsOkUnless result ReadError.Memory }
{
    let drawing = tree.drawing(alloc, config)?;
    read_tree_or_line(alloc, drawing.as_str(), config)
}

/// Reads a text, and draws what was read: that is the text, whatever was read.
pub fn drawn_anew(
    alloc: Global,
    text: &str,
    config: &PrintConfig,
) -> Result<Option<String>, AllocError>
    requires { HasReadablePieces config.now }
    ensures { IfOk result (λ o. IfSome o (λ s. string_bytes s ≡ text.now)) }
{
    match read_tree(alloc, text, config)? {
        Some(tree) => Ok(Some(tree.drawing(alloc, config)?)),
        None => Ok(None),
    }
}

/// The same, but a text that is no drawing is reported by its first wrong line.
pub fn drawn_anew_by_lines(
    alloc: Global,
    text: &str,
    config: &PrintConfig,
) -> Result<String, ReadError>
    requires { HasReadablePieces config.now }
    ensures { IfOk result (λ s. string_bytes s ≡ text.now) }
{
    let tree = read_tree_or_line(alloc, text, config)?;
    Ok(tree.drawing(alloc, config)?)
}

/// The first wrong line of a text that is no drawing, or none if it is a drawing or is incomplete.
/// No line before it is wrong.
pub fn wrong_line(
    alloc: Global,
    text: &str,
    config: &PrintConfig,
) -> Result<Option<usize>, AllocError>
    requires { HasReadablePieces config.now }
    ensures wrong { IfOk result (λ o. IfSome o (λ n. (1 ≤ n)
        × (HasContinuation (written_look config.now) config.now.depth (first_lines n text.now) → ⊥)
        × HasContinuation (written_look config.now) config.now.depth
        (first_lines (n - 1) text.now))) }
{
    match read_tree_or_line(alloc, text, config) {
        Ok(_) => Ok(None),
        Err(ReadError::Line(line)) => Ok(Some(line)),
        Err(ReadError::End) => Ok(None),
        Err(ReadError::Memory) => Err(AllocError),
    }
}

/// Reads on to the end of a drawing or to the first error, and calls once more: whatever the text
/// is, there is no further item.
pub fn read_past_the_end<'a>(
    reader: &mut ItemReader<'a, '_>,
) -> Result<Option<ReadItem<'a>>, ReadError>
    ensures { result ≡ Ok None }
{
    loop {
        match reader.next_item() {
            Ok(Some(_)) => {}
            Ok(None) | Err(_) => return reader.next_item(),
        }
    }
}

/// Counts the items that are left, and calls once more: there is no further item.
pub fn read_behind_the_rest<'a>(
    reader: &mut ItemReader<'a, '_>,
) -> Result<Option<ReadItem<'a>>, ReadError>
    ensures { result ≡ Ok None }
{
    let _ = reader.count_rest();
    reader.next_item()
}

/// Reads the root of a text alone. If the text is the drawing of a tree, it is the tree's root.
pub fn root_text<'a>(
    alloc: Global,
    text: &'a str,
    config: &PrintConfig,
) -> Result<ReadText<'a>, ReadError>
    requires { HasReadablePieces config.now }
    ensures { (t : Tree) → IsDrawnForm (written_look config.now) config.now.depth text.now t
        → IfOk result (λ root. read_text_of root ≡ t.text) }
{
    let mut reader = ItemReader::new(alloc, text, config)?;
    match reader.next_item()? {
        Some(item) => Ok(item.text),
        None => unreachable!(),
    }
}

/// Whether a line can follow a text: some drawing begins with both.
pub fn can_follow(
    alloc: Global,
    text: &str,
    line: &str,
    config: &PrintConfig,
) -> Result<bool, AllocError>
    requires { HasReadablePieces config.now }
    ensures { IfOk result (λ can. IsTrue can
        ↔ IsFollowedBy (written_look config.now) config.now.depth text.now line.now) }
{
    let lines = vec![in alloc; String::from_str(alloc, line)?]?;
    Ok(lines_that_follow(alloc, text, &lines, config)?[0])
}

/// Reads where the configuration allows it, and else returns none.
pub fn read_if_readable(
    alloc: Global,
    text: &str,
    config: &PrintConfig,
) -> Result<Option<StringItem>, AllocError>
    ensures { IfOk result (λ o. IfSome o (λ t.
        IsDrawnForm (written_look config.now) config.now.depth text.now (tree_of t))) }
{
    if pieces_readable(alloc, config)? {
        read_tree(alloc, text, config)
    } else {
        Ok(None)
    }
}

/// With the set that has ticks no dash is drawn at indent 2, and then the pieces are not readable.
pub fn short_ticks(alloc: Global) -> Result<bool, AllocError>
    ensures { IfOk result (λ b. b ≡ false) }
{
    let mut config = PrintConfig::default(alloc)?;
    config.characters = IndentChars::from_static(alloc, ASCII_CHARS_TICK)?;
    config.indent = 2;
    pieces_readable(alloc, &config)
}

/// The default configuration's pieces are readable.
pub fn default_is_readable(alloc: Global) -> Result<bool, AllocError>
    ensures { IfOk result IsTrue }
{
    let config = PrintConfig::default(alloc)?;
    pieces_readable(alloc, &config)
}

// The pieces of `tree`.
const TREE: StaticIndentChars = StaticIndentChars {
    down_and_right: "├── ",
    down: "│\u{a0}\u{a0} ",
    turn_right: "└── ",
    right: "",
    empty: "    ",
};

/// Reads what `tree --noreport` writes. Indent, padding and characters are constants here, so that
/// the pieces are known to be readable, and no test is needed.
pub fn read_listing(alloc: Global, text: &str) -> Result<Option<StringItem>, AllocError> {
    let mut config = PrintConfig::default(alloc)?;
    config.indent = 0;
    config.padding = 0;
    config.characters = IndentChars::from_static(alloc, TREE)?;
    read_tree(alloc, text, &config)
}

/// Reads what a program wrote. The pieces are readable, whichever program it is.
pub fn read_output(
    alloc: Global,
    text: &str,
    program: Preset,
) -> Result<Option<StringItem>, AllocError>
    ensures { let value = preset_of program in
        IfOk result (λ o. IfSome o (λ t.
        IsDrawnForm (look_by value OutputKind.Unknown false) value.depth text.now (tree_of t))) }
{
    let config = program.config(alloc)?;
    read_tree(alloc, text, &config)
}
