//! What could stand in the place of a wrong line.
ghost use Rattle.std.specs.Prelude.{◌≡◌, ◌≢◌, ◌↔◌, ℕ, Bool, List, [], ◌∷◌, ◌++◌, length, map, codes, IsTrue, IfOk, MatchOption, OnOk, string_bytes};
ghost use Rattle.ptree.specs.Config.{config_of};
ghost use Rattle.ptree.specs.Pieces.{passing_piece, config_pieces, pieces_of};
ghost use Rattle.ptree.specs.Readable.{IsReadable, HasReadablePieces};
ghost use Rattle.ptree.specs.Texts.{line_feed, IsPrefixOf};
ghost use Rattle.trees.specs.Expected.{ListsBeginnings, IsTooDeep, IsLastLine, AddsListed, IsFlagged, EndsPieces, EndsFront, EndsBelow, AreDistinct, AreFronts, HasFronts, AddsTexts};

use crate::levels;
use crate::source::behind;
use ptree::output::Indent;
use ptree::print_config::PrintConfig;
use ptree::read::lines_that_follow;
use std::alloc::{AllocError, Global};

// How many levels are tried.
const LEVELS: u8 = 32;

/// Returns the prefixes of an item's line that could follow these lines of a drawing, each once, on
/// a line of its own after two blanks and behind a line feed. A text follows each of them.
///
/// It tries the first 32 levels below the root.
///
/// # Errors
///
/// Memory ran out.
pub fn beginnings(alloc: Global, before: &str, config: &PrintConfig) -> Result<String, AllocError>
    requires { HasReadablePieces config.now }
    // Each of them can follow, no two are the same, and none down to that level is missing.
    ensures { IfOk result (λ listed.
        ListsBeginnings (config_of config.now) before.now (string_bytes listed)) }
{
    let indent = Indent::from_config(alloc, config)?;
    let fronts = fronts(alloc, last_line(before), &indent)?;
    let prefixes = prefixes(alloc, &fronts, &indent)?;
    let lines = with_text(alloc, &prefixes)?;
    let flags = lines_that_follow(alloc, before, &lines, config)?;
    listed(alloc, &prefixes, &flags)
}

// Returns the passing pieces behind which an item could follow this line, from the root on.
fn fronts(alloc: Global, line: &str, indent: &Indent) -> Result<Vec<String>, AllocError>
    requires { IsReadable (pieces_of indent.now) }
    ensures { IfOk result (λ fronts.
        AreFronts (pieces_of indent.now) (map string_bytes fronts.items)
        × HasFronts (pieces_of indent.now) line.now (map string_bytes fronts.items)) }
{
    let mut fronts = Vec::new(alloc);
    let mut front = String::new(alloc);
    let mut rest = line;
    for passed in 0..LEVELS {
        fronts.push(String::from_str(alloc, front.as_str())?)?;
        let Some((piece, left)) = passing(indent, rest) else {
            if passed + 1 < LEVELS {
                push_below(alloc, &mut fronts, front.as_str(), rest, indent)?;
            }
            return Ok(fronts);
        };
        front.push_str(piece)?;
        rest = left;
    }
    Ok(fronts)
}

// Whether a text begins with a piece.
fn begins(text: &str, piece: &str) -> bool
    ensures { IsTrue result ↔ IsPrefixOf piece.now text.now }
{
    behind(text, piece).is_some()
}

// Adds the passing pieces of what is below the item whose line goes on so behind others. If the
// pieces of items are equal, it may be a last child or not.
fn push_below(
    alloc: Global,
    fronts: &mut Vec<String>,
    front: &str,
    rest: &str,
    indent: &Indent,
) -> Result<(), AllocError>
    ensures { OnOk result (AddsTexts (EndsBelow (pieces_of indent.now) front.now rest.now)
        (map string_bytes fronts.old.items) (map string_bytes fronts.new.items)) }
{
    let (child, last) = (&indent.child_prefix, &indent.last_child_prefix);
    if begins(rest, indent.regular_prefix.as_str()) {
        fronts.push(format!(in alloc; "{front}{child}")?)?;
        if child == last {
            return Ok(());
        }
    }
    if begins(rest, indent.last_regular_prefix.as_str()) {
        fronts.push(format!(in alloc; "{front}{last}")?)?;
    }
    Ok(())
}

// Returns the prefixes of items behind these passing pieces.
fn prefixes(alloc: Global, fronts: &[String], indent: &Indent) -> Result<Vec<String>, AllocError>
    requires readable { IsReadable (pieces_of indent.now) }
    requires fronts { AreFronts (pieces_of indent.now) (map string_bytes fronts.now) }
    ensures { IfOk result (λ prefixes. AddsTexts
        (EndsFront (pieces_of indent.now) (map string_bytes fronts.now) (length fronts.now)) []
        (map string_bytes prefixes.items)) }
{
    let mut prefixes = Vec::new(alloc);
    for front in fronts {
        push_items(alloc, &mut prefixes, front.as_str(), indent)?;
    }
    Ok(prefixes)
}

// Adds the prefixes of items behind these passing pieces.
fn push_items(
    alloc: Global,
    prefixes: &mut Vec<String>,
    front: &str,
    indent: &Indent,
) -> Result<(), AllocError>
    ensures { OnOk result (AddsTexts (EndsPieces (pieces_of indent.now) front.now)
        (map string_bytes prefixes.old.items) (map string_bytes prefixes.new.items)) }
{
    let (regular, last) = (&indent.regular_prefix, &indent.last_regular_prefix);
    prefixes.push(format!(in alloc; "{front}{regular}")?)?;
    if last == regular {
        return Ok(());
    }
    Ok(prefixes.push(format!(in alloc; "{front}{last}")?)?)
}

// Returns lines that begin with these prefixes: each with a text behind it.
fn with_text(alloc: Global, prefixes: &[String]) -> Result<Vec<String>, AllocError>
    ensures { IfOk result (λ lines. map string_bytes lines.items
        ≡ map (λ prefix. prefix ++ codes "x") (map string_bytes prefixes.now)) }
{
    let mut lines = Vec::new(alloc);
    for prefix in prefixes {
        lines.push(format!(in alloc; "{prefix}x")?)?;
    }
    Ok(lines)
}

// Lists the prefixes whose flags are set.
fn listed(alloc: Global, prefixes: &[String], flags: &[bool]) -> Result<String, AllocError>
    requires each_once { AreDistinct (map string_bytes prefixes.now) }
    requires count { length flags.now ≡ length prefixes.now }
    ensures { IfOk result (λ listed. AddsListed
        (IsFlagged (map string_bytes prefixes.now) flags.now (length flags.now)) []
        (string_bytes listed)) }
{
    let mut listed = String::new(alloc);
    for (i, prefix) in prefixes.iter().enumerate() {
        if flags[i] {
            write!(listed, "\n  {prefix}")?;
        }
    }
    Ok(listed)
}

// Returns the last of whole lines, or nothing if it is the first, since a root may look like pieces.
fn last_line(text: &str) -> &str
    ensures { (front : List ℕ) → text.now ≡ front ++ line_feed ∷ []
        → IsLastLine front result.now }
{
    let text = text.strip_suffix('\n').unwrap_or(text);
    match text.rsplit_once('\n') {
        Some((_, last)) => last,
        None => "",
    }
}

/// Whether a line is that of an item below the greatest level.
///
/// # Errors
///
/// Memory ran out.
pub fn is_too_deep(alloc: Global, line: &str, config: &PrintConfig) -> Result<bool, AllocError>
    ensures { IfOk result (λ is_deep.
        IsTrue is_deep → IsTooDeep (config_pieces config.now) line.now) }
{
    if line.len() <= levels::LEVELS as usize {
        return Ok(false);
    }
    let indent = Indent::from_config(alloc, config)?;
    Ok(has_more_pieces(&indent, line))
}

// Whether the piece of an item stands behind as many passing pieces as there are levels.
fn has_more_pieces(indent: &Indent, line: &str) -> bool
    ensures { IsTrue result → IsTooDeep (pieces_of indent.now) line.now }
{
    let mut rest = line;
    for _level in 0..levels::LEVELS {
        let Some((_, left)) = passing(indent, rest) else {
            return false;
        };
        rest = left;
    }
    begins(rest, indent.regular_prefix.as_str())
        || begins(rest, indent.last_regular_prefix.as_str())
}

// Returns the passing piece with which a line begins, and what follows it.
fn passing<'a>(indent: &'a Indent, line: &'a str) -> Option<(&'a str, &'a str)>
    ensures { MatchOption result ((last : Bool) (rest : List ℕ)
        → line.now ≢ passing_piece (pieces_of indent.now) last ++ rest)
        (λ found. (last : Bool) × (found.0.now ≡ passing_piece (pieces_of indent.now) last)
        × (line.now ≡ found.0.now ++ found.1.now)) }
{
    let (child, last) = (
        indent.child_prefix.as_str(),
        indent.last_child_prefix.as_str(),
    );
    if let Some(rest) = behind(line, child) {
        return Some((child, rest));
    }
    Some((last, behind(line, last)?))
}
