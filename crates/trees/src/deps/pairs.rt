//! Lines of two words.
ghost use Rattle.std.specs.Cmp.Lexicographic.{slice_cmp};
ghost use Rattle.std.specs.List.Sorted.{IsStrictlySortedBy};
ghost use Rattle.std.specs.Ordering.{nat_cmp};
ghost use Rattle.std.specs.Prelude.{◌≡◌, false, true, map, Contains, IfOk, IfErr, OnOk, OnErr, string_bytes};
ghost use Rattle.trees.specs.Depending.{words_of, number, ends, needs_between, AreNames, HoldsNone, HoldsPairs};
ghost use Rattle.trees.specs.DependingParts.{texts_of, found_words, are_no_pair, HasWords, HoldsWords};
ghost use Rattle.trees.specs.Reading.{FailsFor, FailsToMake};

use crate::deps::{Need, Packages};
use crate::failure::Failure;
use crate::source::Source;
use std::alloc::{AllocError, Global};

/// Returns the words of lines of two, the first of which needs the second. A word twice is one
/// alone, as `tsort` takes it.
///
/// # Errors
///
/// `Input` with the line that has another number of words or is a comment, or if there is none, and
/// `Memory`.
pub fn packages(alloc: Global, source: &Source) -> Result<Packages, Failure>
    ensures held { IfOk result (HoldsWords source.now) }
    ensures failed { IfErr result (FailsFor (HoldsNone source.now) ⊥) }
{
    let pairs = line_pairs(alloc, source)?;
    if pairs.is_empty() {
        return Err(source.wrong(alloc, "empty")?);
    }
    let names = names(alloc, &pairs)?;
    Ok(named(alloc, &pairs, &names)?)
}

// Returns words as packages, and what pairs of them need.
fn named(alloc: Global, pairs: &[(&str, &str)], names: &[&str]) -> Result<Packages, AllocError>
    requires { AreNames (map texts_of pairs.now) (map (λ n. n.now) names.now) }
    ensures { IfOk result
        (HasWords (map (λ n. n.now) names.now) (map texts_of pairs.now)) }
{
    Ok(Packages {
        labels: labels(alloc, names)?,
        paths: Vec::new(alloc),
        needs: needs(alloc, pairs, names)?,
    })
}

// Returns the labels of these words.
fn labels(alloc: Global, names: &[&str]) -> Result<Vec<String>, AllocError>
    ensures { IfOk result
        (λ labels. map string_bytes labels.items ≡ map (λ n. n.now) names.now) }
{
    let mut labels = Vec::new(alloc);
    for name in names {
        labels.push(String::from_str(alloc, name)?)?;
    }
    Ok(labels)
}

// Returns what the first words of pairs need, if it is another word.
fn needs(alloc: Global, pairs: &[(&str, &str)], names: &[&str]) -> Result<Vec<Need>, AllocError>
    requires { AreNames (map texts_of pairs.now) (map (λ n. n.now) names.now) }
    ensures { IfOk result (λ needs. map ends needs.items
        ≡ needs_between (map (λ n. n.now) names.now) (map texts_of pairs.now)) }
{
    let mut needs = Vec::new(alloc);
    for (first, second) in pairs {
        if first != second {
            let (needing, needed) = (number(names, first), number(names, second));
            needs.push(Need { needing, needed })?;
        }
    }
    Ok(needs)
}

// Returns the words of pairs, each once, in ascending order.
fn names<'a>(alloc: Global, pairs: &[(&'a str, &'a str)]) -> Result<Vec<&'a str>, AllocError>
    ensures { IfOk result (λ names.
        AreNames (map texts_of pairs.now) (map (λ n. n.now) names.items)) }
{
    let mut names = Vec::new(alloc);
    for (first, second) in pairs {
        names.push(*first)?;
        names.push(*second)?;
    }
    names.sort_unstable();
    names.dedup();
    Ok(names)
}

// Returns the number of a word that is among names.
fn number(names: &[&str], word: &str) -> usize
    requires ascending { IsStrictlySortedBy (slice_cmp nat_cmp) (map (λ n. n.now) names.now) }
    requires known { Contains (map (λ n. n.now) names.now) word.now }
    ensures { result ≡ number (map (λ n. n.now) names.now) word.now }
{
    match names.binary_search(&word) {
        Ok(number) => number,
        Err(place) => place,
    }
}

// Returns the two words of a line, or nothing of a blank one, or else what is wrong with it.
fn pair(line: &str) -> Result<Option<(&str, &str)>, &'static str>
    ensures words { IfOk result (λ found. words_of line.now ≡ found_words found) }
    ensures right { OnOk result (are_no_pair (words_of line.now) ≡ false) }
    ensures wrong { OnErr result (are_no_pair (words_of line.now) ≡ true) }
{
    let mut words = line.split_whitespace();
    let Some(first) = words.next() else {
        return Ok(None);
    };
    if first == "#" {
        return Err("expected two words, found a comment");
    }
    let Some(second) = words.next() else {
        return Err("expected two words, found one");
    };
    match words.next() {
        None => Ok(Some((first, second))),
        Some(_) => Err(more_than_two(second)),
    }
}

// Says what a line of more than two words is, by its second word.
fn more_than_two(second: &str) -> &'static str {
    if second == "=" {
        "expected two words, found more, as in TOML without [[package]]"
    } else {
        "expected two words, found more"
    }
}

// Returns the pairs of words on the lines that are not blank.
fn line_pairs<'a>(alloc: Global, source: &'a Source) -> Result<Vec<(&'a str, &'a str)>, Failure>
    ensures held { IfOk result (λ found. HoldsPairs source.now (map texts_of found.items)) }
    ensures failed { IfErr result (FailsToMake ⊥ (HoldsPairs source.now)) }
{
    let mut found = Vec::new(alloc);
    for (i, line) in source.unmarked().lines().enumerate() {
        match pair(line) {
            Ok(Some(words)) => found.push(words)?,
            Ok(None) => {}
            Err(fault) => return Err(source.wrong_at(alloc, i.saturating_add(1), fault)?),
        }
    }
    Ok(found)
}
