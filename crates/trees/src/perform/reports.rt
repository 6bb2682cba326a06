//! Says of inputs whether they are drawings.
ghost use Rattle.std.specs.Prelude.{◌≡◌, ◌↔◌, ◌+◌, ◌++◌, ℕ, List, All, IsTrue, IfOk, IfErr, OnOk, string_bytes};
ghost use Rattle.ptree.specs.Config.{config_of};
ghost use Rattle.trees.specs.Asked.{reading_value};
ghost use Rattle.trees.specs.Named.{IsReadableValue};
ghost use Rattle.trees.specs.Reading.{HoldsSome, FailsFor, IsReport, Adds, item_word, count_line};
ghost use Rattle.trees.specs.Shown.{IsNone, ShowsOnly};
ghost use Rattle.trees.specs.Telling.{failure_faults, TellsWhether};
ghost use Rattle.trees.specs.Writing.{WritesSaid, AreReports, FailsToCheck, LeavesIfWrong};

use crate::drawings;
use crate::failure::Failure;
use crate::perform::{reading_config, say};
use crate::pieces::Pieces;
use crate::screen::Screen;
use crate::settings::Settings;
use crate::source::Source;
use ptree::print_config::PrintConfig;
use ptree::style::Sink;
use std::alloc::{AllocError, Global};

/// Says of each input whether it is a drawing.
pub fn check<W: Sink>(
    alloc: Global,
    sources: &[Source],
    pieces: Option<Pieces>,
    screen: Screen,
    out: &mut W,
    found: &Settings,
) -> Result<(), Failure>
    ensures told { TellsWhether result
        (All (HoldsSome (reading_value found.now.sources pieces)) sources.now) }
    ensures written { WritesSaid (W.contents out.old) (W.contents out.new) result
        (AreReports found.now.sources sources.now pieces screen.is_terminal)
        (FailsToCheck found.now.sources pieces) }
    ensures quiet { LeavesIfWrong out.old out.new result }
    ensures cause { W.faults out.new ≡ W.faults out.old + failure_faults result }
    ensures shown { ShowsOnly screen.is_terminal IsNone (W.contents out.old) (W.contents out.new) }
{
    let mut said = String::new(alloc);
    let are_drawings = push_reports(alloc, &mut said, sources, pieces, found)?;
    let said = screen.lines(alloc, said)?;
    say(out, said.as_str(), !are_drawings)
}

// Adds of each input whether it is a drawing, and returns whether all are.
fn push_reports(
    alloc: Global,
    said: &mut String,
    sources: &[Source],
    pieces: Option<Pieces>,
    found: &Settings,
) -> Result<bool, Failure>
    ensures all { IfOk result (λ b.
        IsTrue b ↔ All (HoldsSome (reading_value found.now.sources pieces)) sources.now) }
    ensures reports { IfOk result (λ _.
        Adds (IsReport (reading_value found.now.sources pieces)) sources.now
        (string_bytes said.old) (string_bytes said.new)) }
    ensures failed { IfErr result (FailsToCheck found.now.sources pieces) }
{
    let config = reading_config(alloc, pieces, found)?;
    let are_drawings = push_checks(alloc, said, sources, &config);
    drop(config);
    are_drawings
}

// Adds of each input whether it is a drawing by a configuration, and returns whether all are.
fn push_checks(
    alloc: Global,
    said: &mut String,
    sources: &[Source],
    config: &PrintConfig,
) -> Result<bool, Failure>
    ensures all { IfOk result (λ b.
        IsTrue b ↔ All (HoldsSome (config_of config.now)) sources.now) }
    ensures reports { IfOk result (λ _. Adds (IsReport (config_of config.now)) sources.now
        (string_bytes said.old) (string_bytes said.new)) }
    ensures failed { IfErr result (FailsFor ⊥ (IsReadableValue (config_of config.now) → ⊥)) }
{
    let mut are_drawings = true;
    for source in sources {
        if !push_check(alloc, said, source, config)? {
            are_drawings = false;
        }
    }
    Ok(are_drawings)
}

// Adds whether an input is a drawing, and returns it.
fn push_check(
    alloc: Global,
    said: &mut String,
    source: &Source,
    config: &PrintConfig,
) -> Result<bool, Failure>
    ensures drawing { IfOk result (λ b.
        IsTrue b ↔ HoldsSome (config_of config.now) source.now) }
    ensures report { IfOk result (λ _. (more : List ℕ)
        × (string_bytes said.new ≡ string_bytes said.old ++ more)
        × IsReport (config_of config.now) source.now more) }
    ensures failed { IfErr result (FailsFor ⊥ (IsReadableValue (config_of config.now) → ⊥)) }
{
    match drawings::count(alloc, source, config) {
        Ok(count) => {
            push_count(said, source, count)?;
            Ok(true)
        }
        Err(Failure::Input(wrong)) => {
            writeln!(said, "{wrong}")?;
            Ok(false)
        }
        Err(other) => Err(other),
    }
}

// Adds that an input is the drawing of so many items.
fn push_count(said: &mut String, source: &Source, n: usize) -> Result<(), AllocError>
    ensures { OnOk result
        (string_bytes said.new ≡ string_bytes said.old ++ count_line source.now n) }
{
    let (name, items) = (&source.name, item_word(n));
    writeln!(said, "{name}: a drawing of {n} {items}")
}

// Returns a word for so many items.
fn item_word(n: usize) -> &'static str
    ensures { result.now ≡ item_word n }
{
    if n == 1 { "item" } else { "items" }
}
