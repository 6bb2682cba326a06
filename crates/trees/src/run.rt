//! Runs the words of a call over any surroundings, reader and writers.
ghost use Rattle.std.specs.Prelude.{◌≡◌, ◌+◌, IfErr};
ghost use Rattle.trees.specs.Reading.{IsUnread, IsUsage};
ghost use Rattle.trees.specs.Telling.{failure_faults};
ghost use Rattle.trees.specs.Writing.{LeavesIfWrong};

use crate::failure::Failure;
use crate::help;
use crate::names::{CommandName, Opt};
use crate::perform::perform;
use crate::screen::Screen;
use crate::settings::Settings;
use crate::source::Source;
use crate::words::Words;
use ptree::print_config::first_fault;
use ptree::style::{Sink, put_all};
use ptree_sources::surroundings::gather;
use std::alloc::{AllocError, Global};
use std::env::Env;
use std::io::{Eprint, Read};
use std::rt::Files;

/// Runs the words of a call. The settings are gathered once its command and inputs are known.
///
/// # Errors
///
/// What went wrong. If standard output failed, a part of the output may have been written; else
/// nothing was, except for `Said`.
pub fn run<R: Env + Files + AllocGlobal + Eprint, I: Read, W: Sink>(
    rt: &R,
    words: &[String],
    input: &mut I,
    out: &mut W,
    screen: Screen,
) -> Result<(), Failure>
where
    R::File: Drop,
    ensures quiet { LeavesIfWrong out.old out.new result }
    ensures cause { W.faults out.new ≡ W.faults out.old + failure_faults result }
{
    if let Some(page) = page(words) {
        return Ok(put_all(out, page.as_bytes())?);
    }
    let words = match Words::parse(rt.alloc(), words) {
        Ok(words) => words,
        Err(wrong) => return Err(wrong.failure(rt.alloc())?),
    };
    if words.has(Opt::Help) {
        return Ok(put_all(out, words.name.help().as_bytes())?);
    }
    check_words(rt.alloc(), &words, screen)?;
    let sources = read_sources(rt, &words, input)?;
    run_over(rt, &words, sources.as_slice(), screen, out)
}

// Returns the page that the first word asks for.
fn page(words: &[String]) -> Option<&'static str> {
    match words.first()?.as_str() {
        "--help" | "-h" => Some(help::TREES),
        "--version" | "-V" => Some(help::VERSION),
        _ => None,
    }
}

// Says what is wrong with the words of a command, before an input is read, which may wait.
fn check_words(alloc: Global, words: &Words<'_>, screen: Screen) -> Result<(), Failure>
    ensures { IfErr result IsUsage }
{
    let mut unread = Vec::new(alloc);
    for _ in words.inputs() {
        unread.push(Source::unread(alloc, String::new(alloc)))?;
    }
    match words.command(&unread, screen) {
        Ok(_) => Ok(()),
        Err(wrong) => Err(wrong.failure(alloc)?),
    }
}

// Reads the inputs that words name.
fn read_sources<R: Files + AllocGlobal, I: Read>(
    rt: &R,
    words: &Words<'_>,
    input: &mut I,
) -> Result<Vec<Source>, Failure>
    ensures { IfErr result IsUnread }
{
    let mut sources = Vec::new(rt.alloc());
    for path in words.inputs() {
        sources.push(read_source(rt, words.name, path, input)?)?;
    }
    Ok(sources)
}

// Reads an input. `check` goes on if it can't be read.
fn read_source<R: Files + AllocGlobal, I: Read>(
    rt: &R,
    command: CommandName,
    path: &str,
    input: &mut I,
) -> Result<Source, Failure>
    ensures { IfErr result IsUnread }
{
    match Source::read(rt, path, input) {
        Err(Failure::Input(fault)) if command == CommandName::Check => {
            Ok(Source::unread(rt.alloc(), fault))
        }
        read => read,
    }
}

// Runs the command over its inputs and the settings.
fn run_over<R: Env + Files + AllocGlobal + Eprint, W: Sink>(
    rt: &R,
    words: &Words<'_>,
    sources: &[Source],
    screen: Screen,
    out: &mut W,
) -> Result<(), Failure>
where
    R::File: Drop,
    ensures quiet { LeavesIfWrong out.old out.new result }
    ensures cause { W.faults out.new ≡ W.faults out.old + failure_faults result }
{
    let alloc = rt.alloc();
    match words.command(sources, screen) {
        Ok(command) => {
            let found = load_settings(rt, words.name)?;
            let performed = perform(alloc, command, out, &found);
            drop(found);
            performed
        }
        Err(wrong) => Err(wrong.failure(alloc)?),
    }
}

// Loads the settings, and says what is wrong with them.
fn load_settings<R: Env + Files + AllocGlobal + Eprint>(
    rt: &R,
    name: CommandName,
) -> Result<Settings, AllocError>
where
    R::File: Drop,
{
    let found = Settings::load(rt.alloc(), gather(rt, rt.alloc())?)?;
    tell_fault(rt, name, &found)?;
    Ok(found)
}

// Says on standard error why the configuration is ignored, unless the command shows all errors. A
// fault there changes nothing.
fn tell_fault<R: AllocGlobal + Eprint>(
    rt: &R,
    name: CommandName,
    found: &Settings,
) -> Result<(), AllocError> {
    if !found.has_fault || name == CommandName::Config {
        return Ok(());
    }
    if let Some(fault) = first_fault(rt.alloc(), &found.sources)? {
        let _ = eprintln!(rt;
            "trees: {fault}; configuration ignored, using defaults; see trees config"
        );
    }
    Ok(())
}
