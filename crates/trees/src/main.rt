//! Draws trees, and checks, converts and compares drawings, from the command line.
#![tactic(auto)]

mod command;
mod compare;
mod deps;
mod document;
mod drawings;
mod expected;
mod failure;
mod help;
mod levels;
mod lists;
mod names;
mod perform;
mod pieces;
mod run;
mod screen;
mod settings;
mod source;
mod suggest;
mod usage;
mod words;

use failure::Failure;
use ptree::buffered::Buffered;
use ptree::style::Counted;
use ptree_sources::words::words;
use run::run;
use screen::{Screen, shown};
use std::env::{self, VarError};
use std::io::{self, ErrorKind, IsTerminal};
use std::process::ExitCode;
use usage::Usage;

// The size of the output's buffer.
const ROOM: usize = 8192;

// Returns the words of the call.
fn arguments(rt: &HostRuntime) -> Result<Vec<String>, Failure> {
    match words(rt, rt.alloc()) {
        Ok(words) => Ok(words),
        Err(e) if e.kind() == ErrorKind::OutOfMemory => Err(Failure::Memory),
        Err(_) => Err(Usage::NotUtf8.failure(rt.alloc())?),
    }
}

// Returns what standard output is. Drawings are coloured on a terminal, unless NO_COLOR is set.
fn find_screen(rt: &HostRuntime) -> Result<Screen, Failure> {
    let is_terminal = rt.stdout().is_terminal();
    let styled = is_terminal
        && match env::var(rt, "NO_COLOR") {
            Ok(value) => value.is_empty(),
            Err(VarError::NotPresent) => true,
            Err(VarError::OutOfMemory) => return Err(Failure::Memory),
            Err(_) => false,
        };
    Ok(Screen {
        is_terminal,
        styled,
    })
}

// Runs the call over the streams of the process.
fn run_process(rt: &HostRuntime) -> Result<(), Failure> {
    let words = arguments(rt)?;
    let screen = find_screen(rt)?;
    run_streams(rt, &words, screen)
}

// Runs the words of a call over the streams of the process.
fn run_streams(rt: &HostRuntime, words: &[String], screen: Screen) -> Result<(), Failure> {
    let mut input = rt.stdin();
    let mut out = Buffered::with_capacity(rt.alloc(), ROOM, Counted::new(io::writer(rt)))?;
    let end = run(rt, words, &mut input, &mut out, screen);
    match end {
        Ok(()) | Err(Failure::Said) => out.flush()?,
        Err(_) => {}
    }
    end
}

// Says on standard error why the call did not do what it was asked. A fault there changes nothing.
fn tell(rt: &HostRuntime, failure: &Failure) {
    let _ = match failure {
        Failure::Usage(text) | Failure::Input(text) => tell_text(rt, text.as_str()),
        Failure::Output(ErrorKind::BrokenPipe) | Failure::Said => Ok(()),
        Failure::Output(_) => eprintln!(rt; "trees: cannot write"),
        Failure::Memory => eprintln!(rt; "trees: out of memory"),
    };
}

// Says a text on standard error, as a terminal may get it if that is one.
fn tell_text(rt: &HostRuntime, text: &str) -> io::Result<()> {
    if !rt.stderr().is_terminal() {
        return eprintln!(rt; "trees: {text}");
    }
    match shown(rt.alloc(), text) {
        Ok(text) => eprintln!(rt; "trees: {text}"),
        Err(_) => eprintln!(rt; "trees: out of memory"),
    }
}

fn main(rt: HostRuntime) -> ExitCode {
    match run_process(&rt) {
        Ok(()) => ExitCode::from(0),
        Err(failure) => {
            tell(&rt, &failure);
            ExitCode::from(failure.status())
        }
    }
}
