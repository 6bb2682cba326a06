//! Says what is wrong with the sources of a configuration.
ghost use Rattle.std.specs.Prelude.{◌≡◌, ◌<◌, ℕ, List, IfOk, length};
ghost use Rattle.ptree.specs.AllFaults.{all_faults};
ghost use Rattle.ptree_c.specs.Loads.{AreSources};
ghost use Rattle.ptree_c.specs.Refusals.{IsRefused};
ghost use Rattle.ptree_c.specs.Rooms.{filled, found_sizes};

use crate::answer::{put_bytes, refuse};
use crate::load::{Variable, sources_of};
use crate::refusal::Refusal;
use crate::room::Found;
use ptree::print_config::{Fault, Sources, faults};
use std::alloc::{AllocError, Global};

// The texts of faults, one a line, and how many there are.
#[derive(Drop)]
struct Report {
    lines: String,
    count: usize,
}

// The texts of faults, one a line.
fn lines_of(alloc: Global, faults: &[Fault]) -> Result<String, AllocError> {
    let mut lines = String::new(alloc);
    for fault in faults {
        lines.push_str(format!(in alloc; "{fault}\n")?.as_str())?;
    }
    Ok(lines)
}

// All faults in sources.
fn report_of(alloc: Global, sources: &Sources) -> Result<Report, AllocError>
    ensures { IfOk result (λ report. report.count ≡ length (all_faults sources.now)) }
{
    let found = faults(alloc, sources)?;
    Ok(Report {
        lines: lines_of(alloc, &found)?,
        count: found.len(),
    })
}

// All faults in the sources that C gives.
fn faults_given(
    alloc: Global,
    file: &[u8],
    format: u32,
    variables: &[Variable],
    texts: &[u8],
) -> Result<Report, Refusal>
    ensures { IfOk result (λ report. (s : Sources)
        × AreSources file.now format variables.now texts.now s
        × (report.count ≡ length (all_faults s))) }
{
    let sources = sources_of(alloc, file, format, variables, texts)?;
    Ok(report_of(alloc, &sources)?)
}

/// Puts the texts of all faults in the sources of `ptree_load` into `out`, one a line, as much as
/// there is room for. `found` gets the length of all lines, and the number of faults.
#[unsafe(no_mangle)]
pub extern "C" fn ptree_faults(
    alloc: Global,
    file: &[u8],
    format: u32,
    variables: &[Variable],
    texts: &[u8],
    out: &mut [u8],
    found: &mut Found,
) -> u32
    ensures found { result ≡ 0 → (s : Sources) × (lines : List ℕ)
        × AreSources file.now format variables.now texts.now s
        × (out.new ≡ filled out.old lines)
        × (found.new ≡ found_sizes (length lines) (length (all_faults s))) }
    ensures kept { 0 < result → out.new ≡ out.old }
    ensures refused { 0 < result → (e : Refusal) × IsRefused result found.new e }
{
    match faults_given(alloc, file, format, variables, texts) {
        Ok(report) => put_bytes(report.lines.as_bytes(), report.count, out, found),
        Err(refusal) => refuse(refusal, found),
    }
}
