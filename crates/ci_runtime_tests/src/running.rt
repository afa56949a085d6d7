//! Runs of sources with scripts.
ghost use Rattle.std.specs.Prelude.{◌≤◌, All, IsTrue, length};
ghost use Rattle.ci_base.specs.declared.bounds.TheConstants.{MOST_SOURCE_BYTES};

use crate::shown::Shown;
use ci_base::bounds::{MOST_FILES, MOST_SOURCE_BYTES};
use ci_base::{Bytes, Limits};
use ci_codegen::generate;
use ci_program::Program;
use ci_runtime::{Ended, run};
use ci_script::read_script;
use ci_source::{Compiled, read_sources};
use std::alloc::Global;

/// A slice that no turn of these tests uses up.
pub const SLICE: u32 = 1_000;

/// A budget that no run of these tests uses up.
pub const BUDGET: u32 = 100_000;

/// Whether each source is short enough to be read.
fn are_short(sources: &[Bytes]) -> bool
    ensures { IsTrue result → All (λ source. length source ≤ MOST_SOURCE_BYTES) sources.now }
{
    sources.iter().all(|source| source.bytes().len() <= MOST_SOURCE_BYTES as usize)
}

/// The program of sources.
fn program_of_all(alloc: Global, sources: &[Bytes]) -> Option<Program> {
    if sources.len() > MOST_FILES || !are_short(sources) {
        return None;
    }
    match read_sources(alloc, sources) {
        Ok(Compiled { project, trees: _ }) => generate(alloc, project).ok(),
        Err(_) => None,
    }
}

/// The program of a source.
fn program_of(alloc: Global, source: &str) -> Option<Program> {
    let mut sources = Vec::new(alloc);
    match Bytes::copy(alloc, source.as_bytes()) {
        Ok(bytes) => match sources.push(bytes) {
            Ok(()) => program_of_all(alloc, &sources),
            Err(_) => None,
        },
        Err(_) => None,
    }
}

/// What is kept of the run of a program with a script.
fn run_with(alloc: Global, program: &Program, script: &str, limits: Limits) -> Option<Ended> {
    if limits.slice == 0 {
        return None;
    }
    match read_script(alloc, script.as_bytes()) {
        Ok(script) => run(alloc, program, script, limits).ok(),
        Err(_) => None,
    }
}

/// What is kept of the run of a source with a script, a slice and a budget.
pub fn ended(alloc: Global, source: &str, script: &str, slice: u32, budget: u32) -> Option<Ended> {
    let limits = Limits {
        slice,
        budget,
        workers: 0,
    };
    match program_of(alloc, source) {
        Some(program) => run_with(alloc, &program, script, limits),
        None => None,
    }
}

/// The entries of a run, its loose ticks, and how it ended.
fn told(ended: &Ended) -> Shown {
    let mut shown = Shown::empty();
    for entry in ended.history.entries() {
        shown.entry(entry);
    }
    for loose in ended.loose.members() {
        shown.loose(*loose);
    }
    shown.ending(ended.end.ending);
    shown
}

/// The same of a source with a script. Nothing is told where there is no run.
pub fn journal(alloc: Global, source: &str, script: &str, slice: u32, budget: u32) -> Shown {
    match ended(alloc, source, script, slice, budget) {
        Some(ended) => told(&ended),
        None => Shown::empty(),
    }
}
