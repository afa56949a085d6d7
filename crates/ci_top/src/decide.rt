//! Doing an order: what becomes of it, before anything is told.
ghost use Rattle.std.specs.Prelude.{◌≡◌, ◌<◌, ◌≤◌, ◌⊎◌, Some, All, length, slice_get};
ghost use Rattle.ci_base.specs.declared.bounds.TheConstants.{MOST_SOURCE_BYTES};
ghost use Rattle.ci_script.specs.Scripts.{events};
ghost use Rattle.ci_source.specs.Telling.{IsRefusedAs};
ghost use Rattle.ci_tree.specs.SeenBound.{project_of};
ghost use Rattle.ci_words.specs.Bounds.{IsInBounds};
ghost use Rattle.ci_words.specs.declared.command.Command.TheVariants as commands;
ghost use Rattle.ci_top.specs.Asked.{AreRefused, command_of};
ghost use Rattle.ci_top.specs.Decisions.{Decided, OfList, OfProject, OfRun, OfTexts, TellsSource, made_from as made_of_sources};
ghost use Rattle.ci_top.specs.Reading.{names_told};

use crate::accept::{Accepted, Job, accept};
use crate::decision::{Decision, Made};
use crate::texts::{Texts, read_texts};
use ci_base::{Bytes, Limits, place_of};
use ci_codegen::generate;
use ci_outside::Shelf;
use ci_program::Program;
use ci_runtime::run;
use ci_script::{Script, ScriptFault, read_script};
use ci_source::{Compiled, Fault, SourceFault, read_sources};
use ci_tree::Project;
use ci_words::{Command, Order};
use std::alloc::Global;

/// Reads the words, reads what their order works on, and runs it, lists its code or says that it compiles. The first refusal ends the
/// order.
pub(crate) fn decide<'w, S: Shelf>(alloc: Global, words: &'w [Bytes], shelf: &mut S) -> Decision<'w>
    ensures decided { Decided words.now (S.files shelf.old) (S.faults shelf.old) (S.faults shelf.new) result }
    ensures kept { S.files shelf.new ≡ S.files shelf.old }
    ensures unfetched { AreRefused words.now ⊎ (command_of words.now ≡ Some commands.Make) → shelf.new ≡ shelf.old }
{
    let accepted = match accept(words) {
        Ok(accepted) => accepted,
        Err(decision) => return decision,
    };
    match read_texts(alloc, words, &accepted.order, shelf) {
        Ok(texts) => work(alloc, words, &accepted, &texts),
        Err(decision) => decision,
    }
}

/// Reads the sources, and does the job over them.
fn work<'w>(alloc: Global, words: &'w [Bytes], accepted: &Accepted, texts: &Texts) -> Decision<'w>
    requires bounds { IsInBounds words.now accepted.now.order }
    requires same { length (names_told words.now accepted.now.order) ≡ length texts.now.sources }
    ensures { OfTexts accepted.now.job accepted.now.order.limits (names_told words.now accepted.now.order) texts.now result }
{
    match read_sources(alloc, texts.sources()) {
        Ok(compiled) => do_job(alloc, accepted.job, accepted.order.limits, texts, compiled),
        Err(
            SourceFault::Refused {
                file,
                fault,
                offset,
            },
        ) => source_refused(
            words,
            &accepted.order,
            texts.sources(),
            file as usize,
            fault,
            offset,
        ),
        Err(SourceFault::Memory) => Decision::NoMemory,
    }
}

/// What becomes of sources with this first fault, in the source of this number, counted from 0, and at this offset.
fn source_refused<'w>(
    words: &'w [Bytes],
    order: &Order,
    sources: &[Bytes],
    file: usize,
    fault: Fault,
    offset: u32,
) -> Decision<'w>
    requires files { All (λ at. at < length words.now) order.now.files }
    requires same { length (names_told words.now order.now) ≡ length sources.now }
    requires within { All (λ source. length source ≤ MOST_SOURCE_BYTES) sources.now }
    requires refused { IsRefusedAs sources.now (SourceFault.Refused file fault offset) }
    ensures { TellsSource (names_told words.now order.now) sources.now result }
{
    let name = name_of(words, order, file);
    let place = place_of(sources[file].bytes(), offset);
    Decision::SourceRefused { name, fault, place }
}

/// The name by which faults of the source of this number, counted from 0, are told.
fn name_of<'w>(words: &'w [Bytes], order: &Order, file: usize) -> &'w [u8]
    requires files { All (λ at. at < length words.now) order.now.files }
    requires file { file < length (names_told words.now order.now) }
    ensures { slice_get (names_told words.now order.now) file ≡ Some result.now }
{
    match order.command {
        Command::Make => b"make",
        Command::Run | Command::Check | Command::List | Command::Replay => {
            words[order.files.indexes()[file] as usize].bytes()
        }
    }
}

/// Says that what was read was checked, runs it, or lists its code.
fn do_job<'w>(
    alloc: Global,
    job: Job,
    limits: Limits,
    texts: &Texts,
    compiled: Compiled,
) -> Decision<'w>
    requires { 0 < limits.slice }
    ensures { OfProject job limits texts.now (project_of compiled.project) result }
{
    match job {
        Job::Run(size) => run_project(alloc, size, limits, texts, project_alone(compiled)),
        Job::Check => Decision::Checked,
        Job::List => list(alloc, project_alone(compiled)),
    }
}

/// The project, without the trees, which are let go of before its code is made.
fn project_alone(compiled: Compiled) -> Project
    ensures { result ≡ compiled.project }
{
    compiled.project
}

/// The program of the project, whose code is to be listed.
fn list<'w>(alloc: Global, project: Project) -> Decision<'w>
    ensures { OfList (project_of project) result }
{
    match generate(alloc, project) {
        Ok(program) => Decision::Listed(program),
        Err(_) => Decision::NoMemory,
    }
}

/// Reads the script, and runs the project with it.
fn run_project<'w>(
    alloc: Global,
    size: Option<u32>,
    limits: Limits,
    texts: &Texts,
    project: Project,
) -> Decision<'w>
    requires { 0 < limits.slice }
    ensures { OfRun size limits texts.now (project_of project) result }
{
    let script = match read_script(alloc, texts.script()) {
        Ok(script) => script,
        Err(ScriptFault::Memory) => return Decision::NoMemory,
        Err(fault) => return Decision::ScriptRefused(fault),
    };
    match generate(alloc, project) {
        Ok(program) => run_program(alloc, size, limits, texts, script, &program),
        Err(_) => Decision::NoMemory,
    }
}

/// Runs the program with the script that was read. Once the run has begun, no memory is taken.
fn run_program<'w>(
    alloc: Global,
    size: Option<u32>,
    limits: Limits,
    texts: &Texts,
    script: Script,
    program: &Program,
) -> Decision<'w>
    requires slice { 0 < limits.slice }
    requires script { events texts.now.script script }
    ensures { OfRun size limits texts.now (project_of program.now) result }
{
    let made = made_from(size, texts.sources());
    match run(alloc, program, script, limits) {
        Ok(ended) => Decision::Ran { made, ended },
        Err(_) => Decision::NoMemory,
    }
}

/// The workload that was made where this size was asked for: its source is the first that was read.
fn made_from(size: Option<u32>, sources: &[Bytes]) -> Option<Made>
    requires { All (λ source. length source ≤ MOST_SOURCE_BYTES) sources.now }
    ensures { result ≡ made_of_sources size sources.now }
{
    match (size, sources.first()) {
        (Some(size), Some(source)) => Some(Made {
            size,
            bytes: source.bytes().len() as u32,
        }),
        _ => None,
    }
}
