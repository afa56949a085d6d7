//! A task on the tree of a program and one in code, side by side.
ghost use Rattle.std.specs.Prelude.{IsTrue};
ghost use Rattle.ci_codegen_tests.specs.Sides.{AsksFor, Comes};
ghost use Rattle.ci_meaning.specs.Within.{IsOf};

use crate::answers::{Heard, answer_to};
use crate::arguments::{Given, args_of};
use crate::coded::{go_on, next_in_code, started};
use crate::programs::program;
use crate::shown::{Next, Shown};
use ci_base::{Args, Request};
use ci_meaning::{TreeMove, TreeTask};
use ci_program::Program;
use ci_task::TaskMachine;
use ci_tree::Project;
use ci_verify::Verified;
use std::alloc::Global;
use std::process::Abort;
use std::test::Fail;

/// The number of a function, and the arguments that a task of it is started with.
pub type Start = (u32, &'static [Given]);

/// The first function, which takes nothing.
pub const MAIN: Start = (0, &[]);

/// A source, how a task of it starts, what it hears in turn, before it hears the INT 0 for ever, and its requests up to its end,
/// each behind its ticks since the one before.
pub type Row = (&'static str, Start, &'static [Heard], &'static str);

/// The ticks up to the next request of the task, and the request, unless 100,000 steps go by before it or there is no memory.
fn next_on_tree<'p>(alloc: Global, task: &mut TreeTask<'p>, project: &'p Project) -> Next
    requires { IsOf project.now task.old }
    ensures { IsOf project.now task.new }
{
    let mut ticks: u32 = 0;
    for _ in 0..100_000 {
        match task.tree_step(alloc, project) {
            Ok(TreeMove::Private { tick }) => ticks = ticks.saturating_add(u32::from(tick)),
            Ok(TreeMove::Asks(request)) => return Some((ticks, request)),
            Err(_) => return None,
        }
    }
    None
}

/// Both tasks go on with what is heard, if it answers the request.
fn both_hear(
    task: &mut TreeTask,
    project: &Project,
    machine: &mut TaskMachine,
    code: &Verified,
    request: &Request,
    heard: Heard,
) -> bool
    requires of_project { IsOf project.now task.old }
    requires of_code { AsksFor code.now request.now machine.old }
    ensures of_project { IsOf project.now task.new }
    ensures of_code { IsTrue result → Comes code.now machine.new }
{
    match answer_to(code, request, heard) {
        Some(answer) => {
            task.answer(&answer);
            go_on(machine, code, request, &answer);
            true
        }
        None => false,
    }
}

/// Shows the next request of both tasks, and tells them what is heard. Whether both go on.
fn turn<'p>(
    alloc: Global,
    task: &mut TreeTask<'p>,
    project: &'p Project,
    machine: &mut TaskMachine,
    code: &Verified,
    heard: Heard,
    shown: &mut Shown,
) -> bool
    requires of_project { IsOf project.now task.old }
    requires of_code { Comes code.now machine.old }
    ensures of_project { IsOf project.now task.new }
    ensures of_code { IsTrue result → Comes code.now machine.new }
{
    let on_tree = next_on_tree(alloc, task, project);
    let in_code = next_in_code(machine, code);
    if !shown.both(&on_tree, &in_code) {
        return false;
    }
    match &in_code {
        Some((_, request)) => both_hear(task, project, machine, code, request, heard),
        None => false,
    }
}

/// What is heard at that place: the INT 0 behind all that is told.
fn heard_at(heard: &[Heard], place: usize) -> Heard {
    match heard.get(place) {
        Some(heard) => *heard,
        None => Heard::Int(0),
    }
}

/// Shows the first hundred requests of both tasks, up to their end or to where they differ.
fn turns<'p>(
    alloc: Global,
    task: &mut TreeTask<'p>,
    project: &'p Project,
    machine: &mut TaskMachine,
    code: &Verified,
    heard: &[Heard],
    shown: &mut Shown,
)
    requires of_project { IsOf project.now task.old }
    requires of_code { Comes code.now machine.old }
{
    for place in 0..100 {
        let next = heard_at(heard, place);
        if !turn(alloc, task, project, machine, code, next, shown) {
            return;
        }
    }
}

/// What a task on the tree of one program and a task in the code of another ask for, if they can start.
fn started_both(
    alloc: Global,
    tree: &Program,
    coded: &Program,
    start: Start,
    heard: &[Heard],
) -> Option<Shown> {
    let (project, code) = (tree.project(), coded.code());
    let args = args_of(start.1);
    let Some(mut machine) = started(alloc, code, start.0, &args) else {
        return None;
    };
    let Ok(mut task) = TreeTask::start(alloc, project, start.0, &args) else {
        return None;
    };
    let mut shown = Shown::new();
    turns(
        alloc,
        &mut task,
        project,
        &mut machine,
        code,
        heard,
        &mut shown,
    );
    Some(shown)
}

/// What both ask for.
pub fn asked(
    alloc: Global,
    tree: &Option<Program>,
    coded: &Option<Program>,
    start: Start,
    heard: &[Heard],
) -> Shown {
    match (tree, coded) {
        (Some(tree), Some(coded)) => match started_both(alloc, tree, coded, start, heard) {
            Some(shown) => shown,
            None => Shown::of("not started"),
        },
        _ => Shown::of("no program"),
    }
}

/// What tasks of the source ask for.
fn asked_of(alloc: Global, source: &str, start: Start, heard: &[Heard]) -> Shown {
    let program = program(alloc, source);
    asked(alloc, &program, &program, start, heard)
}

/// What a task of the source's first function asks for first in code alone, as a tree takes long where many functions wait.
pub fn first_in_code(alloc: Global, source: &str) -> Shown {
    match program(alloc, source) {
        Some(program) => first_of(alloc, program.code()),
        None => Shown::of("no program"),
    }
}

fn first_of(alloc: Global, code: &Verified) -> Shown {
    let mut shown = Shown::new();
    match started(alloc, code, 0, &Args::empty()) {
        Some(mut machine) => shown.next(&next_in_code(&mut machine, code)),
        None => shown.put("not started"),
    }
    shown
}

/// Asserts that the tasks of each row make the same requests, and these.
pub fn compare(rt: &impl Abort, alloc: Global, rows: &[Row]) -> Result<(), Fail> {
    for (source, start, heard, want) in rows {
        let shown = asked_of(alloc, source, *start, heard);
        assert_eq!(rt; shown.as_str(), *want, "requests of {source}");
    }
    Ok(())
}
