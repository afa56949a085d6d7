//! A task in code.
ghost use Rattle.std.specs.Prelude.{IfSome};
ghost use Rattle.ci_base.specs.Requests.{Fits};
ghost use Rattle.ci_codegen_tests.specs.Sides.{AsksFor, Comes};
ghost use Rattle.ci_task.specs.Moved.{ArgsFit, cell_kinds};

use crate::arguments::takes;
use crate::shown::Next;
use ci_base::{Answer, Args, Request};
use ci_task::{Pause, TaskMachine};
use ci_verify::Verified;
use std::alloc::Global;

/// A machine at the beginning of a task from this function, if the arguments fit it and there is memory.
pub fn started(alloc: Global, code: &Verified, function: u32, args: &Args) -> Option<TaskMachine>
    ensures { IfSome result (λ machine. Comes code.now machine) }
{
    if !takes(code, function, args) {
        return None;
    }
    match TaskMachine::room(alloc) {
        Ok(mut machine) => {
            begin(&mut machine, code, function, args);
            Some(machine)
        }
        Err(_) => None,
    }
}

/// The machine begins.
fn begin(machine: &mut TaskMachine, code: &Verified, function: u32, args: &Args)
    requires { ArgsFit code.now function args.now }
    ensures { Comes code.now machine.new }
{
    machine.begin(code, function, args);
}

/// The ticks up to the next request, and the request, unless 100,000 ticks go by before it.
pub fn next_in_code(machine: &mut TaskMachine, code: &Verified) -> Next
    requires { Comes code.now machine.old }
    ensures { IfSome result (λ found. AsksFor code.now found.1 machine.new) }
{
    match machine.run(code, 100_000) {
        Pause::Asks { request, ticks } => Some((ticks, request)),
        Pause::OutOfTicks { ticks: _ } => None,
    }
}

/// The machine goes on with the answer.
pub fn go_on(machine: &mut TaskMachine, code: &Verified, request: &Request, answer: &Answer)
    requires asks { AsksFor code.now request.now machine.old }
    requires fits { Fits (cell_kinds code.now) request.now answer.now }
    ensures { Comes code.now machine.new }
{
    let _parts = code.parts();
    machine.resume(answer);
}
