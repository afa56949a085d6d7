//! Tasks that are run, and answered, up to their end.
ghost use Rattle.std.specs.Prelude.{◌≡◌, [], ◌↔◌, IsTrue, IfOk, IfSome};
ghost use Rattle.ci_base.specs.declared.reply.Extra.TheVariants.{Nothing};
ghost use Rattle.ci_base.specs.declared.value.Value.TheVariants.{Int};
ghost use Rattle.ci_base.specs.Requests.{Fits, IsCellAnswer, IsQueueAnswer};
ghost use Rattle.ci_base.specs.Values.{kind_of};
ghost use Rattle.ci_task.specs.Moved.{ArgsFit, cell_kinds};
ghost use Rattle.ci_task_tests.specs.Begun.{HasBegun, HasTold};

use crate::plans::{Plan, text, verified};
use crate::shown::Shown;
use ci_base::{Answer, Args, Extra, Kind, Request, Value};
use ci_task::{Pause, TaskMachine};
use ci_verify::Verified;
use std::alloc::Global;
use std::test::Fail;

/// A machine on which the first function of the code has begun.
pub fn begun(alloc: Global, code: &Verified) -> Result<TaskMachine, Fail>
    ensures { IfOk result (λ machine. HasBegun code.now machine) }
{
    if !takes_nothing(code) {
        return Err(Fail::from("the first function takes arguments"));
    }
    match TaskMachine::room(alloc) {
        Ok(machine) => Ok(begin(code, machine)),
        Err(_) => Err(Fail::from("out of memory")),
    }
}

/// Whether there is a first function, which takes nothing.
fn takes_nothing(code: &Verified) -> bool
    ensures { IsTrue result → ArgsFit code.now 0 [] }
{
    let parts = code.parts();
    let heads = parts.layout.functions.members();
    let functions = parts.functions.members();
    if heads.is_empty() || functions.is_empty() {
        return false;
    }
    let head = &heads[0];
    let _function = &functions[0];
    head.kinds.members().is_empty()
}

/// The machine, on which the first function has begun.
fn begin(code: &Verified, mut machine: TaskMachine) -> TaskMachine
    requires { ArgsFit code.now 0 [] }
    ensures { HasBegun code.now result }
{
    machine.begin(code, 0, &Args::empty());
    machine
}

/// What a run with so many ticks comes to, and the count of instructions behind it.
pub fn run(code: &Verified, machine: &mut TaskMachine, ticks: u32) -> Shown
    requires { HasBegun code.now machine.old }
    ensures { HasBegun code.now machine.new }
{
    let pause = machine.run(code, ticks);
    let mut out = Shown::new(true);
    out.pause(&pause, machine.instructions());
    out
}

/// The task is run on with so many ticks, and answered where it asks. Whether it has ended.
pub fn go_on(code: &Verified, machine: &mut TaskMachine, ticks: u32, out: &mut Shown) -> bool
    requires { HasBegun code.now machine.old }
    ensures { HasBegun code.now machine.new }
{
    let pause = machine.run(code, ticks);
    match &pause {
        Pause::OutOfTicks { ticks } => {
            out.ticks(*ticks);
            false
        }
        Pause::Asks { request, ticks: _ } => {
            out.pause(&pause, machine.instructions());
            answer(code, machine, request)
        }
    }
}

/// The task has an answer to this request. Whether it has ended.
fn answer(code: &Verified, machine: &mut TaskMachine, request: &Request) -> bool
    requires { HasTold code.now request.now machine.old }
    ensures { HasBegun code.now machine.new }
{
    let _parts = code.parts();
    match answer_to(code, request) {
        Some(answer) => {
            machine.resume(&answer);
            false
        }
        None => true,
    }
}

/// What the request gets: of a cell 41 or `cell`, of a sleep 10 with error 10, of a queue the element 9 `element`, of others 3.
fn answer_to(code: &Verified, request: &Request) -> Option<Answer>
    ensures { IfSome result (λ answer. Fits (cell_kinds code.now) request.now answer) }
{
    match request {
        Request::Read { cell } => held(code, *cell),
        Request::Write { .. } => Some(plain(0, 0)),
        Request::QueRead { .. } => Some(element()),
        Request::End { .. } => None,
        Request::Sleep { .. } => Some(plain(10, 10)),
        _ => Some(plain(3, 0)),
    }
}

/// This INT with this code, and nothing besides.
fn plain(n: i32, code: u8) -> Answer
    ensures { result ≡ record { value = Int n; code = code; extra = Nothing } }
{
    Answer {
        value: Value::Int(n),
        code,
        extra: Extra::Nothing,
    }
}

/// An element of a queue.
fn element() -> Answer
    ensures { IsQueueAnswer result }
{
    Answer {
        value: Value::Int(0),
        code: 0,
        extra: Extra::Element {
            sort: 9,
            text: text(b"element"),
        },
    }
}

/// What the cell holds.
fn held(code: &Verified, cell: u32) -> Option<Answer>
    ensures { IfSome result (λ answer. IsCellAnswer (cell_kinds code.now) cell answer) }
{
    let heads = code.parts().layout.cells.members();
    match heads.get(cell as usize) {
        Some(head) => Some(Answer {
            value: value(head.kind),
            code: 0,
            extra: Extra::Nothing,
        }),
        None => None,
    }
}

/// What a cell of this kind holds.
fn value(kind: Kind) -> Value
    ensures { kind_of result ≡ kind }
{
    match kind {
        Kind::Int => Value::Int(41),
        Kind::Str => Value::Str(text(b"cell")),
    }
}

/// The task is run up to its end, with so many ticks each time.
fn finish(code: &Verified, machine: &mut TaskMachine, grant: u32, out: &mut Shown)
    requires { HasBegun code.now machine.old }
{
    'runs: for _ in 0..100_000 {
        if go_on(code, machine, grant, out) {
            return;
        }
    }
    out.put("; no end");
}

/// What the first function of these asks up to its end, run with so many ticks each time.
pub fn told(alloc: Global, plans: &[Plan], grant: u32, counts: bool) -> Result<Shown, Fail> {
    let code = verified(alloc, plans)?;
    let mut machine = begun(alloc, &code)?;
    let mut out = Shown::new(counts);
    finish(&code, &mut machine, grant, &mut out);
    Ok(out)
}
