//! Where one machine stands, run by run.
ghost use Rattle.ci_task_tests.specs.Begun.{HasBegun};

use crate::plans::{Between, I, NONE, S, first, verified};
use crate::play::{begun, go_on, run};
use crate::shown::Shown;
use ci_base::SharedName;
use ci_code::Instruction;
use ci_task::TaskMachine;
use ci_verify::Verified;
use std::alloc::Global;
use std::process::Abort;
use std::test::Fail;

/// What is done with a machine.
#[derive(Clone, Copy)]
enum Step {
    /// It is run with so many ticks.
    Run(u32),
    /// The same, and then it is answered.
    Answered(u32),
}

/// A step, and what is told of it: the request or `spent`, the ticks of the run, and the count of instructions.
type Row = (Step, &'static str);

// FUNCTION Main() WHILE 1 DO END END
static ENDLESS: [Between; 8] = [
    (NONE, Instruction::Tick),
    (NONE, Instruction::Tick),
    (NONE, Instruction::Tick),
    (NONE, Instruction::PushInt(1)),
    (I, Instruction::JumpIfZero(6)),
    (NONE, Instruction::Jump(2)),
    (NONE, Instruction::PushInt(0)),
    (I, Instruction::Return),
];

static ENDLESS_ROWS: [Row; 5] = [
    (Step::Run(3), "spent 3 6"),
    (Step::Run(0), "spent 0 6"),
    (Step::Run(1), "spent 1 10"),
    (Step::Run(100_000), "spent 100000 400010"),
    (Step::Run(0), "spent 0 400010"),
];

// FUNCTION Main() TraceMsg("hi"); END
static TRACING: [Between; 7] = [
    (NONE, Instruction::Tick),
    (NONE, Instruction::Tick),
    (NONE, Instruction::PushStr(0)),
    (S, Instruction::Ask(SharedName::Trace)),
    (I, Instruction::Drop),
    (NONE, Instruction::PushInt(0)),
    (I, Instruction::Return),
];

static TRACING_ROWS: [Row; 12] = [
    (Step::Run(0), "spent 0 0"),
    (Step::Run(1), "spent 1 1"),
    (Step::Run(5), "trace \"hi\" 1 4"),
    (Step::Run(5), "trace \"hi\" 0 4"),
    (Step::Run(0), "trace \"hi\" 0 4"),
    (Step::Run(4_294_967_295), "trace \"hi\" 0 4"),
    (Step::Answered(7), "trace \"hi\" 0 4"),
    (Step::Run(0), "end 0 0 3"),
    (Step::Run(5), "end 0 0 3"),
    (Step::Answered(5), "end 0 0 3"),
    (Step::Answered(0), "end 0 0 3"),
    (Step::Run(1), "end 0 0 3"),
];

/// What is told of a step.
fn told(code: &Verified, machine: &mut TaskMachine, step: Step) -> Shown
    requires { HasBegun code.now machine.old }
    ensures { HasBegun code.now machine.new }
{
    match step {
        Step::Run(ticks) => run(code, machine, ticks),
        Step::Answered(ticks) => {
            let mut out = Shown::new(true);
            let _ended = go_on(code, machine, ticks, &mut out);
            out
        }
    }
}

/// The step is told so; the number of its row is there for the message.
fn tells(rt: &impl Abort, code: &Verified, machine: &mut TaskMachine, at: usize, row: Row)
    requires { HasBegun code.now machine.old }
    ensures { HasBegun code.now machine.new }
{
    let told = told(code, machine, row.0);
    assert_eq!(rt; told.as_str(), row.1, "row {at}");
}

/// Each row is told as it says.
fn follow_rows(rt: &impl Abort, code: &Verified, machine: &mut TaskMachine, rows: &[Row])
    requires { HasBegun code.now machine.old }
{
    'rows: for (at, row) in rows.iter().enumerate() {
        tells(rt, code, machine, at, *row);
    }
}

/// Each row is told as it says, of a machine that runs these steps.
fn follow(
    rt: &impl Abort,
    alloc: Global,
    steps: &'static [Between],
    rows: &[Row],
) -> Result<(), Fail> {
    let code = verified(alloc, &[first(1, steps)])?;
    let mut machine = begun(alloc, &code)?;
    follow_rows(rt, &code, &mut machine, rows);
    Ok(())
}

#[test]
fn a_loop_without_end_uses_exactly_its_ticks(rt: HostRuntime) -> Result<(), Fail> {
    follow(&rt, rt.alloc(), &ENDLESS, &ENDLESS_ROWS)
}

#[test]
fn a_machine_at_a_request_answers_it_again(rt: HostRuntime) -> Result<(), Fail> {
    follow(&rt, rt.alloc(), &TRACING, &TRACING_ROWS)
}
