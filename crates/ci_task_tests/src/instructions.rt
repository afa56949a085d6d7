//! Each instruction, done once.
use crate::operators::OPERATORS;
use crate::plans::{
    Between, I, II, IIS, IS, ISS, NO_KINDS, NO_STEPS, NONE, Plan, S, SI, SS, SSI, first,
};
use crate::play::told;
use crate::shown::Shown;
use ci_base::{Kind, PrivateName, SharedName};
use ci_code::Instruction;
use std::alloc::Global;
use std::process::Abort;
use std::test::Fail;

/// Instructions, the kind of what they leave, and what a task asks that has a number and a text as locals, does them, and traces
/// that, up to its end.
pub type Row = (&'static [Between], Kind, &'static str);

// The first of these instructions stands at place 1.
static INSTRUCTIONS: [Row; 42] = [
    (
        &[(NONE, Instruction::Tick), (NONE, Instruction::PushInt(5))],
        Kind::Int,
        "trace \"5\"; end 0",
    ),
    (
        &[(NONE, Instruction::PushInt(-7))],
        Kind::Int,
        "trace \"-7\"; end 0",
    ),
    (
        &[(NONE, Instruction::PushStr(0))],
        Kind::Str,
        "trace \"hi\"; end 0",
    ),
    (
        &[(NONE, Instruction::Load(0))],
        Kind::Int,
        "trace \"0\"; end 0",
    ),
    (
        &[(NONE, Instruction::Load(1))],
        Kind::Str,
        "trace \"\"; end 0",
    ),
    (
        &[
            (NONE, Instruction::PushInt(9)),
            (I, Instruction::Store(0)),
            (NONE, Instruction::Load(0)),
        ],
        Kind::Int,
        "trace \"9\"; end 0",
    ),
    (
        &[
            (NONE, Instruction::PushStr(0)),
            (S, Instruction::Store(1)),
            (NONE, Instruction::Load(1)),
        ],
        Kind::Str,
        "trace \"hi\"; end 0",
    ),
    (
        &[(NONE, Instruction::ReadCell(0))],
        Kind::Int,
        "read 0; trace \"41\"; end 0",
    ),
    (
        &[(NONE, Instruction::ReadCell(1))],
        Kind::Str,
        "read 1; trace \"cell\"; end 0",
    ),
    (
        &[
            (NONE, Instruction::PushInt(6)),
            (I, Instruction::WriteCell(0)),
            (NONE, Instruction::PushInt(1)),
        ],
        Kind::Int,
        "write 0 6; trace \"1\"; end 0",
    ),
    (
        &[
            (NONE, Instruction::PushStr(0)),
            (S, Instruction::WriteCell(1)),
            (NONE, Instruction::PushInt(1)),
        ],
        Kind::Int,
        "write 1 \"hi\"; trace \"1\"; end 0",
    ),
    (
        &[(NONE, Instruction::PushInt(1)), (I, Instruction::ReadAt(0))],
        Kind::Int,
        "read 3; trace \"41\"; end 0",
    ),
    (
        &[
            (NONE, Instruction::PushInt(0)),
            (I, Instruction::PushInt(8)),
            (II, Instruction::WriteAt(0)),
            (NONE, Instruction::PushInt(1)),
        ],
        Kind::Int,
        "write 2 8; trace \"1\"; end 0",
    ),
    (
        &[
            (NONE, Instruction::PushInt(4)),
            (I, Instruction::Dup),
            (II, Instruction::Add),
        ],
        Kind::Int,
        "trace \"8\"; end 0",
    ),
    (
        &[
            (NONE, Instruction::PushStr(0)),
            (S, Instruction::Dup),
            (SS, Instruction::Cat),
        ],
        Kind::Str,
        "trace \"hihi\"; end 0",
    ),
    (
        &[
            (NONE, Instruction::PushInt(3)),
            (I, Instruction::PushInt(5)),
            (II, Instruction::Swap),
            (II, Instruction::Sub),
        ],
        Kind::Int,
        "trace \"2\"; end 0",
    ),
    (
        &[
            (NONE, Instruction::PushInt(1)),
            (I, Instruction::PushStr(0)),
            (IS, Instruction::Swap),
            (SI, Instruction::Drop),
        ],
        Kind::Str,
        "trace \"hi\"; end 0",
    ),
    (
        &[
            (NONE, Instruction::PushStr(0)),
            (S, Instruction::PushInt(7)),
            (SI, Instruction::Swap),
            (IS, Instruction::Drop),
        ],
        Kind::Int,
        "trace \"7\"; end 0",
    ),
    (
        &[
            (NONE, Instruction::PushStr(0)),
            (S, Instruction::PushStr(1)),
            (SS, Instruction::Swap),
            (SS, Instruction::Cat),
        ],
        Kind::Str,
        "trace \"xhi\"; end 0",
    ),
    (
        &[
            (NONE, Instruction::PushInt(3)),
            (I, Instruction::PushInt(5)),
            (II, Instruction::Drop),
        ],
        Kind::Int,
        "trace \"3\"; end 0",
    ),
    (
        &[
            (NONE, Instruction::PushInt(1)),
            (I, Instruction::Jump(5)),
            (I, Instruction::Drop),
            (NONE, Instruction::PushInt(9)),
        ],
        Kind::Int,
        "trace \"1\"; end 0",
    ),
    (
        &[
            (NONE, Instruction::PushInt(0)),
            (I, Instruction::JumpIfZero(5)),
            (NONE, Instruction::PushInt(1)),
            (I, Instruction::Jump(6)),
            (NONE, Instruction::PushInt(2)),
        ],
        Kind::Int,
        "trace \"2\"; end 0",
    ),
    (
        &[
            (NONE, Instruction::PushInt(7)),
            (I, Instruction::JumpIfZero(5)),
            (NONE, Instruction::PushInt(1)),
            (I, Instruction::Jump(6)),
            (NONE, Instruction::PushInt(2)),
        ],
        Kind::Int,
        "trace \"1\"; end 0",
    ),
    (
        &[(NONE, Instruction::PushInt(3)), (I, Instruction::Call(1))],
        Kind::Str,
        "trace \"3\"; end 0",
    ),
    (
        &[
            (NONE, Instruction::PushInt(8)),
            (I, Instruction::PushInt(3)),
            (II, Instruction::Call(1)),
            (IS, Instruction::Drop),
        ],
        Kind::Int,
        "trace \"8\"; end 0",
    ),
    (
        &[(NONE, Instruction::Call(2))],
        Kind::Int,
        "trace \"0\"; end 0",
    ),
    (
        &[
            (NONE, Instruction::PushStr(0)),
            (S, Instruction::PushInt(1)),
            (SI, Instruction::Private(PrivateName::StrLeft)),
        ],
        Kind::Str,
        "trace \"h\"; end 0",
    ),
    (
        &[
            (NONE, Instruction::PushInt(5)),
            (I, Instruction::PushInt(8)),
            (II, Instruction::Private(PrivateName::Max)),
        ],
        Kind::Int,
        "trace \"8\"; end 0",
    ),
    (
        &[
            (NONE, Instruction::PushInt(0)),
            (I, Instruction::PushStr(0)),
            (IS, Instruction::PushStr(1)),
            (ISS, Instruction::Private(PrivateName::StrSearch)),
        ],
        Kind::Int,
        "trace \"-1\"; end 0",
    ),
    (
        &[(NONE, Instruction::Private(PrivateName::IsError))],
        Kind::Int,
        "trace \"0\"; end 0",
    ),
    (
        &[(NONE, Instruction::Ask(SharedName::SysTime))],
        Kind::Int,
        "time; trace \"3\"; end 0",
    ),
    (
        &[
            (NONE, Instruction::PushStr(0)),
            (S, Instruction::Ask(SharedName::Enter)),
        ],
        Kind::Int,
        "enter \"hi\"; trace \"3\"; end 0",
    ),
    (
        &[
            (NONE, Instruction::PushInt(4)),
            (I, Instruction::PushInt(-1)),
            (II, Instruction::Ask(SharedName::SemWait)),
        ],
        Kind::Int,
        "wait 4 -1; trace \"3\"; end 0",
    ),
    (
        &[
            (NONE, Instruction::PushStr(0)),
            (S, Instruction::PushInt(2)),
            (SI, Instruction::Ask(SharedName::SemOpen)),
        ],
        Kind::Int,
        "semaphore \"hi\" 2; trace \"3\"; end 0",
    ),
    (
        &[
            (NONE, Instruction::PushStr(0)),
            (S, Instruction::PushStr(1)),
            (SS, Instruction::PushInt(5)),
            (SSI, Instruction::Ask(SharedName::TaskNew)),
        ],
        Kind::Int,
        "start \"hi\" \"x\" 5; trace \"3\"; end 0",
    ),
    (
        &[
            (NONE, Instruction::PushInt(4)),
            (I, Instruction::PushInt(5)),
            (II, Instruction::PushStr(1)),
            (IIS, Instruction::Ask(SharedName::QueWrite)),
        ],
        Kind::Int,
        "put 4 5 \"x\"; trace \"3\"; end 0",
    ),
    (
        &[
            (NONE, Instruction::PushInt(1)),
            (I, Instruction::Ask(SharedName::Sleep)),
            (I, Instruction::Drop),
            (NONE, Instruction::Private(PrivateName::IsError)),
        ],
        Kind::Int,
        "sleep 1; trace \"10\"; end 0",
    ),
    (
        &[(NONE, Instruction::TakeSort)],
        Kind::Int,
        "trace \"0\"; end 0",
    ),
    (
        &[(NONE, Instruction::TakeText)],
        Kind::Str,
        "trace \"\"; end 0",
    ),
    (
        &[
            (NONE, Instruction::PushInt(1)),
            (I, Instruction::PushInt(0)),
            (II, Instruction::Ask(SharedName::QueRead)),
            (I, Instruction::Drop),
            (NONE, Instruction::TakeSort),
        ],
        Kind::Int,
        "take 1 0; trace \"9\"; end 0",
    ),
    (
        &[
            (NONE, Instruction::PushInt(1)),
            (I, Instruction::PushInt(0)),
            (II, Instruction::Ask(SharedName::QueRead)),
            (I, Instruction::Drop),
            (NONE, Instruction::TakeText),
        ],
        Kind::Str,
        "take 1 0; trace \"element\"; end 0",
    ),
    (
        &[(NONE, Instruction::Ask(SharedName::End))],
        Kind::Int,
        "end 0",
    ),
];

/// Before them.
static HEAD: [Between; 1] = [(NONE, Instruction::Tick)];

/// Behind a number.
static NUMBER: [Between; 5] = [
    (I, Instruction::Private(PrivateName::IntToStr)),
    (S, Instruction::Ask(SharedName::Trace)),
    (I, Instruction::Drop),
    (NONE, Instruction::PushInt(0)),
    (I, Instruction::Return),
];

/// Behind a text.
static LETTERS: [Between; 4] = [
    (S, Instruction::Ask(SharedName::Trace)),
    (I, Instruction::Drop),
    (NONE, Instruction::PushInt(0)),
    (I, Instruction::Return),
];

/// The steps of a function that takes a number, and gives its text.
static SPELLS: [Between; 4] = [
    (NONE, Instruction::Tick),
    (NONE, Instruction::Load(0)),
    (I, Instruction::Private(PrivateName::IntToStr)),
    (S, Instruction::Return),
];

/// The steps of a function without a kind.
static GIVES_NOTHING: [Between; 3] = [
    (NONE, Instruction::Tick),
    (NONE, Instruction::PushInt(5)),
    (I, Instruction::Return),
];

/// What the functions take and hold.
static ONE_INT: [Kind; 1] = [Kind::Int];

static INT_AND_TEXT: [Kind; 2] = [Kind::Int, Kind::Str];

/// The function that takes a number.
fn spells() -> Plan {
    Plan {
        takes: &ONE_INT,
        others: &NO_KINDS,
        gives: Some(Kind::Str),
        room: 2,
        before: &NO_STEPS,
        body: &SPELLS,
        behind: &NO_STEPS,
    }
}

/// The first function, which does this.
fn main_plan(body: &'static [Between], left: Kind) -> Plan {
    Plan {
        takes: &NO_KINDS,
        others: &INT_AND_TEXT,
        gives: None,
        room: 12,
        before: &HEAD,
        body,
        behind: behind(left),
    }
}

/// What stands behind a value of this kind.
fn behind(left: Kind) -> &'static [Between] {
    match left {
        Kind::Int => &NUMBER,
        Kind::Str => &LETTERS,
    }
}

/// What the task asks, run with so many ticks each time.
pub fn asked(
    alloc: Global,
    body: &'static [Between],
    left: Kind,
    grant: u32,
    counts: bool,
) -> Result<Shown, Fail> {
    let plans = [main_plan(body, left), spells(), first(1, &GIVES_NOTHING)];
    told(alloc, &plans, grant, counts)
}

fn does(rt: &impl Abort, alloc: Global, at: usize, row: Row) -> Result<(), Fail> {
    let told = asked(alloc, row.0, row.1, u32::MAX, false)?;
    assert_eq!(rt; told.as_str(), row.2, "row {at}");
    Ok(())
}

#[test]
fn each_instruction_does_what_it_is_for(rt: HostRuntime) -> Result<(), Fail> {
    for (at, row) in INSTRUCTIONS.iter().enumerate() {
        does(&rt, rt.alloc(), at, *row)?;
    }
    Ok(())
}

#[test]
fn each_operator_does_what_it_is_for(rt: HostRuntime) -> Result<(), Fail> {
    for (at, row) in OPERATORS.iter().enumerate() {
        does(&rt, rt.alloc(), at, *row)?;
    }
    Ok(())
}

fn does_alike(rt: &impl Abort, alloc: Global, at: usize, row: Row, grant: u32) -> Result<(), Fail> {
    let once = asked(alloc, row.0, row.1, u32::MAX, true)?;
    let by_turns = asked(alloc, row.0, row.1, grant, true)?;
    assert_eq!(rt; by_turns.as_str(), once.as_str(), "row {at}");
    Ok(())
}

#[test]
fn an_instruction_does_the_same_however_ticks_are_granted(rt: HostRuntime) -> Result<(), Fail> {
    for (at, row) in INSTRUCTIONS.iter().enumerate() {
        does_alike(&rt, rt.alloc(), at, *row, 1)?;
    }
    for (at, row) in OPERATORS.iter().enumerate() {
        does_alike(&rt, rt.alloc(), at, *row, 1)?;
    }
    Ok(())
}
