//! Each run error, of a task that ends with it and of one that goes on.
use crate::plans::{Between, I, II, NO_KINDS, NONE, Plan, S, SI, SS, SSI};
use crate::play::told;
use crate::shown::Shown;
use ci_base::{Kind, PrivateName, SharedName};
use ci_code::Instruction;
use std::alloc::Global;
use std::process::Abort;
use std::test::Fail;

/// Instructions that fail, the kind of what they leave, what a task asks that ends with run errors, and what one asks that goes on:
/// it traces what they leave and then the last error, twice, up to its end.
type Row = (&'static [Between], Kind, &'static str, &'static str);

static ERRORS: [Row; 11] = [
    (
        &[(NONE, Instruction::PushInt(2)), (I, Instruction::ReadAt(0))],
        Kind::Int,
        "end 7",
        "trace \"0\"; trace \"7\"; trace \"0\"; end 0",
    ),
    (
        &[
            (NONE, Instruction::PushInt(-1)),
            (I, Instruction::ReadAt(0)),
        ],
        Kind::Int,
        "end 7",
        "trace \"0\"; trace \"7\"; trace \"0\"; end 0",
    ),
    (
        &[
            (NONE, Instruction::PushInt(2)),
            (I, Instruction::PushInt(5)),
            (II, Instruction::WriteAt(0)),
            (NONE, Instruction::PushInt(1)),
        ],
        Kind::Int,
        "end 7",
        "trace \"1\"; trace \"7\"; trace \"0\"; end 0",
    ),
    (
        &[
            (NONE, Instruction::PushInt(-1)),
            (I, Instruction::PushInt(5)),
            (II, Instruction::WriteAt(0)),
            (NONE, Instruction::PushInt(1)),
        ],
        Kind::Int,
        "end 7",
        "trace \"1\"; trace \"7\"; trace \"0\"; end 0",
    ),
    (
        &[
            (NONE, Instruction::PushInt(6)),
            (I, Instruction::PushInt(0)),
            (II, Instruction::Div),
        ],
        Kind::Int,
        "end 8",
        "trace \"0\"; trace \"8\"; trace \"0\"; end 0",
    ),
    (
        &[
            (NONE, Instruction::PushInt(6)),
            (I, Instruction::PushInt(0)),
            (II, Instruction::Mod),
        ],
        Kind::Int,
        "end 8",
        "trace \"0\"; trace \"8\"; trace \"0\"; end 0",
    ),
    (
        &[
            (NONE, Instruction::PushStr(1)),
            (S, Instruction::PushInt(255)),
            (SI, Instruction::Private(PrivateName::StrFill)),
            (S, Instruction::PushStr(1)),
            (SS, Instruction::Cat),
        ],
        Kind::Str,
        "end 9",
        "trace \"\"; trace \"9\"; trace \"0\"; end 0",
    ),
    (
        &[
            (NONE, Instruction::PushStr(1)),
            (S, Instruction::PushStr(1)),
            (SS, Instruction::PushInt(255)),
            (SSI, Instruction::Private(PrivateName::StrFill)),
            (SS, Instruction::Cat),
        ],
        Kind::Str,
        "end 9",
        "trace \"\"; trace \"9\"; trace \"0\"; end 0",
    ),
    (
        &[
            (NONE, Instruction::PushStr(0)),
            (S, Instruction::PushInt(256)),
            (SI, Instruction::Private(PrivateName::StrFill)),
        ],
        Kind::Str,
        "end 9",
        "trace \"\"; trace \"9\"; trace \"0\"; end 0",
    ),
    (
        &[
            (NONE, Instruction::PushStr(0)),
            (S, Instruction::Private(PrivateName::StrToInt)),
        ],
        Kind::Int,
        "end 13",
        "trace \"0\"; trace \"13\"; trace \"0\"; end 0",
    ),
    (
        &[
            (NONE, Instruction::PushInt(0)),
            (I, Instruction::Private(PrivateName::Assert)),
        ],
        Kind::Int,
        "end 14",
        "trace \"0\"; trace \"14\"; trace \"0\"; end 0",
    ),
];

/// Before them, in a task that ends with run errors.
static ENDING: [Between; 1] = [(NONE, Instruction::Tick)];

/// Before them, in a task that goes on.
static GOING_ON: [Between; 4] = [
    (NONE, Instruction::Tick),
    (NONE, Instruction::PushInt(1)),
    (I, Instruction::Private(PrivateName::ErrSet)),
    (I, Instruction::Drop),
];

/// Behind a number.
static NUMBER: [Between; 13] = [
    (I, Instruction::Private(PrivateName::IntToStr)),
    (S, Instruction::Ask(SharedName::Trace)),
    (I, Instruction::Drop),
    (NONE, Instruction::Private(PrivateName::IsError)),
    (I, Instruction::Private(PrivateName::IntToStr)),
    (S, Instruction::Ask(SharedName::Trace)),
    (I, Instruction::Drop),
    (NONE, Instruction::Private(PrivateName::IsError)),
    (I, Instruction::Private(PrivateName::IntToStr)),
    (S, Instruction::Ask(SharedName::Trace)),
    (I, Instruction::Drop),
    (NONE, Instruction::PushInt(0)),
    (I, Instruction::Return),
];

/// Behind a text.
static LETTERS: [Between; 12] = [
    (S, Instruction::Ask(SharedName::Trace)),
    (I, Instruction::Drop),
    (NONE, Instruction::Private(PrivateName::IsError)),
    (I, Instruction::Private(PrivateName::IntToStr)),
    (S, Instruction::Ask(SharedName::Trace)),
    (I, Instruction::Drop),
    (NONE, Instruction::Private(PrivateName::IsError)),
    (I, Instruction::Private(PrivateName::IntToStr)),
    (S, Instruction::Ask(SharedName::Trace)),
    (I, Instruction::Drop),
    (NONE, Instruction::PushInt(0)),
    (I, Instruction::Return),
];

/// What a task asks that does this between its beginning and its end.
fn asked(
    alloc: Global,
    before: &'static [Between],
    body: &'static [Between],
    left: Kind,
) -> Result<Shown, Fail> {
    let main = Plan {
        takes: &NO_KINDS,
        others: &NO_KINDS,
        gives: None,
        room: 12,
        before,
        body,
        behind: behind(left),
    };
    told(alloc, &[main], u32::MAX, false)
}

/// What stands behind a value of this kind.
fn behind(left: Kind) -> &'static [Between] {
    match left {
        Kind::Int => &NUMBER,
        Kind::Str => &LETTERS,
    }
}

fn fails(rt: &impl Abort, alloc: Global, at: usize, row: Row) -> Result<(), Fail> {
    let ending = asked(alloc, &ENDING, row.0, row.1)?;
    assert_eq!(rt; ending.as_str(), row.2, "row {at}");
    let going_on = asked(alloc, &GOING_ON, row.0, row.1)?;
    assert_eq!(rt; going_on.as_str(), row.3, "row {at}");
    Ok(())
}

#[test]
fn a_run_error_ends_a_task_or_is_its_last_error(rt: HostRuntime) -> Result<(), Fail> {
    for (at, row) in ERRORS.iter().enumerate() {
        fails(&rt, rt.alloc(), at, *row)?;
    }
    Ok(())
}
