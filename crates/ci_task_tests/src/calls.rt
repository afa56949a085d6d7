//! Calls, and the rooms of the functions that are active.
use crate::plans::{
    Between, I, II, III, IS, ISI, NO_KINDS, NO_STEPS, NONE, Plan, S, SI, SII, SIS, SS, first,
};
use crate::play::told;
use crate::shown::Shown;
use ci_base::{Kind, PrivateName, Relation, SharedName};
use ci_code::Instruction;
use std::alloc::Global;
use std::process::Abort;
use std::test::Fail;

/// The room of the first function, whether the task goes on after run errors, the room of the other function, which calls itself
/// for ever, and what the task asks.
type Row = (u32, bool, u32, &'static str);

static CALLS: [Between; 5] = [
    (NONE, Instruction::Tick),
    (NONE, Instruction::Call(1)),
    (I, Instruction::Drop),
    (NONE, Instruction::PushInt(0)),
    (I, Instruction::Return),
];

/// The same in a task that goes on after run errors.
static CALLS_GOING_ON: [Between; 8] = [
    (NONE, Instruction::Tick),
    (NONE, Instruction::PushInt(1)),
    (I, Instruction::Private(PrivateName::ErrSet)),
    (I, Instruction::Drop),
    (NONE, Instruction::Call(1)),
    (I, Instruction::Drop),
    (NONE, Instruction::PushInt(0)),
    (I, Instruction::Return),
];

// Beside the first function the other one is active 4,095 times, 819 times, 818 times, once, and never: the rooms of all come to
// 4,096 at most.
static DEEP: [Row; 6] = [
    (1, false, 1, "end 12 4096 8192"),
    (1, true, 1, "end 12 4096 8195"),
    (1, false, 5, "end 12 820 1640"),
    (2, false, 5, "end 12 819 1638"),
    (1, false, 4_095, "end 12 2 4"),
    (2, false, 4_095, "end 12 1 2"),
];

fn is_deep(rt: &impl Abort, alloc: Global, at: usize, row: Row) -> Result<(), Fail> {
    let main: &'static [Between] = if row.1 { &CALLS_GOING_ON } else { &CALLS };
    let told = told(
        alloc,
        &[first(row.0, main), first(row.2, &CALLS)],
        u32::MAX,
        true,
    )?;
    assert_eq!(rt; told.as_str(), row.3, "row {at}");
    Ok(())
}

#[test]
fn calls_come_to_rooms_of_4096_and_no_further(rt: HostRuntime) -> Result<(), Fail> {
    for (at, row) in DEEP.iter().enumerate() {
        is_deep(&rt, rt.alloc(), at, *row)?;
    }
    Ok(())
}

/// What the next one takes.
static ONE_INT: [Kind; 1] = [Kind::Int];

/// A function that calls itself with one less, down to 0, and gives one more.
static COUNTS: [Between; 12] = [
    (NONE, Instruction::Tick),
    (NONE, Instruction::Load(0)),
    (I, Instruction::JumpIfZero(10)),
    (NONE, Instruction::PushInt(1)),
    (I, Instruction::Load(0)),
    (II, Instruction::PushInt(1)),
    (III, Instruction::Sub),
    (II, Instruction::Call(1)),
    (II, Instruction::Add),
    (I, Instruction::Return),
    (NONE, Instruction::PushInt(0)),
    (I, Instruction::Return),
];

/// It is called with 1022, and traced.
static FROM_1022: [Between; 8] = [
    (NONE, Instruction::Tick),
    (NONE, Instruction::PushInt(1022)),
    (I, Instruction::Call(1)),
    (I, Instruction::Private(PrivateName::IntToStr)),
    (S, Instruction::Ask(SharedName::Trace)),
    (I, Instruction::Drop),
    (NONE, Instruction::PushInt(0)),
    (I, Instruction::Return),
];

/// With one more.
static FROM_1023: [Between; 8] = [
    (NONE, Instruction::Tick),
    (NONE, Instruction::PushInt(1023)),
    (I, Instruction::Call(1)),
    (I, Instruction::Private(PrivateName::IntToStr)),
    (S, Instruction::Ask(SharedName::Trace)),
    (I, Instruction::Drop),
    (NONE, Instruction::PushInt(0)),
    (I, Instruction::Return),
];

// Its room is 4, and so is that of the function that calls it first: 1,023 of it fit.
fn counts(alloc: Global, main: &'static [Between], grant: u32) -> Result<Shown, Fail> {
    let function = Plan {
        takes: &ONE_INT,
        others: &NO_KINDS,
        gives: Some(Kind::Int),
        room: 4,
        before: &NO_STEPS,
        body: &COUNTS,
        behind: &NO_STEPS,
    };
    told(alloc, &[first(4, main), function], grant, true)
}

#[test]
fn calls_that_fill_the_rooms_return(rt: HostRuntime) -> Result<(), Fail> {
    let told = counts(rt.alloc(), &FROM_1022, u32::MAX)?;
    assert_eq!(rt; told.as_str(), "trace \"1022\" 1024 10230; end 0 0 3");
    Ok(())
}

#[test]
fn one_call_more_is_refused(rt: HostRuntime) -> Result<(), Fail> {
    let told = counts(rt.alloc(), &FROM_1023, u32::MAX)?;
    assert_eq!(rt; told.as_str(), "end 12 1024 8187");
    Ok(())
}

#[test]
fn calls_are_the_same_with_a_tick_by_turns(rt: HostRuntime) -> Result<(), Fail> {
    let told = counts(rt.alloc(), &FROM_1022, 1)?;
    assert_eq!(rt; told.as_str(), "trace \"1022\" 1024 10230; end 0 0 3");
    Ok(())
}

/// What the next one takes.
static INT_AND_TEXT: [Kind; 2] = [Kind::Int, Kind::Str];

/// A function of a number and a text, which gives the text: it calls itself with a number one less, down to 0, and gives another
/// text where what it gets isn't its own.
static KEEPS: [Between; 17] = [
    (NONE, Instruction::Tick),
    (NONE, Instruction::Load(0)),
    (I, Instruction::JumpIfZero(13)),
    (NONE, Instruction::Load(1)),
    (S, Instruction::Load(0)),
    (SI, Instruction::PushInt(1)),
    (SII, Instruction::Sub),
    (SI, Instruction::Load(1)),
    (SIS, Instruction::Call(1)),
    (SS, Instruction::CmpStr(Relation::Equal)),
    (I, Instruction::JumpIfZero(15)),
    (NONE, Instruction::Load(1)),
    (S, Instruction::Return),
    (NONE, Instruction::Load(1)),
    (S, Instruction::Return),
    (NONE, Instruction::PushStr(0)),
    (S, Instruction::Return),
];

/// It is called with 817 and a text of 255 bytes, and the length of what it gives is traced.
static FROM_817: [Between; 12] = [
    (NONE, Instruction::Tick),
    (NONE, Instruction::PushInt(817)),
    (I, Instruction::PushStr(1)),
    (IS, Instruction::PushInt(255)),
    (ISI, Instruction::Private(PrivateName::StrFill)),
    (IS, Instruction::Call(1)),
    (S, Instruction::Private(PrivateName::StrLength)),
    (I, Instruction::Private(PrivateName::IntToStr)),
    (S, Instruction::Ask(SharedName::Trace)),
    (I, Instruction::Drop),
    (NONE, Instruction::PushInt(0)),
    (I, Instruction::Return),
];

// Its room is 5, and that of the function that calls it first is 6: 818 of it fit.
fn keeps(alloc: Global, grant: u32) -> Result<Shown, Fail> {
    let function = Plan {
        takes: &INT_AND_TEXT,
        others: &NO_KINDS,
        gives: Some(Kind::Str),
        room: 5,
        before: &NO_STEPS,
        body: &KEEPS,
        behind: &NO_STEPS,
    };
    told(alloc, &[first(6, &FROM_817), function], grant, false)
}

#[test]
fn texts_of_255_bytes_are_kept_through_calls(rt: HostRuntime) -> Result<(), Fail> {
    let told = keeps(rt.alloc(), u32::MAX)?;
    assert_eq!(rt; told.as_str(), "trace \"255\"; end 0");
    Ok(())
}
