//! What each instruction takes and leaves.
use crate::plans::{
    ABSENT, EMPTY, INT, INT_INT, INT_INT_INT, INT_STR, INT_STR_STR, STR, STR_INT, STR_STR,
    STR_STR_STR, called, kinds_of, number_of, told, with_two_locals,
};
use ci_base::{Kind, PrivateName, Relation, SharedName};
use ci_code::Instruction;
use std::alloc::Global;
use std::test::Fail;

/// An instruction between the shapes that stand before and behind it.
type Between = (u32, Instruction, u32);

static INSTRUCTIONS: [Between; 51] = [
    (EMPTY, Instruction::Tick, EMPTY),
    (EMPTY, Instruction::PushInt(5), INT),
    (EMPTY, Instruction::PushStr(0), STR),
    (EMPTY, Instruction::Load(0), INT),
    (EMPTY, Instruction::Load(1), STR),
    (INT, Instruction::Store(0), EMPTY),
    (STR, Instruction::Store(1), EMPTY),
    (EMPTY, Instruction::ReadCell(0), INT),
    (EMPTY, Instruction::ReadCell(1), STR),
    (INT, Instruction::WriteCell(0), EMPTY),
    (STR, Instruction::WriteCell(1), EMPTY),
    (INT, Instruction::ReadAt(0), INT),
    (INT_INT, Instruction::WriteAt(0), EMPTY),
    (INT, Instruction::Neg, INT),
    (INT, Instruction::Not, INT),
    (INT_INT, Instruction::Add, INT),
    (INT_INT, Instruction::Sub, INT),
    (INT_INT, Instruction::Mul, INT),
    (INT_INT, Instruction::Div, INT),
    (INT_INT, Instruction::Mod, INT),
    (INT_INT, Instruction::And, INT),
    (INT_INT, Instruction::Or, INT),
    (INT_INT, Instruction::BitAnd, INT),
    (INT_INT, Instruction::BitOr, INT),
    (INT_INT, Instruction::BitXor, INT),
    (STR_STR, Instruction::Cat, STR),
    (INT_INT, Instruction::CmpInt(Relation::Less), INT),
    (STR_STR, Instruction::CmpStr(Relation::AtLeast), INT),
    (INT_INT_INT, Instruction::WithinInt, INT),
    (STR_STR_STR, Instruction::WithinStr, INT),
    (INT, Instruction::Form(1), STR),
    (INT, Instruction::Form(255), STR),
    (INT, Instruction::Dup, INT_INT),
    (INT_STR, Instruction::Dup, INT_STR_STR),
    (INT_STR, Instruction::Swap, STR_INT),
    (STR_INT, Instruction::Swap, INT_STR),
    (INT_STR, Instruction::Drop, INT),
    (STR, Instruction::Drop, EMPTY),
    (EMPTY, Instruction::Jump(2), EMPTY),
    (INT, Instruction::JumpIfZero(3), EMPTY),
    (INT, Instruction::Call(1), STR),
    (EMPTY, Instruction::Private(PrivateName::IsError), INT),
    (STR_INT, Instruction::Private(PrivateName::StrLeft), STR),
    (INT_INT, Instruction::Private(PrivateName::Max), INT),
    (
        INT_STR_STR,
        Instruction::Private(PrivateName::StrSearch),
        INT,
    ),
    (EMPTY, Instruction::Ask(SharedName::SysTime), INT),
    (STR, Instruction::Ask(SharedName::Trace), INT),
    (STR_INT, Instruction::Ask(SharedName::SemOpen), INT),
    (INT_INT, Instruction::Ask(SharedName::QueRead), INT),
    (EMPTY, Instruction::TakeSort, INT),
    (EMPTY, Instruction::TakeText, STR),
];

/// A shape that an instruction can't stand behind.
static LACKING: [(u32, Instruction); 52] = [
    (EMPTY, Instruction::Neg),
    (EMPTY, Instruction::Dup),
    (EMPTY, Instruction::Drop),
    (EMPTY, Instruction::Form(1)),
    (EMPTY, Instruction::JumpIfZero(0)),
    (EMPTY, Instruction::Call(1)),
    (EMPTY, Instruction::Return),
    (EMPTY, Instruction::Ask(SharedName::Trace)),
    (EMPTY, Instruction::Private(PrivateName::Abs)),
    (INT, Instruction::Store(1)),
    (INT, Instruction::WriteCell(1)),
    (INT, Instruction::WriteAt(0)),
    (INT, Instruction::Swap),
    (INT, Instruction::Add),
    (INT, Instruction::Sub),
    (INT, Instruction::Mul),
    (INT, Instruction::Div),
    (INT, Instruction::Mod),
    (INT, Instruction::And),
    (INT, Instruction::Or),
    (INT, Instruction::BitAnd),
    (INT, Instruction::BitOr),
    (INT, Instruction::BitXor),
    (INT, Instruction::Cat),
    (INT, Instruction::CmpInt(Relation::Equal)),
    (INT, Instruction::Ask(SharedName::QueRead)),
    (INT, Instruction::Private(PrivateName::StrLength)),
    (STR, Instruction::Store(0)),
    (STR, Instruction::WriteCell(0)),
    (STR, Instruction::ReadAt(0)),
    (STR, Instruction::Neg),
    (STR, Instruction::Not),
    (STR, Instruction::Form(1)),
    (STR, Instruction::JumpIfZero(0)),
    (STR, Instruction::Call(1)),
    (STR, Instruction::Cat),
    (STR, Instruction::CmpStr(Relation::Equal)),
    (STR, Instruction::Return),
    (STR, Instruction::Private(PrivateName::IntToStr)),
    (INT_INT, Instruction::WithinInt),
    (INT_INT, Instruction::CmpStr(Relation::Less)),
    (INT_STR, Instruction::Add),
    (INT_STR, Instruction::Cat),
    (INT_STR, Instruction::CmpInt(Relation::Less)),
    (INT_STR, Instruction::WriteAt(0)),
    (INT_STR, Instruction::Private(PrivateName::StrLeft)),
    (INT_STR, Instruction::Ask(SharedName::SemOpen)),
    (STR_INT, Instruction::WriteAt(0)),
    (STR_INT, Instruction::CmpStr(Relation::Less)),
    (STR_STR, Instruction::WithinStr),
    (STR_STR, Instruction::Add),
    (INT_STR_STR, Instruction::WithinStr),
];

/// A tick, what makes the shape, and the instruction.
fn behind_shape(
    alloc: Global,
    shape: u32,
    what: Instruction,
) -> Result<Vec<(u32, Instruction)>, Fail> {
    let mut steps = Vec::new(alloc);
    steps.push((EMPTY, Instruction::Tick))?;
    let kinds = kinds_of(shape);
    for count in 0..kinds.len() {
        let push = match kinds[count] {
            Kind::Int => Instruction::PushInt(1),
            Kind::Str => Instruction::PushStr(0),
        };
        steps.push((number_of(&kinds[..count]), push))?;
    }
    steps.push((shape, what))?;
    Ok(steps)
}

/// The same, and an endless loop with the shape behind it.
fn between(
    alloc: Global,
    before: u32,
    what: Instruction,
    behind: u32,
) -> Result<Vec<(u32, Instruction)>, Fail> {
    let mut steps = behind_shape(alloc, before, what)?;
    let place = u32::try_from(steps.len())?;
    steps.push((behind, Instruction::Tick))?;
    steps.push((behind, Instruction::Jump(place)))?;
    Ok(steps)
}

/// The place of the instruction behind the shape.
fn place_behind(shape: u32) -> Result<u32, Fail> {
    Ok(u32::try_from(kinds_of(shape).len())?.saturating_add(1))
}

#[test]
fn each_instruction_leaves_its_kinds(rt: HostRuntime) -> Result<(), Fail> {
    for (before, what, behind) in INSTRUCTIONS.iter().copied() {
        for other in 0..ABSENT {
            let steps = between(rt.alloc(), before, what, other)?;
            let plans = [with_two_locals(6, steps.as_slice()), called()];
            let wanted = if other == behind {
                (0, 0, 0)
            } else {
                (4, 0, place_behind(before)?)
            };
            assert_eq!(rt;
                told(rt.alloc(), &plans)?,
                wanted,
                "{what:?} before {other}"
            );
        }
    }
    Ok(())
}

#[test]
fn each_instruction_finds_its_kinds(rt: HostRuntime) -> Result<(), Fail> {
    for (before, what) in LACKING.iter().copied() {
        let steps = behind_shape(rt.alloc(), before, what)?;
        let plans = [with_two_locals(6, steps.as_slice()), called()];
        let wanted = (3, 0, place_behind(before)?);
        assert_eq!(rt;
            told(rt.alloc(), &plans)?,
            wanted,
            "{what:?} behind {before}"
        );
    }
    Ok(())
}
