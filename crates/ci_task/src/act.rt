//! One instruction.
ghost use Rattle.std.specs.Prelude.{◌≡◌, ◌+◌, ◌<◌, ◌≤◌, ◌^◌, length, reverse, slice_get, Some};
ghost use Rattle.std.specs.Vec.{vec_capacity};
ghost use Rattle.ci_base.specs.declared.bounds.TheConstants.{MOST_ROOM};
ghost use Rattle.ci_code.specs.Code.{IsCode};
ghost use Rattle.ci_code.specs.Machine.{instruction_in};
ghost use Rattle.ci_verify.specs.Rules.{NoneBroken};
ghost use Rattle.ci_task.specs.Courses.{went_by, led_to};
ghost use Rattle.ci_task.specs.Going.{CanNow, Leads};

use crate::active::Active;
use crate::calls::{call, give};
use crate::course::Course;
use crate::heard::Heard;
use crate::hot::{branch, drop_last, duplicate, load, modulo, push_int, store, two_ints};
use crate::rare::rare_at;
use ci_code::{Instruction, RawFunction, RawParts};
use ci_stack::TaskStack;

/// Where an instruction of a function leads.
#[inline(always)]
pub fn act(
    code: &RawParts,
    function: &RawFunction,
    what: &Instruction,
    at: Active,
    callers: &mut Vec<Active>,
    stack: &mut TaskStack,
    heard: &mut Heard,
) -> Course
    requires can { CanNow code.now what.now at (reverse callers.old.items) stack.old heard.old }
    requires here { slice_get code.now.functions at.function ≡ Some function.now }
    requires within { at.place < length function.now.steps }
    requires there { instruction_in (Some function.now) at.place ≡ Some what.now }
    requires code { IsCode code.now }
    requires sound { NoneBroken code.now }
    requires place { at.place + 1 < 2 ^ 32 }
    requires few { at.rooms ≤ MOST_ROOM }
    requires capacity { MOST_ROOM ≤ vec_capacity callers.old }
    ensures leads { Leads code.now what.now at (reverse callers.old.items) stack.old heard.old (went_by result) (led_to at result) (reverse callers.new.items) stack.new heard.new }
    ensures capacity { MOST_ROOM ≤ vec_capacity callers.new }
{
    match *what {
        Instruction::Tick => Course::Tick,
        Instruction::PushInt(n) => {
            push_int(code, n, at, stack);
            Course::Next
        }
        Instruction::Load(local) => {
            load(code, local, at, stack);
            Course::Next
        }
        Instruction::Store(local) => {
            store(code, local, at, stack);
            Course::Next
        }
        Instruction::Add => {
            two_ints(code, Instruction::Add, at, stack);
            Course::Next
        }
        Instruction::Sub => {
            two_ints(code, Instruction::Sub, at, stack);
            Course::Next
        }
        Instruction::Mod => {
            let went = modulo(code, function, at, stack, heard);
            Course::behind(went)
        }
        Instruction::CmpInt(relation) => {
            two_ints(code, Instruction::CmpInt(relation), at, stack);
            Course::Next
        }
        Instruction::Dup => {
            duplicate(code, at, stack);
            Course::Next
        }
        Instruction::Drop => {
            drop_last(code, at, stack);
            Course::Next
        }
        Instruction::Jump(to) => Course::Jump(to),
        Instruction::JumpIfZero(to) => branch(code, to, at, stack),
        Instruction::Call(number) => call(code, number, at, callers, stack, heard),
        Instruction::Return => give(code, function, at, callers, stack, heard),
        _ => {
            let went = rare_at(
                code,
                function,
                at.function,
                at.place,
                at.base,
                at.rooms,
                stack,
                heard,
            );
            Course::behind(went)
        }
    }
}
