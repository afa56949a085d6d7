//! The instructions that are met most.
ghost use Rattle.std.specs.Prelude.{◌≡◌, ◌+◌, ◌<◌, ◌^◌, true, pos, length, Ok, Some};
ghost use Rattle.ci_base.specs.Arithmetic.{remainder};
ghost use Rattle.ci_base.specs.declared.value.Value.TheVariants.{Int};
ghost use Rattle.ci_code.specs.Machine.{instruction_in};
ghost use Rattle.ci_code.specs.declared.instruction.Instruction.TheVariants as does;
ghost use Rattle.ci_task.specs.Going.{next_place, Can, Does, CanHeard, DoesHeard};
ghost use Rattle.ci_task.specs.Operators.{is_whole};
ghost use Rattle.ci_task.specs.Operators as operators;
ghost use Rattle.ci_task.specs.Courses.{went_by, led_to};
ghost use Rattle.ci_task.specs.declared.went.Went.TheVariants as went;

use crate::active::Active;
use crate::course::Course;
use crate::heard::Heard;
use crate::rare::rare_at;
use crate::relations::compared;
use crate::went::Went;
use ci_builtin::{
    common_bits, conjunction, difference, differing_bits, disjunction, joint_bits, product, sum,
};
use ci_code::{Instruction, RawFunction, RawParts};
use ci_stack::TaskStack;

/// The INT that an instruction makes of two.
#[inline(always)]
fn whole(what: Instruction, a: i32, b: i32) -> i32
    requires { is_whole what ≡ true }
    ensures { result ≡ operators.whole what a b }
{
    match what {
        Instruction::Add => sum(a, b),
        Instruction::Sub => difference(a, b),
        Instruction::Mul => product(a, b),
        Instruction::And => conjunction(a, b),
        Instruction::Or => disjunction(a, b),
        Instruction::BitAnd => common_bits(a, b),
        Instruction::BitOr => joint_bits(a, b),
        Instruction::BitXor => differing_bits(a, b),
        Instruction::CmpInt(relation) => compared(relation, a, b),
        _ => unreachable!(),
    }
}

/// Two INTs give place to the one that they make.
#[inline(always)]
pub fn two_ints(code: &RawParts, what: Instruction, at: Active, stack: &mut TaskStack)
    requires whole { is_whole what ≡ true }
    requires can { Can code.now what at stack.old }
    ensures { Does code.now what at stack.old (next_place at) stack.new }
{
    let high = stack.last_number();
    let low = stack.second_number();
    let result = whole(what, low, high);
    stack.replace_by_number(2, result);
}

/// What is left of an INT that is divided by another one, which isn't 0.
#[inline(always)]
fn left_over(a: i32, b: i32) -> i32
    requires { (b ≡ pos 0) → ⊥ }
    ensures { remainder a b ≡ Ok (Int result) }
{
    a.wrapping_rem(b)
}

/// Two INTs give place to what is left of the first divided by the second. Where the second is 0, that is a run error.
#[inline(always)]
pub fn modulo(
    code: &RawParts,
    function: &RawFunction,
    at: Active,
    stack: &mut TaskStack,
    heard: &mut Heard,
) -> Went
    requires can { CanHeard code.now does.Mod at stack.old heard.old }
    requires within { at.place < length function.now.steps }
    requires there { instruction_in (Some function.now) at.place ≡ Some does.Mod }
    ensures { DoesHeard code.now does.Mod at stack.old heard.old result stack.new heard.new }
{
    let divisor = stack.last_number();
    if divisor == 0 {
        return rare_at(
            code,
            function,
            at.function,
            at.place,
            at.base,
            at.rooms,
            stack,
            heard,
        );
    }
    let dividend = stack.second_number();
    let _count = stack.count();
    stack.replace_by_number(2, left_over(dividend, divisor));
    Went::On
}

/// An INT goes on top.
#[inline(always)]
pub fn push_int(code: &RawParts, n: i32, at: Active, stack: &mut TaskStack)
    requires { Can code.now (does.PushInt n) at stack.old }
    ensures { Does code.now (does.PushInt n) at stack.old (next_place at) stack.new }
{
    stack.replace_by_number(0, n);
}

/// What a local holds goes on top.
#[inline(always)]
pub fn load(code: &RawParts, local: u32, at: Active, stack: &mut TaskStack)
    requires { Can code.now (does.Load local) at stack.old }
    ensures { Does code.now (does.Load local) at stack.old (next_place at) stack.new }
{
    stack.push_copy(at.base as usize + local as usize);
}

/// The value on top is taken into a local.
#[inline(always)]
pub fn store(code: &RawParts, local: u32, at: Active, stack: &mut TaskStack)
    requires { Can code.now (does.Store local) at stack.old }
    ensures { Does code.now (does.Store local) at stack.old (next_place at) stack.new }
{
    stack.store_last(at.base as usize + local as usize);
}

/// The value on top stands there twice.
#[inline(always)]
pub fn duplicate(code: &RawParts, at: Active, stack: &mut TaskStack)
    requires { Can code.now does.Dup at stack.old }
    ensures { Does code.now does.Dup at stack.old (next_place at) stack.new }
{
    let last = stack.count() - 1;
    stack.push_copy(last);
}

/// The two values on top change places.
#[inline(always)]
pub fn swap(code: &RawParts, at: Active, stack: &mut TaskStack)
    requires { Can code.now does.Swap at stack.old }
    ensures { Does code.now does.Swap at stack.old (next_place at) stack.new }
{
    stack.swap_last();
}

/// The value on top is taken off.
#[inline(always)]
pub fn drop_last(code: &RawParts, at: Active, stack: &mut TaskStack)
    requires { Can code.now does.Drop at stack.old }
    ensures { Does code.now does.Drop at stack.old (next_place at) stack.new }
{
    stack.take_off(1);
}

/// The INT on top is taken off; where it is 0 the function goes on at another place.
#[inline(always)]
pub fn branch(code: &RawParts, to: u32, at: Active, stack: &mut TaskStack) -> Course
    requires { Can code.now (does.JumpIfZero to) at stack.old }
    ensures goes_on { went_by result ≡ went.On }
    ensures does { Does code.now (does.JumpIfZero to) at stack.old (led_to at result) stack.new }
{
    let n = stack.last_number();
    stack.take_off(1);
    if n == 0 {
        return Course::Jump(to);
    }
    Course::Next
}
