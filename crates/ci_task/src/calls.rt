//! Calls of functions.
ghost use Rattle.std.specs.Prelude.{◌≡◌, ◌+◌, ◌<◌, ◌≤◌, ◌^◌, List, [], ◌∷◌, ◌++◌, length, map, reverse, take, drop, Some, slice_get};
ghost use Rattle.std.specs.Vec.{vec_capacity};
ghost use Rattle.ci_base.specs.declared.bounds.TheConstants.{MOST_ROOM};
ghost use Rattle.ci_base.specs.Values.{first_of_kind};
ghost use Rattle.ci_code.specs.declared.instruction.Instruction.TheVariants as does;
ghost use Rattle.ci_base.specs.declared.value.Value.{Value};
ghost use Rattle.ci_code.specs.Code.{IsCode};
ghost use Rattle.ci_code.specs.Machine.{given};
ghost use Rattle.ci_code.specs.Moves.{parameters_of};
ghost use Rattle.ci_verify.specs.Rules.{NoneBroken};
ghost use Rattle.ci_task.specs.Courses.{went_by, led_to};
ghost use Rattle.ci_task.specs.Going.{CanNow, Leads};

use crate::active::Active;
use crate::course::Course;
use crate::heard::Heard;
use ci_base::bounds::MOST_ROOM;
use ci_base::errors::CALL_DEPTH;
use ci_base::{Kind, Text, Value};
use ci_code::{RawFunction, RawParts};
use ci_stack::TaskStack;

/// The function of this number.
#[inline(always)]
pub fn function_at(code: &RawParts, number: u32) -> &RawFunction
    requires { number < length code.now.functions }
    ensures { slice_get code.now.functions number ≡ Some result.now }
{
    &code.functions.members()[number as usize]
}

/// How many parameters it has.
#[inline(always)]
fn parameters(code: &RawParts, number: u32) -> usize
    requires { number < length code.now.layout.functions }
    ensures { result ≡ length (parameters_of code.now number) }
{
    let head = &code.layout.functions.members()[number as usize];
    head.kinds.members().len()
}

/// The kinds from a number on.
#[inline(always)]
pub fn kinds_from(kinds: &[Kind], from: usize) -> &[Kind]
    requires { from ≤ length kinds.now }
    ensures { result.now ≡ drop from kinds.now }
{
    &kinds[from..]
}

/// The first value of a local of this kind goes on top.
#[inline(always)]
fn push_first(kind: Kind, stack: &mut TaskStack)
    requires { length stack.old < MOST_ROOM }
    ensures { stack.new ≡ stack.old ++ first_of_kind kind ∷ [] }
{
    match kind {
        Kind::Int => stack.replace_by_number(0, 0),
        Kind::Str => stack.replace_by(0, &Value::Str(Text::empty())),
    }
}

/// The first values of locals of these kinds go on top.
pub fn push_firsts(kinds: &[Kind], stack: &mut TaskStack)
    requires { length stack.old + length kinds.now ≤ MOST_ROOM }
    ensures { stack.new ≡ stack.old ++ map first_of_kind kinds.now }
{
    for kind in kinds {
        push_first(*kind, stack);
    }
}

/// The function of this number is called, with its arguments on top; where there is no room for it the task ends. Takes no
/// memory.
#[inline(always)]
pub fn call(
    code: &RawParts,
    number: u32,
    at: Active,
    callers: &mut Vec<Active>,
    stack: &mut TaskStack,
    heard: &Heard,
) -> Course
    requires can { CanNow code.now (does.Call number) at (reverse callers.old.items) stack.old heard.now }
    requires code { IsCode code.now }
    requires sound { NoneBroken code.now }
    requires place { at.place + 1 < 2 ^ 32 }
    requires few { at.rooms ≤ MOST_ROOM }
    requires capacity { MOST_ROOM ≤ vec_capacity callers.old }
    ensures leads { Leads code.now (does.Call number) at (reverse callers.old.items) stack.old heard.now (went_by result) (led_to at result) (reverse callers.new.items) stack.new heard.now }
    ensures capacity { MOST_ROOM ≤ vec_capacity callers.new }
{
    let function = function_at(code, number);
    let rooms = function.room as usize + at.rooms as usize;
    if rooms > MOST_ROOM {
        return Course::Ends(CALL_DEPTH);
    }
    let taken = parameters(code, number);
    match callers.push(at.next()) {
        Ok(()) => {}
        Err(_) => unreachable!(),
    }
    let base = stack.count() - taken;
    push_firsts(kinds_from(function.locals.members(), taken), stack);
    Course::To(Active {
        function: number,
        place: 0,
        base: base as u32,
        rooms: at.rooms + function.room,
    })
}

/// The function gives the value on top to the one that waits for it; the first one ends the task.
#[inline(always)]
pub fn give(
    code: &RawParts,
    function: &RawFunction,
    at: Active,
    callers: &mut Vec<Active>,
    stack: &mut TaskStack,
    heard: &Heard,
) -> Course
    requires can { CanNow code.now does.Return at (reverse callers.old.items) stack.old heard.now }
    requires here { slice_get code.now.functions at.function ≡ Some function.now }
    requires capacity { MOST_ROOM ≤ vec_capacity callers.old }
    ensures leads { Leads code.now does.Return at (reverse callers.old.items) stack.old heard.now (went_by result) (led_to at result) (reverse callers.new.items) stack.new heard.now }
    ensures capacity { MOST_ROOM ≤ vec_capacity callers.new }
{
    match callers.pop() {
        None => Course::Ends(0),
        Some(waiting) => {
            hand_over(function, at.base as usize, stack);
            Course::To(waiting)
        }
    }
}

/// The values from a place on give place to the one on top, or to the INT 0 where the function has no kind.
#[inline(always)]
fn hand_over(function: &RawFunction, base: usize, stack: &mut TaskStack)
    requires { base < length stack.old }
    ensures { (low : List Value) (v : Value) → stack.old ≡ low ++ v ∷ [] → stack.new ≡ take base low ++ given function.now.gives v ∷ [] }
{
    match function.gives {
        Some(_) => stack.keep_last(base),
        None => {
            let taken = stack.count() - base;
            stack.replace_by_number(taken, 0);
        }
    }
}
