//! A run up to a request, or to the end of its ticks.
ghost use Rattle.std.specs.Prelude.{◌≡◌, ◌-◌, ◌≤◌, ◌<◌, reverse, slice_get, Some, length, min};
ghost use Rattle.std.specs.Vec.{vec_capacity};
ghost use Rattle.ci_base.specs.declared.bounds.TheConstants.{MOST_ROOM};
ghost use Rattle.ci_code.specs.declared.raw.RawFunction.{RawFunction as Counted};
ghost use Rattle.ci_code.specs.Code.{IsCode};
ghost use Rattle.ci_code.specs.Machine.{instruction_in};
ghost use Rattle.ci_verify.specs.Rules.{NoneBroken};
ghost use Rattle.ci_task.specs.Spelled.{spelled};
ghost use Rattle.ci_task.specs.Running.{Holds, Runs, Stops, most_counted};

use crate::act::act;
use crate::active::Active;
use crate::calls::function_at;
use crate::course::Course;
use crate::heard::Heard;
use crate::went::Went;
use ci_code::{Instruction, RawFunction, RawParts, Step};
use ci_stack::TaskStack;

/// What the count of instructions stops at.
const MOST_COUNTED: u64 = 9_223_372_036_854_775_807;

/// Where a run stopped.
#[derive(Clone, Copy, Debug)]
pub struct Stop {
    /// The function that runs.
    pub at: Active,
    /// The ticks that were used.
    pub used: u32,
    /// The count of instructions.
    pub count: u64,
    /// Why it stopped: a tick comes next, the task ends, or it makes a request.
    pub went: Went,
}

/// The instruction at a place of a function.
#[inline(always)]
pub fn instruction_of(function: &RawFunction, place: u32) -> Instruction
    requires { place < length function.now.steps }
    ensures { instruction_in (Some function.now) place ≡ Some result }
{
    let step = &function.steps.members()[place as usize];
    step.what
}

/// The count, at most what it stops at.
#[inline(always)]
fn capped(count: u64) -> u64
    ensures { result ≡ min count most_counted }
{
    if count < MOST_COUNTED {
        count
    } else {
        MOST_COUNTED
    }
}

/// The instruction at a place.
#[inline(always)]
fn instruction_among(steps: &[Step], place: usize) -> &Instruction
    requires { place < length steps.now }
    ensures { (function : Counted) → steps.now ≡ function.steps → instruction_in (Some function) place ≡ Some result.now }
{
    let step = &steps[place];
    &step.what
}

/// How many instructions were run from one place to another, none of which jumps.
#[inline(always)]
fn passed(from: Active, to: Active) -> u64
    requires { from.place ≤ to.place }
    ensures { result ≡ to.place - from.place }
{
    (to.place - from.place) as u64
}

/// The run stops there.
#[inline(always)]
fn stopped(at: Active, used: u32, count: u64, went: Went) -> Stop
    ensures { result ≡ record { at = at; used = used; count = min count most_counted; went = went } }
{
    Stop {
        at,
        used,
        count: capped(count),
        went,
    }
}

/// The code is run until a request is met, or the ticks are used and a tick comes next; the count of instructions goes on from
/// `before`.
///
/// Of instructions one behind the other none is counted by itself: the run keeps the place where it last landed by a jump, a
/// call, a return or a tick.
pub fn go(
    code: &RawParts,
    from: Active,
    callers: &mut Vec<Active>,
    stack: &mut TaskStack,
    heard: &mut Heard,
    ticks: u32,
    before: u64,
) -> Stop
    requires holds { Holds code.now from (reverse callers.old.items) stack.old heard.old }
    requires code { IsCode code.now }
    requires sound { NoneBroken code.now }
    requires before { before ≤ most_counted }
    requires capacity { MOST_ROOM ≤ vec_capacity callers.old }
    ensures runs { Runs code.now (spelled code.now from (reverse callers.old.items) stack.old heard.old) result.used (spelled code.now result.at (reverse callers.new.items) stack.new heard.new) before result.count }
    ensures holds { Holds code.now result.at (reverse callers.new.items) stack.new heard.new }
    ensures stops { Stops code.now result.went (spelled code.now result.at (reverse callers.new.items) stack.new heard.new) result.used ticks }
    ensures used { result.used ≤ ticks }
    ensures capacity { MOST_ROOM ≤ vec_capacity callers.new }
{
    let mut landed = from;
    let mut function = function_at(code, from.function);
    let mut steps = function.steps.members();
    let mut place = from.place as usize;
    let mut used = 0u32;
    let mut count = before;
    'run: loop {
        let at = landed.at_place(place as u32);
        let what = instruction_among(steps, place);
        match act(code, function, what, at, callers, stack, heard) {
            Course::Next => place += 1,
            Course::Jump(to) => {
                count += passed(landed, at) + 1;
                landed = at.at_place(to);
                place = to as usize;
            }
            Course::To(to) => {
                count += passed(landed, at) + 1;
                landed = to;
                function = function_at(code, to.function);
                steps = function.steps.members();
                place = to.place as usize;
            }
            Course::Tick => {
                count += passed(landed, at);
                if used == ticks {
                    return stopped(at, used, count, Went::Tick);
                }
                used += 1;
                count = capped(count) + 1;
                landed = at.next();
                place += 1;
            }
            Course::Ends(code) => {
                return stopped(at, used, count + passed(landed, at), Went::Ends(code));
            }
            Course::Asks => {
                return stopped(at, used, count + passed(landed, at), Went::Asks);
            }
        }
    }
}
