//! The rules at a place of a function.
ghost use Rattle.std.specs.Prelude.{◌≡◌, ◌++◌, ◌+◌, ◌^◌, ◌<◌, ◌↔◌, ℕ, List, IsTrue, slice_get, None, Some, MatchOption};
ghost use Rattle.ci_base.specs.declared.value.Kind.{Kind};
ghost use Rattle.ci_code.specs.declared.instruction.Step.{Step};
ghost use Rattle.ci_verify.specs.Kinds.{after_of};
ghost use Rattle.ci_verify.specs.Rules.{At, Stands, TickAt, Named, Finds, GoesOn, IsRoomy, Ahead, JumpsAhead, AreLocalsFew, Kept, NoneAt, FirstAt};
ghost use Rattle.ci_verify.specs.Ways.{way_of};

use crate::effects::{leaves, stays, takes};
use crate::shapes::{below, joins};
use crate::way::{Way, way_behind};
use ci_base::bounds::{MOST_HASHES, MOST_LOCALS, MOST_PARAMETERS, MOST_ROOM};
use ci_base::{Head, Kind};
use ci_code::{Instruction, RawFunction, RawParts, Step};

/// Whether what the instruction names exists, and a format has from 1 to 255 bytes.
fn is_named(code: &RawParts, function: &RawFunction, what: Instruction) -> bool
    ensures { IsTrue result ↔ Named code.now function.now what }
{
    match what {
        Instruction::PushStr(text) => (text as usize) < code.texts.members().len(),
        Instruction::Load(local) | Instruction::Store(local) => {
            (local as usize) < function.locals.members().len()
        }
        Instruction::ReadCell(cell) | Instruction::WriteCell(cell) => {
            (cell as usize) < code.layout.cells.members().len()
        }
        Instruction::ReadAt(array) | Instruction::WriteAt(array) => {
            (array as usize) < code.arrays.members().len()
        }
        Instruction::Form(count) => 1 <= count && count as usize <= MOST_HASHES,
        Instruction::Jump(to) | Instruction::JumpIfZero(to) => {
            (to as usize) < function.steps.members().len()
        }
        Instruction::Call(callee) => (callee as usize) < code.functions.members().len(),
        _ => true,
    }
}

/// Whether a tick stands at that place.
fn is_tick_at(function: &RawFunction, place: usize) -> bool
    ensures { IsTrue result ↔ TickAt function.now place }
{
    match function.steps.members().get(place) {
        Some(step) => match step.what {
            Instruction::Tick => true,
            _ => false,
        },
        None => false,
    }
}

/// Whether a jump leads on, or to a tick.
fn is_ahead(function: &RawFunction, place: usize, to: u32) -> bool
    ensures { IsTrue result ↔ Ahead function.now place to }
{
    place < to as usize || is_tick_at(function, to as usize)
}

/// Whether each jump of the instruction leads on, or to a tick.
fn jumps_ahead(function: &RawFunction, place: usize, way: Way) -> bool
    ensures { IsTrue result ↔ JumpsAhead function.now place way }
{
    match way {
        Way::To(to) => is_ahead(function, place, to),
        Way::Branch(to) => is_ahead(function, place, to),
        _ => true,
    }
}

/// The step at that place.
fn step_at(function: &RawFunction, place: usize) -> Option<Step>
    ensures { MatchOption result (slice_get function.now.steps place ≡ None) (λ s. slice_get function.now.steps place ≡ Some s) }
{
    function.steps.members().get(place).copied()
}

/// The shape of that number.
fn shape_at(code: &RawParts, number: u32) -> Option<&[Kind]>
    ensures { MatchOption result (slice_get code.now.shapes number ≡ None) (λ s. slice_get code.now.shapes number ≡ Some s.now) }
{
    match code.shapes.members().get(number as usize) {
        Some(shape) => Some(shape.members()),
        None => None,
    }
}

/// The step at that place, and the shape before it.
fn here<'a>(code: &'a RawParts, function: &RawFunction, place: usize) -> Option<(Step, &'a [Kind])>
    ensures { MatchOption result ((s : Step) (before : List Kind) → At code.now function.now place s before → ⊥) (λ h. At code.now function.now place h.0 h.1.now) }
{
    match step_at(function, place) {
        Some(step) => match shape_at(code, step.shape) {
            Some(shape) => Some((step, shape)),
            None => None,
        },
        None => None,
    }
}

/// Whether an instruction stands at that place, with the shape that the two lists make.
fn stands(
    code: &RawParts,
    function: &RawFunction,
    place: usize,
    low: &[Kind],
    high: &[Kind],
) -> bool
    ensures { IsTrue result ↔ Stands code.now function.now place (low.now ++ high.now) }
{
    match here(code, function, place) {
        Some((_, shape)) => joins(shape, low, high),
        None => false,
    }
}

/// Whether the shape's end is what the instruction takes.
fn finds(code: &RawParts, function: &RawFunction, before: &[Kind], what: Instruction) -> bool
    ensures { IsTrue result ↔ Finds code.now function.now before.now what }
{
    let taken = takes(code, function, before, what);
    joins(before, below(before, taken), taken)
}

/// Whether the shape that the two lists make stands at each next place.
fn goes_on(
    code: &RawParts,
    function: &RawFunction,
    place: usize,
    low: &[Kind],
    high: &[Kind],
    way: Way,
) -> bool
    requires { place < 2 ^ 32 }
    ensures { IsTrue result ↔ GoesOn code.now function.now place (low.now ++ high.now) way }
{
    match way {
        Way::Next => stands(code, function, place + 1, low, high),
        Way::To(to) => stands(code, function, to as usize, low, high),
        Way::Branch(to) => stands(code, function, to as usize, low, high)
            && stands(code, function, place + 1, low, high),
        Way::Ends => true,
    }
}

/// Whether the room holds the locals with the first list, and with the other two together.
fn is_roomy(function: &RawFunction, before: &[Kind], low: &[Kind], high: &[Kind]) -> bool
    ensures { IsTrue result ↔ IsRoomy function.now before.now (low.now ++ high.now) }
{
    let room = function.room as usize;
    if room == 0 || room > MOST_ROOM {
        return false;
    }
    let locals = function.locals.members().len();
    if locals > room {
        return false;
    }
    let free = room - locals;
    before.len() <= free && low.len() <= free && high.len() <= free - low.len()
}

/// Whether the function has few parameters and locals.
fn are_locals_few(head: &Head, function: &RawFunction) -> bool
    ensures { IsTrue result ↔ AreLocalsFew head.now function.now }
{
    head.kinds.members().len() <= MOST_PARAMETERS && function.locals.members().len() <= MOST_LOCALS
}

/// Rule 1 at a place: no limit is passed, and what is named exists.
pub fn keeps_limits(code: &RawParts, head: &Head, function: &RawFunction, place: usize) -> bool
    ensures { IsTrue result ↔ Kept 1 code.now head.now function.now place }
{
    if place == 0 && !are_locals_few(head, function) {
        return false;
    }
    match function.steps.members().get(place) {
        Some(step) => (step.shape as usize) < code.shapes.members().len()
            && is_named(code, function, step.what),
        None => true,
    }
}

/// Rule 2 at a place: the function begins with a tick, and no operand.
fn keeps_begin(code: &RawParts, head: &Head, function: &RawFunction, place: usize) -> bool
    ensures { IsTrue result ↔ Kept 2 code.now head.now function.now place }
{
    if place != 0 {
        return true;
    }
    is_tick_at(function, 0) && stands(code, function, 0, &[], &[])
}

/// Rule 3 at a place: the instruction finds what it takes.
fn keeps_operands(code: &RawParts, head: &Head, function: &RawFunction, place: usize) -> bool
    ensures { IsTrue result ↔ Kept 3 code.now head.now function.now place }
{
    match here(code, function, place) {
        Some((step, before)) => finds(code, function, before, step.what),
        None => true,
    }
}

/// Rule 4 on what stands at a place.
fn goes_on_behind(
    code: &RawParts,
    function: &RawFunction,
    place: usize,
    before: &[Kind],
    what: Instruction,
) -> bool
    requires { place < 2 ^ 32 }
    ensures { IsTrue result ↔ GoesOn code.now function.now place (after_of code.now function.now before.now what) (way_of what) }
{
    let low = stays(code, function, before, what);
    let high = leaves(code, function, before, what);
    goes_on(code, function, place, low, high, way_behind(what))
}

/// Rule 4 at a place: what stands behind the instruction is the shape of each next place.
fn keeps_next(code: &RawParts, head: &Head, function: &RawFunction, place: usize) -> bool
    requires { place < 2 ^ 32 }
    ensures { IsTrue result ↔ Kept 4 code.now head.now function.now place }
{
    match here(code, function, place) {
        Some((step, before)) => goes_on_behind(code, function, place, before, step.what),
        None => true,
    }
}

/// Rule 5 on what stands at a place.
fn is_roomy_behind(
    code: &RawParts,
    function: &RawFunction,
    before: &[Kind],
    what: Instruction,
) -> bool
    ensures { IsTrue result ↔ IsRoomy function.now before.now (after_of code.now function.now before.now what) }
{
    let low = stays(code, function, before, what);
    let high = leaves(code, function, before, what);
    is_roomy(function, before, low, high)
}

/// Rule 5 at a place: the room is enough.
fn keeps_room(code: &RawParts, head: &Head, function: &RawFunction, place: usize) -> bool
    ensures { IsTrue result ↔ Kept 5 code.now head.now function.now place }
{
    match here(code, function, place) {
        Some((step, before)) => is_roomy_behind(code, function, before, step.what),
        None => true,
    }
}

/// Rule 6 at a place: a jump that doesn't lead on leads to a tick.
fn keeps_jumps(code: &RawParts, head: &Head, function: &RawFunction, place: usize) -> bool
    ensures { IsTrue result ↔ Kept 6 code.now head.now function.now place }
{
    match function.steps.members().get(place) {
        Some(step) => jumps_ahead(function, place, way_behind(step.what)),
        None => true,
    }
}

/// The first rule that is broken at a place.
pub fn broken_at(code: &RawParts, head: &Head, function: &RawFunction, place: usize) -> Option<u8>
    requires { place < 2 ^ 32 }
    ensures { MatchOption result (NoneAt code.now head.now function.now place) (λ r. FirstAt code.now head.now function.now place r) }
{
    if !keeps_limits(code, head, function, place) {
        return Some(1);
    }
    if !keeps_begin(code, head, function, place) {
        return Some(2);
    }
    if !keeps_operands(code, head, function, place) {
        return Some(3);
    }
    if !keeps_next(code, head, function, place) {
        return Some(4);
    }
    if !keeps_room(code, head, function, place) {
        return Some(5);
    }
    if !keeps_jumps(code, head, function, place) {
        return Some(6);
    }
    None
}
