//! What comes of operands: a value, or a run error.
ghost use Rattle.std.specs.Prelude.{◌≡◌, ◌+◌, ◌-◌, ◌<◌, ◌≤◌, List, ◌++◌, length, Err};
ghost use Rattle.ci_base.specs.declared.bounds.TheConstants.{MOST_ROOM};
ghost use Rattle.ci_base.specs.declared.value.Value.{Value as Held};
ghost use Rattle.ci_base.specs.Values as values;
ghost use Rattle.ci_code.specs.declared.instruction.Instruction.TheVariants as does;
ghost use Rattle.ci_task.specs.Going.{CanHeard, Came, DoesHeard};
ghost use Rattle.ci_task.specs.Operators as operators;

use crate::heard::Heard;
use crate::went::Went;
use arrayvec::ArrayVec;
use ci_base::{Kind, Text, Value};
use ci_stack::TaskStack;

/// What a local of this kind holds at first.
pub fn first_of(kind: Kind) -> Value
    ensures { result ≡ values.first_of_kind kind }
{
    match kind {
        Kind::Int => Value::Int(0),
        Kind::Str => Value::Str(Text::empty()),
    }
}

/// The value or the run error takes the place of so many values on top.
pub fn come(
    taken: usize,
    kind: Kind,
    outcome: Result<Value, u8>,
    stack: &mut TaskStack,
    heard: &mut Heard,
) -> Went
    requires there { taken ≤ length stack.old }
    requires room { length stack.old - taken < MOST_ROOM }
    ensures { Came taken kind outcome stack.old heard.old result stack.new heard.new }
{
    match outcome {
        Ok(value) => {
            stack.replace_by(taken, &value);
            Went::On
        }
        Err(code) => fail(taken, kind, code, stack, heard),
    }
}

/// A run error: a task that goes on after such notes it, and any other ends.
pub fn fail(taken: usize, kind: Kind, code: u8, stack: &mut TaskStack, heard: &mut Heard) -> Went
    requires there { taken ≤ length stack.old }
    requires room { length stack.old - taken < MOST_ROOM }
    ensures { Came taken kind (Err code) stack.old heard.old result stack.new heard.new }
{
    if !heard.goes_on {
        return Went::Ends(code);
    }
    heard.error = code;
    stack.replace_by(taken, &first_of(kind));
    Went::On
}

/// So many values on top, at most 3, the lowest first.
pub fn last_values(stack: &TaskStack, count: usize) -> ArrayVec<Value, 3>
    requires few { count ≤ 3 }
    requires there { count ≤ length stack.now }
    ensures value { (low high : List Held) → stack.now ≡ low ++ high → length high ≡ count → result.items ≡ high }
    ensures within { length stack.now ≤ MOST_ROOM }
{
    let mut values = ArrayVec::new();
    let base = stack.count() - count;
    for i in 0..count {
        values.push(stack.copy_at((base + i) as u32));
    }
    values
}
