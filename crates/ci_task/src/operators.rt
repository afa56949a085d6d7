//! The instructions that turn operands into a value, and may fail.
ghost use Rattle.std.specs.Prelude.{◌≡◌, ◌+◌, ◌-◌, ◌<◌, ◌≤◌, List, [], ◌∷◌, length, true};
ghost use Rattle.ci_base.specs.declared.value.Value.TheVariants.{Int, Str};
ghost use Rattle.ci_code.specs.declared.instruction.Instruction.TheVariants as does;
ghost use Rattle.ci_task.specs.Going.{CanHeard, DoesHeard};
ghost use Rattle.ci_task.specs.Operators.{is_operator};
ghost use Rattle.ci_task.specs.Operators as operators;

use crate::active::Active;
use crate::heard::Heard;
use crate::outcomes::{come, fail, last_values};
use crate::went::Went;
use ci_base::errors::BAD_ARGUMENT;
use ci_base::{Kind, PrivateName, Text, Value};
use ci_builtin::{
    error_after, formatted, goes_on_after, holds, inversion, joined, negation, private_value,
    quotient, remainder, truth, within,
};
use ci_code::{Instruction, RawParts};
use ci_stack::TaskStack;

/// How many values an operator takes.
fn taken_by(what: Instruction) -> usize
    ensures { result ≡ operators.taken_by what }
{
    match what {
        Instruction::Neg | Instruction::Not | Instruction::Form(_) => 1,
        Instruction::WithinInt | Instruction::WithinStr => 3,
        _ => 2,
    }
}

/// The kind of what it gives.
fn given_by(what: Instruction) -> Kind
    ensures { result ≡ operators.given_by what }
{
    match what {
        Instruction::Cat | Instruction::Form(_) => Kind::Str,
        _ => Kind::Int,
    }
}

fn operated_int(what: Instruction, n: i32) -> Result<Value, u8>
    ensures { result ≡ operators.operated_int what n }
{
    match what {
        Instruction::Neg => Ok(Value::Int(negation(n))),
        Instruction::Not => Ok(Value::Int(inversion(n))),
        Instruction::Form(count) => formatted(n, count),
        _ => Err(BAD_ARGUMENT),
    }
}

fn operated_ints(what: Instruction, a: i32, b: i32) -> Result<Value, u8>
    ensures { result ≡ operators.operated_ints what a b }
{
    match what {
        Instruction::Div => quotient(a, b),
        Instruction::Mod => remainder(a, b),
        _ => Err(BAD_ARGUMENT),
    }
}

fn operated_texts(
    what: Instruction,
    first: &Value,
    second: &Value,
    a: &Text,
    b: &Text,
) -> Result<Value, u8>
    requires first { first.now ≡ Str a.now }
    requires second { second.now ≡ Str b.now }
    ensures { result ≡ operators.operated_texts what a.now b.now }
{
    match what {
        Instruction::Cat => joined(a, b),
        Instruction::CmpStr(relation) => Ok(Value::Int(truth(holds(relation, first, second)))),
        _ => Err(BAD_ARGUMENT),
    }
}

fn operated_within(what: Instruction, value: &Value, low: &Value, high: &Value) -> Result<Value, u8>
    ensures { result ≡ operators.operated_within what value.now low.now high.now }
{
    match what {
        Instruction::WithinInt | Instruction::WithinStr => Ok(Value::Int(truth(within(
            value, low, high,
        )))),
        _ => Err(BAD_ARGUMENT),
    }
}

/// What an operator gives of these values: a value, or a run error.
fn operated(what: Instruction, given: &[Value]) -> Result<Value, u8>
    ensures { result ≡ operators.operated what given.now }
{
    match given {
        [Value::Int(n)] => operated_int(what, *n),
        [first, second] => operated_pair(what, first, second),
        [value, low, high] => operated_within(what, value, low, high),
        _ => Err(BAD_ARGUMENT),
    }
}

fn operated_pair(what: Instruction, first: &Value, second: &Value) -> Result<Value, u8>
    ensures { result ≡ operators.operated what (first.now ∷ second.now ∷ []) }
{
    match (first, second) {
        (Value::Int(a), Value::Int(b)) => operated_ints(what, *a, *b),
        (Value::Str(a), Value::Str(b)) => operated_texts(what, first, second, a, b),
        _ => Err(BAD_ARGUMENT),
    }
}

/// The operands of an operator give place to what it makes of them.
pub fn operate(
    code: &RawParts,
    what: Instruction,
    at: Active,
    stack: &mut TaskStack,
    heard: &mut Heard,
) -> Went
    requires operator { is_operator what ≡ true }
    requires can { CanHeard code.now what at stack.old heard.old }
    ensures { DoesHeard code.now what at stack.old heard.old result stack.new heard.new }
{
    let taken = taken_by(what);
    let given = last_values(stack, taken);
    let outcome = operated(what, given.as_slice());
    come(taken, given_by(what), outcome, stack, heard)
}

/// A private function is called.
pub fn compute(
    code: &RawParts,
    name: PrivateName,
    at: Active,
    stack: &mut TaskStack,
    heard: &mut Heard,
) -> Went
    requires can { CanHeard code.now (does.Private name) at stack.old heard.old }
    ensures { DoesHeard code.now (does.Private name) at stack.old heard.old result stack.new heard.new }
{
    let taken = name.takes().len();
    let given = last_values(stack, taken);
    match private_value(heard.error, name, given.as_slice()) {
        Ok(value) => {
            heard.error = error_after(name, heard.error);
            heard.goes_on = goes_on_after(name, given.as_slice(), heard.goes_on);
            stack.replace_by(taken, &value);
            Went::On
        }
        Err(code) => fail(taken, name.gives(), code, stack, heard),
    }
}
