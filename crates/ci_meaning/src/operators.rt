//! Operators on values.
ghost use Rattle.std.specs.Prelude.{◌≡◌};
ghost use Rattle.ci_base.specs.Values as values;
ghost use Rattle.ci_meaning.specs.Operators as operators;

use ci_base::errors::BAD_ARGUMENT;
use ci_base::{Kind, Relation, Text, Value};
use ci_builtin::{
    common_bits, conjunction, difference, differing_bits, disjunction, formatted, holds, inversion,
    is_zero, joined, joint_bits, negation, product, quotient, remainder, sum, truth,
};
use ci_tree::Operator;

/// What the operator gives of the two values, or a run error.
pub fn operate(operator: Operator, left: &Value, right: &Value) -> Result<Value, u8>
    ensures { result ≡ operators.operate operator left.now right.now }
{
    match operator {
        Operator::Equal => compared(Relation::Equal, left, right),
        Operator::Unequal => compared(Relation::Unequal, left, right),
        Operator::Less => compared(Relation::Less, left, right),
        Operator::Greater => compared(Relation::Greater, left, right),
        Operator::AtMost => compared(Relation::AtMost, left, right),
        Operator::AtLeast => compared(Relation::AtLeast, left, right),
        _ => worked(operator, left, right),
    }
}

fn compared(relation: Relation, left: &Value, right: &Value) -> Result<Value, u8>
    ensures { result ≡ operators.compared relation left.now right.now }
{
    Ok(Value::Int(truth(holds(relation, left, right))))
}

fn worked(operator: Operator, left: &Value, right: &Value) -> Result<Value, u8>
    ensures { result ≡ operators.worked operator left.now right.now }
{
    match left {
        Value::Int(a) => match right {
            Value::Int(b) => counted(operator, *a, *b),
            Value::Str(_) => spliced(operator, left, right),
        },
        Value::Str(_) => spliced(operator, left, right),
    }
}

fn counted(operator: Operator, a: i32, b: i32) -> Result<Value, u8>
    ensures { result ≡ operators.counted operator a b }
{
    match operator {
        Operator::Plus => Ok(Value::Int(sum(a, b))),
        Operator::Minus => Ok(Value::Int(difference(a, b))),
        Operator::Times => Ok(Value::Int(product(a, b))),
        Operator::Over => quotient(a, b),
        Operator::Mod => remainder(a, b),
        Operator::And => Ok(Value::Int(conjunction(a, b))),
        Operator::Or => Ok(Value::Int(disjunction(a, b))),
        Operator::BitAnd => Ok(Value::Int(common_bits(a, b))),
        Operator::BitOr => Ok(Value::Int(joint_bits(a, b))),
        Operator::BitXor => Ok(Value::Int(differing_bits(a, b))),
        _ => Err(BAD_ARGUMENT),
    }
}

fn spliced(operator: Operator, left: &Value, right: &Value) -> Result<Value, u8>
    ensures { result ≡ operators.spliced operator left.now right.now }
{
    match operator {
        Operator::Plus => match left {
            Value::Str(a) => match right {
                Value::Str(b) => joined(a, b),
                Value::Int(_) => Err(BAD_ARGUMENT),
            },
            Value::Int(_) => Err(BAD_ARGUMENT),
        },
        _ => Err(BAD_ARGUMENT),
    }
}

/// What `-` gives of the value, where `minus`, else what NOT gives.
pub fn turned(minus: bool, value: &Value) -> Value
    ensures { result ≡ operators.turned minus value.now }
{
    match value {
        Value::Int(n) => Value::Int(if minus { negation(*n) } else { inversion(*n) }),
        Value::Str(_) => value.copy(),
    }
}

/// What `:` with so many hashes gives of the value, or a run error.
pub fn form(count: u32, value: &Value) -> Result<Value, u8>
    ensures { result ≡ operators.form count value.now }
{
    match value {
        Value::Int(n) => formatted(*n, count),
        Value::Str(_) => Err(BAD_ARGUMENT),
    }
}

/// Whether the value as a condition doesn't hold.
pub fn fails(value: &Value) -> bool
    ensures { result ≡ values.fails value.now }
{
    match value {
        Value::Int(n) => is_zero(*n),
        Value::Str(_) => true,
    }
}

/// 0 or the empty text, as the kind says.
pub fn first_of_kind(kind: Kind) -> Value
    ensures { result ≡ values.first_of_kind kind }
{
    match kind {
        Kind::Int => Value::Int(0),
        Kind::Str => Value::Str(Text::empty()),
    }
}

/// The kind of the value.
pub fn kind_of(value: &Value) -> Kind
    ensures { result ≡ values.kind_of value.now }
{
    match value {
        Value::Int(_) => Kind::Int,
        Value::Str(_) => Kind::Str,
    }
}
