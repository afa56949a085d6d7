//! Comparisons of values.
ghost use Rattle.std.specs.Prelude.{◌≡◌};
ghost use Rattle.ci_base.specs.Comparisons as compared;

use ci_base::{Relation, Value};
use std::cmp::Ordering;

/// Whether the relation holds of two values of which the first stands so to the second.
pub fn relates(relation: Relation, order: Ordering) -> bool
    ensures { result ≡ compared.relates relation order }
{
    match relation {
        Relation::Equal => order.is_eq(),
        Relation::Unequal => order.is_ne(),
        Relation::Less => order.is_lt(),
        Relation::Greater => order.is_gt(),
        Relation::AtMost => order.is_le(),
        Relation::AtLeast => order.is_ge(),
    }
}

/// Whether the relation holds of the values: INTs are compared as numbers and texts by their bytes. None holds of an INT
/// and a text.
pub fn holds(relation: Relation, a: &Value, b: &Value) -> bool
    ensures { result ≡ compared.holds relation a.now b.now }
{
    match a {
        Value::Int(a) => match b {
            Value::Int(b) => relates(relation, a.cmp(b)),
            Value::Str(_) => false,
        },
        Value::Str(a) => match b {
            Value::Int(_) => false,
            Value::Str(b) => relates(relation, a.bytes().cmp(&b.bytes())),
        },
    }
}

/// Whether both are one value.
pub fn same(a: &Value, b: &Value) -> bool
    ensures { result ≡ compared.same a.now b.now }
{
    holds(Relation::Equal, a, b)
}

/// Whether the value lies from the low one to the high one, both among them.
pub fn within(value: &Value, low: &Value, high: &Value) -> bool
    ensures { result ≡ compared.within value.now low.now high.now }
{
    let above = holds(Relation::AtLeast, value, low);
    let below = holds(Relation::AtMost, value, high);
    above && below
}
