//! What a function takes from a list of arguments.
ghost use Rattle.std.specs.Prelude.{◌≡◌, ◌≤◌, ◌<◌, ◌+◌, ◌++◌, length, map};
ghost use Rattle.ci_base.specs.declared.bounds.TheConstants.{MOST_PARAMETERS};
ghost use Rattle.ci_base.specs.Values.{kind_of};
ghost use Rattle.ci_shared.specs.Arguments.{arguments, fitting, same_kinds};
ghost use Rattle.ci_shared.specs.Words.{same_kind};
ghost use Rattle.ci_tasktab.specs.Births.{IsWithin};

use crate::list::read_list;
use ci_base::{Args, Head, Kind, Text, Value};

/// The arguments of the function, where the list is one and fits its parameters.
pub(crate) fn arguments(functions: &[Head], function: usize, list: &Text) -> Option<Args>
    requires there { function < length functions.now }
    requires within { IsWithin functions.now }
    ensures { result ≡ arguments functions.now function list.now }
{
    match read_list(list) {
        Some(given) => fitting(&functions[function], given),
        None => None,
    }
}

// The given values, and the last defaults for those left out, if they are of the kinds of the parameters.
fn fitting(head: &Head, given: Args) -> Option<Args>
    requires { length head.now.kinds ≤ MOST_PARAMETERS }
    ensures { result ≡ fitting head.now given }
{
    let kinds = head.kinds.members();
    let defaults = head.defaults.members();
    let count = given.values().len();
    if count > kinds.len() {
        return None;
    }
    if count + defaults.len() < kinds.len() {
        return None;
    }
    let skipped = count + defaults.len() - kinds.len();
    let args = followed(given, &defaults[skipped..]);
    if are_of(args.values(), kinds) {
        Some(args)
    } else {
        None
    }
}

// The arguments with these values behind them.
fn followed(given: Args, values: &[Value]) -> Args
    requires { length given + length values.now ≤ MOST_PARAMETERS }
    ensures { result ≡ given ++ values.now }
{
    let mut args = given;
    for value in values {
        args.add(value.copy());
    }
    args
}

// Whether the values are of the kinds.
fn are_of(values: &[Value], kinds: &[Kind]) -> bool
    ensures { result ≡ same_kinds (map kind_of values.now) kinds.now }
{
    match values {
        [] => kinds.is_empty(),
        [value, values @ ..] => match kinds {
            [] => false,
            [kind, kinds @ ..] => is_of(value, *kind) && are_of(values, kinds),
        },
    }
}

// Whether the value is of the kind.
fn is_of(value: &Value, kind: Kind) -> bool
    ensures { result ≡ same_kind (kind_of value.now) kind }
{
    match value {
        Value::Int(_) => match kind {
            Kind::Int => true,
            Kind::Str => false,
        },
        Value::Str(_) => match kind {
            Kind::Int => false,
            Kind::Str => true,
        },
    }
}
