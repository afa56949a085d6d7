//! The arguments that a task is started with.
ghost use Rattle.std.specs.Prelude.{◌≡◌, ◌↔◌, IsTrue, map};
ghost use Rattle.ci_base.specs.Values.{kind_of};
ghost use Rattle.ci_task.specs.Moved.{ArgsFit};

use crate::answers::{kind, text};
use ci_base::bounds::MOST_PARAMETERS;
use ci_base::{Args, Kind, Value};
use ci_verify::Verified;

/// An argument.
#[derive(Clone, Copy)]
pub enum Given {
    Int(i32),
    Str(&'static str),
}

/// The arguments of a table, the first 16 of them.
pub fn args_of(given: &[Given]) -> Args {
    let mut args = Args::empty();
    for one in given {
        if args.values().len() < MOST_PARAMETERS {
            args.add(value(*one));
        }
    }
    args
}

fn value(given: Given) -> Value {
    match given {
        Given::Int(n) => Value::Int(n),
        Given::Str(bytes) => Value::Str(text(bytes)),
    }
}

/// Whether there is such a function, and it takes these arguments.
pub fn takes(code: &Verified, function: u32, args: &Args) -> bool
    ensures { IsTrue result → ArgsFit code.now function args.now }
{
    let parts = code.parts();
    let place = function as usize;
    if place >= parts.functions.members().len() {
        return false;
    }
    match parts.layout.functions.members().get(place) {
        Some(head) => are_of_kinds(args.values(), head.kinds.members()),
        None => false,
    }
}

/// Whether the values are of these kinds, one by one.
fn are_of_kinds(values: &[Value], kinds: &[Kind]) -> bool
    ensures { IsTrue result ↔ (map kind_of values.now ≡ kinds.now) }
{
    if values.len() != kinds.len() {
        return false;
    }
    for place in 0..values.len() {
        if kind(&values[place]) != kinds[place] {
            return false;
        }
    }
    true
}
