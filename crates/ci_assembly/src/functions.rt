//! Functions beside what the layout says of them.
ghost use Rattle.std.specs.Prelude.{◌≡◌, ◌↔◌, IsTrue, All, length, take};
ghost use Rattle.ci_code.specs.Code.{IsFunctionCounted};
ghost use Rattle.ci_assembly.specs.Parts.{BeginWithParameters};

use crate::assembly::is_few;
use ci_base::{Head, Kind};
use ci_code::RawFunction;

/// Whether the first locals of each function are of its parameters' kinds.
pub fn begin_with_parameters(heads: &[Head], functions: &[RawFunction]) -> bool
    ensures { IsTrue result ↔ BeginWithParameters heads.now functions.now }
{
    let count = heads.len().min(functions.len());
    for number in 0..count {
        let head = &heads[number];
        let function = &functions[number];
        if !begins_with(function.locals.members(), head.kinds.members()) {
            return false;
        }
    }
    true
}

/// Whether the first of these kinds are those.
fn begins_with(kinds: &[Kind], first: &[Kind]) -> bool
    ensures { IsTrue result ↔ (take (length first.now) kinds.now ≡ first.now) }
{
    if kinds.len() < first.len() {
        return false;
    }
    is_same(&kinds[..first.len()], first)
}

/// Whether two lists of kinds are the same.
fn is_same(a: &[Kind], b: &[Kind]) -> bool
    ensures { IsTrue result ↔ (a.now ≡ b.now) }
{
    a == b
}

/// Whether each function has fewer than 2^32 locals and steps.
pub fn are_functions_counted(functions: &[RawFunction]) -> bool
    ensures { IsTrue result ↔ All IsFunctionCounted functions.now }
{
    for function in functions {
        if !is_function_counted(function) {
            return false;
        }
    }
    true
}

/// Whether the function has fewer than 2^32 locals and steps.
fn is_function_counted(function: &RawFunction) -> bool
    ensures { IsTrue result ↔ IsFunctionCounted function.now }
{
    is_few(function.locals.members().len()) && is_few(function.steps.members().len())
}
