//! The verifier.
ghost use Rattle.std.specs.Prelude.{◌≡◌, ◌^◌, ◌<◌, length, MatchOption, MatchResult};
ghost use Rattle.ci_code.specs.Code.{IsCode};
ghost use Rattle.ci_verify.specs.Rules.{NoneBroken, IsFirst, NoneIn, FirstIn};

use crate::rules::{broken_at, keeps_limits};
use crate::tables::are_tables_kept;
use ci_base::Head;
use ci_code::{RawCode, RawFunction, RawParts};
use std::marker::Model;

/// The first rule that code breaks.
#[derive(Clone, Copy, Debug)]
pub struct Broken {
    /// Its number, from 1 to 6.
    pub rule: u8,
    /// The number of the function that breaks it; 0 where a table does.
    pub function: u32,
    /// The place in the function; 0 where a table does.
    pub at: u32,
}

/// The first rule that is broken in a function, and its place.
fn broken_in(code: &RawParts, head: &Head, function: &RawFunction) -> Option<(u8, u32)>
    requires { length function.now.steps < 2 ^ 32 }
    ensures { MatchOption result (NoneIn code.now head.now function.now) (λ b. FirstIn code.now head.now function.now b.0 b.1) }
{
    let length = function.steps.members().len();
    if length == 0 {
        if !keeps_limits(code, head, function, 0) {
            return Some((1, 0));
        }
        return Some((2, 0));
    }
    for place in 0..length {
        match broken_at(code, head, function, place) {
            Some(rule) => return Some((rule, place as u32)),
            None => {}
        }
    }
    None
}

/// The first rule that is broken.
fn first_broken(code: &RawParts) -> Option<Broken>
    requires { IsCode code.now }
    ensures { MatchOption result (NoneBroken code.now) (λ b. IsFirst code.now b.rule b.function b.at) }
{
    if !are_tables_kept(code) {
        return Some(Broken {
            rule: 1,
            function: 0,
            at: 0,
        });
    }
    let heads = code.layout.functions.members();
    let functions = code.functions.members();
    let count = functions.len();
    for number in 0..count {
        let head = &heads[number];
        let function = &functions[number];
        match broken_in(code, head, function) {
            Some((rule, at)) => return Some(Broken {
                rule,
                function: number as u32,
                at,
            }),
            None => {}
        }
    }
    None
}

/// Code in which no rule is broken. Contracts see its parts.
#[derive(Debug, Drop)]
pub struct Verified {
    code: RawCode,
}

impl Model for Verified {
    ghost use Rattle.ci_code.specs.declared.raw.RawParts.{RawParts};
    ghost use Rattle.ci_verify.specs.Rules.{NoneBroken};

    ghost Value = { RawParts };

    ghost view = { λ verified. verified.code };

    ghost invariant = { λ verified. NoneBroken verified.code };
}

impl Verified {
    /// Code of which it is known that no rule is broken. Nothing is tested, and no memory is taken.
    pub fn of(code: RawCode) -> Verified
        requires { NoneBroken code }
        ensures { result ≡ code }
    {
        Verified { code }
    }

    /// The code's layout, tables and functions.
    pub fn parts(&self) -> &RawParts
        ensures value { result.now ≡ self.now }
        ensures kept { IsCode result.now }
        ensures sound { NoneBroken result.now }
    {
        self.code.parts()
    }
}

/// The code, where no rule is broken, else the first that is, and the code as it was. Takes no memory. Its time is linear in the
/// code, the lengths of the shapes that its steps name, and the lengths of its arrays.
pub fn verify(raw: RawCode) -> Result<Verified, (RawCode, Broken)>
    ensures { MatchResult result (λ verified. (verified ≡ raw) × NoneBroken raw) (λ refused. (refused.0 ≡ raw) × IsFirst raw refused.1.rule refused.1.function refused.1.at) }
{
    match first_broken(raw.parts()) {
        None => Ok(Verified { code: raw }),
        Some(broken) => Err((raw, broken)),
    }
}
