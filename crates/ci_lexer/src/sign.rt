//! Signs and hashes.
ghost use Rattle.std.specs.Prelude.{◌≡◌, ◌+◌, ◌<◌, ◌≤◌, IfOk, IfErr, IfSome, IfNone, List, ℕ, ◌∷◌, length, slice_index};
ghost use Rattle.ci_base.specs.declared.bounds.TheConstants.{MOST_SOURCE_BYTES};
ghost use Rattle.ci_lexer.specs.Faults.{FaultAt};
ghost use Rattle.ci_lexer.specs.Fronts.{FrontAt};
ghost use Rattle.ci_lexer.specs.Leads.{Leads};
ghost use Rattle.ci_tree.specs.declared.token.Sign.{Sign};
ghost use Rattle.ci_tree.specs.Signs.{sign_bytes};
ghost use Rattle.ci_lexer.specs.Signs.{IsSignAt, double_at, double_sign, single_sign};

use crate::fault::LexFault;
use crate::lead::Lead;
use crate::run::{Class, split_run};
use crate::step::{Front, Step};
use ci_base::bounds::MOST_HASHES;
use ci_tree::{Sign, TokenKind};

/// One or more `#`. Takes no memory.
pub fn scan_hashes(rest: &[u8], at: u32) -> Result<Step<'_>, LexFault>
    requires lead { Leads Lead.Hash rest.now }
    requires short { at + length rest.now ≤ MOST_SOURCE_BYTES }
    ensures ok { IfOk result (λ step. FrontAt step.front rest.now step.rest.now) }
    ensures err { IfErr result (λ fault. FaultAt (at + length rest.now) rest.now fault) }
{
    let (hashes, behind) = split_run(rest, Class::Hash);
    if hashes.len() > MOST_HASHES {
        return Err(LexFault::TextTooLong { at });
    }
    Ok(Step {
        front: Front::Token(TokenKind::Hashes(hashes.len() as u32)),
        rest: behind,
    })
}

/// A sign other than `/`, or a byte that begins nothing. Takes no memory.
pub fn scan_sign(rest: &[u8], at: u32) -> Result<Step<'_>, LexFault>
    requires lead { Leads Lead.Other rest.now }
    requires short { at + length rest.now ≤ MOST_SOURCE_BYTES }
    ensures ok { IfOk result (λ step. FrontAt step.front rest.now step.rest.now) }
    ensures err { IfErr result (λ fault. FaultAt (at + length rest.now) rest.now fault) }
{
    match sign_at(rest) {
        Some((sign, behind)) => Ok(Step {
            front: Front::Token(TokenKind::Sign(sign)),
            rest: behind,
        }),
        None => Err(LexFault::StrayByte { at }),
    }
}

/// The sign at the front, and what is left behind it.
fn sign_at(rest: &[u8]) -> Option<(Sign, &[u8])>
    requires { Leads Lead.Other rest.now }
    ensures some { IfSome result (λ found. IsSignAt found.0 rest.now found.1.now) }
    ensures none { IfNone result ((other : Sign) (more : List ℕ) → slice_index rest.now 0 ∷ more ≡ sign_bytes other → ⊥) }
{
    let behind = &rest[1..];
    match double_at(rest[0], behind) {
        Some(sign) => Some((sign, &behind[1..])),
        None => match single(rest[0]) {
            Some(sign) => Some((sign, behind)),
            None => None,
        },
    }
}

/// The sign of this byte and the one behind it.
fn double_at(first: u8, behind: &[u8]) -> Option<Sign>
    ensures { result ≡ double_at first behind.now }
{
    if behind.len() > 0 {
        double(first, behind[0])
    } else {
        None
    }
}

/// The sign of two bytes.
#[tactic(auto, unfolding(crate::specs::Signs::double_sign))]
fn double(first: u8, second: u8) -> Option<Sign>
    ensures { result ≡ double_sign first second }
{
    if first == b'<' && second == b'>' {
        Some(Sign::Unequal)
    } else if first == b'<' && second == b'=' {
        Some(Sign::AtMost)
    } else if first == b'>' && second == b'=' {
        Some(Sign::AtLeast)
    } else {
        None
    }
}

/// The sign of one byte, `/` left out.
#[tactic(auto, unfolding(crate::specs::Signs::single_sign))]
fn single(b: u8) -> Option<Sign>
    ensures { result ≡ single_sign b }
{
    match b {
        b'(' => Some(Sign::LeftParen),
        b')' => Some(Sign::RightParen),
        b'[' => Some(Sign::LeftBracket),
        b']' => Some(Sign::RightBracket),
        b',' => Some(Sign::Comma),
        b';' => Some(Sign::Semicolon),
        b':' => Some(Sign::Colon),
        b'=' => Some(Sign::Equal),
        b'<' => Some(Sign::Less),
        b'>' => Some(Sign::Greater),
        b'+' => Some(Sign::Plus),
        b'-' => Some(Sign::Minus),
        b'*' => Some(Sign::Star),
        _ => None,
    }
}
