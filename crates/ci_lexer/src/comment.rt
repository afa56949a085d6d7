//! Comments, and the sign `/`.
ghost use Rattle.std.specs.Prelude.{◌≡◌, ◌+◌, ◌≤◌, ℕ, List, ◌∷◌, ◌++◌, [], IfOk, IfErr, IfSome, IfNone, length, false};
ghost use Rattle.ci_base.specs.declared.bounds.TheConstants.{MOST_SOURCE_BYTES};
ghost use Rattle.ci_tree.specs.Comments.{has_close};
ghost use Rattle.ci_lexer.specs.Faults.{FaultAt};
ghost use Rattle.ci_lexer.specs.Comments.{IsClosed, closes};
ghost use Rattle.ci_lexer.specs.Fronts.{FrontAt};
ghost use Rattle.ci_lexer.specs.Leads.{Leads};

use crate::fault::LexFault;
use crate::lead::{Lead, begins_with};
use crate::run::{Class, split_run};
use crate::step::{Front, Step};
use ci_tree::{Sign, TokenKind};

/// A comment that `!` begins.
pub fn scan_mark(rest: &[u8]) -> Step<'_>
    requires { Leads Lead.Mark rest.now }
    ensures { FrontAt result.front rest.now result.rest.now }
{
    let (_, behind) = split_run(&rest[1..], Class::Inline);
    Step {
        front: Front::Blank,
        rest: behind,
    }
}

/// What begins with `/`: a comment or the sign. Takes no memory.
pub fn scan_slash(rest: &[u8], at: u32) -> Result<Step<'_>, LexFault>
    requires lead { Leads Lead.Slash rest.now }
    requires short { at + length rest.now ≤ MOST_SOURCE_BYTES }
    ensures ok { IfOk result (λ step. FrontAt step.front rest.now step.rest.now) }
    ensures err { IfErr result (λ fault. FaultAt (at + length rest.now) rest.now fault) }
{
    let behind = &rest[1..];
    if begins_with(behind, b'/') {
        Ok(line_comment(rest, &behind[1..]))
    } else if begins_with(behind, b'*') {
        enclosed_comment(rest, &behind[1..], at)
    } else {
        Ok(Step {
            front: Front::Token(TokenKind::Sign(Sign::Slash)),
            rest: behind,
        })
    }
}

/// A comment that `//` begins, with what is behind these.
fn line_comment<'s>(rest: &'s [u8], body: &'s [u8]) -> Step<'s>
    requires { rest.now ≡ 47 ∷ 47 ∷ body.now }
    ensures { FrontAt result.front rest.now result.rest.now }
{
    let (_, behind) = split_run(body, Class::Inline);
    Step {
        front: Front::Blank,
        rest: behind,
    }
}

/// A comment that `/*` begins, with what is behind these.
fn enclosed_comment<'s>(rest: &'s [u8], body: &'s [u8], at: u32) -> Result<Step<'s>, LexFault>
    requires { rest.now ≡ 47 ∷ 42 ∷ body.now }
    ensures ok { IfOk result (λ step. FrontAt step.front rest.now step.rest.now) }
    ensures err { IfErr result (λ fault. FaultAt (at + length rest.now) rest.now fault) }
{
    match behind_close(body) {
        Some(behind) => Ok(Step {
            front: Front::Blank,
            rest: behind,
        }),
        None => Err(LexFault::OpenComment { at }),
    }
}

/// What is left behind the first `*/`.
fn behind_close(body: &[u8]) -> Option<&[u8]>
    ensures some { IfSome result (λ behind. IsClosed body.now behind.now) }
    ensures none { IfNone result (has_close body.now ≡ false) }
{
    let mut left = body;
    while !left.is_empty() {
        if closes(left) {
            return Some(&left[2..]);
        }
        left = &left[1..];
    }
    None
}

/// Whether `*/` stands at the front.
#[inline(always)]
fn closes(bytes: &[u8]) -> bool
    ensures { result ≡ closes bytes.now }
{
    bytes.len() > 1 && bytes[0] == b'*' && bytes[1] == b'/'
}
