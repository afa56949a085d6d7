//! The first token or blank of what is left of a source.
ghost use Rattle.std.specs.Prelude.{◌≡◌, ◌+◌, ◌<◌, ◌≤◌, ◌≢◌, ◌^◌, IfOk, IfErr, length};
ghost use Rattle.ci_base.specs.declared.bounds.TheConstants.{MOST_SOURCE_BYTES};
ghost use Rattle.ci_lexer.specs.Faults.{FaultAt};
ghost use Rattle.ci_lexer.specs.Fronts.{FrontAt};
ghost use Rattle.ci_lexer.specs.Leads.{Leads};

use crate::comment::{scan_mark, scan_slash};
use crate::fault::LexFault;
use crate::lead::{Lead, lead_of};
use crate::number::scan_number;
use crate::run::{Class, split_run};
use crate::sign::{scan_hashes, scan_sign};
use crate::text::scan_text;
use crate::word::scan_word;
use ci_tree::TokenKind;
use std::alloc::Global;

/// What stands at the front of the rest of a source.
#[derive(Debug, Drop)]
pub enum Front {
    /// White space or a comment.
    Blank,
    Token(TokenKind),
}

/// The front of the rest of a source, and what is left behind it.
#[derive(Debug, Drop)]
pub struct Step<'s> {
    pub front: Front,
    pub rest: &'s [u8],
}

/// The first token or blank of the rest of a source that begins at the offset, and what is left behind it.
pub fn next_step<'s>(alloc: Global, rest: &'s [u8], at: u32) -> Result<Step<'s>, LexFault>
    requires some { 0 < length rest.now }
    requires short { at + length rest.now ≤ MOST_SOURCE_BYTES }
    ensures ok { IfOk result (λ step. FrontAt step.front rest.now step.rest.now) }
    ensures err { IfErr result (λ fault. fault ≢ LexFault.Memory → FaultAt (at + length rest.now) rest.now fault) }
{
    match lead_of(rest[0]) {
        Lead::Letter => scan_word(alloc, rest, at),
        Lead::Digit => scan_number(rest, at),
        Lead::White => Ok(scan_white(rest)),
        Lead::Quote => scan_text(alloc, rest, at),
        Lead::Hash => scan_hashes(rest, at),
        Lead::Mark => Ok(scan_mark(rest)),
        Lead::Slash => scan_slash(rest, at),
        Lead::Other => scan_sign(rest, at),
    }
}

/// White space, as long as possible.
fn scan_white(rest: &[u8]) -> Step<'_>
    requires { Leads Lead.White rest.now }
    ensures { FrontAt result.front rest.now result.rest.now }
{
    let (_, behind) = split_run(rest, Class::White);
    Step {
        front: Front::Blank,
        rest: behind,
    }
}
