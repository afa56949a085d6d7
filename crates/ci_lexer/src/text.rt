//! Texts.
ghost use Rattle.std.specs.Prelude.{◌≡◌, ◌+◌, ◌≤◌, ◌≢◌, IfOk, IfErr, length};
ghost use Rattle.ci_base.specs.declared.bounds.TheConstants.{MOST_SOURCE_BYTES};
ghost use Rattle.ci_lexer.specs.Faults.{FaultAt};
ghost use Rattle.ci_lexer.specs.Fronts.{FrontAt};
ghost use Rattle.ci_lexer.specs.Leads.{Leads};

use crate::fault::LexFault;
use crate::lead::Lead;
use crate::step::{Front, Step};
use arrayvec::ArrayVec;
use ci_base::Bytes;
use ci_literals::{TextEnd, scan_items};
use ci_tree::TokenKind;
use std::alloc::Global;

/// A text, from its opening quote on.
pub fn scan_text<'s>(alloc: Global, rest: &'s [u8], at: u32) -> Result<Step<'s>, LexFault>
    requires lead { Leads Lead.Quote rest.now }
    requires short { at + length rest.now ≤ MOST_SOURCE_BYTES }
    ensures ok { IfOk result (λ step. FrontAt step.front rest.now step.rest.now) }
    ensures err { IfErr result (λ fault. fault ≢ LexFault.Memory → FaultAt (at + length rest.now) rest.now fault) }
{
    let mut value = ArrayVec::new();
    let end = scan_items(&rest[1..], &mut value);
    let bytes = value.as_slice();
    match end {
        TextEnd::Closed { rest: behind } => match Bytes::copy(alloc, bytes) {
            Ok(text) => Ok(Step {
                front: Front::Token(TokenKind::Text(text)),
                rest: behind,
            }),
            Err(_) => Err(LexFault::Memory),
        },
        TextEnd::BadEscape => Err(LexFault::BadEscape { at }),
        TextEnd::TooLong => Err(LexFault::TextTooLong { at }),
        TextEnd::LineEnd => Err(LexFault::OpenString { at }),
    }
}
