//! Lexing: one pass over the bytes of a source.
ghost use Rattle.std.specs.Prelude.{◌≡◌, ◌++◌, ◌≤◌, ◌≢◌, IfOk, IfErr, OnOk, length};
ghost use Rattle.ci_base.specs.declared.bounds.TheConstants.{MOST_SOURCE_BYTES};
ghost use Rattle.ci_tree.specs.Tokens.{tokens, after_mark};
ghost use Rattle.ci_lexer.specs.Faults.{lex_fault};
ghost use Rattle.ci_lexer.specs.Fronts.{front_tokens};

use crate::fault::LexFault;
use crate::step::{Front, next_step};
use ci_tree::{Token, TokenList};
use std::alloc::Global;

/// The tokens of a source of at most 262,144 bytes, or its first lexical fault. `Memory` may come for every source. Each
/// source has exactly one list of tokens or exactly one fault (`one_reading`), so each answer but `Memory` comes exactly
/// where its clause says. Takes memory for the tokens, their names and their texts.
pub fn lex(alloc: Global, source: &[u8]) -> Result<TokenList, LexFault>
    requires { length source.now ≤ MOST_SOURCE_BYTES }
    ensures ok { IfOk result (λ list. tokens source.now list) }
    ensures err { IfErr result (λ fault. fault ≢ LexFault.Memory → lex_fault source.now fault) }
{
    let mut kept = Vec::new(alloc);
    let mut rest = behind_mark(source);
    while !rest.is_empty() {
        let at = (source.len() - rest.len()) as u32;
        let step = next_step(alloc, rest, at)?;
        keep(&mut kept, step.front, at)?;
        rest = step.rest;
    }
    Ok(TokenList::of(kept))
}

/// Adds the token that begins at the offset, if it is one.
fn keep(kept: &mut Vec<Token>, front: Front, at: u32) -> Result<(), LexFault>
    ensures ok { OnOk result (kept.new.items ≡ kept.old.items ++ front_tokens front at) }
    ensures err { IfErr result (λ fault. fault ≡ LexFault.Memory) }
{
    match front {
        Front::Blank => Ok(()),
        Front::Token(what) => match kept.push(Token { what, place: at }) {
            Ok(()) => Ok(()),
            Err(_) => Err(LexFault::Memory),
        },
    }
}

/// What is left of a source behind the mark EF BB BF, which may stand at its start.
fn behind_mark(source: &[u8]) -> &[u8]
    ensures { result.now ≡ after_mark source.now }
{
    match source {
        [0xEF, 0xBB, 0xBF, rest @ ..] => rest,
        _ => source,
    }
}
