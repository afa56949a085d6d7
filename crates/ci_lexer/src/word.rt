//! Names and keywords.
ghost use Rattle.std.specs.Prelude.{◌≡◌, ◌+◌, ◌<◌, ◌≤◌, ◌≢◌, ◌↔◌, true, Some, IfOk, IfErr, IsTrue, length};
ghost use Rattle.ci_base.specs.declared.bounds.TheConstants.{MOST_NAME_BYTES, MOST_SOURCE_BYTES};
ghost use Rattle.ci_lexer.specs.Faults.{FaultAt};
ghost use Rattle.ci_lexer.specs.Fronts.{FrontAt};
ghost use Rattle.ci_lexer.specs.Keywords.{spelled, truth_values};
ghost use Rattle.ci_lexer.specs.Leads.{Leads};
ghost use Rattle.ci_base.specs.Letters.{capital};
ghost use Rattle.ci_base.specs.Names.{is_name};
ghost use Rattle.ci_tree.specs.Tokens.{IsKept, Spells};
ghost use Rattle.ci_tree.specs.Words.{look_up, reserved, table};

use crate::fault::LexFault;
use crate::lead::Lead;
use crate::run::{Class, split_run};
use crate::step::{Front, Step};
use arrayvec::ArrayVec;
use ci_base::Bytes;
use ci_base::bounds::MOST_NAME_BYTES;
use ci_literals::is_word;
use ci_tree::{Keyword, TokenKind};
use std::alloc::Global;

/// How the keywords are spelled in capitals.
static KEYWORDS: [(&[u8], Keyword); 30] = [
    (b"FUNCTION", Keyword::Function),
    (b"END", Keyword::End),
    (b"IF", Keyword::If),
    (b"THEN", Keyword::Then),
    (b"ELSE", Keyword::Else),
    (b"WHILE", Keyword::While),
    (b"DO", Keyword::Do),
    (b"FOR", Keyword::For),
    (b"TO", Keyword::To),
    (b"SELECT", Keyword::Select),
    (b"CASE", Keyword::Case),
    (b"IS", Keyword::Is),
    (b"RETURN", Keyword::Return),
    (b"PRIVATE", Keyword::Private),
    (b"PUBLIC", Keyword::Public),
    (b"GLOBAL", Keyword::Global),
    (b"MODULE", Keyword::Module),
    (b"INT", Keyword::Int),
    (b"STRING", Keyword::String),
    (b"REAL", Keyword::Real),
    (b"OBJECT", Keyword::Object),
    (b"QUALITY", Keyword::Quality),
    (b"TIMESTAMP", Keyword::Timestamp),
    (b"AND", Keyword::And),
    (b"OR", Keyword::Or),
    (b"NOT", Keyword::Not),
    (b"MOD", Keyword::Mod),
    (b"BITAND", Keyword::BitAnd),
    (b"BITOR", Keyword::BitOr),
    (b"BITXOR", Keyword::BitXor),
];

/// A name or a keyword.
pub fn scan_word<'s>(alloc: Global, rest: &'s [u8], at: u32) -> Result<Step<'s>, LexFault>
    requires lead { Leads Lead.Letter rest.now }
    requires short { at + length rest.now ≤ MOST_SOURCE_BYTES }
    ensures ok { IfOk result (λ step. FrontAt step.front rest.now step.rest.now) }
    ensures err { IfErr result (λ fault. fault ≢ LexFault.Memory → FaultAt (at + length rest.now) rest.now fault) }
{
    let (word, behind) = split_run(rest, Class::NameByte);
    match word_token(alloc, word, at) {
        Ok(what) => Ok(Step {
            front: Front::Token(what),
            rest: behind,
        }),
        Err(fault) => Err(fault),
    }
}

/// The token that a word makes.
fn word_token(alloc: Global, word: &[u8], at: u32) -> Result<TokenKind, LexFault>
    requires { is_name word.now ≡ true }
    ensures ok { IfOk result (λ what. Spells what word.now) }
    ensures err { IfErr result (λ fault. fault ≢ LexFault.Memory → (fault ≡ LexFault.NameTooLong at) × (MOST_NAME_BYTES < length word.now)) }
{
    if word.len() > MOST_NAME_BYTES {
        return Err(LexFault::NameTooLong { at });
    }
    match reserved(word) {
        Some(token) => Ok(token),
        None => match Bytes::copy(alloc, word) {
            Ok(name) => Ok(TokenKind::Name(name)),
            Err(_) => Err(LexFault::Memory),
        },
    }
}

/// The token that a word of any letter case makes, where it is no name.
fn reserved(word: &[u8]) -> Option<TokenKind>
    ensures { result ≡ reserved word.now }
{
    if word.len() > 9 {
        return None;
    }
    let mut capitals: ArrayVec<u8, 9> = ArrayVec::new();
    for b in word {
        capitals.push(capital(*b));
    }
    look_up(capitals.as_slice())
}

/// The capital of a letter; any other byte stays.
#[tactic(auto, unfolding(ci_base::specs::Letters::capital, ci_base::specs::Letters::is_small))]
fn capital(b: u8) -> u8
    ensures { result ≡ capital b }
{
    if b >= b'a' && b <= b'z' { b - 32 } else { b }
}

/// The token that a word in capitals makes, where it is no name.
fn look_up(word: &[u8]) -> Option<TokenKind>
    ensures { result ≡ look_up table word.now }
{
    match find_keyword(&KEYWORDS, word) {
        Some(keyword) => Some(TokenKind::Keyword(keyword)),
        None => truth_value(word),
    }
}

/// The first of the keywords that the word spells.
#[tactic(auto, unfolding(crate::specs::Keywords::spelled))]
fn find_keyword(keywords: &[(&[u8], Keyword)], word: &[u8]) -> Option<Keyword>
    ensures { result ≡ spelled word.now keywords.now }
{
    for (spelling, keyword) in keywords {
        if word == *spelling {
            return Some(*keyword);
        }
    }
    None
}

/// The number that `TRUE` or `FALSE` makes.
fn truth_value(word: &[u8]) -> Option<TokenKind>
    ensures { result ≡ look_up truth_values word.now }
{
    if word == b"TRUE".as_slice() {
        Some(TokenKind::Number(1))
    } else if word == b"FALSE".as_slice() {
        Some(TokenKind::Number(0))
    } else {
        None
    }
}

/// Whether these bytes are a name: a letter or `_`, then letters, digits and `_`, at most 64 bytes together, and no keyword.
pub fn is_name(word: &[u8]) -> bool
    ensures { IsTrue result ↔ IsKept (TokenKind.Name word.now) }
{
    if word.len() > MOST_NAME_BYTES || !is_word(word) {
        return false;
    }
    match reserved(word) {
        Some(_) => false,
        None => true,
    }
}
