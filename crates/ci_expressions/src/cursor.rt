//! A place between two tokens, and the readers of one token.
ghost use Rattle.std.specs.Prelude.{◌≡◌, ℕ, zero, suc, ◌+◌, ◌≤◌, length, [], ◌∷◌, ◌≢◌, IfOk, IfErr, MatchOption};
ghost use Rattle.ci_base.specs.declared.bounds.TheConstants.{MOST_TOKENS};
ghost use Rattle.ci_tree.specs.Refused as ask;
ghost use Rattle.ci_tree.specs.Refused.{is_keyword, is_sign, begins, type_of_token, relation_of_token};
ghost use Rattle.ci_expressions.specs.Gives.{kinds, Gives};
ghost use Rattle.ci_expressions.specs.Reading as reading;

use crate::fault::ParseFault;
use ci_base::{Bytes, Relation};
use ci_tree::{Keyword, Sign, Token, TokenKind, TypeName};
use std::alloc::Global;

/// The tokens that are left, and the index of the first of them.
#[derive(Clone, Copy)]
pub struct Cursor<'a> {
    pub at: u32,
    pub left: &'a [Token],
    ghost within: { at + length left.now ≤ MOST_TOKENS },
}

/// The next token, and the place behind it.
pub fn next(here: Cursor) -> Option<(&TokenKind, Cursor)>
    ensures { MatchOption result (kinds here.entry.left.now ≡ []) (λ x. (kinds here.entry.left.now ≡ x.0.now ∷ kinds x.1.left.now) × (x.1.at ≡ suc here.entry.at)) }
{
    match here.left {
        [] => None,
        [first, rest @ ..] => Some((
            &first.what,
            Cursor {
                at: here.at + 1,
                left: rest,
            },
        )),
    }
}

/// One less, where there is less.
pub fn below(n: u32) -> Option<u32>
    ensures { MatchOption result (n ≡ zero) (λ m. n ≡ suc m) }
{
    if n == 0 { None } else { Some(n - 1) }
}

/// The token is this sign.
pub fn is_sign(kind: &TokenKind, sign: Sign) -> bool
    ensures { result ≡ is_sign sign kind.now }
{
    match kind {
        TokenKind::Sign(found) => sign_number(*found) == sign_number(sign),
        _ => false,
    }
}

/// The token is this keyword.
pub fn is_keyword(kind: &TokenKind, keyword: Keyword) -> bool
    ensures { result ≡ is_keyword keyword kind.now }
{
    match kind {
        TokenKind::Keyword(found) => keyword_number(*found) == keyword_number(keyword),
        _ => false,
    }
}

/// This sign. Takes no memory.
pub fn expect_sign(here: Cursor, sign: Sign) -> Result<Cursor, ParseFault>
    ensures read { Gives (λ x. (x.at, kinds x.left.now)) result (reading.expect (is_sign sign) here.entry.at (kinds here.entry.left.now)) }
    ensures no_memory { IfErr result (λ fault. fault ≢ ParseFault.Memory) }
{
    let Some((kind, behind)) = next(here) else {
        return Err(ParseFault::UnexpectedEnd);
    };
    if is_sign(kind, sign) {
        Ok(behind)
    } else {
        Err(ParseFault::Unexpected { at: here.at })
    }
}

/// This keyword. Takes no memory.
pub fn expect_keyword(here: Cursor, keyword: Keyword) -> Result<Cursor, ParseFault>
    ensures read { Gives (λ x. (x.at, kinds x.left.now)) result (reading.expect (is_keyword keyword) here.entry.at (kinds here.entry.left.now)) }
    ensures no_memory { IfErr result (λ fault. fault ≢ ParseFault.Memory) }
{
    let Some((kind, behind)) = next(here) else {
        return Err(ParseFault::UnexpectedEnd);
    };
    if is_keyword(kind, keyword) {
        Ok(behind)
    } else {
        Err(ParseFault::Unexpected { at: here.at })
    }
}

/// A number. Takes no memory.
pub fn number_at(here: Cursor) -> Result<(i32, Cursor), ParseFault>
    ensures read { Gives (λ x. (x.0, x.1.at, kinds x.1.left.now)) result (reading.number_at here.entry.at (kinds here.entry.left.now)) }
    ensures no_memory { IfErr result (λ fault. fault ≢ ParseFault.Memory) }
{
    let Some((kind, behind)) = next(here) else {
        return Err(ParseFault::UnexpectedEnd);
    };
    match kind {
        TokenKind::Number(value) => Ok((*value, behind)),
        _ => Err(ParseFault::Unexpected { at: here.at }),
    }
}

/// Hashes. Takes no memory.
pub fn hashes_at(here: Cursor) -> Result<(u32, Cursor), ParseFault>
    ensures read { Gives (λ x. (x.0, x.1.at, kinds x.1.left.now)) result (reading.hashes_at here.entry.at (kinds here.entry.left.now)) }
    ensures no_memory { IfErr result (λ fault. fault ≢ ParseFault.Memory) }
{
    let Some((kind, behind)) = next(here) else {
        return Err(ParseFault::UnexpectedEnd);
    };
    match kind {
        TokenKind::Hashes(count) => Ok((*count, behind)),
        _ => Err(ParseFault::Unexpected { at: here.at }),
    }
}

/// A name.
pub fn name_at(alloc: Global, here: Cursor) -> Result<(Bytes, Cursor), ParseFault>
    ensures { Gives (λ x. (x.0, x.1.at, kinds x.1.left.now)) result (reading.name_at here.entry.at (kinds here.entry.left.now)) }
{
    let Some((kind, behind)) = next(here) else {
        return Err(ParseFault::UnexpectedEnd);
    };
    match kind {
        TokenKind::Name(name) => Ok((Bytes::copy(alloc, name.bytes())?, behind)),
        _ => Err(ParseFault::Unexpected { at: here.at }),
    }
}

/// The type whose word the token is.
pub fn type_of(kind: &TokenKind) -> Option<TypeName>
    ensures { result ≡ type_of_token kind.now }
{
    match kind {
        TokenKind::Keyword(Keyword::Int) => Some(TypeName::Int),
        TokenKind::Keyword(Keyword::String) => Some(TypeName::String),
        TokenKind::Keyword(Keyword::Real) => Some(TypeName::Real),
        TokenKind::Keyword(Keyword::Object) => Some(TypeName::Object),
        TokenKind::Keyword(Keyword::Quality) => Some(TypeName::Quality),
        TokenKind::Keyword(Keyword::Timestamp) => Some(TypeName::Timestamp),
        _ => None,
    }
}

/// A type's word. Takes no memory.
pub fn type_at(here: Cursor) -> Result<(TypeName, Cursor), ParseFault>
    ensures read { Gives (λ x. (x.0, x.1.at, kinds x.1.left.now)) result (reading.type_at here.entry.at (kinds here.entry.left.now)) }
    ensures no_memory { IfErr result (λ fault. fault ≢ ParseFault.Memory) }
{
    let Some((kind, behind)) = next(here) else {
        return Err(ParseFault::UnexpectedEnd);
    };
    match type_of(kind) {
        Some(name) => Ok((name, behind)),
        None => Err(ParseFault::Unexpected { at: here.at }),
    }
}

/// The relation that the token is behind `IS`.
fn relation_of(kind: &TokenKind) -> Option<Relation>
    ensures { result ≡ relation_of_token kind.now }
{
    match kind {
        TokenKind::Sign(Sign::Equal) => Some(Relation::Equal),
        TokenKind::Sign(Sign::Unequal) => Some(Relation::Unequal),
        TokenKind::Sign(Sign::Less) => Some(Relation::Less),
        TokenKind::Sign(Sign::Greater) => Some(Relation::Greater),
        TokenKind::Sign(Sign::AtMost) => Some(Relation::AtMost),
        TokenKind::Sign(Sign::AtLeast) => Some(Relation::AtLeast),
        _ => None,
    }
}

/// A relation. Takes no memory.
pub fn relation_at(here: Cursor) -> Result<(Relation, Cursor), ParseFault>
    ensures read { Gives (λ x. (x.0, x.1.at, kinds x.1.left.now)) result (reading.relation_at here.entry.at (kinds here.entry.left.now)) }
    ensures no_memory { IfErr result (λ fault. fault ≢ ParseFault.Memory) }
{
    let Some((kind, behind)) = next(here) else {
        return Err(ParseFault::UnexpectedEnd);
    };
    match relation_of(kind) {
        Some(relation) => Ok((relation, behind)),
        None => Err(ParseFault::Unexpected { at: here.at }),
    }
}

/// Keywords by number, so that two can be compared.
fn keyword_number(keyword: Keyword) -> u32
    ensures { result ≡ ask.keyword_number keyword }
{
    match keyword {
        Keyword::Function => 0,
        Keyword::End => 1,
        Keyword::If => 2,
        Keyword::Then => 3,
        Keyword::Else => 4,
        Keyword::While => 5,
        Keyword::Do => 6,
        Keyword::For => 7,
        Keyword::To => 8,
        Keyword::Select => 9,
        Keyword::Case => 10,
        Keyword::Is => 11,
        Keyword::Return => 12,
        Keyword::Private => 13,
        Keyword::Public => 14,
        Keyword::Global => 15,
        Keyword::Module => 16,
        Keyword::Int => 17,
        Keyword::String => 18,
        Keyword::Real => 19,
        Keyword::Object => 20,
        Keyword::Quality => 21,
        Keyword::Timestamp => 22,
        Keyword::And => 23,
        Keyword::Or => 24,
        Keyword::Not => 25,
        Keyword::Mod => 26,
        Keyword::BitAnd => 27,
        Keyword::BitOr => 28,
        Keyword::BitXor => 29,
    }
}

/// Signs by number.
fn sign_number(sign: Sign) -> u32
    ensures { result ≡ ask.sign_number sign }
{
    match sign {
        Sign::LeftParen => 0,
        Sign::RightParen => 1,
        Sign::LeftBracket => 2,
        Sign::RightBracket => 3,
        Sign::Comma => 4,
        Sign::Semicolon => 5,
        Sign::Colon => 6,
        Sign::Equal => 7,
        Sign::Unequal => 8,
        Sign::Less => 9,
        Sign::Greater => 10,
        Sign::AtMost => 11,
        Sign::AtLeast => 12,
        Sign::Plus => 13,
        Sign::Minus => 14,
        Sign::Star => 15,
        Sign::Slash => 16,
    }
}
