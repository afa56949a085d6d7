//! What the next token can begin.
ghost use Rattle.std.specs.Prelude.{◌≡◌, ℕ, ◌<◌, ◌≤◌, [], ◌∷◌, true, false};
ghost use Rattle.ci_tree.specs.Refused as ask;
ghost use Rattle.ci_tree.specs.Refused.{begins, has_rule, rule};
ghost use Rattle.ci_expressions.specs.Gives.{kinds};

use crate::cursor::{Cursor, is_keyword, is_sign, next, type_of};
use crate::operators::joint_group;
use ci_tree::{Keyword, Sign, TokenKind};

/// This sign is next.
pub fn begins_sign(here: Cursor, sign: Sign) -> bool
    ensures { result ≡ begins (ask.sign sign) (kinds here.entry.left.now) }
{
    match next(here) {
        None => false,
        Some((kind, _)) => is_sign(kind, sign),
    }
}

/// This keyword is next.
pub fn begins_keyword(here: Cursor, keyword: Keyword) -> bool
    ensures { result ≡ begins (ask.keyword keyword) (kinds here.entry.left.now) }
{
    match next(here) {
        None => false,
        Some((kind, _)) => is_keyword(kind, keyword),
    }
}

/// The token begins an expression.
fn is_first_of_expression(kind: &TokenKind) -> bool
    ensures arguments { result ≡ has_rule (rule ask.arguments kind.now) }
    ensures returned { result ≡ has_rule (rule ask.returned kind.now) }
{
    match kind {
        TokenKind::Name(_) | TokenKind::Number(_) | TokenKind::Text(_) => true,
        TokenKind::Keyword(Keyword::Not) => true,
        TokenKind::Sign(Sign::Minus | Sign::LeftParen) => true,
        _ => false,
    }
}

/// An expression is next.
pub fn begins_expression(here: Cursor) -> bool
    ensures arguments { result ≡ begins ask.arguments (kinds here.entry.left.now) }
    ensures returned { result ≡ begins ask.returned (kinds here.entry.left.now) }
{
    match next(here) {
        None => false,
        Some((kind, _)) => is_first_of_expression(kind),
    }
}

/// The group in `from..to` to whose chains the next token joins one more member, or `to` where there is none.
pub fn joining(here: Cursor, from: u32, to: u32) -> u32
    requires { from ≤ to }
    ensures least { from ≤ result }
    ensures most { result ≤ to }
    ensures before { (n : ℕ) → from ≤ n → n < result → begins (ask.rest n) (kinds here.entry.left.now) ≡ false }
    ensures joins { result < to → begins (ask.rest result) (kinds here.entry.left.now) ≡ true }
{
    let Some((kind, _)) = next(here) else {
        return to;
    };
    match joint_group(kind) {
        Some(group) if from <= group && group < to => group,
        _ => to,
    }
}

/// The token begins a statement.
fn is_first_of_statement(kind: &TokenKind) -> bool
    ensures { result ≡ has_rule (rule ask.body kind.now) }
{
    match kind {
        TokenKind::Name(_) | TokenKind::Sign(Sign::Semicolon) => true,
        TokenKind::Keyword(
            Keyword::If
            | Keyword::While
            | Keyword::For
            | Keyword::Select
            | Keyword::Return
            | Keyword::Int
            | Keyword::String
            | Keyword::Real
            | Keyword::Object
            | Keyword::Quality
            | Keyword::Timestamp,
        ) => true,
        _ => false,
    }
}

/// A statement is next.
pub fn begins_statement(here: Cursor) -> bool
    ensures { result ≡ begins ask.body (kinds here.entry.left.now) }
{
    match next(here) {
        None => false,
        Some((kind, _)) => is_first_of_statement(kind),
    }
}

/// The token is `=`.
fn is_equal(kind: &TokenKind) -> bool
    ensures local { result ≡ has_rule (rule ask.local_end kind.now) }
    ensures first { result ≡ has_rule (rule ask.first_value kind.now) }
{
    matches!(kind, TokenKind::Sign(Sign::Equal))
}

/// A first value is next.
pub fn begins_value(here: Cursor) -> bool
    ensures local { result ≡ begins ask.local_end (kinds here.entry.left.now) }
    ensures first { result ≡ begins ask.first_value (kinds here.entry.left.now) }
{
    match next(here) {
        None => false,
        Some((kind, _)) => is_equal(kind),
    }
}

/// The token is `TO`.
fn is_to(kind: &TokenKind) -> bool
    ensures { result ≡ has_rule (rule ask.label_end kind.now) }
{
    matches!(kind, TokenKind::Keyword(Keyword::To))
}

/// The end of a range is next.
pub fn begins_range_end(here: Cursor) -> bool
    ensures { result ≡ begins ask.label_end (kinds here.entry.left.now) }
{
    match next(here) {
        None => false,
        Some((kind, _)) => is_to(kind),
    }
}

/// The token is `ELSE`.
fn is_else(kind: &TokenKind) -> bool
    ensures { result ≡ has_rule (rule ask.else kind.now) }
{
    matches!(kind, TokenKind::Keyword(Keyword::Else))
}

/// An ELSE part is next.
pub fn begins_else(here: Cursor) -> bool
    ensures { result ≡ begins ask.else (kinds here.entry.left.now) }
{
    match next(here) {
        None => false,
        Some((kind, _)) => is_else(kind),
    }
}

/// The token is a type's word.
fn is_type(kind: &TokenKind) -> bool
    ensures type_word { result ≡ has_rule (rule ask.type kind.now) }
    ensures parameters { result ≡ has_rule (rule ask.parameters kind.now) }
{
    type_of(kind).is_some()
}

/// A type's word is next.
pub fn begins_type(here: Cursor) -> bool
    ensures type_word { result ≡ begins ask.type (kinds here.entry.left.now) }
    ensures parameters { result ≡ begins ask.parameters (kinds here.entry.left.now) }
{
    match next(here) {
        None => false,
        Some((kind, _)) => is_type(kind),
    }
}

/// The token is a name.
fn is_name(kind: &TokenKind) -> bool
    ensures { result ≡ has_rule (rule ask.name kind.now) }
{
    matches!(kind, TokenKind::Name(_))
}

/// A name is next.
pub fn begins_name(here: Cursor) -> bool
    ensures { result ≡ begins ask.name (kinds here.entry.left.now) }
{
    match next(here) {
        None => false,
        Some((kind, _)) => is_name(kind),
    }
}
