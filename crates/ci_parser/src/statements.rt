//! Statements, by descent. `free` is the number of levels that may still be opened, and `inside` that number
//! within a construct that has opened one. Where a fault comes behind an expression, `drop` lets it go: what a scope lets
//! go at its end is written out there, member by member, and is costly to prove.
ghost use Rattle.std.specs.Prelude.{◌≡◌, suc, ◌++◌, length, map, option_map, option_to_list, ◌≢◌, IfOk, IfErr};
ghost use Rattle.ci_tree.specs.declared.token.Keyword.TheVariants.{End};
ghost use Rattle.ci_tree.specs.Refused.{is_keyword};
ghost use Rattle.ci_tree.specs.Seen.{expr_of, stmt_of, block_of, clause_of, clauses_of};
ghost use Rattle.ci_tree.specs.Tree.{other_from};
ghost use Rattle.ci_expressions.specs.Gives.{kinds, Gives};
ghost use Rattle.ci_parser.specs.Reading as reading;
ghost use Rattle.ci_parser.specs.Constructs.{construct_of, construct_at, before_word, counted, choice, branches, loop, count, behind_word, plain_simple, simple};

use crate::members::{labels, locals};
use ci_base::Bytes;
use ci_expressions::{
    Cursor, ParseFault, arguments, begins_else, begins_expression, begins_keyword,
    begins_statement, below, expect_keyword, expect_sign, expression, is_keyword, name_at, next,
    type_of, with_keyword, with_sign,
};
use ci_tree::{Clause, Expr, Keyword, Sign, Stmt, TokenKind, TypeAt, TypeName, list_with_room};
use sqlite_items::Items;
use std::alloc::Global;

/// A statement that opens a level.
#[derive(Clone, Copy)]
pub enum Construct {
    If,
    While,
    For,
    Select,
}

/// A declaration with its `;`, behind its type's word, which is the token `at`.
fn declaration(
    alloc: Global,
    free: u32,
    at: u32,
    kind: TypeName,
    here: Cursor,
) -> Result<(Option<Stmt>, Cursor), ParseFault>
    ensures { Gives (λ x. (option_map stmt_of x.0, x.1.at, kinds x.1.left.now)) result (reading.closed (reading.declared at kind (reading.expression free) here.entry.at (kinds here.entry.left.now))) }
{
    let (names, after) = locals(alloc, free, here)?;
    let end = expect_sign(after, Sign::Semicolon)?;
    Ok((
        Some(Stmt::declare(at, TypeAt { at, name: kind }, names)),
        end,
    ))
}

/// What RETURN gives back, if it gives something; RETURN is the token `at`.
fn value(alloc: Global, free: u32, at: u32, here: Cursor) -> Result<(Stmt, Cursor), ParseFault>
    ensures { Gives (λ x. (stmt_of x.0, x.1.at, kinds x.1.left.now)) result (reading.returned at (reading.expression free) here.entry.at (kinds here.entry.left.now)) }
{
    if !begins_expression(here) {
        return Ok((Stmt::give_back(at, None), here));
    }
    let (value, after) = expression(alloc, free, here)?;
    Ok((Stmt::give_back(at, Some(value)), after))
}

/// A RETURN with its `;`, behind its word, which is the token `at`.
fn returned(
    alloc: Global,
    free: u32,
    at: u32,
    here: Cursor,
) -> Result<(Option<Stmt>, Cursor), ParseFault>
    ensures { Gives (λ x. (option_map stmt_of x.0, x.1.at, kinds x.1.left.now)) result (reading.closed (reading.returned at (reading.expression free) here.entry.at (kinds here.entry.left.now))) }
{
    let (stmt, after) = value(alloc, free, at, here)?;
    let (stmt, end) = with_sign(stmt, after, Sign::Semicolon)?;
    Ok((Some(stmt), end))
}

/// A call, behind its opening parenthesis, which is the token `opens`; its name is the token `at`.
fn call_at(
    alloc: Global,
    free: u32,
    opens: u32,
    at: u32,
    name: Bytes,
    here: Cursor,
) -> Result<(Stmt, Cursor), ParseFault>
    ensures { Gives (λ x. (stmt_of x.0, x.1.at, kinds x.1.left.now)) result (reading.opened opens (reading.inside_of free) (λ inside. reading.call_alone inside.expression at name here.entry.at (kinds here.entry.left.now))) }
{
    let Some(inside) = below(free) else {
        return Err(ParseFault::TooDeep { at: opens });
    };
    call(alloc, inside, at, name, here)
}

/// A call, one level further in.
fn call(
    alloc: Global,
    inside: u32,
    at: u32,
    name: Bytes,
    here: Cursor,
) -> Result<(Stmt, Cursor), ParseFault>
    ensures { Gives (λ x. (stmt_of x.0, x.1.at, kinds x.1.left.now)) result (reading.call_alone (reading.expression inside) at name here.entry.at (kinds here.entry.left.now)) }
{
    let (args, after) = arguments(alloc, inside, here)?;
    let closed = expect_sign(after, Sign::RightParen)?;
    Ok((Stmt::call(at, name, args), closed))
}

/// An assignment to an element, behind its opening bracket, which is the token `opens`; its name is the token `at`.
fn element(
    alloc: Global,
    free: u32,
    opens: u32,
    at: u32,
    name: Bytes,
    here: Cursor,
) -> Result<(Stmt, Cursor), ParseFault>
    ensures { Gives (λ x. (stmt_of x.0, x.1.at, kinds x.1.left.now)) result (reading.opened opens (reading.inside_of free) (λ inside. reading.element_assigned (reading.expression free) inside.expression at name here.entry.at (kinds here.entry.left.now))) }
{
    let Some(inside) = below(free) else {
        return Err(ParseFault::TooDeep { at: opens });
    };
    let (index, after) = expression(alloc, inside, here)?;
    let (index, closed) = with_sign(index, after, Sign::RightBracket)?;
    let (index, equal) = with_sign(index, closed, Sign::Equal)?;
    match expression(alloc, free, equal) {
        Ok((value, end)) => Ok((Stmt::assign(at, name, Some(index), closed.at, value), end)),
        Err(fault) => {
            drop((name, index));
            Err(fault)
        }
    }
}

/// A call or an assignment, behind its name, which is the token `at`.
fn tail(
    alloc: Global,
    free: u32,
    at: u32,
    name: Bytes,
    here: Cursor,
) -> Result<(Stmt, Cursor), ParseFault>
    ensures { Gives (λ x. (stmt_of x.0, x.1.at, kinds x.1.left.now)) result (reading.tail at name (reading.expression free) (reading.inside_of free) here.entry.at (kinds here.entry.left.now)) }
{
    let Some((kind, behind)) = next(here) else {
        return Err(ParseFault::UnexpectedEnd);
    };
    match kind {
        TokenKind::Sign(Sign::LeftParen) => call_at(alloc, free, here.at, at, name, behind),
        TokenKind::Sign(Sign::LeftBracket) => element(alloc, free, here.at, at, name, behind),
        TokenKind::Sign(Sign::Equal) => {
            let (value, end) = expression(alloc, free, behind)?;
            Ok((Stmt::assign(at, name, None, here.at, value), end))
        }
        _ => Err(ParseFault::Unexpected { at: here.at }),
    }
}

/// A call or an assignment with its `;`, behind its name, which is the token `at`.
fn named(
    alloc: Global,
    free: u32,
    at: u32,
    name: Bytes,
    here: Cursor,
) -> Result<(Option<Stmt>, Cursor), ParseFault>
    ensures { Gives (λ x. (option_map stmt_of x.0, x.1.at, kinds x.1.left.now)) result (reading.closed (reading.tail at name (reading.expression free) (reading.inside_of free) here.entry.at (kinds here.entry.left.now))) }
{
    let (stmt, after) = tail(alloc, free, at, name, here)?;
    let (stmt, end) = with_sign(stmt, after, Sign::Semicolon)?;
    Ok((Some(stmt), end))
}

/// A statement that begins with no type's word and is no construct.
fn plain_statement(
    alloc: Global,
    free: u32,
    here: Cursor,
) -> Result<(Option<Stmt>, Cursor), ParseFault>
    ensures { Gives (λ x. (option_map stmt_of x.0, x.1.at, kinds x.1.left.now)) result (plain_simple (reading.expression free) (reading.inside_of free) here.entry.at (kinds here.entry.left.now)) }
{
    let Some((kind, behind)) = next(here) else {
        return Err(ParseFault::UnexpectedEnd);
    };
    match kind {
        TokenKind::Sign(Sign::Semicolon) => Ok((None, behind)),
        TokenKind::Name(name) => named(
            alloc,
            free,
            here.at,
            Bytes::copy(alloc, name.bytes())?,
            behind,
        ),
        TokenKind::Keyword(Keyword::Return) => returned(alloc, free, here.at, behind),
        _ => Err(ParseFault::Unexpected { at: here.at }),
    }
}

/// A statement that is no construct. `;` alone is none.
fn simple_statement(
    alloc: Global,
    free: u32,
    here: Cursor,
) -> Result<(Option<Stmt>, Cursor), ParseFault>
    ensures { Gives (λ x. (option_map stmt_of x.0, x.1.at, kinds x.1.left.now)) result (simple (reading.expression free) (reading.inside_of free) here.entry.at (kinds here.entry.left.now)) }
{
    let Some((kind, behind)) = next(here) else {
        return Err(ParseFault::UnexpectedEnd);
    };
    match type_of(kind) {
        None => plain_statement(alloc, free, here),
        Some(name) => declaration(alloc, free, here.at, name, behind),
    }
}

/// The construct whose word the token is.
fn construct_of(kind: &TokenKind) -> Option<Construct>
    ensures { result ≡ construct_of kind.now }
{
    match kind {
        TokenKind::Keyword(Keyword::If) => Some(Construct::If),
        TokenKind::Keyword(Keyword::While) => Some(Construct::While),
        TokenKind::Keyword(Keyword::For) => Some(Construct::For),
        TokenKind::Keyword(Keyword::Select) => Some(Construct::Select),
        _ => None,
    }
}

/// The construct whose word is next, and the place behind its word.
fn construct_at(here: Cursor) -> Option<(Construct, Cursor)>
    ensures { option_map (λ x. (x.0, x.1.at, kinds x.1.left.now)) result ≡ construct_at here.entry.at (kinds here.entry.left.now) }
{
    let Some((kind, behind)) = next(here) else {
        return None;
    };
    match construct_of(kind) {
        None => None,
        Some(word) => Some((word, behind)),
    }
}

/// A clause with labels is next.
fn begins_clause(here: Cursor) -> bool
    ensures { result ≡ reading.begins_clause (kinds here.entry.left.now) }
{
    match next(here) {
        None => false,
        Some((kind, behind)) => {
            is_keyword(kind, Keyword::Case) && !begins_keyword(behind, Keyword::Else)
        }
    }
}

/// An expression with this keyword behind it.
#[tactic(auto, unfolding(crate::specs::Constructs::before_word))]
fn expression_before(
    alloc: Global,
    free: u32,
    keyword: Keyword,
    here: Cursor,
) -> Result<(Expr, Cursor), ParseFault>
    ensures { Gives (λ x. (expr_of x.0, x.1.at, kinds x.1.left.now)) result (before_word (reading.expression free here.entry.at (kinds here.entry.left.now)) keyword) }
{
    let (value, after) = expression(alloc, free, here)?;
    let (value, behind) = with_keyword(value, after, keyword)?;
    Ok((value, behind))
}

/// The name that a FOR counts in, and its bounds, with the DO behind them.
fn counted(
    alloc: Global,
    free: u32,
    here: Cursor,
) -> Result<(Bytes, Expr, Expr, Cursor), ParseFault>
    ensures { Gives (λ x. ((x.0, expr_of x.1, expr_of x.2), x.3.at, kinds x.3.left.now)) result (counted (reading.expression free) here.entry.at (kinds here.entry.left.now)) }
{
    let (name, named) = name_at(alloc, here)?;
    let (name, equal) = with_sign(name, named, Sign::Equal)?;
    let (first, to) = expression_before(alloc, free, Keyword::To, equal)?;
    match expression_before(alloc, free, Keyword::Do, to) {
        Ok((last, begin)) => Ok((name, first, last, begin)),
        Err(fault) => {
            drop((name, first));
            Err(fault)
        }
    }
}

/// The value, and the place behind the END that closes what it belongs to.
pub fn ended<T: Drop>(value: T, here: Cursor) -> Result<(T, Cursor), ParseFault>
    ensures kept { IfOk result (λ x. x.0 ≡ value) }
    ensures behind { Gives (λ x. (x.1.at, kinds x.1.left.now)) result (reading.expect (is_keyword End) here.entry.at (kinds here.entry.left.now)) }
    ensures no_memory { IfErr result (λ fault. fault ≢ ParseFault.Memory) }
{
    with_keyword(value, here, Keyword::End)
}

/// The statements of a body. `free` is the number of levels that may still be opened.
#[cycle(statements)]
pub fn body(alloc: Global, free: u32, from: Cursor) -> Result<(Items<Stmt>, Cursor), ParseFault>
    ensures { Gives (λ x. (block_of x.0, x.1.at, kinds x.1.left.now)) result (reading.body free from.entry.at (kinds from.entry.left.now)) }
{
    let mut found = list_with_room(alloc, 1)?;
    let mut here = from;
    for _ in 0..from.left.len() {
        if !begins_statement(here) {
            return Ok((found, here));
        }
        let (one, behind) = statement(alloc, free, here)?;
        found = with_some(found, one)?;
        here = behind;
    }
    Ok((found, here))
}

/// The statements with one more, if there is one.
fn with_some(found: Items<Stmt>, one: Option<Stmt>) -> Result<Items<Stmt>, ParseFault>
    ensures { Gives (map stmt_of) result (Ok (map stmt_of found ++ option_to_list (option_map stmt_of one))) }
{
    let mut found = found;
    if let Some(stmt) = one {
        found.push(stmt)?;
    }
    Ok(found)
}

/// A statement. `;` alone is none.
#[cycle(statements)]
fn statement(alloc: Global, free: u32, here: Cursor) -> Result<(Option<Stmt>, Cursor), ParseFault>
    ensures { Gives (λ x. (option_map stmt_of x.0, x.1.at, kinds x.1.left.now)) result (reading.statement (reading.expression free) (reading.inside_of free) here.entry.at (kinds here.entry.left.now)) }
{
    match construct_at(here) {
        None => simple_statement(alloc, free, here),
        Some((word, behind)) => opened(alloc, free, here.at, word, behind),
    }
}

/// A construct, behind its word, which is the token `at`.
#[cycle(statements)]
fn opened(
    alloc: Global,
    free: u32,
    at: u32,
    word: Construct,
    here: Cursor,
) -> Result<(Option<Stmt>, Cursor), ParseFault>
    ensures { Gives (λ x. (option_map stmt_of x.0, x.1.at, kinds x.1.left.now)) result (reading.opened at (reading.inside_of free) (λ inside. reading.some_stmt (behind_word word at inside here.entry.at (kinds here.entry.left.now)))) }
{
    let Some(inside) = below(free) else {
        return Err(ParseFault::TooDeep { at });
    };
    let (stmt, after) = behind_word(alloc, inside, at, word, here)?;
    Ok((Some(stmt), after))
}

/// The same, where a level was free.
#[cycle(statements)]
fn behind_word(
    alloc: Global,
    inside: u32,
    at: u32,
    word: Construct,
    here: Cursor,
) -> Result<(Stmt, Cursor), ParseFault>
    ensures { Gives (λ x. (stmt_of x.0, x.1.at, kinds x.1.left.now)) result (behind_word word at (reading.within inside) here.entry.at (kinds here.entry.left.now)) }
{
    match word {
        Construct::If => choice(alloc, inside, at, here),
        Construct::While => repetition(alloc, inside, at, here),
        Construct::For => count(alloc, inside, at, here),
        Construct::Select => selection(alloc, inside, at, here),
    }
}

/// An IF, behind its word, which is the token `at`.
#[cycle(statements)]
fn choice(alloc: Global, inside: u32, at: u32, here: Cursor) -> Result<(Stmt, Cursor), ParseFault>
    ensures { Gives (λ x. (stmt_of x.0, x.1.at, kinds x.1.left.now)) result (choice at (reading.within inside) here.entry.at (kinds here.entry.left.now)) }
{
    let (test, begin) = expression_before(alloc, inside, Keyword::Then, here)?;
    match branches(alloc, inside, begin) {
        Ok((block, other, end)) => Ok((Stmt::choose(at, test, block, other), end)),
        Err(fault) => {
            drop(test);
            Err(fault)
        }
    }
}

/// The branches of an IF, behind THEN, with the END behind them.
#[cycle(statements)]
fn branches(
    alloc: Global,
    inside: u32,
    here: Cursor,
) -> Result<(Items<Stmt>, Option<Items<Stmt>>, Cursor), ParseFault>
    ensures { Gives (λ x. ((block_of x.0, other_from (option_map block_of x.1)), x.2.at, kinds x.2.left.now)) result (branches (reading.within inside) here.entry.at (kinds here.entry.left.now)) }
{
    let (block, behind) = body(alloc, inside, here)?;
    let (other, after) = else_part(alloc, inside, behind)?;
    let (other, end) = ended(other, after)?;
    Ok((block, other, end))
}

/// An ELSE part, if there is one.
#[cycle(statements)]
fn else_part(
    alloc: Global,
    inside: u32,
    here: Cursor,
) -> Result<(Option<Items<Stmt>>, Cursor), ParseFault>
    ensures { Gives (λ x. (other_from (option_map block_of x.0), x.1.at, kinds x.1.left.now)) result (reading.else_part (reading.within inside) here.entry.at (kinds here.entry.left.now)) }
{
    if !begins_else(here) {
        return Ok((None, here));
    }
    let begin = expect_keyword(here, Keyword::Else)?;
    let (block, after) = body(alloc, inside, begin)?;
    Ok((Some(block), after))
}

/// A WHILE, behind its word, which is the token `at`.
#[cycle(statements)]
fn repetition(
    alloc: Global,
    inside: u32,
    at: u32,
    here: Cursor,
) -> Result<(Stmt, Cursor), ParseFault>
    ensures { Gives (λ x. (stmt_of x.0, x.1.at, kinds x.1.left.now)) result (loop at (reading.within inside) here.entry.at (kinds here.entry.left.now)) }
{
    let (test, begin) = expression_before(alloc, inside, Keyword::Do, here)?;
    match ended_body(alloc, inside, begin) {
        Ok((block, end)) => Ok((Stmt::repeat(at, test, block), end)),
        Err(fault) => {
            drop(test);
            Err(fault)
        }
    }
}

/// A FOR, behind its word, which is the token `at`.
#[cycle(statements)]
fn count(alloc: Global, inside: u32, at: u32, here: Cursor) -> Result<(Stmt, Cursor), ParseFault>
    ensures { Gives (λ x. (stmt_of x.0, x.1.at, kinds x.1.left.now)) result (count at (reading.within inside) here.entry.at (kinds here.entry.left.now)) }
{
    let (name, first, last, begin) = counted(alloc, inside, here)?;
    match ended_body(alloc, inside, begin) {
        Ok((block, end)) => Ok((Stmt::count(at, here.at, name, first, last, block), end)),
        Err(fault) => {
            drop((name, first, last));
            Err(fault)
        }
    }
}

/// A body with the END behind it.
#[cycle(statements)]
#[tactic(auto, unfolding(crate::specs::Constructs::before_word))]
fn ended_body(alloc: Global, inside: u32, here: Cursor) -> Result<(Items<Stmt>, Cursor), ParseFault>
    ensures { Gives (λ x. (block_of x.0, x.1.at, kinds x.1.left.now)) result (before_word (reading.body inside here.entry.at (kinds here.entry.left.now)) End) }
{
    let (block, behind) = body(alloc, inside, here)?;
    let (block, end) = ended(block, behind)?;
    Ok((block, end))
}

/// A SELECT, behind its word, which is the token `at`.
#[cycle(statements)]
fn selection(
    alloc: Global,
    inside: u32,
    at: u32,
    here: Cursor,
) -> Result<(Stmt, Cursor), ParseFault>
    ensures { Gives (λ x. (stmt_of x.0, x.1.at, kinds x.1.left.now)) result (reading.selection at (reading.within inside) here.entry.at (kinds here.entry.left.now)) }
{
    let case = expect_keyword(here, Keyword::Case)?;
    let (subject, behind) = expression(alloc, inside, case)?;
    match cases(alloc, inside, behind) {
        Ok((clauses, other, end)) => Ok((Stmt::select(at, subject, clauses, other), end)),
        Err(fault) => {
            drop(subject);
            Err(fault)
        }
    }
}

/// The clauses of SELECT and its end.
#[cycle(statements)]
fn cases(
    alloc: Global,
    inside: u32,
    from: Cursor,
) -> Result<(Items<Clause>, Option<Items<Stmt>>, Cursor), ParseFault>
    ensures { Gives (λ x. (reading.cases_of (clauses_of x.0) (other_from (option_map block_of x.1)), x.2.at, kinds x.2.left.now)) result (reading.cases (reading.within inside) (suc (length (kinds from.entry.left.now))) from.entry.at (kinds from.entry.left.now)) }
{
    let mut clauses = list_with_room(alloc, 1)?;
    let mut here = from;
    for _ in 0..from.left.len() + 1 {
        if !begins_clause(here) {
            let (other, end) = cases_end(alloc, inside, here)?;
            return Ok((clauses, other, end));
        }
        let (one, behind) = clause(alloc, inside, here)?;
        clauses.push(one)?;
        here = behind;
    }
    // No way leads here: each round takes a token.
    Err(ParseFault::UnexpectedEnd)
}

/// A clause with labels.
#[cycle(statements)]
fn clause(alloc: Global, inside: u32, here: Cursor) -> Result<(Clause, Cursor), ParseFault>
    ensures { Gives (λ x. (clause_of x.0, x.1.at, kinds x.1.left.now)) result (reading.clause (reading.within inside) here.entry.at (kinds here.entry.left.now)) }
{
    let case = expect_keyword(here, Keyword::Case)?;
    let (found, begin) = labels(alloc, inside, case)?;
    let (block, after) = body(alloc, inside, begin)?;
    Ok((Clause::new(here.at, found, block), after))
}

/// What ends SELECT behind its clauses: CASE ELSE, if there is one, and END SELECT.
#[cycle(statements)]
fn cases_end(
    alloc: Global,
    inside: u32,
    here: Cursor,
) -> Result<(Option<Items<Stmt>>, Cursor), ParseFault>
    ensures { Gives (λ x. (other_from (option_map block_of x.0), x.1.at, kinds x.1.left.now)) result (reading.cases_end (reading.within inside) here.entry.at (kinds here.entry.left.now)) }
{
    let (other, behind) = case_else(alloc, inside, here)?;
    let end = expect_keyword(behind, Keyword::End)?;
    let select = expect_keyword(end, Keyword::Select)?;
    Ok((other, select))
}

/// CASE ELSE, if there is one.
#[cycle(statements)]
fn case_else(
    alloc: Global,
    inside: u32,
    here: Cursor,
) -> Result<(Option<Items<Stmt>>, Cursor), ParseFault>
    ensures { Gives (λ x. (other_from (option_map block_of x.0), x.1.at, kinds x.1.left.now)) result (reading.case_else (reading.within inside) here.entry.at (kinds here.entry.left.now)) }
{
    if !begins_keyword(here, Keyword::Case) {
        return Ok((None, here));
    }
    let case = expect_keyword(here, Keyword::Case)?;
    let begin = expect_keyword(case, Keyword::Else)?;
    let (block, after) = body(alloc, inside, begin)?;
    Ok((Some(block), after))
}
