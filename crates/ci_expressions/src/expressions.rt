//! Expressions, by descent. `free` is the number of levels that may still be opened.
ghost use Rattle.std.specs.Prelude.{◌≡◌, ◌≤◌, List, map, length, Ok, option_map};
ghost use Rattle.ci_tree.specs.Refused as ask;
ghost use Rattle.ci_tree.specs.Grammar.{chained};
ghost use Rattle.ci_tree.specs.Seen.{expr_of, link_of, exprs_of, links_of};
ghost use Rattle.ci_expressions.specs.Gives.{kinds, Gives};
ghost use Rattle.ci_expressions.specs.Reading as reading;

use crate::begins::{begins_expression, begins_sign, joining};
use crate::behind::with_sign;
use crate::cursor::{Cursor, below, expect_sign, hashes_at, next};
use crate::fault::ParseFault;
use crate::operators::{Joint, joint_in};
use ci_base::Bytes;
use ci_tree::{Expr, Keyword, Link, Sign, TokenKind, list_with_room};
use sqlite_items::{Boxed, Items};
use std::alloc::Global;

/// An expression.
#[cycle(expressions)]
#[tactic(auto, unfolding(crate::specs::Reading::whole))]
pub fn expression(alloc: Global, free: u32, here: Cursor) -> Result<(Expr, Cursor), ParseFault>
    ensures { Gives (λ x. (expr_of x.0, x.1.at, kinds x.1.left.now)) result (reading.expression free here.entry.at (kinds here.entry.left.now)) }
{
    level(alloc, free, 8, here)
}

/// A member of a level: Unary is level 0, and a member of level n + 1 is a chain of group n. The Unary that it begins with is
/// read once, and the chains are put round it from the tightest group on.
#[cycle(expressions)]
fn level(alloc: Global, free: u32, group: u32, here: Cursor) -> Result<(Expr, Cursor), ParseFault>
    requires { group ≤ 8 }
    ensures { Gives (λ x. (expr_of x.0, x.1.at, kinds x.1.left.now)) result (reading.level_on (reading.unary free) group here.entry.at (kinds here.entry.left.now)) }
{
    let (mut first, mut behind) = unary(alloc, free, here)?;
    let mut lower = joining(behind, 0, group);
    while lower < group {
        let (joined, after) = chain_behind(alloc, free, lower, here.at, first, behind)?;
        first = joined;
        behind = after;
        lower = joining(behind, lower + 1, group);
    }
    Ok((first, behind))
}

/// A chain of a group behind its first member, which starts at the token `start`, or that member alone.
#[cycle(expressions)]
fn chain_behind(
    alloc: Global,
    free: u32,
    group: u32,
    start: u32,
    first: Expr,
    behind: Cursor,
) -> Result<(Expr, Cursor), ParseFault>
    requires { group ≤ 7 }
    ensures { Gives (λ x. (expr_of x.0, x.1.at, kinds x.1.left.now)) result (reading.chain_behind (reading.level_on (reading.unary free) group) group start (expr_of first) behind.entry.at (kinds behind.entry.left.now)) }
{
    match rest(alloc, free, group, behind) {
        Ok((links, after)) => Ok((chain(alloc, start, first, behind.at, links)?, after)),
        Err(fault) => {
            drop(first);
            Err(fault)
        }
    }
}

/// A chain, or its first member alone where there is no other.
fn chain(
    alloc: Global,
    start: u32,
    first: Expr,
    at: u32,
    rest: Items<Link>,
) -> Result<Expr, ParseFault>
    ensures { Gives expr_of result (Ok (chained start (expr_of first) at (links_of rest))) }
{
    if rest.is_empty() {
        return Ok(first);
    }
    Ok(Expr::chain(start, at, Boxed::new(alloc, first)?, rest))
}

/// The members of a chain behind the first.
#[cycle(expressions)]
fn rest(
    alloc: Global,
    free: u32,
    group: u32,
    from: Cursor,
) -> Result<(Items<Link>, Cursor), ParseFault>
    requires { group ≤ 7 }
    ensures { Gives (λ x. (links_of x.0, x.1.at, kinds x.1.left.now)) result (reading.rest (reading.level_on (reading.unary free) group) group (length (kinds from.entry.left.now)) from.entry.at (kinds from.entry.left.now)) }
{
    links(alloc, free, group, from)
}

/// The same members, one after the other.
#[cycle(expressions)]
fn links(
    alloc: Global,
    free: u32,
    group: u32,
    from: Cursor,
) -> Result<(Items<Link>, Cursor), ParseFault>
    requires { group ≤ 7 }
    ensures { Gives (λ x. (map link_of x.0, x.1.at, kinds x.1.left.now)) result (reading.gather (reading.link_at (reading.level_on (reading.unary free) group) group) (length (kinds from.entry.left.now)) from.entry.at (kinds from.entry.left.now)) }
{
    let mut links = list_with_room(alloc, 1)?;
    let mut here = from;
    for _ in 0..from.left.len() {
        let Some((link, behind)) = one_link(alloc, free, group, here)? else {
            return Ok((links, here));
        };
        links.push(link)?;
        here = behind;
    }
    Ok((links, here))
}

/// One more member of a chain, if there is one.
#[cycle(expressions)]
fn one_link(
    alloc: Global,
    free: u32,
    group: u32,
    here: Cursor,
) -> Result<Option<(Link, Cursor)>, ParseFault>
    requires { group ≤ 7 }
    ensures { Gives (λ x. option_map (λ y. (link_of y.0, y.1.at, kinds y.1.left.now)) x) result (reading.link_at (reading.level_on (reading.unary free) group) group here.entry.at (kinds here.entry.left.now)) }
{
    let Some((kind, behind)) = next(here) else {
        return Ok(None);
    };
    match joint_in(kind, group) {
        None => Ok(None),
        Some(Joint::Operator(operator)) => {
            let (right, after) = level(alloc, free, group, behind)?;
            Ok(Some((Link::of_operand(here.at, operator, right), after)))
        }
        Some(Joint::Colon) => {
            let (count, after) = hashes_at(behind)?;
            Ok(Some((Link::of_hashes(here.at, count), after)))
        }
    }
}

/// Unary.
#[cycle(expressions)]
fn unary(alloc: Global, free: u32, here: Cursor) -> Result<(Expr, Cursor), ParseFault>
    ensures { Gives (λ x. (expr_of x.0, x.1.at, kinds x.1.left.now)) result (reading.unary free here.entry.at (kinds here.entry.left.now)) }
{
    member(alloc, free, here)
}

/// Unary, by its first token.
#[cycle(expressions)]
fn member(alloc: Global, free: u32, here: Cursor) -> Result<(Expr, Cursor), ParseFault>
    ensures { Gives (λ x. (expr_of x.0, x.1.at, kinds x.1.left.now)) result (reading.unary_on (reading.base_of free) here.entry.at (kinds here.entry.left.now)) }
{
    let Some((kind, behind)) = next(here) else {
        return Err(ParseFault::UnexpectedEnd);
    };
    match kind {
        TokenKind::Sign(Sign::Minus) => {
            let Some(inside) = below(free) else {
                return Err(ParseFault::TooDeep { at: here.at });
            };
            let (operand, after) = unary(alloc, inside, behind)?;
            Ok((
                Expr::unary(here.at, true, Boxed::new(alloc, operand)?),
                after,
            ))
        }
        TokenKind::Keyword(Keyword::Not) => {
            let Some(inside) = below(free) else {
                return Err(ParseFault::TooDeep { at: here.at });
            };
            let (operand, after) = unary(alloc, inside, behind)?;
            Ok((
                Expr::unary(here.at, false, Boxed::new(alloc, operand)?),
                after,
            ))
        }
        TokenKind::Number(value) => Ok((Expr::number(here.at, *value), behind)),
        TokenKind::Text(text) => Ok((
            Expr::literal(here.at, Bytes::copy(alloc, text.bytes())?),
            behind,
        )),
        TokenKind::Sign(Sign::LeftParen) => {
            let Some(inside) = below(free) else {
                return Err(ParseFault::TooDeep { at: here.at });
            };
            let (inner, after) = expression(alloc, inside, behind)?;
            let (inner, closed) = with_sign(inner, after, Sign::RightParen)?;
            Ok((inner.begun_at(here.at), closed))
        }
        TokenKind::Name(name) => named(
            alloc,
            free,
            here.at,
            Bytes::copy(alloc, name.bytes())?,
            behind,
        ),
        _ => Err(ParseFault::Unexpected { at: here.at }),
    }
}

/// What stands behind a name: arguments, an index or nothing.
#[cycle(expressions)]
fn named(
    alloc: Global,
    free: u32,
    at: u32,
    name: Bytes,
    here: Cursor,
) -> Result<(Expr, Cursor), ParseFault>
    ensures { Gives (λ x. (expr_of x.0, x.1.at, kinds x.1.left.now)) result (reading.suffix (reading.base_of free) at name here.entry.at (kinds here.entry.left.now)) }
{
    let Some((kind, behind)) = next(here) else {
        return Ok((Expr::name(at, name), here));
    };
    match kind {
        TokenKind::Sign(Sign::LeftParen) => call_at(alloc, free, here.at, at, name, behind),
        TokenKind::Sign(Sign::LeftBracket) => {
            let Some(inside) = below(free) else {
                return Err(ParseFault::TooDeep { at: here.at });
            };
            let (index, after) = expression(alloc, inside, behind)?;
            let (index, closed) = with_sign(index, after, Sign::RightBracket)?;
            Ok((Expr::element(at, name, Boxed::new(alloc, index)?), closed))
        }
        _ => Ok((Expr::name(at, name), here)),
    }
}

/// A call, behind its opening parenthesis, which is the token `opens`.
#[cycle(expressions)]
fn call_at(
    alloc: Global,
    free: u32,
    opens: u32,
    at: u32,
    name: Bytes,
    here: Cursor,
) -> Result<(Expr, Cursor), ParseFault>
    ensures { Gives (λ x. (expr_of x.0, x.1.at, kinds x.1.left.now)) result (reading.deeper opens (reading.base_of free) (λ base. reading.called base at name here.entry.at (kinds here.entry.left.now))) }
{
    let Some(inside) = below(free) else {
        return Err(ParseFault::TooDeep { at: opens });
    };
    called(alloc, inside, at, name, here)
}

/// A call, one level further in.
#[cycle(expressions)]
fn called(
    alloc: Global,
    inside: u32,
    at: u32,
    name: Bytes,
    here: Cursor,
) -> Result<(Expr, Cursor), ParseFault>
    ensures { Gives (λ x. (expr_of x.0, x.1.at, kinds x.1.left.now)) result (reading.called (reading.unary inside) at name here.entry.at (kinds here.entry.left.now)) }
{
    let (args, after) = arguments(alloc, inside, here)?;
    let closed = expect_sign(after, Sign::RightParen)?;
    Ok((Expr::call(at, name, args), closed))
}

/// The arguments of a call, between its parentheses.
#[cycle(expressions)]
pub fn arguments(
    alloc: Global,
    free: u32,
    from: Cursor,
) -> Result<(Items<Expr>, Cursor), ParseFault>
    ensures { Gives (λ x. (exprs_of x.0, x.1.at, kinds x.1.left.now)) result (reading.arguments (reading.expression free) from.entry.at (kinds from.entry.left.now)) }
{
    if !begins_expression(from) {
        return Ok((Items::new(alloc), from));
    }
    some_arguments(alloc, free, from)
}

/// Arguments, of which there are some.
#[cycle(expressions)]
fn some_arguments(
    alloc: Global,
    free: u32,
    from: Cursor,
) -> Result<(Items<Expr>, Cursor), ParseFault>
    ensures { Gives (λ x. (map expr_of x.0, x.1.at, kinds x.1.left.now)) result (reading.members (reading.expression free) from.entry.at (kinds from.entry.left.now)) }
{
    let mut args = list_with_room(alloc, 1)?;
    let (first, behind) = expression(alloc, free, from)?;
    args.push(first)?;
    let mut here = behind;
    for _ in 0..behind.left.len() {
        let Some((arg, after)) = argument(alloc, free, here)? else {
            return Ok((args, here));
        };
        args.push(arg)?;
        here = after;
    }
    Ok((args, here))
}

/// One more argument behind a comma, if there is a comma.
#[cycle(expressions)]
fn argument(alloc: Global, free: u32, here: Cursor) -> Result<Option<(Expr, Cursor)>, ParseFault>
    ensures { Gives (λ x. option_map (λ y. (expr_of y.0, y.1.at, kinds y.1.left.now)) x) result (reading.comma_step (reading.expression free) here.entry.at (kinds here.entry.left.now)) }
{
    if !begins_sign(here, Sign::Comma) {
        return Ok(None);
    }
    let behind = expect_sign(here, Sign::Comma)?;
    Ok(Some(expression(alloc, free, behind)?))
}
