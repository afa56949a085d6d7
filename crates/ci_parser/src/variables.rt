//! First values, variables and parameters.
ghost use Rattle.std.specs.Prelude.{◌≡◌, option_map};
ghost use Rattle.ci_tree.specs.Seen.{item_of};
ghost use Rattle.ci_expressions.specs.Gives.{kinds, Gives};
ghost use Rattle.ci_parser.specs.Reading as reading;

use ci_base::Bytes;
use ci_expressions::{
    Cursor, ParseFault, begins_sign, begins_value, expect_sign, name_at, next, number_at, type_at,
};
use ci_tree::{Const, Item, Length, Param, Sign, TokenKind, TypeAt};
use std::alloc::Global;

/// A first value.
fn constant(alloc: Global, here: Cursor) -> Result<(Const, Cursor), ParseFault>
    ensures { Gives (λ x. (x.0, x.1.at, kinds x.1.left.now)) result (reading.const here.entry.at (kinds here.entry.left.now)) }
{
    let Some((kind, behind)) = next(here) else {
        return Err(ParseFault::UnexpectedEnd);
    };
    match kind {
        TokenKind::Number(value) => Ok((
            Const::Number {
                at: here.at,
                value: *value,
            },
            behind,
        )),
        TokenKind::Text(text) => Ok((
            Const::Literal {
                at: here.at,
                text: Bytes::copy(alloc, text.bytes())?,
            },
            behind,
        )),
        TokenKind::Sign(Sign::Minus) => {
            let (value, after) = number_at(behind)?;
            Ok((
                Const::Number {
                    at: here.at,
                    value: value.wrapping_neg(),
                },
                after,
            ))
        }
        _ => Err(ParseFault::Unexpected { at: here.at }),
    }
}

/// `=` and a first value, if there is one.
fn first_value(alloc: Global, here: Cursor) -> Result<(Option<Const>, Cursor), ParseFault>
    ensures { Gives (λ x. (x.0, x.1.at, kinds x.1.left.now)) result (reading.first_value here.entry.at (kinds here.entry.left.now)) }
{
    if !begins_value(here) {
        return Ok((None, here));
    }
    let behind = expect_sign(here, Sign::Equal)?;
    let (value, after) = constant(alloc, behind)?;
    Ok((Some(value), after))
}

/// A variable of this scope and type.
pub fn variable(
    alloc: Global,
    global: bool,
    kind: TypeAt,
    here: Cursor,
) -> Result<(Item, Cursor), ParseFault>
    ensures { Gives (λ x. (item_of x.0, x.1.at, kinds x.1.left.now)) result (reading.var global kind here.entry.at (kinds here.entry.left.now)) }
{
    let (name, behind) = name_at(alloc, here)?;
    variable_end(alloc, global, kind, here.at, name, behind)
}

/// One more variable behind a comma, if there is a comma.
pub fn other_variable(
    alloc: Global,
    global: bool,
    kind: TypeAt,
    here: Cursor,
) -> Result<Option<(Item, Cursor)>, ParseFault>
    ensures { Gives (λ x. option_map (λ y. (item_of y.0, y.1.at, kinds y.1.left.now)) x) result (reading.comma_step (reading.var global kind) here.entry.at (kinds here.entry.left.now)) }
{
    if !begins_sign(here, Sign::Comma) {
        return Ok(None);
    }
    let behind = expect_sign(here, Sign::Comma)?;
    Ok(Some(variable(alloc, global, kind, behind)?))
}

/// The length or the first value of a variable, if it has one.
fn variable_end(
    alloc: Global,
    global: bool,
    kind: TypeAt,
    at: u32,
    name: Bytes,
    here: Cursor,
) -> Result<(Item, Cursor), ParseFault>
    ensures { Gives (λ x. (item_of x.0, x.1.at, kinds x.1.left.now)) result (reading.var_end global kind at name here.entry.at (kinds here.entry.left.now)) }
{
    if begins_sign(here, Sign::LeftBracket) {
        let inside = expect_sign(here, Sign::LeftBracket)?;
        let (value, after) = number_at(inside)?;
        let closed = expect_sign(after, Sign::RightBracket)?;
        return Ok((
            Item::Variable {
                at,
                name,
                global,
                kind,
                length: Some(Length {
                    at: inside.at,
                    value,
                }),
                first: None,
            },
            closed,
        ));
    }
    let (first, after) = first_value(alloc, here)?;
    Ok((
        Item::Variable {
            at,
            name,
            global,
            kind,
            length: None,
            first,
        },
        after,
    ))
}

/// A parameter.
pub fn parameter(alloc: Global, here: Cursor) -> Result<(Param, Cursor), ParseFault>
    ensures { Gives (λ x. (x.0, x.1.at, kinds x.1.left.now)) result (reading.parameter here.entry.at (kinds here.entry.left.now)) }
{
    let (kind, behind) = type_at(here)?;
    let (name, after) = name_at(alloc, behind)?;
    let (first, after) = first_value(alloc, after)?;
    Ok((
        Param {
            at: behind.at,
            name,
            kind: TypeAt {
                at: here.at,
                name: kind,
            },
            first,
        },
        after,
    ))
}

/// One more parameter behind a comma, if there is a comma.
pub fn other_parameter(alloc: Global, here: Cursor) -> Result<Option<(Param, Cursor)>, ParseFault>
    ensures { Gives (λ x. option_map (λ y. (y.0, y.1.at, kinds y.1.left.now)) x) result (reading.comma_step reading.parameter here.entry.at (kinds here.entry.left.now)) }
{
    if !begins_sign(here, Sign::Comma) {
        return Ok(None);
    }
    let behind = expect_sign(here, Sign::Comma)?;
    Ok(Some(parameter(alloc, behind)?))
}
