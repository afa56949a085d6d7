//! The items of a file.
ghost use Rattle.std.specs.Prelude.{◌≡◌, ◌≤◌, length};
ghost use Rattle.ci_base.specs.declared.bounds.TheConstants.{MOST_LEVELS, MOST_TOKENS};
ghost use Rattle.ci_tree.specs.Seen.{item_of, items_of};
ghost use Rattle.ci_expressions.specs.Gives.{kinds, Gives};
ghost use Rattle.ci_parser.specs.Reading as reading;

use crate::members::{parameters, variables};
use crate::statements::{body, ended};
use ci_base::bounds::MOST_LEVELS;
use ci_expressions::{
    Cursor, ParseFault, begins_name, begins_type, expect_keyword, expect_sign, name_at, next,
    type_at, type_of, with_sign,
};
use ci_tree::{Item, Keyword, Sign, Token, TokenKind, TypeAt, list_with_room};
use sqlite_items::Items;
use std::alloc::Global;

/// The items of a file.
pub(crate) fn items(alloc: Global, tokens: &[Token]) -> Result<Items<Item>, ParseFault>
    requires { length tokens.now ≤ MOST_TOKENS }
    ensures { Gives items_of result (reading.items MOST_LEVELS (length (kinds tokens.now)) 0 (kinds tokens.now)) }
{
    let start = Cursor {
        at: 0,
        left: tokens,
    };
    items_from(alloc, MOST_LEVELS as u32, start)
}

/// The items from this place to the end of the tokens.
fn items_from(alloc: Global, free: u32, from: Cursor) -> Result<Items<Item>, ParseFault>
    ensures { Gives items_of result (reading.items free (length (kinds from.entry.left.now)) from.entry.at (kinds from.entry.left.now)) }
{
    let mut items = Items::new(alloc);
    let mut here = from;
    for _ in 0..from.left.len() {
        let Some(_) = next(here) else {
            return Ok(items);
        };
        let (more, behind) = item(alloc, free, here)?;
        items.append(more)?;
        here = behind;
    }
    match next(here) {
        None => Ok(items),
        Some(_) => Err(ParseFault::Unexpected { at: here.at }),
    }
}

/// An item, which declares a function, some variables or nothing.
fn item(alloc: Global, free: u32, here: Cursor) -> Result<(Items<Item>, Cursor), ParseFault>
    ensures { Gives (λ x. (items_of x.0, x.1.at, kinds x.1.left.now)) result (reading.item free here.entry.at (kinds here.entry.left.now)) }
{
    let Some((kind, behind)) = next(here) else {
        return Err(ParseFault::UnexpectedEnd);
    };
    match type_of(kind) {
        Some(name) => typed(alloc, free, TypeAt { at: here.at, name }, behind),
        None => plain_item(alloc, free, here),
    }
}

/// An item that begins with no type's word.
fn plain_item(alloc: Global, free: u32, here: Cursor) -> Result<(Items<Item>, Cursor), ParseFault>
    ensures { Gives (λ x. (items_of x.0, x.1.at, kinds x.1.left.now)) result (reading.plain_item free here.entry.at (kinds here.entry.left.now)) }
{
    let Some((kind, behind)) = next(here) else {
        return Err(ParseFault::UnexpectedEnd);
    };
    match kind {
        TokenKind::Sign(Sign::Semicolon) => Ok((Items::new(alloc), behind)),
        TokenKind::Keyword(Keyword::Private) => seen(alloc, free, true, behind),
        TokenKind::Keyword(Keyword::Public) => seen(alloc, free, false, behind),
        TokenKind::Keyword(Keyword::Global) => scoped(alloc, true, behind),
        TokenKind::Keyword(Keyword::Module) => scoped(alloc, false, behind),
        _ => function(alloc, free, false, None, here),
    }
}

/// A function or variables, behind their type.
fn typed(
    alloc: Global,
    free: u32,
    kind: TypeAt,
    here: Cursor,
) -> Result<(Items<Item>, Cursor), ParseFault>
    ensures { Gives (λ x. (items_of x.0, x.1.at, kinds x.1.left.now)) result (reading.typed free kind here.entry.at (kinds here.entry.left.now)) }
{
    if begins_name(here) {
        variables(alloc, false, kind, here)
    } else {
        function(alloc, free, false, Some(kind), here)
    }
}

/// A function, behind `PRIVATE` or `PUBLIC`.
fn seen(
    alloc: Global,
    free: u32,
    private: bool,
    here: Cursor,
) -> Result<(Items<Item>, Cursor), ParseFault>
    ensures { Gives (λ x. (items_of x.0, x.1.at, kinds x.1.left.now)) result (reading.seen free private here.entry.at (kinds here.entry.left.now)) }
{
    if !begins_type(here) {
        return function(alloc, free, private, None, here);
    }
    let (name, behind) = type_at(here)?;
    let gives = Some(TypeAt { at: here.at, name });
    function(alloc, free, private, gives, behind)
}

/// Variables, behind `GLOBAL` or `MODULE`.
fn scoped(alloc: Global, global: bool, here: Cursor) -> Result<(Items<Item>, Cursor), ParseFault>
    ensures { Gives (λ x. (items_of x.0, x.1.at, kinds x.1.left.now)) result (reading.scoped global here.entry.at (kinds here.entry.left.now)) }
{
    let (name, behind) = type_at(here)?;
    variables(alloc, global, TypeAt { at: here.at, name }, behind)
}

/// A function, as the only item of a list.
fn function(
    alloc: Global,
    free: u32,
    private: bool,
    gives: Option<TypeAt>,
    here: Cursor,
) -> Result<(Items<Item>, Cursor), ParseFault>
    ensures { Gives (λ x. (items_of x.0, x.1.at, kinds x.1.left.now)) result (reading.one_item (reading.function free private gives here.entry.at (kinds here.entry.left.now))) }
{
    let behind = expect_keyword(here, Keyword::Function)?;
    let mut items = list_with_room(alloc, 1)?;
    let (item, after) = function_end(alloc, free, private, gives, behind)?;
    items.push(item)?;
    Ok((items, after))
}

/// A function, behind `FUNCTION`.
fn function_end(
    alloc: Global,
    free: u32,
    private: bool,
    gives: Option<TypeAt>,
    here: Cursor,
) -> Result<(Item, Cursor), ParseFault>
    ensures { Gives (λ x. (item_of x.0, x.1.at, kinds x.1.left.now)) result (reading.function_end free private gives here.entry.at (kinds here.entry.left.now)) }
{
    let (name, named) = name_at(alloc, here)?;
    let (name, opened) = with_sign(name, named, Sign::LeftParen)?;
    let (params, behind) = parameters(alloc, opened)?;
    let closed = expect_sign(behind, Sign::RightParen)?;
    let (body, after) = body(alloc, free, closed)?;
    let (body, end) = ended(body, after)?;
    Ok((
        Item::Function {
            at: here.at,
            name,
            private,
            gives,
            params,
            body,
        },
        end,
    ))
}
