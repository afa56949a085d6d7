//! The locals of declarations and the labels of SELECT.
ghost use Rattle.std.specs.Prelude.{◌≡◌, option_map};
ghost use Rattle.ci_tree.specs.Seen.{expr_of, local_of, label_of};
ghost use Rattle.ci_expressions.specs.Gives.{kinds, Gives};
ghost use Rattle.ci_parser.specs.Reading as reading;

use ci_base::Bytes;
use ci_expressions::{
    Cursor, ParseFault, begins_keyword, begins_range_end, begins_sign, begins_value,
    expect_keyword, expect_sign, expression, name_at, relation_at, with_keyword,
};
use ci_tree::{Expr, Keyword, Label, LocalAt, Sign};
use std::alloc::Global;

/// A local of a declaration.
pub fn local(alloc: Global, free: u32, here: Cursor) -> Result<(LocalAt, Cursor), ParseFault>
    ensures { Gives (λ x. (local_of x.0, x.1.at, kinds x.1.left.now)) result (reading.local (reading.expression free) here.entry.at (kinds here.entry.left.now)) }
{
    let (name, behind) = name_at(alloc, here)?;
    local_end(alloc, free, here.at, name, behind)
}

/// The value of a local, if it has one.
fn local_end(
    alloc: Global,
    free: u32,
    at: u32,
    name: Bytes,
    here: Cursor,
) -> Result<(LocalAt, Cursor), ParseFault>
    ensures { Gives (λ x. (local_of x.0, x.1.at, kinds x.1.left.now)) result (reading.local_end (reading.expression free) at name here.entry.at (kinds here.entry.left.now)) }
{
    if !begins_value(here) {
        return Ok((
            LocalAt {
                at,
                name,
                value: None,
            },
            here,
        ));
    }
    let behind = expect_sign(here, Sign::Equal)?;
    let (value, after) = expression(alloc, free, behind)?;
    Ok((
        LocalAt {
            at,
            name,
            value: Some(value),
        },
        after,
    ))
}

/// One more local behind a comma, if there is a comma.
pub fn other_local(
    alloc: Global,
    free: u32,
    here: Cursor,
) -> Result<Option<(LocalAt, Cursor)>, ParseFault>
    ensures { Gives (λ x. option_map (λ y. (local_of y.0, y.1.at, kinds y.1.left.now)) x) result (reading.comma_step (reading.local (reading.expression free)) here.entry.at (kinds here.entry.left.now)) }
{
    if !begins_sign(here, Sign::Comma) {
        return Ok(None);
    }
    let behind = expect_sign(here, Sign::Comma)?;
    Ok(Some(local(alloc, free, behind)?))
}

/// A label.
pub fn label(alloc: Global, free: u32, here: Cursor) -> Result<(Label, Cursor), ParseFault>
    ensures { Gives (λ x. (label_of x.0, x.1.at, kinds x.1.left.now)) result (reading.label (reading.expression free) here.entry.at (kinds here.entry.left.now)) }
{
    if begins_keyword(here, Keyword::Is) {
        let behind = expect_keyword(here, Keyword::Is)?;
        let (relation, after) = relation_at(behind)?;
        let (value, after) = expression(alloc, free, after)?;
        return Ok((
            Label::Is {
                at: here.at,
                relation,
                value,
            },
            after,
        ));
    }
    let (low, behind) = expression(alloc, free, here)?;
    label_end(alloc, free, low, behind)
}

/// The end of a range behind its low value, if it is a range.
fn label_end(
    alloc: Global,
    free: u32,
    low: Expr,
    here: Cursor,
) -> Result<(Label, Cursor), ParseFault>
    ensures { Gives (λ x. (label_of x.0, x.1.at, kinds x.1.left.now)) result (reading.label_end (reading.expression free) (expr_of low) here.entry.at (kinds here.entry.left.now)) }
{
    if !begins_range_end(here) {
        return Ok((Label::One { value: low }, here));
    }
    let (low, behind) = with_keyword(low, here, Keyword::To)?;
    match expression(alloc, free, behind) {
        Ok((high, after)) => Ok((Label::Range { low, high }, after)),
        Err(fault) => {
            drop(low);
            Err(fault)
        }
    }
}

/// One more label behind a comma, if there is a comma.
pub fn other_label(
    alloc: Global,
    free: u32,
    here: Cursor,
) -> Result<Option<(Label, Cursor)>, ParseFault>
    ensures { Gives (λ x. option_map (λ y. (label_of y.0, y.1.at, kinds y.1.left.now)) x) result (reading.comma_step (reading.label (reading.expression free)) here.entry.at (kinds here.entry.left.now)) }
{
    if !begins_sign(here, Sign::Comma) {
        return Ok(None);
    }
    let behind = expect_sign(here, Sign::Comma)?;
    Ok(Some(label(alloc, free, behind)?))
}
