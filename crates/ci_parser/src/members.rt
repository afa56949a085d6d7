//! Lists of members with commas between them: locals, labels, parameters and variables.
ghost use Rattle.std.specs.Prelude.{◌≡◌, map};
ghost use Rattle.ci_tree.specs.Seen.{expr_of, local_of, label_of, item_of, items_of};
ghost use Rattle.ci_expressions.specs.Gives.{kinds, Gives};
ghost use Rattle.ci_parser.specs.Reading as reading;

use crate::labels::{label, local, other_label, other_local};
use crate::variables::{other_parameter, other_variable, parameter, variable};
use ci_expressions::{Cursor, ParseFault, begins_type, expect_sign};
use ci_tree::{Item, Label, LocalAt, Param, Sign, TypeAt, list_with_room};
use sqlite_items::Items;
use std::alloc::Global;

/// The locals of a declaration.
pub fn locals(
    alloc: Global,
    free: u32,
    from: Cursor,
) -> Result<(Items<LocalAt>, Cursor), ParseFault>
    ensures { Gives (λ x. (map local_of x.0, x.1.at, kinds x.1.left.now)) result (reading.members (reading.local (reading.expression free)) from.entry.at (kinds from.entry.left.now)) }
{
    let mut locals = list_with_room(alloc, 1)?;
    let (first, behind) = local(alloc, free, from)?;
    locals.push(first)?;
    let mut here = behind;
    for _ in 0..behind.left.len() {
        let Some((other, after)) = other_local(alloc, free, here)? else {
            return Ok((locals, here));
        };
        locals.push(other)?;
        here = after;
    }
    Ok((locals, here))
}

/// The labels of a clause.
pub fn labels(alloc: Global, free: u32, from: Cursor) -> Result<(Items<Label>, Cursor), ParseFault>
    ensures { Gives (λ x. (map label_of x.0, x.1.at, kinds x.1.left.now)) result (reading.members (reading.label (reading.expression free)) from.entry.at (kinds from.entry.left.now)) }
{
    let mut labels = list_with_room(alloc, 1)?;
    let (first, behind) = label(alloc, free, from)?;
    labels.push(first)?;
    let mut here = behind;
    for _ in 0..behind.left.len() {
        let Some((other, after)) = other_label(alloc, free, here)? else {
            return Ok((labels, here));
        };
        labels.push(other)?;
        here = after;
    }
    Ok((labels, here))
}

/// The parameters of a function, between its parentheses: none or more.
pub fn parameters(alloc: Global, from: Cursor) -> Result<(Items<Param>, Cursor), ParseFault>
    ensures { Gives (λ x. (x.0, x.1.at, kinds x.1.left.now)) result (reading.parameters from.entry.at (kinds from.entry.left.now)) }
{
    if !begins_type(from) {
        return Ok((Items::new(alloc), from));
    }
    some_parameters(alloc, from)
}

/// Parameters, of which there are some.
fn some_parameters(alloc: Global, from: Cursor) -> Result<(Items<Param>, Cursor), ParseFault>
    ensures { Gives (λ x. (x.0, x.1.at, kinds x.1.left.now)) result (reading.members reading.parameter from.entry.at (kinds from.entry.left.now)) }
{
    let mut params = list_with_room(alloc, 1)?;
    let (first, behind) = parameter(alloc, from)?;
    params.push(first)?;
    let mut here = behind;
    for _ in 0..behind.left.len() {
        let Some((other, after)) = other_parameter(alloc, here)? else {
            return Ok((params, here));
        };
        params.push(other)?;
        here = after;
    }
    Ok((params, here))
}

/// The variables of a declaration, with the `;` behind them.
pub fn variables(
    alloc: Global,
    global: bool,
    kind: TypeAt,
    from: Cursor,
) -> Result<(Items<Item>, Cursor), ParseFault>
    ensures { Gives (λ x. (items_of x.0, x.1.at, kinds x.1.left.now)) result (reading.variables global kind from.entry.at (kinds from.entry.left.now)) }
{
    let (variables, behind) = some_variables(alloc, global, kind, from)?;
    let after = expect_sign(behind, Sign::Semicolon)?;
    Ok((variables, after))
}

/// The variables of a declaration.
fn some_variables(
    alloc: Global,
    global: bool,
    kind: TypeAt,
    from: Cursor,
) -> Result<(Items<Item>, Cursor), ParseFault>
    ensures { Gives (λ x. (items_of x.0, x.1.at, kinds x.1.left.now)) result (reading.members (reading.var global kind) from.entry.at (kinds from.entry.left.now)) }
{
    let mut variables = list_with_room(alloc, 1)?;
    let (first, behind) = variable(alloc, global, kind, from)?;
    variables.push(first)?;
    let mut here = behind;
    for _ in 0..behind.left.len() {
        let Some((other, after)) = other_variable(alloc, global, kind, here)? else {
            return Ok((variables, here));
        };
        variables.push(other)?;
        here = after;
    }
    Ok((variables, here))
}
