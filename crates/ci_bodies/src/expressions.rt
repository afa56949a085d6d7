//! Expressions: one walk gives the expression with its names replaced, its kind, and its first fault.
ghost use Rattle.std.specs.Prelude.{◌≡◌, ◌++◌, if◌then◌else◌, map, IfOk, OnOk};
ghost use Rattle.ci_base.specs.declared.value.Kind.TheVariants.{Int};
ghost use Rattle.ci_tree.specs.Tree as tree;
ghost use Rattle.ci_tree.specs.Seen.{expr_of, link_of, exprs_of, links_of};
ghost use Rattle.ci_tree.specs.Operators.{has_kind, joins, joined};
ghost use Rattle.ci_names.specs.Scopes.{meaning};
ghost use Rattle.ci_names.specs.Given.{to_be_set};
ghost use Rattle.ci_names.specs.Kinds.{kind_of, links_kind};
ghost use Rattle.ci_names.specs.Expressions.{operation, expr_faults, links_faults, args_faults};
ghost use Rattle.ci_names.specs.Statements.{part_faults};
ghost use Rattle.ci_names.specs.Binding.{array_of};
ghost use Rattle.ci_scopes.specs.Seen.{scope_of, taken_of};
ghost use Rattle.ci_bodies.specs.Arguments as args;
ghost use Rattle.ci_bodies.specs.Links.{link_kind, link_faults};
ghost use Rattle.ci_bodies.specs.Parts.{Notes, IsBoundExpr, HasKind, NotesExpr, IsBoundWhat, WhatHasKind, NotesWhat, IsBoundLink, AreBoundLinks, AreBoundArgs, FitsTaken, FitTaken, NotesArgument};

use crate::calls::{
    callee_of, gives_of, is_count, is_name_alone, note_call, note_value, start_of, takes_of,
};
use crate::faults::{note_also, note_if};
use crate::kinds::{clash, differs, formed, has_kind, joined, joins};
use crate::names::{array_of, element_kind, note_indexed, note_plain, plain_kind, scalar_of};
use crate::que_read::called_with;
use ci_base::{Bytes, Kind, OutOfMemory};
use ci_names::{BindKind, Fault};
use ci_scopes::{Scope, Taken, boxed, push};
use ci_tree::{Expr, ExprKind, Link, Operator, bound, list_with_room};
use sqlite_items::Items;
use std::alloc::Global;

/// An expression with its names replaced, and its kind, if it has one.
#[cycle(expressions)]
pub fn expression(
    alloc: Global,
    scope: &Scope,
    found: &mut Option<Fault>,
    e: &Expr,
) -> Result<(bound::Expr, Option<Kind>), OutOfMemory>
    ensures tree { IfOk result (λ x. IsBoundExpr (scope_of scope.now) (expr_of e.now) x.0) }
    ensures kind { IfOk result (λ x. HasKind (scope_of scope.now) (expr_of e.now) x.1) }
    ensures found { OnOk result (NotesExpr (scope_of scope.now) (expr_of e.now) found.old found.new) }
{
    match &e.what {
        ExprKind::Number { value } => Ok((bound::Expr::number(*value), Some(Kind::Int))),
        ExprKind::Literal { text } => {
            let copy = Bytes::copy(alloc, text.bytes())?;
            Ok((bound::Expr::literal(copy), Some(Kind::Str)))
        }
        ExprKind::Name { name } => Ok(plain(scope, found, e.at, name)),
        ExprKind::Element { name, index } => {
            element(alloc, scope, found, e.at, name, index.get())
        }
        ExprKind::CallOf { name, args } => {
            call_value(alloc, scope, found, e.at, name, args.as_slice())
        }
        ExprKind::Unary { minus, operand } => {
            unary(alloc, scope, found, e.at, *minus, operand.get())
        }
        ExprKind::Chain { first, rest } => {
            let (first, left) = expression(alloc, scope, found, first.get())?;
            let (links, kind) = links(alloc, scope, found, left, rest.as_slice())?;
            Ok((bound::Expr::chain(boxed(alloc, first)?, links), kind))
        }
    }
}

/// A name that stands alone.
fn plain(
    scope: &Scope,
    found: &mut Option<Fault>,
    at: u32,
    name: &Bytes,
) -> (bound::Expr, Option<Kind>)
    ensures tree { IsBoundWhat (scope_of scope.now) (tree.name name.now) result.0 }
    ensures kind { WhatHasKind (scope_of scope.now) (tree.name name.now) result.1 }
    ensures found { NotesWhat (scope_of scope.now) at (tree.name name.now) found.old found.new }
{
    let meaning = scope.meaning(name);
    note_plain(found, scope, at, meaning);
    (bound::Expr::scalar(scalar_of(meaning)), plain_kind(meaning))
}

/// A name with an index.
#[cycle(expressions)]
fn element(
    alloc: Global,
    scope: &Scope,
    found: &mut Option<Fault>,
    at: u32,
    name: &Bytes,
    index: &Expr,
) -> Result<(bound::Expr, Option<Kind>), OutOfMemory>
    ensures tree { IfOk result (λ x. IsBoundWhat (scope_of scope.now) (tree.element name.now (expr_of index.now)) x.0) }
    ensures kind { IfOk result (λ x. WhatHasKind (scope_of scope.now) (tree.element name.now (expr_of index.now)) x.1) }
    ensures found { OnOk result (NotesWhat (scope_of scope.now) at (tree.element name.now (expr_of index.now)) found.old found.new) }
{
    let (array, index, kind) = indexed(alloc, scope, found, at, name, index)?;
    Ok((bound::Expr::element(array, boxed(alloc, index)?), kind))
}

/// The array, the index and the kind of a name with an index.
#[cycle(expressions)]
pub fn indexed(
    alloc: Global,
    scope: &Scope,
    found: &mut Option<Fault>,
    at: u32,
    name: &Bytes,
    index: &Expr,
) -> Result<(usize, bound::Expr, Option<Kind>), OutOfMemory>
    ensures array { IfOk result (λ x. x.0 ≡ array_of (meaning (scope_of scope.now) name.now)) }
    ensures index { IfOk result (λ x. IsBoundExpr (scope_of scope.now) (expr_of index.now) x.1) }
    ensures kind { IfOk result (λ x. WhatHasKind (scope_of scope.now) (tree.element name.now (expr_of index.now)) x.2) }
    ensures found { OnOk result (NotesWhat (scope_of scope.now) at (tree.element name.now (expr_of index.now)) found.old found.new) }
{
    let meaning = scope.meaning(name);
    note_indexed(found, scope, at, meaning);
    let (bound, is_number) = part(alloc, scope, found, Kind::Int, index)?;
    let kind = if is_number {
        element_kind(meaning)
    } else {
        None
    };
    Ok((array_of(meaning), bound, kind))
}

/// An expression that is to have this kind, and whether it has.
#[cycle(expressions)]
pub fn part(
    alloc: Global,
    scope: &Scope,
    found: &mut Option<Fault>,
    kind: Kind,
    e: &Expr,
) -> Result<(bound::Expr, bool), OutOfMemory>
    ensures tree { IfOk result (λ x. IsBoundExpr (scope_of scope.now) (expr_of e.now) x.0) }
    ensures fits { IfOk result (λ x. x.1 ≡ has_kind kind (kind_of (scope_of scope.now) (expr_of e.now))) }
    ensures found { OnOk result (Notes (part_faults (scope_of scope.now) kind (expr_of e.now)) found.old found.new) }
{
    let mut inside = None;
    let (bound, given) = expression(alloc, scope, &mut inside, e)?;
    note_if(
        found,
        differs(kind, given),
        scope,
        start_of(e),
        BindKind::KindsDiffer,
    );
    note_also(found, inside);
    Ok((bound, has_kind(kind, given)))
}

/// An operand behind `-` or NOT.
#[cycle(expressions)]
fn unary(
    alloc: Global,
    scope: &Scope,
    found: &mut Option<Fault>,
    at: u32,
    minus: bool,
    operand: &Expr,
) -> Result<(bound::Expr, Option<Kind>), OutOfMemory>
    ensures tree { IfOk result (λ x. IsBoundWhat (scope_of scope.now) (tree.unary minus (expr_of operand.now)) x.0) }
    ensures kind { IfOk result (λ x. WhatHasKind (scope_of scope.now) (tree.unary minus (expr_of operand.now)) x.1) }
    ensures found { OnOk result (NotesWhat (scope_of scope.now) at (tree.unary minus (expr_of operand.now)) found.old found.new) }
{
    let mut inside = None;
    let (bound, given) = expression(alloc, scope, &mut inside, operand)?;
    note_if(
        found,
        differs(Kind::Int, given),
        scope,
        at,
        BindKind::KindsDiffer,
    );
    note_also(found, inside);
    Ok((
        bound::Expr::unary(minus, boxed(alloc, bound)?),
        number_of(given),
    ))
}

/// INT, where the part has that kind.
fn number_of(given: Option<Kind>) -> Option<Kind>
    ensures { result ≡ (if has_kind Int given then Some Int else None) }
{
    if has_kind(Kind::Int, given) {
        Some(Kind::Int)
    } else {
        None
    }
}

/// The members of a chain behind the first, where the members before them have this kind; and the kind of all.
#[cycle(expressions)]
fn links(
    alloc: Global,
    scope: &Scope,
    found: &mut Option<Fault>,
    left: Option<Kind>,
    rest: &[Link],
) -> Result<(Items<bound::Link>, Option<Kind>), OutOfMemory>
    ensures tree { IfOk result (λ x. AreBoundLinks (scope_of scope.now) (links_of rest.now) x.0) }
    ensures kind { IfOk result (λ x. x.1 ≡ links_kind (scope_of scope.now) left (links_of rest.now)) }
    ensures found { OnOk result (Notes (links_faults (scope_of scope.now) left (links_of rest.now)) found.old found.new) }
{
    let mut links = list_with_room(alloc, rest.len())?;
    let mut kind = left;
    for member in rest {
        let (one, behind) = link(alloc, scope, found, kind, member)?;
        push(&mut links, one)?;
        kind = behind;
    }
    Ok((links, kind))
}

/// A member of a chain, where the members before it have this kind; and the kind behind it.
#[cycle(expressions)]
fn link(
    alloc: Global,
    scope: &Scope,
    found: &mut Option<Fault>,
    left: Option<Kind>,
    member: &Link,
) -> Result<(bound::Link, Option<Kind>), OutOfMemory>
    ensures tree { IfOk result (λ x. IsBoundLink (scope_of scope.now) (link_of member.now) x.0) }
    ensures kind { IfOk result (λ x. x.1 ≡ link_kind (scope_of scope.now) left (link_of member.now)) }
    ensures found { OnOk result (Notes (link_faults (scope_of scope.now) left (link_of member.now)) found.old found.new) }
{
    match member {
        Link::Hashes { at, count } => {
            note_if(
                found,
                differs(Kind::Int, left),
                scope,
                *at,
                BindKind::KindsDiffer,
            );
            Ok((bound::Link::of_hashes(*count), formed(left)))
        }
        Link::Operand {
            at,
            operator,
            operand,
        } => {
            let (bound, kind) = right(alloc, scope, found, left, *at, *operator, operand)?;
            Ok((bound::Link::of_operand(*operator, bound), kind))
        }
    }
}

/// The right operand of the operator at this token, where the left one has this kind; and the kind of both together.
#[cycle(expressions)]
fn right(
    alloc: Global,
    scope: &Scope,
    found: &mut Option<Fault>,
    left: Option<Kind>,
    at: u32,
    operator: Operator,
    operand: &Expr,
) -> Result<(bound::Expr, Option<Kind>), OutOfMemory>
    ensures tree { IfOk result (λ x. IsBoundExpr (scope_of scope.now) (expr_of operand.now) x.0) }
    ensures kind { IfOk result (λ x. x.1 ≡ joined (joins operator) left (kind_of (scope_of scope.now) (expr_of operand.now))) }
    ensures found { OnOk result (Notes (operation (scope_of scope.now) at operator left (kind_of (scope_of scope.now) (expr_of operand.now))
        ++ expr_faults (scope_of scope.now) (expr_of operand.now)) found.old found.new) }
{
    let mut inside = None;
    let (bound, right) = expression(alloc, scope, &mut inside, operand)?;
    let joins = joins(operator);
    note_if(
        found,
        clash(joins, left, right),
        scope,
        at,
        BindKind::KindsDiffer,
    );
    note_also(found, inside);
    Ok((bound, joined(joins, left, right)))
}

/// A call that is used for its value.
#[cycle(expressions)]
fn call_value(
    alloc: Global,
    scope: &Scope,
    found: &mut Option<Fault>,
    at: u32,
    name: &Bytes,
    args: &[Expr],
) -> Result<(bound::Expr, Option<Kind>), OutOfMemory>
    ensures tree { IfOk result (λ x. IsBoundWhat (scope_of scope.now) (tree.call name.now (exprs_of args.now)) x.0) }
    ensures kind { IfOk result (λ x. WhatHasKind (scope_of scope.now) (tree.call name.now (exprs_of args.now)) x.1) }
    ensures found { OnOk result (NotesWhat (scope_of scope.now) at (tree.call name.now (exprs_of args.now)) found.old found.new) }
{
    let called = scope.callee(name);
    note_value(found, scope, at, called);
    note_call(found, scope, at, name, called, args);
    let (bound, fit) = arguments(alloc, scope, found, takes_of(called), args)?;
    let kind = if is_count(takes_of(called), args) && fit {
        gives_of(called)
    } else {
        None
    };
    let call = called_with(alloc, callee_of(called), bound)?;
    Ok((bound::Expr::called(call), kind))
}

/// The arguments of a call that stand in the source; and whether each can stand where it stands.
#[cycle(expressions)]
pub fn arguments(
    alloc: Global,
    scope: &Scope,
    found: &mut Option<Fault>,
    takes: &[Taken],
    args: &[Expr],
) -> Result<(Items<bound::Expr>, bool), OutOfMemory>
    ensures tree { IfOk result (λ x. AreBoundArgs (scope_of scope.now) (exprs_of args.now) x.0) }
    ensures fit { IfOk result (λ x. FitTaken (scope_of scope.now) (map taken_of takes.now) (exprs_of args.now) x.1) }
    ensures found { OnOk result (Notes (args_faults (scope_of scope.now) (map taken_of takes.now) (exprs_of args.now)) found.old found.new) }
{
    let mut bound = list_with_room(alloc, args.len())?;
    let mut left = takes;
    let mut fit = true;
    for arg in args {
        let (one, fits) = argument(alloc, scope, found, left, arg)?;
        push(&mut bound, one)?;
        fit = fit && fits;
        left = behind(left);
    }
    Ok((bound, fit))
}

/// What is taken behind the next argument.
fn behind(takes: &[Taken]) -> &[Taken]
    ensures { map taken_of result.now ≡ args.behind (map taken_of takes.now) }
{
    match takes {
        [] => takes,
        [_, rest @ ..] => rest,
    }
}

/// An argument where these are taken from there on, and whether it can stand there.
#[cycle(expressions)]
fn argument(
    alloc: Global,
    scope: &Scope,
    found: &mut Option<Fault>,
    takes: &[Taken],
    arg: &Expr,
) -> Result<(bound::Expr, bool), OutOfMemory>
    ensures tree { IfOk result (λ x. IsBoundExpr (scope_of scope.now) (expr_of arg.now) x.0) }
    ensures fits { IfOk result (λ x. x.1 ≡ args.fits (map taken_of takes.now) (expr_of arg.now) (kind_of (scope_of scope.now) (expr_of arg.now))) }
    ensures found { OnOk result (Notes (args.arg_faults (scope_of scope.now) (map taken_of takes.now) (expr_of arg.now)) found.old found.new) }
{
    match takes {
        [] => {
            let (bound, _) = expression(alloc, scope, found, arg)?;
            Ok((bound, false))
        }
        [taken, ..] => taken_argument(alloc, scope, found, taken, arg),
    }
}

/// An argument where this is taken, and whether it can stand there.
#[cycle(expressions)]
fn taken_argument(
    alloc: Global,
    scope: &Scope,
    found: &mut Option<Fault>,
    taken: &Taken,
    arg: &Expr,
) -> Result<(bound::Expr, bool), OutOfMemory>
    ensures tree { IfOk result (λ x. IsBoundExpr (scope_of scope.now) (expr_of arg.now) x.0) }
    ensures fits { IfOk result (λ x. FitsTaken (scope_of scope.now) (taken_of taken.now) (expr_of arg.now) x.1) }
    ensures found { OnOk result (NotesArgument (scope_of scope.now) (taken_of taken.now) (expr_of arg.now) found.old found.new) }
{
    match taken {
        Taken::ByValue { kind } => part(alloc, scope, found, *kind, arg),
        Taken::WithDefault { kind, .. } => part(alloc, scope, found, *kind, arg),
        Taken::ToBeSet { kind } => set_argument(alloc, scope, found, *kind, arg),
    }
}

/// An argument that is set, and whether it can be: it is the name of a scalar of this kind.
#[cycle(expressions)]
fn set_argument(
    alloc: Global,
    scope: &Scope,
    found: &mut Option<Fault>,
    kind: Kind,
    arg: &Expr,
) -> Result<(bound::Expr, bool), OutOfMemory>
    ensures tree { IfOk result (λ x. IsBoundExpr (scope_of scope.now) (expr_of arg.now) x.0) }
    ensures fits { IfOk result (λ x. FitsTaken (scope_of scope.now) (to_be_set kind) (expr_of arg.now) x.1) }
    ensures found { OnOk result (NotesArgument (scope_of scope.now) (to_be_set kind) (expr_of arg.now) found.old found.new) }
{
    if is_name_alone(arg) {
        return part(alloc, scope, found, kind, arg);
    }
    note_if(
        found,
        true,
        scope,
        start_of(arg),
        BindKind::NotAVariableArgument,
    );
    let (bound, _) = expression(alloc, scope, found, arg)?;
    Ok((bound, false))
}
