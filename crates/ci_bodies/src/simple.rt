//! Assignments, calls and RETURN.
ghost use Rattle.std.specs.Prelude.{◌≡◌, ◌++◌, None, Some, option_map, IfOk, OnOk};
ghost use Rattle.ci_tree.specs.Tree as tree;
ghost use Rattle.ci_tree.specs.Seen.{expr_of, exprs_of};
ghost use Rattle.ci_names.specs.declared.fault.BindKind.TheVariants as kinds;
ghost use Rattle.ci_names.specs.Scopes.{meaning};
ghost use Rattle.ci_names.specs.Kinds.{kind_of};
ghost use Rattle.ci_names.specs.Expressions.{broken, differ, expr_faults};
ghost use Rattle.ci_names.specs.Statements.{target, assigned, return_faults};
ghost use Rattle.ci_names.specs.Binding.{bound_assign};
ghost use Rattle.ci_scopes.specs.Seen.{scope_of};
ghost use Rattle.ci_bodies.specs.Made.{stmt_in};
ghost use Rattle.ci_bodies.specs.Walk.{assign_of, IsBound, NotesFaults};
ghost use Rattle.ci_bodies.specs.Parts.{Notes, IsBoundExpr};

use crate::calls::{callee_of, note_call, takes_of};
use crate::expressions::{arguments, expression, indexed, part};
use crate::faults::{note_also, note_if};
use crate::kinds::differ;
use crate::names::{note_plain, plain_kind, scalar_of};
use crate::que_read::called_with;
use ci_base::{Bytes, Kind, OutOfMemory};
use ci_names::{BindKind, Fault};
use ci_scopes::{Scope, boxed};
use ci_tree::{Expr, bound};
use std::alloc::Global;

/// An assignment: the name that is set with its token, its index, if it has one, the token of `=`, and the value.
#[derive(Clone, Copy)]
pub struct Assignment<'a> {
    pub at: u32,
    pub name: &'a Bytes,
    pub index: &'a Option<Expr>,
    pub equals: u32,
    pub value: &'a Expr,
}

/// A value that is to have the kind of another part, where both have one; else the fault is told at this token.
pub fn alike(
    alloc: Global,
    scope: &Scope,
    found: &mut Option<Fault>,
    token: u32,
    other: Option<Kind>,
    value: &Expr,
) -> Result<bound::Expr, OutOfMemory>
    ensures tree { IfOk result (λ x. IsBoundExpr (scope_of scope.now) (expr_of value.now) x) }
    ensures found { OnOk result (Notes (broken (differ other (kind_of (scope_of scope.now) (expr_of value.now))) (scope_of scope.now) token kinds.KindsDiffer ++ expr_faults (scope_of scope.now) (expr_of value.now)) found.old found.new) }
{
    let mut inside = None;
    let (bound, given) = expression(alloc, scope, &mut inside, value)?;
    note_if(
        found,
        differ(other, given),
        scope,
        token,
        BindKind::KindsDiffer,
    );
    note_also(found, inside);
    Ok(bound)
}

/// An assignment to a name that stands alone.
fn assign_plain(
    alloc: Global,
    scope: &Scope,
    found: &mut Option<Fault>,
    a: Assignment,
) -> Result<bound::Stmt, OutOfMemory>
    ensures tree { IfOk result (λ x. stmt_in (scope_of scope.now) x ≡ bound_assign (scope_of scope.now) a.entry.at (meaning (scope_of scope.now) a.entry.name.now) None (expr_of a.entry.value.now)) }
    ensures found { OnOk result (Notes (expr_faults (scope_of scope.now) (target a.entry.at a.entry.name.now None)
        ++ assigned (scope_of scope.now) a.entry.equals (target a.entry.at a.entry.name.now None) (expr_of a.entry.value.now) ++ expr_faults (scope_of scope.now) (expr_of a.entry.value.now)) found.old found.new) }
{
    let meaning = scope.meaning(a.name);
    note_plain(found, scope, a.at, meaning);
    let bound = alike(alloc, scope, found, a.equals, plain_kind(meaning), a.value)?;
    Ok(bound::Stmt::assign(a.at, scalar_of(meaning), bound))
}

/// An assignment to a name with an index.
fn assign_element(
    alloc: Global,
    scope: &Scope,
    found: &mut Option<Fault>,
    a: Assignment,
    index: &Expr,
) -> Result<bound::Stmt, OutOfMemory>
    ensures tree { IfOk result (λ x. stmt_in (scope_of scope.now) x ≡ bound_assign (scope_of scope.now) a.entry.at (meaning (scope_of scope.now) a.entry.name.now) (Some (expr_of index.now)) (expr_of a.entry.value.now)) }
    ensures found { OnOk result (Notes (expr_faults (scope_of scope.now) (target a.entry.at a.entry.name.now (Some (expr_of index.now)))
        ++ assigned (scope_of scope.now) a.entry.equals (target a.entry.at a.entry.name.now (Some (expr_of index.now))) (expr_of a.entry.value.now) ++ expr_faults (scope_of scope.now) (expr_of a.entry.value.now)) found.old found.new) }
{
    let (array, index, kind) = indexed(alloc, scope, found, a.at, a.name, index)?;
    let bound = alike(alloc, scope, found, a.equals, kind, a.value)?;
    Ok(bound::Stmt::assign_element(a.at, array, boxed(alloc, index)?, bound))
}

/// An assignment.
pub fn assign(
    alloc: Global,
    scope: &Scope,
    found: &mut Option<Fault>,
    a: Assignment,
) -> Result<bound::Stmt, OutOfMemory>
    ensures tree { IfOk result (λ x. IsBound (scope_of scope.now) (assign_of a.entry) x) }
    ensures found { OnOk result (NotesFaults (scope_of scope.now) (assign_of a.entry) found.old found.new) }
{
    match a.index {
        None => {
            let one = assign_plain(alloc, scope, found, a)?;
            Ok(one)
        }
        Some(index) => {
            let one = assign_element(alloc, scope, found, a, index)?;
            Ok(one)
        }
    }
}

/// A call whose value is dropped.
pub fn call(
    alloc: Global,
    scope: &Scope,
    found: &mut Option<Fault>,
    at: u32,
    name: &Bytes,
    args: &[Expr],
) -> Result<bound::Stmt, OutOfMemory>
    ensures tree { IfOk result (λ x. IsBound (scope_of scope.now) (tree.call_of at name.now (exprs_of args.now)) x) }
    ensures found { OnOk result (NotesFaults (scope_of scope.now) (tree.call_of at name.now (exprs_of args.now)) found.old found.new) }
{
    let called = scope.callee(name);
    note_call(found, scope, at, name, called, args);
    let (bound, _) = arguments(alloc, scope, found, takes_of(called), args)?;
    let call = called_with(alloc, callee_of(called), bound)?;
    Ok(bound::Stmt::call(at, call))
}

/// The value of a RETURN at this token.
fn returned(
    alloc: Global,
    scope: &Scope,
    found: &mut Option<Fault>,
    at: u32,
    value: &Expr,
) -> Result<bound::Expr, OutOfMemory>
    ensures tree { IfOk result (λ x. IsBoundExpr (scope_of scope.now) (expr_of value.now) x) }
    ensures found { OnOk result (Notes (return_faults (scope_of scope.now) at (scope_of scope.now).gives (Some (expr_of value.now))) found.old found.new) }
{
    match scope.gives() {
        None => {
            note_if(found, true, scope, at, BindKind::ReturnValue);
            let (bound, _) = expression(alloc, scope, found, value)?;
            Ok(bound)
        }
        Some(kind) => {
            let (bound, _) = part(alloc, scope, found, kind, value)?;
            Ok(bound)
        }
    }
}

/// A RETURN; without a value it gives 0.
pub fn give_back(
    alloc: Global,
    scope: &Scope,
    found: &mut Option<Fault>,
    at: u32,
    value: &Option<Expr>,
) -> Result<bound::Stmt, OutOfMemory>
    ensures tree { IfOk result (λ x. IsBound (scope_of scope.now) (tree.return at (option_map expr_of value.now)) x) }
    ensures found { OnOk result (NotesFaults (scope_of scope.now) (tree.return at (option_map expr_of value.now)) found.old found.new) }
{
    match value {
        None => {
            note_if(
                found,
                scope.gives().is_some(),
                scope,
                at,
                BindKind::ReturnValue,
            );
            Ok(bound::Stmt::give_back(at, bound::Expr::number(0)))
        }
        Some(value) => {
            let bound = returned(alloc, scope, found, at, value)?;
            Ok(bound::Stmt::give_back(at, bound))
        }
    }
}
