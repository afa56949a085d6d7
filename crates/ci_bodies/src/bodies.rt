//! Bodies: one walk gives a body with its names replaced, and its first fault. The locals of a body hold behind it too.
ghost use Rattle.std.specs.Prelude.{◌≡◌, ◌++◌, map, IfOk, OnOk};
ghost use Rattle.ci_tree.specs.Tree as tree;
ghost use Rattle.ci_tree.specs.Seen.{expr_of, stmt_of, clause_of, block_of, clauses_of};
ghost use Rattle.ci_names.specs.Fault.{noted};
ghost use Rattle.ci_names.specs.Scopes.{with_locals, locals_in_block, locals_in_clauses, locals_in_other};
ghost use Rattle.ci_names.specs.Statements.{labels_faults, clauses_faults, block_faults, other_faults};
ghost use Rattle.ci_names.specs.Binding.{bound_label, bound_clauses, bound_block, bound_other, bound_last};
ghost use Rattle.ci_scopes.specs.Seen.{scope_of};
ghost use Rattle.ci_bodies.specs.Made.{clause_in, block_in, clauses_in, other_in};
ghost use Rattle.ci_bodies.specs.Parts.{Notes};
ghost use Rattle.ci_bodies.specs.Walk.{other_of, for_of, IsBound, StandsBehind, NotesFaults, LeavesScope};

use crate::counters::{Count, Counting, head};
use crate::expressions::{expression, part};
use crate::labels::labels;
use crate::locals::declare;
use crate::simple::{Assignment, assign, call, give_back};
use ci_base::{Kind, OutOfMemory};
use ci_names::Fault;
use ci_scopes::{Scope, boxed, push};
use ci_tree::{Clause, Expr, Stmt, bound, list_with_room};
use sqlite_items::Items;
use std::alloc::Global;

/// A body with its names replaced.
#[cycle(bodies)]
pub fn body<'a>(
    alloc: Global,
    scope: &mut Scope<'a>,
    found: &mut Option<Fault>,
    body: &'a [Stmt],
) -> Result<Items<bound::Stmt>, OutOfMemory>
    ensures tree { IfOk result (λ x. block_in (scope_of scope.old) x ≡ bound_block (scope_of scope.old) (block_of body.now)) }
    ensures found { OnOk result (found.new ≡ noted found.old (block_faults (scope_of scope.old) (block_of body.now))) }
    ensures scope { OnOk result (scope_of scope.new ≡ with_locals (scope_of scope.old) (locals_in_block (block_of body.now))) }
{
    let mut made = list_with_room(alloc, body.len())?;
    for stmt in body {
        statement(alloc, scope, found, stmt, &mut made)?;
    }
    Ok(made)
}

/// A statement, behind those that were made before it.
#[cycle(bodies)]
fn statement<'a>(
    alloc: Global,
    scope: &mut Scope<'a>,
    found: &mut Option<Fault>,
    stmt: &'a Stmt,
    into: &mut Items<bound::Stmt>,
) -> Result<(), OutOfMemory>
    ensures tree { OnOk result (StandsBehind (scope_of scope.old) (stmt_of stmt.now) into.old into.new) }
    ensures found { OnOk result (NotesFaults (scope_of scope.old) (stmt_of stmt.now) found.old found.new) }
    ensures scope { OnOk result (LeavesScope (scope_of scope.old) (stmt_of stmt.now) (scope_of scope.new)) }
{
    match stmt {
        Stmt::Declare { kind, locals, .. } => {
            declare(alloc, scope, found, into, *kind, locals.as_slice())?;
            Ok(())
        }
        Stmt::Assign {
            at,
            name,
            index,
            equals,
            value,
        } => {
            let assignment = Assignment {
                at: *at,
                name,
                index,
                equals: *equals,
                value,
            };
            push(into, assign(alloc, scope, found, assignment)?)?;
            Ok(())
        }
        Stmt::CallOf { at, name, args } => {
            push(into, call(alloc, scope, found, *at, name, args.as_slice())?)?;
            Ok(())
        }
        Stmt::If {
            at,
            test,
            body,
            other,
        } => {
            let one = choice(alloc, scope, found, *at, body.as_slice(), other, test)?;
            push(into, one)?;
            Ok(())
        }
        Stmt::While { at, test, body } => {
            let one = repetition(alloc, scope, found, *at, body.as_slice(), test)?;
            push(into, one)?;
            Ok(())
        }
        Stmt::For {
            at,
            name_at,
            name,
            from,
            to,
            body,
        } => {
            let counting = Counting {
                at: *name_at,
                name,
                from,
                to,
            };
            let one = iteration(alloc, scope, found, *at, body.as_slice(), counting)?;
            push(into, one)?;
            Ok(())
        }
        Stmt::Select {
            at,
            subject,
            clauses,
            other,
        } => {
            let one = selection(alloc, scope, found, *at, clauses.as_slice(), other, subject)?;
            push(into, one)?;
            Ok(())
        }
        Stmt::Return { at, value } => {
            push(into, give_back(alloc, scope, found, *at, value)?)?;
            Ok(())
        }
    }
}

/// An IF with this body.
#[cycle(bodies)]
fn choice<'a>(
    alloc: Global,
    scope: &mut Scope<'a>,
    found: &mut Option<Fault>,
    at: u32,
    inside: &'a [Stmt],
    other: &'a Option<Items<Stmt>>,
    test: &Expr,
) -> Result<bound::Stmt, OutOfMemory>
    ensures tree { IfOk result (λ x. IsBound (scope_of scope.old) (tree.choose at (expr_of test.now) (block_of inside.now) (other_of other.now)) x) }
    ensures found { OnOk result (NotesFaults (scope_of scope.old) (tree.choose at (expr_of test.now) (block_of inside.now) (other_of other.now)) found.old found.new) }
    ensures scope { OnOk result (LeavesScope (scope_of scope.old) (tree.choose at (expr_of test.now) (block_of inside.now) (other_of other.now)) (scope_of scope.new)) }
{
    let (test, _) = part(alloc, scope, found, Kind::Int, test)?;
    let test = boxed(alloc, test)?;
    let inside = body(alloc, scope, found, inside)?;
    let other = otherwise(alloc, scope, found, other)?;
    Ok(bound::Stmt::choose(at, test, inside, other))
}

/// The body behind ELSE, where there is one.
#[cycle(bodies)]
fn otherwise<'a>(
    alloc: Global,
    scope: &mut Scope<'a>,
    found: &mut Option<Fault>,
    other: &'a Option<Items<Stmt>>,
) -> Result<Option<Items<bound::Stmt>>, OutOfMemory>
    ensures tree { IfOk result (λ x. other_in (scope_of scope.old) x ≡ bound_other (scope_of scope.old) (other_of other.now)) }
    ensures found { OnOk result (Notes (other_faults (scope_of scope.old) (other_of other.now)) found.old found.new) }
    ensures scope { OnOk result (scope_of scope.new ≡ with_locals (scope_of scope.old) (locals_in_other (other_of other.now))) }
{
    match other {
        None => Ok(None),
        Some(last) => {
            let last = body(alloc, scope, found, last.as_slice())?;
            Ok(Some(last))
        }
    }
}

/// A WHILE with this body.
#[cycle(bodies)]
fn repetition<'a>(
    alloc: Global,
    scope: &mut Scope<'a>,
    found: &mut Option<Fault>,
    at: u32,
    inside: &'a [Stmt],
    test: &Expr,
) -> Result<bound::Stmt, OutOfMemory>
    ensures tree { IfOk result (λ x. IsBound (scope_of scope.old) (tree.while at (expr_of test.now) (block_of inside.now)) x) }
    ensures found { OnOk result (NotesFaults (scope_of scope.old) (tree.while at (expr_of test.now) (block_of inside.now)) found.old found.new) }
    ensures scope { OnOk result (LeavesScope (scope_of scope.old) (tree.while at (expr_of test.now) (block_of inside.now)) (scope_of scope.new)) }
{
    let (test, _) = part(alloc, scope, found, Kind::Int, test)?;
    let inside = body(alloc, scope, found, inside)?;
    Ok(bound::Stmt::repeat(at, test, inside))
}

/// A FOR with this body.
#[cycle(bodies)]
fn iteration<'a>(
    alloc: Global,
    scope: &mut Scope<'a>,
    found: &mut Option<Fault>,
    at: u32,
    inside: &'a [Stmt],
    counting: Counting,
) -> Result<bound::Stmt, OutOfMemory>
    ensures tree { IfOk result (λ x. IsBound (scope_of scope.old) (for_of at counting.entry (block_of inside.now)) x) }
    ensures found { OnOk result (NotesFaults (scope_of scope.old) (for_of at counting.entry (block_of inside.now)) found.old found.new) }
    ensures scope { OnOk result (LeavesScope (scope_of scope.old) (for_of at counting.entry (block_of inside.now)) (scope_of scope.new)) }
{
    let Count { counter, from, to } = head(alloc, scope, found, counting)?;
    let inside = body(alloc, scope, found, inside)?;
    Ok(bound::Stmt::count(at, counter, from, to, inside))
}

/// A SELECT with these clauses.
#[cycle(bodies)]
fn selection<'a>(
    alloc: Global,
    scope: &mut Scope<'a>,
    found: &mut Option<Fault>,
    at: u32,
    cases: &'a [Clause],
    other: &'a Option<Items<Stmt>>,
    subject: &Expr,
) -> Result<bound::Stmt, OutOfMemory>
    ensures tree { IfOk result (λ x. IsBound (scope_of scope.old) (tree.select at (expr_of subject.now) (clauses_of cases.now) (other_of other.now)) x) }
    ensures found { OnOk result (NotesFaults (scope_of scope.old) (tree.select at (expr_of subject.now) (clauses_of cases.now) (other_of other.now)) found.old found.new) }
    ensures scope { OnOk result (LeavesScope (scope_of scope.old) (tree.select at (expr_of subject.now) (clauses_of cases.now) (other_of other.now)) (scope_of scope.new)) }
{
    let (subject, kind) = expression(alloc, scope, found, subject)?;
    let subject = boxed(alloc, subject)?;
    let cases = clauses(alloc, scope, found, kind, cases)?;
    let last = else_part(alloc, scope, found, other)?;
    Ok(bound::Stmt::select(at, subject, cases, last))
}

/// The body behind ELSE of a SELECT, which is empty where there is none.
#[cycle(bodies)]
fn else_part<'a>(
    alloc: Global,
    scope: &mut Scope<'a>,
    found: &mut Option<Fault>,
    other: &'a Option<Items<Stmt>>,
) -> Result<Items<bound::Stmt>, OutOfMemory>
    ensures tree { IfOk result (λ x. block_in (scope_of scope.old) x ≡ bound_last (scope_of scope.old) (other_of other.now)) }
    ensures found { OnOk result (Notes (other_faults (scope_of scope.old) (other_of other.now)) found.old found.new) }
    ensures scope { OnOk result (scope_of scope.new ≡ with_locals (scope_of scope.old) (locals_in_other (other_of other.now))) }
{
    match other {
        None => Ok(Items::new(alloc)),
        Some(last) => {
            let last = body(alloc, scope, found, last.as_slice())?;
            Ok(last)
        }
    }
}

/// The clauses of a SELECT whose subject has this kind.
#[cycle(bodies)]
fn clauses<'a>(
    alloc: Global,
    scope: &mut Scope<'a>,
    found: &mut Option<Fault>,
    subject: Option<Kind>,
    clauses: &'a [Clause],
) -> Result<Items<bound::Clause>, OutOfMemory>
    ensures tree { IfOk result (λ x. clauses_in (scope_of scope.old) x ≡ bound_clauses (scope_of scope.old) (clauses_of clauses.now)) }
    ensures found { OnOk result (found.new ≡ noted found.old (clauses_faults (scope_of scope.old) subject (clauses_of clauses.now))) }
    ensures scope { OnOk result (scope_of scope.new ≡ with_locals (scope_of scope.old) (locals_in_clauses (clauses_of clauses.now))) }
{
    let mut made = list_with_room(alloc, clauses.len())?;
    for one in clauses {
        let bound = clause(alloc, scope, found, subject, one)?;
        push(&mut made, bound)?;
    }
    Ok(made)
}

/// A clause of a SELECT whose subject has this kind.
#[cycle(bodies)]
fn clause<'a>(
    alloc: Global,
    scope: &mut Scope<'a>,
    found: &mut Option<Fault>,
    subject: Option<Kind>,
    clause: &'a Clause,
) -> Result<bound::Clause, OutOfMemory>
    ensures labels { IfOk result (λ x. (clause_in (scope_of scope.old) x).labels ≡ map (bound_label (scope_of scope.old)) (clause_of clause.now).labels) }
    ensures body { IfOk result (λ x. (clause_in (scope_of scope.old) x).body ≡ bound_block (scope_of scope.old) (clause_of clause.now).body) }
    ensures found { OnOk result (found.new ≡ noted found.old (labels_faults (scope_of scope.old) subject (clause_of clause.now).labels ++ block_faults (scope_of scope.old) (clause_of clause.now).body)) }
    ensures scope { OnOk result (scope_of scope.new ≡ with_locals (scope_of scope.old) (locals_in_block (clause_of clause.now).body)) }
{
    let labels = labels(alloc, scope, found, subject, clause.labels.as_slice())?;
    let block = body(alloc, scope, found, clause.body.as_slice())?;
    Ok(bound::Clause::new(labels, block))
}
