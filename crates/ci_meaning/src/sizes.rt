//! How much room a function takes: its locals, and the operands that stand at once.
ghost use Rattle.std.specs.Prelude.{◌≡◌, ◌+◌, ◌≤◌, map};
ghost use Rattle.ci_base.specs.declared.bounds.TheConstants.{MOST_ROOM};
ghost use Rattle.ci_tree.specs.LeftOut.{call_given, left_out};
ghost use Rattle.ci_tree.specs.Rooms as rooms;
ghost use Rattle.ci_tree.specs.SeenBound.{block_of, call_of, callee_of, clause_of, clauses_of, expr_of, exprs_of, function_of, heads_of, label_of, link_of, links_of, project_of, stmt_of};
ghost use Rattle.ci_meaning.specs.Configuration.{function_at};
ghost use Rattle.ci_meaning.specs.Widths.{clause_width, link_width};

use crate::calling::next_left_out;
use ci_tree::Project;
use ci_tree::bound::{Call, Callee, Clause, Expr, Function, Label, Link, Stmt};

/// How many operands stand at once while the values for arguments that are left out are put behind so many that aren't.
fn left_out_width(project: &Project, callee: Callee, given: usize) -> usize
    requires { rooms.args_width given (left_out (heads_of project.now.functions) (callee_of callee) given) ≤ MOST_ROOM }
    ensures { result ≡ rooms.args_width given (left_out (heads_of project.now.functions) (callee_of callee) given) }
{
    let mut widest = 0;
    let mut waiting = given;
    let mut place = given;
    while let Some((_, next)) = next_left_out(project, callee, place) {
        waiting += 1;
        widest = waiting;
        place = next;
    }
    widest
}

/// How many operands stand at once while the expression is evaluated.
#[cycle(exprs)]
fn expr_width(project: &Project, expr: &Expr) -> usize
    requires { rooms.width (expr_of (heads_of project.now.functions) expr.now) ≤ MOST_ROOM }
    ensures { result ≡ rooms.width (expr_of (heads_of project.now.functions) expr.now) }
{
    match expr {
        Expr::Number { value: _ } => 1,
        Expr::Literal { text: _ } => 1,
        Expr::Scalar { of: _ } => 1,
        Expr::Element { array: _, index } => expr_width(project, index.get()),
        Expr::Called { call } => call_width(project, call),
        Expr::Unary { minus: _, operand } => expr_width(project, operand.get()),
        Expr::Chain { first, rest } => {
            let first = expr_width(project, first.get());
            first.max(links_width(project, rest.as_slice()))
        }
    }
}

#[cycle(exprs)]
fn call_width(project: &Project, call: &Call) -> usize
    requires { rooms.call_width (call_of (heads_of project.now.functions) call.now) ≤ MOST_ROOM }
    ensures { result ≡ rooms.call_width (call_of (heads_of project.now.functions) call.now) }
{
    match call {
        Call::Plain { callee, args } => args_width(project, *callee, args.as_slice()),
        Call::QueRead {
            queue,
            sort: _,
            text: _,
            mode,
        } => {
            let queue = expr_width(project, queue.get());
            let mode = expr_width(project, mode.get());
            queue.max(mode + 1).max(2)
        }
    }
}

/// The same of a call with these arguments in the source.
#[cycle(exprs)]
fn args_width(project: &Project, callee: Callee, args: &[Expr]) -> usize
    requires { let heads = heads_of project.now.functions in rooms.call_width (call_given heads (callee_of callee) (exprs_of heads args.now)) ≤ MOST_ROOM }
    ensures { let heads = heads_of project.now.functions in result ≡ rooms.call_width (call_given heads (callee_of callee) (exprs_of heads args.now)) }
{
    let mut widest = left_out_width(project, callee, args.len()).max(1);
    for (waiting, arg) in args.iter().enumerate() {
        widest = widest.max(waiting + expr_width(project, arg));
    }
    widest
}

#[cycle(exprs)]
fn links_width(project: &Project, rest: &[Link]) -> usize
    requires { rooms.links_width (links_of (heads_of project.now.functions) rest.now) ≤ MOST_ROOM }
    ensures { result ≡ rooms.links_width (links_of (heads_of project.now.functions) rest.now) }
{
    let mut widest = 0;
    for member in rest {
        widest = widest.max(member_width(project, member));
    }
    widest
}

#[cycle(exprs)]
fn member_width(project: &Project, member: &Link) -> usize
    requires { link_width (link_of (heads_of project.now.functions) member.now) ≤ MOST_ROOM }
    ensures { result ≡ link_width (link_of (heads_of project.now.functions) member.now) }
{
    match member {
        Link::Operand {
            operator: _,
            operand,
        } => 1 + expr_width(project, operand),
        Link::Hashes { count: _ } => 0,
    }
}

fn label_width(project: &Project, label: &Label) -> usize
    requires { rooms.label_width (label_of (heads_of project.now.functions) label.now) ≤ MOST_ROOM }
    ensures { result ≡ rooms.label_width (label_of (heads_of project.now.functions) label.now) }
{
    match label {
        Label::One { value } => 2 + expr_width(project, value),
        Label::Range { low, high } => {
            let low = 2 + expr_width(project, low);
            low.max(3 + expr_width(project, high))
        }
        Label::Is { relation: _, value } => 2 + expr_width(project, value),
    }
}

fn labels_width(project: &Project, labels: &[Label]) -> usize
    requires { rooms.labels_width (map (label_of (heads_of project.now.functions)) labels.now) ≤ MOST_ROOM }
    ensures { result ≡ rooms.labels_width (map (label_of (heads_of project.now.functions)) labels.now) }
{
    let mut widest = 0;
    for label in labels {
        widest = widest.max(label_width(project, label));
    }
    widest
}

/// How many operands stand at once while the statement runs.
#[cycle(stmts)]
fn stmt_width(project: &Project, stmt: &Stmt) -> usize
    requires { rooms.stmt_width (stmt_of (heads_of project.now.functions) stmt.now) ≤ MOST_ROOM }
    ensures { result ≡ rooms.stmt_width (stmt_of (heads_of project.now.functions) stmt.now) }
{
    match stmt {
        Stmt::Assign {
            at: _,
            to: _,
            value,
        } => expr_width(project, value),
        Stmt::AssignElement {
            at: _,
            array: _,
            index,
            value,
        } => {
            let index = expr_width(project, index.get());
            index.max(1 + expr_width(project, value))
        }
        Stmt::CallOf { at: _, call } => call_width(project, call),
        Stmt::If {
            at: _,
            test,
            body,
            other,
        } => {
            let test = expr_width(project, test.get());
            let body = block_width(project, body.as_slice());
            match other {
                Some(last) => test.max(body).max(block_width(project, last.as_slice())),
                None => test.max(body),
            }
        }
        Stmt::While { at: _, test, body } => {
            let test = expr_width(project, test);
            test.max(block_width(project, body.as_slice()))
        }
        Stmt::For {
            at: _,
            counter: _,
            from,
            to,
            body,
        } => {
            let from = expr_width(project, from.get());
            let to = 1 + expr_width(project, to.get());
            let body = 1 + block_width(project, body.as_slice());
            from.max(to).max(4).max(body)
        }
        Stmt::Select {
            at: _,
            subject,
            clauses,
            other,
        } => {
            let subject = expr_width(project, subject.get());
            let clauses = clauses_width(project, clauses.as_slice());
            let other = block_width(project, other.as_slice());
            subject.max(clauses).max(other)
        }
        Stmt::Return { at: _, value } => expr_width(project, value).max(1),
    }
}

#[cycle(stmts)]
fn clauses_width(project: &Project, clauses: &[Clause]) -> usize
    requires { rooms.clauses_width (clauses_of (heads_of project.now.functions) clauses.now) ≤ MOST_ROOM }
    ensures { result ≡ rooms.clauses_width (clauses_of (heads_of project.now.functions) clauses.now) }
{
    let mut widest = 0;
    for clause in clauses {
        widest = widest.max(branch_width(project, clause));
    }
    widest
}

#[cycle(stmts)]
fn branch_width(project: &Project, clause: &Clause) -> usize
    requires { clause_width (clause_of (heads_of project.now.functions) clause.now) ≤ MOST_ROOM }
    ensures { result ≡ clause_width (clause_of (heads_of project.now.functions) clause.now) }
{
    let labels = labels_width(project, clause.labels.as_slice());
    labels.max(block_width(project, clause.body.as_slice()))
}

/// How many operands stand at once while the body runs.
#[cycle(stmts)]
fn block_width(project: &Project, body: &[Stmt]) -> usize
    requires { rooms.block_width (block_of (heads_of project.now.functions) body.now) ≤ MOST_ROOM }
    ensures { result ≡ rooms.block_width (block_of (heads_of project.now.functions) body.now) }
{
    let mut widest = 0;
    for stmt in body {
        widest = widest.max(stmt_width(project, stmt));
    }
    widest
}

/// The room of the function: its locals, and the operands that stand at once.
fn function_room(project: &Project, function: &Function) -> usize
    requires { rooms.room (function_of (heads_of project.now.functions) function.now) ≤ MOST_ROOM }
    ensures { result ≡ rooms.room (function_of (heads_of project.now.functions) function.now) }
{
    let locals = function.params.len() + function.others.len();
    locals + block_width(project, function.body.as_slice()).max(1)
}

/// The room of the function of this number. That of one which isn't there is 1.
pub fn room(project: &Project, function: usize) -> usize
    ensures value { result ≡ rooms.room (function_at (project_of project.now) function) }
    ensures small { result ≤ MOST_ROOM }
{
    match project.parts().functions.get(function) {
        Some(found) => function_room(project, found),
        None => 1,
    }
}
