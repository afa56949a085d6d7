//! How many places the code of a part takes. A number is cut to a word of 32 bits, which holds each place of a project's code; so a
//! part of any size has one.
ghost use Rattle.std.specs.Prelude.{◌≡◌, map, drop, count_by};
ghost use Rattle.ci_emit.specs.Pads.{word};
ghost use Rattle.ci_translation.specs.Drafts as drafts;
ghost use Rattle.ci_tree.specs.LeftOut.{call_given, left_out};
ghost use Rattle.ci_tree.specs.SeenBound.{block_of, call_of, callee_of, clause_of, clauses_of, expr_of, exprs_of, function_of, heads_of, label_of, link_of, links_of, stmt_of};
ghost use Rattle.ci_emit.specs.Sizes.{clause_size, has_first, link_size};

use crate::word::cut;
use ci_base::SharedName;
use ci_tree::bound::{Call, Callee, Clause, Expr, Function, Label, Link, Param, Stmt};

/// How many of these parameters, from this one on, have a value for an argument that is left out.
fn defaults(params: &[Param], from: usize) -> usize
    ensures { result ≡ count_by has_first (drop from params.now) }
{
    params
        .iter()
        .skip(from)
        .filter(|param| param.first.is_some())
        .count()
}

/// How many places the values for arguments take that are left out behind so many that aren't.
fn left_out_size(functions: &[Function], callee: Callee, given: usize) -> usize
    ensures { result ≡ drafts.args_size (left_out (heads_of functions.now) (callee_of callee) given) }
{
    match callee {
        Callee::Function(f) => match functions.get(f) {
            Some(function) => defaults(function.params.as_slice(), given),
            None => 0,
        },
        Callee::Private(_) => 0,
        Callee::Shared(SharedName::TaskHnd) => { if given == 0 { 1 } else { 0 } }
        Callee::Shared(_) => 0,
    }
}

/// How many places an expression takes.
#[cycle(exprs)]
pub(crate) fn expr_size(functions: &[Function], expr: &Expr) -> usize
    ensures { result ≡ word (drafts.expr_size (expr_of (heads_of functions.now) expr.now)) }
{
    match expr {
        Expr::Number { value: _ } => 1,
        Expr::Literal { text: _ } => 1,
        Expr::Scalar { of: _ } => 1,
        Expr::Element { array: _, index } => cut(expr_size(functions, index.get()) + 1),
        Expr::Called { call } => call_size(functions, call),
        Expr::Unary { minus: _, operand } => cut(expr_size(functions, operand.get()) + 1),
        Expr::Chain { first, rest } => {
            let first = expr_size(functions, first.get());
            cut(first + links_size(functions, rest.as_slice()))
        }
    }
}

/// How many places a call takes.
#[cycle(exprs)]
pub(crate) fn call_size(functions: &[Function], call: &Call) -> usize
    ensures { result ≡ word (drafts.call_size (call_of (heads_of functions.now) call.now)) }
{
    match call {
        Call::Plain { callee, args } => plain_size(functions, *callee, args.as_slice()),
        Call::QueRead {
            queue,
            sort: _,
            text: _,
            mode,
        } => {
            let queue = expr_size(functions, queue.get());
            cut(queue + expr_size(functions, mode.get()) + 8)
        }
    }
}

/// The same of a call with these arguments in the source.
#[cycle(exprs)]
fn plain_size(functions: &[Function], callee: Callee, args: &[Expr]) -> usize
    ensures { let heads = heads_of functions.now in result ≡ word (drafts.call_size (call_given heads (callee_of callee) (exprs_of heads args.now))) }
{
    let behind = cut(left_out_size(functions, callee, args.len()));
    cut(args_size(functions, args) + behind + 1)
}

/// How many places the arguments in the source take.
#[cycle(exprs)]
fn args_size(functions: &[Function], args: &[Expr]) -> usize
    ensures { result ≡ word (drafts.args_size (exprs_of (heads_of functions.now) args.now)) }
{
    let mut size = 0;
    for arg in args {
        size = cut(size + expr_size(functions, arg));
    }
    size
}

/// How many places the members of a chain take behind the first.
#[cycle(exprs)]
pub(crate) fn links_size(functions: &[Function], rest: &[Link]) -> usize
    ensures { result ≡ word (drafts.links_size (links_of (heads_of functions.now) rest.now)) }
{
    let mut size = 0;
    for member in rest {
        size = cut(size + member_size(functions, member));
    }
    size
}

#[cycle(exprs)]
fn member_size(functions: &[Function], member: &Link) -> usize
    ensures { result ≡ word (link_size (link_of (heads_of functions.now) member.now)) }
{
    match member {
        Link::Operand {
            operator: _,
            operand,
        } => cut(expr_size(functions, operand) + 1),
        Link::Hashes { count: _ } => 1,
    }
}

/// How many places a label takes.
pub(crate) fn label_size(functions: &[Function], label: &Label) -> usize
    ensures { result ≡ word (drafts.label_size (label_of (heads_of functions.now) label.now)) }
{
    match label {
        Label::One { value } => cut(expr_size(functions, value) + 4),
        Label::Range { low, high } => {
            let low = expr_size(functions, low);
            cut(low + expr_size(functions, high) + 4)
        }
        Label::Is { relation: _, value } => cut(expr_size(functions, value) + 4),
    }
}

/// How many places the labels of a clause take.
pub(crate) fn labels_size(functions: &[Function], labels: &[Label]) -> usize
    ensures { result ≡ word (drafts.labels_size (map (label_of (heads_of functions.now)) labels.now)) }
{
    let mut size = 0;
    for label in labels {
        size = cut(size + label_size(functions, label));
    }
    size
}

/// How many places a statement takes.
#[cycle(stmts)]
pub(crate) fn stmt_size(functions: &[Function], stmt: &Stmt) -> usize
    ensures { result ≡ word (drafts.stmt_size (stmt_of (heads_of functions.now) stmt.now)) }
{
    match stmt {
        Stmt::Assign {
            at: _,
            to: _,
            value,
        } => cut(expr_size(functions, value) + 2),
        Stmt::AssignElement {
            at: _,
            array: _,
            index,
            value,
        } => {
            let index = expr_size(functions, index.get());
            cut(index + expr_size(functions, value) + 2)
        }
        Stmt::CallOf { at: _, call } => cut(call_size(functions, call) + 2),
        Stmt::If {
            at: _,
            test,
            body,
            other,
        } => {
            let test = expr_size(functions, test.get());
            let body = block_size(functions, body.as_slice());
            match other {
                Some(last) => cut(test + body + block_size(functions, last.as_slice()) + 3),
                None => cut(test + body + 2),
            }
        }
        Stmt::While { at: _, test, body } => {
            let test = expr_size(functions, test);
            cut(test + block_size(functions, body.as_slice()) + 4)
        }
        Stmt::For {
            at: _,
            counter: _,
            from,
            to,
            body,
        } => {
            let from = expr_size(functions, from.get());
            let to = expr_size(functions, to.get());
            cut(from + to + block_size(functions, body.as_slice()) + 19)
        }
        Stmt::Select {
            at: _,
            subject,
            clauses,
            other,
        } => {
            let subject = expr_size(functions, subject.get());
            let clauses = clauses_size(functions, clauses.as_slice());
            cut(subject + clauses + block_size(functions, other.as_slice()) + 2)
        }
        Stmt::Return { at: _, value } => cut(expr_size(functions, value) + 2),
    }
}

/// How many places the clauses of SELECT take.
#[cycle(stmts)]
pub(crate) fn clauses_size(functions: &[Function], clauses: &[Clause]) -> usize
    ensures { result ≡ word (drafts.clauses_size (clauses_of (heads_of functions.now) clauses.now)) }
{
    let mut size = 0;
    for clause in clauses {
        size = cut(size + branch_size(functions, clause));
    }
    size
}

#[cycle(stmts)]
fn branch_size(functions: &[Function], clause: &Clause) -> usize
    ensures { result ≡ word (clause_size (clause_of (heads_of functions.now) clause.now)) }
{
    let labels = labels_size(functions, clause.labels.as_slice());
    cut(labels + block_size(functions, clause.body.as_slice()) + 3)
}

/// How many places the statements of a body take.
#[cycle(stmts)]
pub(crate) fn block_size(functions: &[Function], body: &[Stmt]) -> usize
    ensures { result ≡ word (drafts.block_size (block_of (heads_of functions.now) body.now)) }
{
    let mut size = 0;
    for stmt in body {
        size = cut(size + stmt_size(functions, stmt));
    }
    size
}
