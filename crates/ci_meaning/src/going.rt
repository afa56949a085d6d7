//! Steps where nothing is in hand: the first of what is left to do.
ghost use Rattle.std.specs.Prelude.{◌≡◌, ◌≢◌, [], ◌∷◌, reverse, unwrap_or, IfOk, OnErr};
ghost use Rattle.ci_base.specs.declared.value.Kind.TheVariants as kinds;
ghost use Rattle.ci_base.specs.Steps.{tick};
ghost use Rattle.ci_tree.specs.LeftOut.{Heads};
ghost use Rattle.ci_tree.specs.SeenBound.{scalar_of, expr_of, block_of, stmt_of, project_of};
ghost use Rattle.ci_tree.specs.Bound as tree;
ghost use Rattle.ci_meaning.specs.Configuration.{with, eval, run, function_at};
ghost use Rattle.ci_meaning.specs.Held.{aim_of, configuration_of, task_of, Reaches, Goes};
ghost use Rattle.ci_meaning.specs.Meaning.{begun, gone, to_do};

use crate::operators::first_of_kind;
use crate::parts::{Aim, Hand, Left};
use crate::reaching::{go, take_up};
use crate::selecting::{sift, try_label};
use crate::stack::{clear, drop_top, set_top, set_under, top};
use crate::tree_task::{TreeMove, TreeTask};
use ci_base::{Kind, OutOfMemory};
use ci_tree::Project;
use ci_tree::bound::{Expr, Scalar, Stmt};
use std::alloc::Global;

/// A statement begins whose first part is this expression, and whose value is for this.
fn begin_with<'p>(
    alloc: Global,
    task: &mut TreeTask<'p>,
    rest: &'p [Stmt],
    expr: &'p Expr,
    aim: Aim<'p>,
) -> TreeMove
    requires { reverse task.old.frame.left ≢ [] }
    ensures { (heads : Heads) → Goes heads (λ t. tick (with (eval (expr_of heads expr.now) [] (aim_of heads aim.entry)) (to_do (run (block_of heads rest.now) ∷ t.left) t))) task.old result task.new }
{
    set_top(&mut task.frame.left, Left::Run { rest });
    clear(alloc, &mut task.frame.wants);
    take_up(task, expr, aim);
    TreeMove::Private { tick: true }
}

/// The statement begins, and the rest of its body is left.
fn begin<'p>(
    alloc: Global,
    task: &mut TreeTask<'p>,
    first: &'p Stmt,
    rest: &'p [Stmt],
) -> Result<TreeMove, OutOfMemory>
    requires { reverse task.old.frame.left ≢ [] }
    ensures ok { (heads : Heads) → IfOk result (λ m. Goes heads (λ t. tick (begun (stmt_of heads first.now) (to_do (run (block_of heads rest.now) ∷ t.left) t))) task.old m task.new) }
    ensures err { OnErr result (task.new ≡ task.old) }
{
    match first {
        Stmt::Assign { at: _, to, value } => Ok(begin_with(
            alloc,
            task,
            rest,
            value,
            Aim::Store { to: *to },
        )),
        Stmt::AssignElement {
            at: _,
            array,
            index,
            value,
        } => {
            let array = *array;
            Ok(begin_with(alloc, task, rest, index.get(), Aim::Index { array, value }))
        }
        Stmt::CallOf { at: _, call } => {
            set_top(&mut task.frame.left, Left::Run { rest });
            clear(alloc, &mut task.frame.wants);
            task.frame.aim = Aim::Forget;
            task.hand = Hand::Called { call };
            Ok(TreeMove::Private { tick: true })
        }
        Stmt::If {
            at: _,
            test,
            body,
            other,
        } => {
            let body = body.as_slice();
            Ok(begin_with(alloc, task, rest, test.get(), Aim::Choose { body, other }))
        }
        Stmt::While { at: _, test, body } => {
            let body = body.as_slice();
            set_under(
                &mut task.frame.left,
                Left::Run { rest },
                Left::Again { test, body },
            )?;
            task.hand = Hand::Go;
            Ok(TreeMove::Private { tick: true })
        }
        Stmt::For {
            at: _,
            counter,
            from,
            to,
            body,
        } => {
            let counter = *counter;
            let aim = Aim::Begin {
                counter,
                last: to.get(),
                body: body.as_slice(),
            };
            Ok(begin_with(alloc, task, rest, from.get(), aim))
        }
        Stmt::Select {
            at: _,
            subject,
            clauses,
            other,
        } => {
            let aim = Aim::Select {
                clauses: clauses.as_slice(),
                other: other.as_slice(),
            };
            Ok(begin_with(alloc, task, rest, subject.get(), aim))
        }
        Stmt::Return { at: _, value } => Ok(begin_with(alloc, task, rest, value, Aim::Return)),
    }
}

/// A scalar is in hand that is to be read, and whose value is for this.
fn read_for<'p>(alloc: Global, task: &mut TreeTask<'p>, of: Scalar, aim: Aim<'p>)
    ensures { (heads : Heads) → configuration_of heads task.new ≡ with (eval (tree.scalar (scalar_of of)) [] (aim_of heads aim.entry)) (task_of heads task.old) }
{
    clear(alloc, &mut task.frame.wants);
    task.frame.aim = aim;
    task.hand = Hand::Scalar { of };
}

/// The kind of what the function of this number gives; INT where it has no type.
fn gives(project: &Project, function: usize) -> Kind
    ensures { result ≡ unwrap_or (function_at (project_of project.now) function).gives kinds.Int }
{
    match project.parts().functions.get(function) {
        Some(found) => match found.gives {
            Some(kind) => kind,
            None => Kind::Int,
        },
        None => Kind::Int,
    }
}

/// The END of the function gives 0 or the empty text.
fn reach_end<'p>(alloc: Global, task: &mut TreeTask<'p>, project: &Project) -> TreeMove
    requires { reverse task.old.frame.left ≡ [] }
    ensures { (heads : Heads) → Reaches heads (gone (project_of project.now) []) task.old result task.new }
{
    let value = first_of_kind(gives(project, task.frame.function));
    clear(alloc, &mut task.frame.wants);
    task.frame.aim = Aim::Return;
    task.hand = Hand::Give { value };
    TreeMove::Private { tick: false }
}

/// The first of what is left to do.
pub fn step_gone<'p>(
    alloc: Global,
    task: &mut TreeTask<'p>,
    project: &Project,
) -> Result<TreeMove, OutOfMemory>
    ensures ok { (heads : Heads) → IfOk result (λ m. Reaches heads (λ t. gone (project_of project.now) t.left t) task.old m task.new) }
    ensures err { OnErr result (task.new ≡ task.old) }
{
    match top(&task.frame.left) {
        None => Ok(reach_end(alloc, task, project)),
        Some(Left::Run { rest }) => match *rest {
            [] => {
                drop_top(&mut task.frame.left);
                Ok(go(task))
            }
            [first, rest @ ..] => Ok(begin(alloc, task, first, rest)?),
        },
        Some(Left::Again { test, body }) => {
            let test = *test;
            let body = *body;
            drop_top(&mut task.frame.left);
            clear(alloc, &mut task.frame.wants);
            take_up(task, test, Aim::Turn { test, body });
            Ok(TreeMove::Private { tick: true })
        }
        Some(Left::Round { counting }) => {
            let counting = counting.copy();
            drop_top(&mut task.frame.left);
            read_for(alloc, task, counting.counter, Aim::Compare { counting });
            Ok(TreeMove::Private { tick: true })
        }
        Some(Left::Bump { counting }) => {
            let counting = counting.copy();
            drop_top(&mut task.frame.left);
            read_for(alloc, task, counting.counter, Aim::Raise { counting });
            Ok(TreeMove::Private { tick: false })
        }
        Some(Left::Sift { of, clauses, other }) => {
            let of = of.copy();
            let clauses = *clauses;
            let other = *other;
            Ok(sift(task, of, clauses, other))
        }
        Some(Left::Pick { of, labels, branch }) => {
            let of = of.copy();
            let labels = *labels;
            let branch = *branch;
            clear(alloc, &mut task.frame.wants);
            Ok(try_label(task, of, labels, &branch))
        }
    }
}
