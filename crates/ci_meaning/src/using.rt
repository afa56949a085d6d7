//! Steps where a value is used inside its expression.
ghost use Rattle.std.specs.Prelude.{◌≡◌, ◌≢◌, [], ◌∷◌, reverse};
ghost use Rattle.ci_tree.specs.Bound.{Project};
ghost use Rattle.ci_tree.specs.LeftOut.{Heads};
ghost use Rattle.ci_tree.specs.SeenBound.{expr_of, links_of, scalar_of};
ghost use Rattle.ci_meaning.specs.Configuration.{as_operand, as_front, as_right, as_queue, as_mode, as_answer, as_kept};
ghost use Rattle.ci_meaning.specs.Held.{targets_of, Uses};
ghost use Rattle.ci_meaning.specs.Meaning.{used};
ghost use Rattle.ci_meaning.specs.Moves.{came};

use crate::evaluating::given;
use crate::operators::{fails, first_of_kind, form, kind_of, operate, turned};
use crate::parts::{Hand, Targets, Want};
use crate::stack::{drop_top, set_top};
use crate::storing::store;
use crate::tree_task::{TreeMove, TreeTask};
use ci_base::{Kind, Request, SharedName, Value};
use ci_builtin::request_of;
use ci_tree::Operator;
use ci_tree::bound::{Expr, Link, Scalar};

/// The value is the operand of `-` or NOT.
pub fn use_operand(task: &mut TreeTask, value: &Value, minus: bool) -> TreeMove
    ensures { (p : Project) (heads : Heads) → Uses heads (used p value.now (as_operand minus)) task.old result task.new }
{
    drop_top(&mut task.frame.wants);
    given(task, turned(minus, value))
}

/// The value, or what a run error leaves, is the front of the rest of the chain. A run error ends a task that doesn't go on.
fn come_to_front<'p>(
    task: &mut TreeTask<'p>,
    kind: Kind,
    outcome: Result<Value, u8>,
    rest: &'p [Link],
) -> TreeMove
    requires { reverse task.old.frame.wants ≢ [] }
    ensures { (heads : Heads) → Uses heads (λ ws aim t. came kind outcome (as_front (links_of heads rest.now) ∷ ws) aim t) task.old result task.new }
{
    match outcome {
        Ok(value) => {
            set_top(&mut task.frame.wants, Want::Front { rest });
            given(task, value)
        }
        Err(code) => {
            if task.goes_on {
                task.error = code;
                set_top(&mut task.frame.wants, Want::Front { rest });
                given(task, first_of_kind(kind))
            } else {
                TreeMove::Asks(Request::End { code })
            }
        }
    }
}

/// The value is the front of a chain.
pub fn use_front<'p>(task: &mut TreeTask<'p>, value: &Value, rest: &'p [Link]) -> TreeMove
    requires { reverse task.old.frame.wants ≢ [] }
    ensures { (p : Project) (heads : Heads) → Uses heads (used p value.now (as_front (links_of heads rest.now))) task.old result task.new }
{
    match rest {
        [] => {
            drop_top(&mut task.frame.wants);
            given(task, value.copy())
        }
        [Link::Operand { operator, operand }, more @ ..] => {
            let left = value.copy();
            let operator = *operator;
            set_top(
                &mut task.frame.wants,
                Want::Right {
                    left,
                    operator,
                    rest: more,
                },
            );
            task.hand = Hand::Eval { expr: operand };
            TreeMove::Private { tick: false }
        }
        [Link::Hashes { count }, more @ ..] => come_to_front(
            task,
            Kind::Str,
            form(*count, value),
            more,
        ),
    }
}

/// The value is the right operand of the operator.
pub fn use_right<'p>(
    task: &mut TreeTask<'p>,
    value: &Value,
    left: &Value,
    operator: Operator,
    rest: &'p [Link],
) -> TreeMove
    requires { reverse task.old.frame.wants ≢ [] }
    ensures { (p : Project) (heads : Heads) → Uses heads (used p value.now (as_right left.now operator (links_of heads rest.now))) task.old result task.new }
{
    come_to_front(task, kind_of(left), operate(operator, left, value), rest)
}

/// The value is QueRead's number of a queue.
pub fn use_queue<'p>(
    task: &mut TreeTask<'p>,
    value: &Value,
    mode: &'p Expr,
    targets: Targets,
) -> TreeMove
    requires { reverse task.old.frame.wants ≢ [] }
    ensures { (p : Project) (heads : Heads) → Uses heads (used p value.now (as_queue (expr_of heads mode.now) (targets_of targets))) task.old result task.new }
{
    let queue = value.copy();
    set_top(&mut task.frame.wants, Want::Mode { queue, targets });
    task.hand = Hand::Eval { expr: mode };
    TreeMove::Private { tick: false }
}

/// The value is QueRead's mode: the request is made.
pub fn use_mode(task: &mut TreeTask, value: &Value, queue: &Value, targets: Targets) -> TreeMove
    ensures { (p : Project) (heads : Heads) → Uses heads (used p value.now (as_mode queue.now (targets_of targets))) task.old result task.new }
{
    let values = [queue.copy(), value.copy()];
    TreeMove::Asks(request_of(SharedName::QueRead, &values))
}

/// The value is QueRead's answer: where it is 0 the first variable is set.
pub fn use_answer(task: &mut TreeTask, value: &Value, targets: Targets) -> TreeMove
    requires { reverse task.old.frame.wants ≢ [] }
    ensures { (p : Project) (heads : Heads) → Uses heads (used p value.now (as_answer (targets_of targets))) task.old result task.new }
{
    if fails(value) {
        let sort = task.sort;
        set_top(
            &mut task.frame.wants,
            Want::Kept {
                target: targets.text,
            },
        );
        store(task, targets.sort, Value::Int(sort), Some(value.copy()));
        TreeMove::Private { tick: false }
    } else {
        drop_top(&mut task.frame.wants);
        given(task, value.copy())
    }
}

/// The value is QueRead's answer, after the first variable is set: the second one is set.
pub fn use_kept(task: &mut TreeTask, value: &Value, target: Scalar) -> TreeMove
    ensures { (p : Project) (heads : Heads) → Uses heads (used p value.now (as_kept (scalar_of target))) task.old result task.new }
{
    let text = task.text.copy();
    drop_top(&mut task.frame.wants);
    store(task, target, Value::Str(text), Some(value.copy()));
    TreeMove::Private { tick: false }
}
