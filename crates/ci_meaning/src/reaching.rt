//! Steps where the value of a whole expression is used, but for those of SELECT.
ghost use Rattle.std.specs.Prelude.{◌≡◌, [], reverse, option_map, IfOk, OnErr};
ghost use Rattle.ci_tree.specs.Bound.{Project, other_from};
ghost use Rattle.ci_tree.specs.LeftOut.{Heads};
ghost use Rattle.ci_tree.specs.SeenBound.{expr_of, scalar_of, block_of};
ghost use Rattle.ci_meaning.specs.Configuration as configuration;
ghost use Rattle.ci_meaning.specs.Configuration.{with, eval, to_store, to_index, to_choose, to_turn, to_begin, to_count, to_compare, to_raise, to_return};
ghost use Rattle.ci_meaning.specs.Held.{aim_of, configuration_of, counting_of, task_of, Reaches};
ghost use Rattle.ci_meaning.specs.Meaning as meaning;
ghost use Rattle.ci_meaning.specs.Meaning.{reached};
ghost use Rattle.ci_meaning.specs.Moves.{goes};

use crate::operators::fails;
use crate::parts::{Aim, Counting, Hand, Left};
use crate::stack::{push, push_two};
use crate::storing::store;
use crate::tree_task::{TreeMove, TreeTask};
use ci_base::{OutOfMemory, Relation, Request, Value};
use ci_builtin::{holds, sum};
use ci_tree::bound::{Expr, Scalar, Stmt};
use sqlite_items::Items;

/// Nothing is in hand.
pub fn go(task: &mut TreeTask) -> TreeMove
    ensures { (heads : Heads) → Reaches heads (λ t. goes configuration.go t) task.old result task.new }
{
    task.hand = Hand::Go;
    TreeMove::Private { tick: false }
}

/// An expression is in hand, whose value is for this.
pub fn take_up<'p>(task: &mut TreeTask<'p>, expr: &'p Expr, aim: Aim<'p>)
    requires { reverse task.old.frame.wants ≡ [] }
    ensures { (heads : Heads) → configuration_of heads task.new ≡ with (eval (expr_of heads expr.now) [] (aim_of heads aim.entry)) (task_of heads task.old) }
{
    task.frame.aim = aim;
    task.hand = Hand::Eval { expr };
}

/// The same as a step that is no tick.
pub fn aim_at<'p>(task: &mut TreeTask<'p>, expr: &'p Expr, aim: Aim<'p>) -> TreeMove
    requires { reverse task.old.frame.wants ≡ [] }
    ensures { (heads : Heads) → Reaches heads (λ t. goes (eval (expr_of heads expr.now) [] (aim_of heads aim.entry)) t) task.old result task.new }
{
    take_up(task, expr, aim);
    TreeMove::Private { tick: false }
}

/// The value is assigned.
pub fn reach_store(task: &mut TreeTask, value: &Value, to: Scalar) -> TreeMove
    ensures { (p : Project) (heads : Heads) → Reaches heads (reached p value.now (to_store (scalar_of to))) task.old result task.new }
{
    store(task, to, value.copy(), None);
    TreeMove::Private { tick: false }
}

/// The value is the index of an element that gets a value.
pub fn reach_index<'p>(
    task: &mut TreeTask<'p>,
    value: &Value,
    array: usize,
    expr: &'p Expr,
) -> TreeMove
    requires { reverse task.old.frame.wants ≡ [] }
    ensures { (p : Project) (heads : Heads) → Reaches heads (reached p value.now (to_index array (expr_of heads expr.now))) task.old result task.new }
{
    let index = value.copy();
    aim_at(task, expr, Aim::Element { array, index })
}

/// The value is the test of IF.
pub fn reach_choose<'p>(
    task: &mut TreeTask<'p>,
    value: &Value,
    body: &'p [Stmt],
    other: &'p Option<Items<Stmt>>,
) -> Result<TreeMove, OutOfMemory>
    ensures ok { (p : Project) (heads : Heads) → IfOk result (λ m. Reaches heads (reached p value.now (to_choose (block_of heads body.now) (other_from (option_map (block_of heads) other.now)))) task.old m task.new) }
    ensures err { OnErr result (task.new ≡ task.old) }
{
    if fails(value) {
        if let Some(last) = other {
            push(
                &mut task.frame.left,
                Left::Run {
                    rest: last.as_slice(),
                },
            )?;
        }
    } else {
        push(&mut task.frame.left, Left::Run { rest: body })?;
    }
    Ok(go(task))
}

/// The value is the test of WHILE.
pub fn reach_turn<'p>(
    task: &mut TreeTask<'p>,
    value: &Value,
    test: &'p Expr,
    body: &'p [Stmt],
) -> Result<TreeMove, OutOfMemory>
    ensures ok { (p : Project) (heads : Heads) → IfOk result (λ m. Reaches heads (reached p value.now (to_turn (expr_of heads test.now) (block_of heads body.now))) task.old m task.new) }
    ensures err { OnErr result (task.new ≡ task.old) }
{
    if !fails(value) {
        push_two(
            &mut task.frame.left,
            Left::Again { test, body },
            Left::Run { rest: body },
        )?;
    }
    Ok(go(task))
}

/// The value is the first one of FOR.
pub fn reach_begin<'p>(
    task: &mut TreeTask<'p>,
    value: &Value,
    counter: Scalar,
    last: &'p Expr,
    body: &'p [Stmt],
) -> TreeMove
    requires { reverse task.old.frame.wants ≡ [] }
    ensures { (p : Project) (heads : Heads) → Reaches heads (reached p value.now (to_begin (scalar_of counter) (expr_of heads last.now) (block_of heads body.now))) task.old result task.new }
{
    let first = value.copy();
    aim_at(
        task,
        last,
        Aim::Count {
            first,
            counter,
            body,
        },
    )
}

/// The value is the last one of FOR: the counter is set to the first.
pub fn reach_count<'p>(
    task: &mut TreeTask<'p>,
    value: &Value,
    first: Value,
    counter: Scalar,
    body: &'p [Stmt],
) -> Result<TreeMove, OutOfMemory>
    ensures ok { (p : Project) (heads : Heads) → IfOk result (λ m. Reaches heads (reached p value.now (to_count first (scalar_of counter) (block_of heads body.now))) task.old m task.new) }
    ensures err { OnErr result (task.new ≡ task.old) }
{
    let last = value.copy();
    let counting = Counting {
        counter,
        last,
        body,
    };
    push(&mut task.frame.left, Left::Round { counting })?;
    store(task, counter, first, None);
    Ok(TreeMove::Private { tick: false })
}

/// The value is the counter of FOR, at a test.
pub fn reach_compare<'p>(
    task: &mut TreeTask<'p>,
    value: &Value,
    counting: Counting<'p>,
) -> Result<TreeMove, OutOfMemory>
    ensures ok { (p : Project) (heads : Heads) → IfOk result (λ m. Reaches heads (reached p value.now (to_compare (counting_of heads counting.entry))) task.old m task.new) }
    ensures err { OnErr result (task.new ≡ task.old) }
{
    if holds(Relation::AtMost, value, &counting.last) {
        let rest = counting.body;
        push_two(
            &mut task.frame.left,
            Left::Bump { counting },
            Left::Run { rest },
        )?;
    }
    Ok(go(task))
}

/// Whether the loop ends behind its body with this counter.
fn is_largest(value: &Value) -> bool
    ensures { result ≡ meaning.is_largest value.now }
{
    match value {
        Value::Int(n) => *n == i32::MAX,
        Value::Str(_) => true,
    }
}

fn one_more(value: &Value) -> Value
    ensures { result ≡ meaning.one_more value.now }
{
    match value {
        Value::Int(n) => Value::Int(sum(*n, 1)),
        Value::Str(_) => value.copy(),
    }
}

/// The value is the counter of FOR, behind the body.
pub fn reach_raise<'p>(
    task: &mut TreeTask<'p>,
    value: &Value,
    counting: Counting<'p>,
) -> Result<TreeMove, OutOfMemory>
    ensures ok { (p : Project) (heads : Heads) → IfOk result (λ m. Reaches heads (reached p value.now (to_raise (counting_of heads counting.entry))) task.old m task.new) }
    ensures err { OnErr result (task.new ≡ task.old) }
{
    if is_largest(value) {
        return Ok(go(task));
    }
    let counter = counting.counter;
    push(&mut task.frame.left, Left::Round { counting })?;
    store(task, counter, one_more(value), None);
    Ok(TreeMove::Private { tick: false })
}

/// A function gives the value to the one that called it; the first one ends the task.
pub fn reach_return(task: &mut TreeTask, value: &Value) -> TreeMove
    ensures { (p : Project) (heads : Heads) → Reaches heads (reached p value.now to_return) task.old result task.new }
{
    match task.callers.pop() {
        None => TreeMove::Asks(Request::End { code: 0 }),
        Some(caller) => {
            task.frame = caller;
            task.hand = Hand::Give {
                value: value.copy(),
            };
            TreeMove::Private { tick: false }
        }
    }
}
