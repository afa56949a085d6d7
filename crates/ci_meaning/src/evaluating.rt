//! Steps where an expression is in hand.
ghost use Rattle.std.specs.Prelude.{◌≡◌, ◌≤◌, ◌∷◌, length, IfOk, OnErr};
ghost use Rattle.ci_base.specs.declared.bounds.TheConstants.{MOST_TEXT_BYTES};
ghost use Rattle.ci_base.specs.declared.value.Value.TheVariants as values;
ghost use Rattle.ci_tree.specs.LeftOut.{Heads};
ghost use Rattle.ci_tree.specs.SeenBound.{expr_of, scalar_of};
ghost use Rattle.ci_meaning.specs.Configuration.{eval, give};
ghost use Rattle.ci_meaning.specs.Held.{want_of, Makes};
ghost use Rattle.ci_meaning.specs.Meaning as meaning;
ghost use Rattle.ci_meaning.specs.Moves.{goes};
ghost use Rattle.ci_meaning.specs.Within.{scalar_within};

use crate::parts::{Hand, Want};
use crate::stack::push;
use crate::tree_task::{TreeMove, TreeTask};
use ci_base::{Bytes, OutOfMemory, Request, Text, Value};
use ci_tree::bound::{Expr, Scalar};

/// The value is in hand.
pub fn given(task: &mut TreeTask, value: Value) -> TreeMove
    ensures { (heads : Heads) → Makes heads (λ ws aim t. goes (give value ws aim) t) task.old result task.new }
{
    task.hand = Hand::Give { value };
    TreeMove::Private { tick: false }
}

/// An expression is evaluated, whose value is wanted for this.
pub fn wanted<'p>(
    task: &mut TreeTask<'p>,
    expr: &'p Expr,
    want: Want<'p>,
) -> Result<TreeMove, OutOfMemory>
    ensures ok { (heads : Heads) → IfOk result (λ m. Makes heads (λ ws aim t. goes (eval (expr_of heads expr.now) (want_of heads want.entry ∷ ws) aim) t) task.old m task.new) }
    ensures err { OnErr result (task.new ≡ task.old) }
{
    push(&mut task.frame.wants, want)?;
    task.hand = Hand::Eval { expr };
    Ok(TreeMove::Private { tick: false })
}

/// A scalar is read: a local at once, a shared cell by a request.
pub fn read_scalar(task: &mut TreeTask, of: Scalar) -> TreeMove
    requires { scalar_within (scalar_of of) }
    ensures { (heads : Heads) → Makes heads (meaning.read_scalar (scalar_of of)) task.old result task.new }
{
    match of {
        Scalar::Local(i) => {
            let value = match task.frame.locals.get(i) {
                Some(value) => value.copy(),
                None => Value::Int(0),
            };
            given(task, value)
        }
        Scalar::Cell(c) => TreeMove::Asks(Request::Read { cell: c as u32 }),
    }
}

/// The text is in hand.
pub fn literal(task: &mut TreeTask, text: &Bytes) -> TreeMove
    requires { length text.now ≤ MOST_TEXT_BYTES }
    ensures { (heads : Heads) → Makes heads (λ ws aim t. goes (give (values.Str text.now) ws aim) t) task.old result task.new }
{
    match Text::of(text.bytes()) {
        Some(text) => given(task, Value::Str(text)),
        None => unreachable!(),
    }
}
