//! Steps of SELECT: its subject, its clauses and their labels.
ghost use Rattle.std.specs.Prelude.{◌≡◌, ◌≢◌, [], reverse, map, IfOk, OnErr};
ghost use Rattle.ci_base.specs.Steps.{quiet};
ghost use Rattle.ci_tree.specs.Bound.{Project};
ghost use Rattle.ci_tree.specs.LeftOut.{Heads};
ghost use Rattle.ci_tree.specs.SeenBound.{expr_of, block_of, clauses_of, label_of};
ghost use Rattle.ci_meaning.specs.Configuration.{to_select, to_match, to_low, to_high};
ghost use Rattle.ci_meaning.specs.Held.{branch_of, Reaches, Goes};
ghost use Rattle.ci_meaning.specs.Meaning.{reached, tried, sifted, picked_if};

use crate::parts::{Aim, Branch, Hand, Left};
use crate::reaching::{aim_at, go};
use crate::stack::{drop_top, push, set_top};
use crate::tree_task::{TreeMove, TreeTask};
use ci_base::{OutOfMemory, Relation, Value};
use ci_builtin::{holds, within};
use ci_tree::bound::{Clause, Expr, Label, Stmt};

/// The value is the subject.
pub fn reach_select<'p>(
    task: &mut TreeTask<'p>,
    value: &Value,
    clauses: &'p [Clause],
    other: &'p [Stmt],
) -> Result<TreeMove, OutOfMemory>
    ensures ok { (p : Project) (heads : Heads) → IfOk result (λ m. Reaches heads (reached p value.now (to_select (clauses_of heads clauses.now) (block_of heads other.now))) task.old m task.new) }
    ensures err { OnErr result (task.new ≡ task.old) }
{
    let of = value.copy();
    push(&mut task.frame.left, Left::Sift { of, clauses, other })?;
    Ok(go(task))
}

/// The body of a clause runs where its label is met, else the next label is tried.
fn pick<'p>(
    task: &mut TreeTask<'p>,
    met: bool,
    of: Value,
    labels: &'p [Label],
    branch: &Branch<'p>,
) -> Result<TreeMove, OutOfMemory>
    ensures ok { (heads : Heads) → IfOk result (λ m. Reaches heads (picked_if met of (map (label_of heads) labels.now) (branch_of heads branch.now)) task.old m task.new) }
    ensures err { OnErr result (task.new ≡ task.old) }
{
    if met {
        push(&mut task.frame.left, Left::Run { rest: branch.body })?;
    } else {
        push(
            &mut task.frame.left,
            Left::Pick {
                of,
                labels,
                branch: *branch,
            },
        )?;
    }
    Ok(go(task))
}

/// The value is a label, to which the subject is to stand so.
pub fn reach_match<'p>(
    task: &mut TreeTask<'p>,
    value: &Value,
    of: Value,
    relation: Relation,
    labels: &'p [Label],
    branch: &Branch<'p>,
) -> Result<TreeMove, OutOfMemory>
    ensures ok { (p : Project) (heads : Heads) → IfOk result (λ m. Reaches heads (reached p value.now (to_match of relation (map (label_of heads) labels.now) (branch_of heads branch.now))) task.old m task.new) }
    ensures err { OnErr result (task.new ≡ task.old) }
{
    let met = holds(relation, &of, value);
    Ok(pick(task, met, of, labels, branch)?)
}

/// The value is the low end of a label.
pub fn reach_low<'p>(
    task: &mut TreeTask<'p>,
    value: &Value,
    of: Value,
    high: &'p Expr,
    labels: &'p [Label],
    branch: &Branch<'p>,
) -> TreeMove
    requires { reverse task.old.frame.wants ≡ [] }
    ensures { (p : Project) (heads : Heads) → Reaches heads (reached p value.now (to_low of (expr_of heads high.now) (map (label_of heads) labels.now) (branch_of heads branch.now))) task.old result task.new }
{
    let low = value.copy();
    aim_at(
        task,
        high,
        Aim::High {
            of,
            low,
            labels,
            branch: *branch,
        },
    )
}

/// The value is the high end of a label.
pub fn reach_high<'p>(
    task: &mut TreeTask<'p>,
    value: &Value,
    of: Value,
    low: &Value,
    labels: &'p [Label],
    branch: &Branch<'p>,
) -> Result<TreeMove, OutOfMemory>
    ensures ok { (p : Project) (heads : Heads) → IfOk result (λ m. Reaches heads (reached p value.now (to_high of low.now (map (label_of heads) labels.now) (branch_of heads branch.now))) task.old m task.new) }
    ensures err { OnErr result (task.new ≡ task.old) }
{
    let met = within(&of, low, value);
    Ok(pick(task, met, of, labels, branch)?)
}

/// The first of the clauses is tried, or the ELSE part runs.
pub fn sift<'p>(
    task: &mut TreeTask<'p>,
    of: Value,
    clauses: &'p [Clause],
    other: &'p [Stmt],
) -> TreeMove
    requires { reverse task.old.frame.left ≢ [] }
    ensures { (heads : Heads) → Goes heads (λ t. quiet (sifted of (clauses_of heads clauses.now) (block_of heads other.now) t)) task.old result task.new }
{
    match clauses {
        [] => set_top(&mut task.frame.left, Left::Run { rest: other }),
        [first, rest @ ..] => {
            let branch = Branch {
                body: first.body.as_slice(),
                rest,
                other,
            };
            let labels = first.labels.as_slice();
            set_top(&mut task.frame.left, Left::Pick { of, labels, branch });
        }
    }
    go(task)
}

/// The first of the labels is tried, or the clauses behind them.
pub fn try_label<'p>(
    task: &mut TreeTask<'p>,
    of: Value,
    labels: &'p [Label],
    branch: &Branch<'p>,
) -> TreeMove
    requires left { reverse task.old.frame.left ≢ [] }
    requires wants { reverse task.old.frame.wants ≡ [] }
    ensures { (heads : Heads) → Goes heads (λ t. quiet (tried of (map (label_of heads) labels.now) (branch_of heads branch.now) t)) task.old result task.new }
{
    match labels {
        [] => {
            let Branch {
                body: _,
                rest,
                other,
            } = *branch;
            set_top(
                &mut task.frame.left,
                Left::Sift {
                    of,
                    clauses: rest,
                    other,
                },
            );
            go(task)
        }
        [Label::One { value }, labels @ ..] => {
            drop_top(&mut task.frame.left);
            aim_at(
                task,
                value,
                Aim::Match {
                    of,
                    relation: Relation::Equal,
                    labels,
                    branch: *branch,
                },
            )
        }
        [Label::Range { low, high }, labels @ ..] => {
            drop_top(&mut task.frame.left);
            aim_at(
                task,
                low,
                Aim::Low {
                    of,
                    high,
                    labels,
                    branch: *branch,
                },
            )
        }
        [Label::Is { relation, value }, labels @ ..] => {
            let relation = *relation;
            drop_top(&mut task.frame.left);
            aim_at(
                task,
                value,
                Aim::Match {
                    of,
                    relation,
                    labels,
                    branch: *branch,
                },
            )
        }
    }
}
