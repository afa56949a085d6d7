//! Steps where the value of a whole expression is in hand.
ghost use Rattle.std.specs.Prelude.{◌≡◌, [], reverse, IfOk, OnErr};
ghost use Rattle.ci_tree.specs.LeftOut.{Heads};
ghost use Rattle.ci_tree.specs.SeenBound.{project_of};
ghost use Rattle.ci_meaning.specs.Held.{aim_of, Reaches};
ghost use Rattle.ci_meaning.specs.Meaning.{reached};

use crate::elements::reach_element;
use crate::parts::Aim;
use crate::reaching::{
    go, reach_begin, reach_choose, reach_compare, reach_count, reach_index, reach_raise,
    reach_return, reach_store, reach_turn,
};
use crate::selecting::{reach_high, reach_low, reach_match, reach_select};
use crate::tree_task::{TreeMove, TreeTask};
use ci_base::{OutOfMemory, Value};
use ci_tree::Project;

/// The value is used for what the expression is for.
pub fn step_reached<'p>(
    task: &mut TreeTask<'p>,
    project: &Project,
    value: &Value,
) -> Result<TreeMove, OutOfMemory>
    requires { reverse task.old.frame.wants ≡ [] }
    ensures ok { (heads : Heads) → IfOk result (λ m. Reaches heads (reached (project_of project.now) value.now (aim_of heads task.old.frame.aim)) task.old m task.new) }
    ensures err { OnErr result (task.new ≡ task.old) }
{
    match &task.frame.aim {
        Aim::Store { to } => {
            let to = *to;
            Ok(reach_store(task, value, to))
        }
        Aim::Index { array, value: expr } => {
            let array = *array;
            let expr = *expr;
            Ok(reach_index(task, value, array, expr))
        }
        Aim::Element { array, index } => {
            let array = *array;
            let index = index.copy();
            Ok(reach_element(task, project, value, array, &index))
        }
        Aim::Choose { body, other } => {
            let body = *body;
            let other = *other;
            Ok(reach_choose(task, value, body, other)?)
        }
        Aim::Turn { test, body } => {
            let test = *test;
            let body = *body;
            Ok(reach_turn(task, value, test, body)?)
        }
        Aim::Begin {
            counter,
            last,
            body,
        } => {
            let counter = *counter;
            let last = *last;
            let body = *body;
            Ok(reach_begin(task, value, counter, last, body))
        }
        Aim::Count {
            first,
            counter,
            body,
        } => {
            let first = first.copy();
            let counter = *counter;
            let body = *body;
            Ok(reach_count(task, value, first, counter, body)?)
        }
        Aim::Compare { counting } => {
            let counting = counting.copy();
            Ok(reach_compare(task, value, counting)?)
        }
        Aim::Raise { counting } => {
            let counting = counting.copy();
            Ok(reach_raise(task, value, counting)?)
        }
        Aim::Select { clauses, other } => {
            let clauses = *clauses;
            let other = *other;
            Ok(reach_select(task, value, clauses, other)?)
        }
        Aim::Match {
            of,
            relation,
            labels,
            branch,
        } => {
            let of = of.copy();
            let relation = *relation;
            let labels = *labels;
            let branch = *branch;
            Ok(reach_match(task, value, of, relation, labels, &branch)?)
        }
        Aim::Low {
            of,
            high,
            labels,
            branch,
        } => {
            let of = of.copy();
            let high = *high;
            let labels = *labels;
            let branch = *branch;
            Ok(reach_low(task, value, of, high, labels, &branch))
        }
        Aim::High {
            of,
            low,
            labels,
            branch,
        } => {
            let of = of.copy();
            let low = low.copy();
            let labels = *labels;
            let branch = *branch;
            Ok(reach_high(task, value, of, &low, labels, &branch)?)
        }
        Aim::Return => Ok(reach_return(task, value)),
        Aim::Forget => Ok(go(task)),
    }
}
