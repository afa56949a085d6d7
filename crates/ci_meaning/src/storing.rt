//! Variables that are set.
ghost use Rattle.std.specs.Prelude.{◌≡◌, slice_set};
ghost use Rattle.ci_tree.specs.LeftOut.{Heads};
ghost use Rattle.ci_tree.specs.SeenBound.{scalar_of};
ghost use Rattle.ci_meaning.specs.Held.{after_of, aim_of, wants_of, task_of, configuration_of};
ghost use Rattle.ci_meaning.specs.Moves as moves;

use crate::parts::Hand;
use crate::tree_task::TreeTask;
use ci_base::Value;
use ci_tree::bound::Scalar;

/// The scalar is set, and then the value `after` is in hand, or nothing. A shared cell is set by a request of its own.
pub fn store(task: &mut TreeTask, to: Scalar, value: Value, after: Option<Value>)
    ensures { (heads : Heads) → configuration_of heads task.new ≡ moves.stored (scalar_of to) value (after_of after (wants_of heads task.old.frame.wants) (aim_of heads task.old.frame.aim)) (task_of heads task.old) }
{
    match to {
        Scalar::Local(i) => {
            set_local(task, i, value);
            task.hand = match after {
                Some(value) => Hand::Give { value },
                None => Hand::Go,
            };
        }
        Scalar::Cell(cell) => task.hand = Hand::Write { cell, value, after },
    }
}

fn set_local(task: &mut TreeTask, i: usize, value: Value)
    ensures { task.new ≡ record task.old { frame = record task.old.frame { locals = slice_set task.old.frame.locals i value } } }
{
    if i < task.frame.locals.len() {
        task.frame.locals.set(i, value);
    }
}
