//! Which rule of a round applies.
ghost use Rattle.std.specs.Prelude.{◌≡◌, ◌&&◌, nat_lt, not, Some, None, if◌then◌else◌, option_map, slice_get};
ghost use Rattle.ci_world.specs.Serial.{first_above as first_task_above, or_else};
ghost use Rattle.ci_runtime.specs.Choosing.{choice_of, is_able as can_step_at};

use ci_base::{Event, Status};
use ci_store::Store;

/// What a round does.
#[derive(Clone, Copy, Debug, Drop)]
pub(crate) enum Choice {
    /// The run has ended: no event is left, and no task can make a step.
    End,
    /// The run has ended: the budget is used.
    Stop,
    /// The front event is taken.
    Happen,
    /// The task of this number has its turn.
    Turn(u32),
}

/// By the mark of the front event, if one is left, the task whose turn is next, and whether the budget is used.
pub(crate) fn choose_rule(front: Option<bool>, ready: Option<u32>, spent: bool) -> Choice
    ensures { result ≡ choice_of front ready spent }
{
    match front {
        None => match ready {
            None => Choice::End,
            Some(task) => {
                if spent {
                    Choice::Stop
                } else {
                    Choice::Turn(task)
                }
            }
        },
        Some(soon) => {
            if spent {
                return Choice::Stop;
            }
            if soon {
                return Choice::Happen;
            }
            match ready {
                None => Choice::Happen,
                Some(task) => Choice::Turn(task),
            }
        }
    }
}

/// Whether the event at a place is marked to come first, if there is one.
pub(crate) fn mark_at(events: &[Event], at: usize) -> Option<bool>
    ensures { result ≡ option_map (λ e. e.soon) (slice_get events.now at) }
{
    if at < events.len() {
        Some(events[at].soon)
    } else {
        None
    }
}

/// The task whose turn is next, if one can make a step: the first behind the one that had the last turn, or else the first of all.
/// Its time grows with the number of live tasks alone.
pub(crate) fn next_task(store: &Store, last: u32) -> Option<u32>
    ensures { result ≡ or_else (first_task_above last 1 store.now.shared.roster.tasks) (first_task_above 0 1 store.now.shared.roster.tasks) }
{
    match first_above(store, last) {
        Some(task) => Some(task),
        None => first_above(store, 0),
    }
}

/// The first task that can make a step and has a number above this one.
fn first_above(store: &Store, last: u32) -> Option<u32>
    ensures { result ≡ first_task_above last 1 store.now.shared.roster.tasks }
{
    for task in store.live() {
        if *task > last && can_step(store, *task) {
            return Some(*task);
        }
    }
    None
}

/// Whether a task of this number was started and can make a step.
#[tactic(auto, using(crate::proofs::Choosing::able_none, crate::proofs::Choosing::able_ready, crate::proofs::Choosing::able_other))]
pub(crate) fn can_step(store: &Store, task: u32) -> bool
    ensures { result ≡ can_step_at store.now.shared.roster.tasks task }
{
    if task == 0 || task > store.started() {
        return false;
    }
    match store.status(task) {
        Status::Ready => !store.is_suspended(task),
        _ => false,
    }
}

/// What is left of a turn, where it goes on: the request was answered, the task isn't suspended, and ticks and work are left.
pub(crate) fn still_left(answered: bool, suspended: bool, left: u32, rest: u64) -> Option<u32>
    ensures { result ≡ (if answered && not suspended && nat_lt 0 left && nat_lt 100 rest then Some left else None) }
{
    if answered && !suspended && left > 0 && rest > 100 {
        Some(left)
    } else {
        None
    }
}
