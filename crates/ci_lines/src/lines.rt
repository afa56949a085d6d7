//! All lines, one list by arrival.
ghost use Rattle.std.specs.Prelude.{◌≡◌, ◌≤◌, ◌<◌, ◌↔◌, [], ◌∷◌, ◌++◌, length, slice_get, Some, IsNone, IfSome, IfOk};
ghost use Rattle.ci_base.specs.declared.bounds.TheConstants.{MOST_LIVE_TASKS, MOST_TASKS};
ghost use Rattle.ci_shared.specs.Roster.{Once, first_in, seats, without};
ghost use Rattle.ci_shared.specs.Sections.{after};
ghost use Rattle.ci_lines.specs.Found.{first_due, task_of, task_and_place};

use crate::search::{at_place, of_task, soonest};
use ci_base::bounds::MOST_LIVE_TASKS;
use ci_base::{OutOfMemory, Place};
use ci_shared::Waiter;
use std::alloc::Global;
use std::collections::VecDeque;
use std::marker::Model;

/// The lines of all places, in which at most 64 tasks wait, each once. Contracts see one list of waiters by arrival; the
/// line of a place is what of it has that place.
///
/// Whoever has waited longest is at the front, where mostly somebody leaves: a queue with two ends moves nobody then.
#[derive(Debug, Drop)]
pub struct Lines {
    waiting: VecDeque<Waiter>,
}

impl Model for Lines {
    ghost use Rattle.std.specs.Prelude.{List, ◌≤◌};
    ghost use Rattle.std.specs.VecDeque.{deque_capacity};
    ghost use Rattle.ci_base.specs.declared.bounds.TheConstants.{MOST_LIVE_TASKS};
    ghost use Rattle.ci_shared.specs.declared.waiter.Waiter.{Waiter};
    ghost use Rattle.ci_shared.specs.Roster.{Once};

    ghost Value = { List Waiter };

    ghost view = { λ lines. lines.waiting.items };

    ghost invariant = { λ lines. (MOST_LIVE_TASKS ≤ deque_capacity lines.waiting) × Once lines.waiting.items };
}

impl Lines {
    /// Lines in which nobody waits, with room for 64 tasks.
    pub fn room(alloc: Global) -> Result<Lines, OutOfMemory>
        ensures { IfOk result (λ lines. lines ≡ []) }
    {
        match VecDeque::with_capacity(alloc, MOST_LIVE_TASKS) {
            Ok(waiting) => Ok(Lines { waiting }),
            Err(_) => Err(OutOfMemory),
        }
    }

    /// The task waits at the place, behind all who wait; `due` is its limit in milliseconds. Takes no memory.
    pub fn join(&mut self, place: Place, task: u32, due: Option<u64>)
        requires least { 1 ≤ task }
        requires most { task ≤ MOST_TASKS }
        requires nowhere { seats task self.old ≡ [] }
        requires room { length self.old < MOST_LIVE_TASKS }
        ensures { self.new ≡ self.old ++ record { task = task; place = place; limit = due } ∷ [] }
    {
        let waiter = Waiter {
            task,
            place,
            limit: due,
        };
        self.waiting.push_back_reserved(waiter);
    }

    /// The first in the line of the place leaves it.
    pub fn take_first(&mut self, place: &Place) -> Option<u32>
        ensures task { result ≡ task_of (first_in place.now self.old) }
        ensures rest { self.new ≡ after (first_in place.now self.old) self.old }
        ensures once { Once self.old }
    {
        match at_place(&self.waiting, place) {
            Some(at) => Some(self.take_at(at).task),
            None => None,
        }
    }

    /// The task leaves its line, and the answer is its place there.
    pub fn leave(&mut self, task: u32) -> Option<Place>
        ensures nowhere { IsNone result ↔ (seats task self.old ≡ []) }
        ensures place { IfSome result (λ place. seats task self.old ≡ place ∷ []) }
        ensures rest { self.new ≡ without task self.old }
    {
        match of_task(&self.waiting, task) {
            Some(at) => Some(self.take_at(at).place),
            None => None,
        }
    }

    /// Where the task waits.
    pub fn place(&self, task: u32) -> Option<Place>
        ensures nowhere { IsNone result ↔ (seats task self.now ≡ []) }
        ensures place { IfSome result (λ place. seats task self.now ≡ place ∷ []) }
    {
        match of_task(&self.waiting, task) {
            Some(at) => {
                let waiter = &self.waiting[at];
                Some(waiter.place.copy())
            }
            None => None,
        }
    }

    /// Of those whose limit is at most `now` the first by limit, and then by task, leaves its line.
    pub fn take_due(&mut self, now: u64) -> Option<(u32, Place)>
        ensures found { result ≡ task_and_place (first_due now self.old) }
        ensures rest { self.new ≡ after (first_due now self.old) self.old }
        ensures once { Once self.old }
    {
        match soonest(&self.waiting, now) {
            Some(at) => {
                let waiter = self.take_at(at);
                Some((waiter.task, waiter.place))
            }
            None => None,
        }
    }

    // The waiter at a place of the list leaves it.
    fn take_at(&mut self, at: usize) -> Waiter
        requires { at < length self.old }
        ensures taken { slice_get self.old at ≡ Some result }
        ensures rest { self.new ≡ without result.task self.old }
        ensures once { Once self.old }
    {
        match self.waiting.remove(at) {
            Some(waiter) => waiter,
            None => unreachable!(),
        }
    }
}
