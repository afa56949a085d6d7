//! Finding a waiter in the list.
ghost use Rattle.std.specs.Prelude.{◌≡◌, ◌<◌, length, Option, Some, slice_get};
ghost use Rattle.ci_shared.specs.declared.waiter.Waiter.{Waiter};
ghost use Rattle.ci_shared.specs.Roster.{first_in, is_due, is_sooner};
ghost use Rattle.ci_lines.specs.Found.{IsAt, better, first_due, waiter_of};

use ci_base::Place;
use ci_shared::Waiter;
use std::collections::VecDeque;

/// Where the first in the line of the place stands.
pub(crate) fn at_place(waiting: &VecDeque<Waiter>, place: &Place) -> Option<usize>
    ensures { IsAt waiting.now.items (first_in place.now waiting.now.items) result }
{
    for i in 0..waiting.len() {
        let waiter = &waiting[i];
        if waiter.place == *place {
            return Some(i);
        }
    }
    None
}

/// Where the task stands.
pub(crate) fn of_task(waiting: &VecDeque<Waiter>, task: u32) -> Option<usize>
    ensures { IsAt waiting.now.items (waiter_of task waiting.now.items) result }
{
    for i in 0..waiting.len() {
        let waiter = &waiting[i];
        if waiter.task == task {
            return Some(i);
        }
    }
    None
}

/// Where the first by limit, and then by task, stands of those whose limit is at most `now`.
pub(crate) fn soonest(waiting: &VecDeque<Waiter>, now: u64) -> Option<usize>
    ensures { IsAt waiting.now.items (first_due now waiting.now.items) result }
{
    let mut best = None;
    let mut at = waiting.len();
    while at > 0 {
        at -= 1;
        best = sooner_of(waiting, now, at, best);
    }
    best
}

// The place `at` where its waiter is due and comes before that at `best`, and else `best`.
fn sooner_of(waiting: &VecDeque<Waiter>, now: u64, at: usize, best: Option<usize>) -> Option<usize>
    ghost soonest: { Option Waiter }
    requires at { at < length waiting.now.items }
    requires best { IsAt waiting.now.items soonest best }
    ensures { (w : Waiter) → slice_get waiting.now.items at ≡ Some w → IsAt waiting.now.items (better now w soonest) result }
{
    if !is_due(&waiting[at], now) {
        return best;
    }
    match best {
        Some(other) => {
            if is_sooner(&waiting[at], &waiting[other]) {
                Some(at)
            } else {
                best
            }
        }
        None => Some(at),
    }
}

// Whether the limit has come.
fn is_due(waiter: &Waiter, now: u64) -> bool
    ensures { result ≡ is_due now waiter.now }
{
    match waiter.limit {
        Some(limit) => limit <= now,
        None => false,
    }
}

// Whether a waiter with a limit comes before another one, by limit and then by task.
fn is_sooner(one: &Waiter, other: &Waiter) -> bool
    ensures { result ≡ is_sooner one.now other.now }
{
    let first = one.limit.unwrap_or(0);
    let second = other.limit.unwrap_or(0);
    first < second || (first == second && one.task < other.task)
}
