//! All semaphores, one list by their making.
ghost use Rattle.std.specs.Prelude.{◌≡◌, ◌≤◌, ◌<◌, ◌+◌, ◌^◌, pos, ◌≤ℤ◌, ◌<ℤ◌, [], length, All, IfOk};
ghost use Rattle.ci_base.specs.declared.bounds.TheConstants.{MOST_LIVE_TASKS, MOST_TASKS};
ghost use Rattle.ci_shared.specs.Roster.{seats};
ghost use Rattle.ci_shared.specs.Rows.{Follows, FollowsAttempt, FollowsNaming};
ghost use Rattle.ci_shared.specs.Semaphores.{limit_in, sem_open, sem_wait, sem_signal, sem_close, semaphore_named};

use crate::find::{by_name, by_number};
use ci_base::bounds::{MOST_COUNT, MOST_OBJECTS};
use ci_base::{Answer, Delivery, OutOfMemory, Place, Reply, Text, Woken};
use ci_lines::Lines;
use ci_shared::Semaphore;
use ci_shared::answers::{coded, numbered, refused};
use ci_shared::words::{is_empty, is_last, is_mode};
use std::alloc::Global;
use std::marker::Model;

/// The semaphores, at most 256. Contracts see the list of them in the order in which they were made.
#[derive(Debug, Drop)]
pub struct Sems {
    kept: Vec<Semaphore>,
}

impl Model for Sems {
    ghost use Rattle.std.specs.Prelude.{List, ◌≤◌};
    ghost use Rattle.std.specs.Vec.{vec_capacity};
    ghost use Rattle.ci_base.specs.declared.bounds.TheConstants.{MOST_OBJECTS};
    ghost use Rattle.ci_shared.specs.declared.object.Semaphore.{Semaphore};

    ghost Value = { List Semaphore };

    ghost view = { λ sems. sems.kept.items };

    ghost invariant = { λ sems. MOST_OBJECTS ≤ vec_capacity sems.kept };
}

impl Sems {
    /// No semaphore, with room for 256.
    pub fn room(alloc: Global) -> Result<Sems, OutOfMemory>
        ensures { IfOk result (λ sems. sems ≡ []) }
    {
        match Vec::with_capacity(alloc, MOST_OBJECTS) {
            Ok(kept) => Ok(Sems { kept }),
            Err(_) => Err(OutOfMemory),
        }
    }

    /// Finds the semaphore of this name in mode 0, makes it in mode 1, and finds or makes it in mode 2; `next` is the
    /// number of a new one. Takes no memory.
    pub fn name(&mut self, text: &Text, mode: i32, next: &mut i32) -> Answer
        requires least { pos 1 ≤ℤ next.old }
        requires above { All (λ semaphore. semaphore.number <ℤ next.old) self.old }
        ensures { FollowsNaming (sem_open text.now mode next.old self.old) result self.new next.new }
    {
        if is_empty(text) || !is_mode(mode) {
            return refused(10);
        }
        if let Some(number) = by_name(self.kept.as_slice(), text) {
            return if mode == 1 {
                refused(4)
            } else {
                numbered(number)
            };
        }
        if mode == 0 {
            return refused(5);
        }
        if self.kept.len() >= MOST_OBJECTS {
            return refused(11);
        }
        if is_last(*next) {
            return refused(11);
        }
        let number = *next;
        let semaphore = Semaphore {
            number,
            name: text.copy(),
            count: 1,
        };
        self.kept.push_reserved(semaphore);
        *next = number + 1;
        numbered(number)
    }

    /// The number of the semaphore of this name. Takes no memory.
    pub fn named(&self, text: &Text) -> Option<i32>
        ensures { result ≡ semaphore_named text.now self.now }
    {
        by_name(self.kept.as_slice(), text)
    }

    /// The task takes a unit, or waits for one: at most `limit` seconds from the moment `now`, in milliseconds, or for ever
    /// where the limit is -1. Takes no memory.
    pub fn wait(&mut self, lines: &mut Lines, task: u32, number: i32, limit: i32, now: u64) -> Reply
        requires least { 1 ≤ task }
        requires most { task ≤ MOST_TASKS }
        requires nowhere { seats task lines.old ≡ [] }
        requires room { length lines.old < MOST_LIVE_TASKS }
        requires moment { now < 2 ^ 62 }
        ensures { FollowsAttempt (sem_wait number limit now self.old) task result self.new lines.old lines.new }
    {
        let Some(at) = by_number(self.kept.as_slice(), number) else {
            return Reply::Answer(coded(1));
        };
        if limit < -1 {
            return Reply::Answer(coded(10));
        }
        let count = self.kept[at].count;
        if count > 0 {
            self.kept[at].count = count - 1;
            return Reply::Answer(coded(0));
        }
        if limit == 0 {
            return Reply::Answer(coded(2));
        }
        lines.join(Place::Semaphore(number), task, due_in(now, limit));
        Reply::Waits
    }

    /// Gives a unit: to the first in line, or to the semaphore. Takes no memory.
    pub fn signal(&mut self, lines: &mut Lines, number: i32, woken: &mut Woken) -> Answer
        requires { length woken.old + length lines.old ≤ MOST_LIVE_TASKS }
        ensures { Follows (sem_signal number self.old lines.old) result self.new lines.old lines.new woken.old woken.new }
    {
        let Some(at) = by_number(self.kept.as_slice(), number) else {
            return coded(1);
        };
        if let Some(task) = lines.take_first(&Place::Semaphore(number)) {
            woken.add(Delivery {
                task,
                answer: coded(0),
            });
            return coded(0);
        }
        let count = self.kept[at].count;
        if count >= MOST_COUNT {
            return coded(11);
        }
        self.kept[at].count = count + 1;
        coded(0)
    }

    /// Ends the semaphore: all who wait for it are answered 1. Takes no memory.
    pub fn shut(&mut self, lines: &mut Lines, number: i32, woken: &mut Woken) -> Answer
        requires { length woken.old + length lines.old ≤ MOST_LIVE_TASKS }
        ensures { Follows (sem_close number self.old lines.old) result self.new lines.old lines.new woken.old woken.new }
    {
        let Some(at) = by_number(self.kept.as_slice(), number) else {
            return coded(1);
        };
        lines.turn_away(&Place::Semaphore(number), woken);
        self.kept.remove(at);
        coded(0)
    }
}

// The limit of a task that waits so many seconds from now, or for ever where the number is negative.
fn due_in(now: u64, seconds: i32) -> Option<u64>
    requires { now < 2 ^ 62 }
    ensures { result ≡ limit_in now seconds }
{
    if seconds < 0 {
        None
    } else {
        Some(now + seconds as u64 * 1000)
    }
}
