//! Lines to which tasks come in any order, and the calls of shared objects that need lines. What such a call does stands in its
//! own contract; here nothing is promised of it, so that a test that makes many calls is proved fast.
ghost use Rattle.std.specs.Prelude.{◌≡◌, ◌≤◌, [], IfOk, IsTrue};
ghost use Rattle.ci_base.specs.declared.bounds.TheConstants.{MOST_TASKS};
ghost use Rattle.ci_shared.specs.Roster.{seats};

use ci_base::bounds::{MOST_LIVE_TASKS, MOST_TASKS};
use ci_base::{Answer, Place, Reply, Text, Woken};
use ci_lines::Lines;
use ci_queues::Queues;
use ci_sections::Sections;
use ci_sems::Sems;
use std::alloc::Global;
use std::marker::Model;
use std::test::Fail;

/// Lines in which nobody waits.
pub fn nobody(alloc: Global) -> Result<Lines, Fail>
    ensures { IfOk result (λ lines. lines ≡ []) }
{
    match Lines::room(alloc) {
        Ok(lines) => Ok(lines),
        Err(_) => Err(Fail::from("no memory")),
    }
}

// Whether a task of a run can have this number.
fn is_task(task: u32) -> bool
    ensures least { IsTrue result → 1 ≤ task }
    ensures most { IsTrue result → task ≤ MOST_TASKS }
{
    task >= 1 && task as usize <= MOST_TASKS
}

/// Lines, and a number that is at least that of those who wait, and at most 64.
#[derive(Drop)]
pub struct Crowd {
    lines: Lines,
    many: usize,
}

impl Model for Crowd {
    ghost use Rattle.std.specs.Prelude.{List, ◌≤◌, length};
    ghost use Rattle.ci_base.specs.declared.bounds.TheConstants.{MOST_LIVE_TASKS};
    ghost use Rattle.ci_shared.specs.declared.waiter.Waiter.{Waiter};

    ghost Value = { List Waiter };

    ghost view = { λ crowd. crowd.lines };

    ghost invariant = { λ crowd. (length crowd.lines ≤ crowd.many) × (crowd.many ≤ MOST_LIVE_TASKS) };
}

impl Crowd {
    /// Nobody waits.
    pub fn new(alloc: Global) -> Result<Crowd, Fail> {
        let lines = nobody(alloc)?;
        Ok(Crowd { lines, many: 0 })
    }

    /// The task comes to a place, from where it waited, which is the answer. It comes to none where 64 may wait, or where no
    /// task has its number.
    pub fn come(&mut self, place: Place, task: u32, due: Option<u64>) -> Option<Place> {
        let left = self.leave(task);
        if self.many < MOST_LIVE_TASKS && is_task(task) {
            self.lines.join(place, task, due);
            self.many += 1;
        }
        left
    }

    /// The task leaves its line.
    pub fn leave(&mut self, task: u32) -> Option<Place>
        ensures { seats task self.new ≡ [] }
    {
        match self.lines.leave(task) {
            Some(place) => {
                self.many = self.many.saturating_sub(1);
                Some(place)
            }
            None => None,
        }
    }

    /// The first in the line of the place leaves it.
    pub fn take_first(&mut self, place: &Place) -> Option<u32> {
        match self.lines.take_first(place) {
            Some(task) => {
                self.many = self.many.saturating_sub(1);
                Some(task)
            }
            None => None,
        }
    }

    /// The first of those whose limit has come leaves its line.
    pub fn take_due(&mut self, now: u64) -> Option<(u32, Place)> {
        match self.lines.take_due(now) {
            Some(taken) => {
                self.many = self.many.saturating_sub(1);
                Some(taken)
            }
            None => None,
        }
    }

    /// The task asks for a unit of a semaphore at the moment 0. No answer where 64 may wait, or where no
    /// task has its number.
    pub fn wait(&mut self, sems: &mut Sems, task: u32, number: i32, limit: i32) -> Option<Reply> {
        self.leave(task);
        if self.many >= MOST_LIVE_TASKS || !is_task(task) {
            return None;
        }
        self.many += 1;
        Some(sems.wait(&mut self.lines, task, number, limit, 0))
    }

    /// A unit is given to a semaphore; the answer, and who was answered.
    pub fn signal(&mut self, sems: &mut Sems, number: i32) -> (Answer, Woken) {
        let mut woken = Woken::empty();
        let answer = sems.signal(&mut self.lines, number, &mut woken);
        (answer, woken)
    }

    /// A semaphore ends; the answer, and who was answered.
    pub fn end_semaphore(&mut self, sems: &mut Sems, number: i32) -> (Answer, Woken) {
        let mut woken = Woken::empty();
        let answer = sems.shut(&mut self.lines, number, &mut woken);
        (answer, woken)
    }

    /// The task reads from a queue. No answer where 64 may wait, or where no
    /// task has its number.
    pub fn read(
        &mut self,
        queues: &mut Queues,
        task: u32,
        number: i32,
        mode: i32,
    ) -> Option<Reply> {
        self.leave(task);
        if self.many >= MOST_LIVE_TASKS || !is_task(task) {
            return None;
        }
        self.many += 1;
        Some(queues.read(&mut self.lines, task, number, mode))
    }

    /// An element is written into a queue; the answer, and who was answered.
    pub fn write(
        &mut self,
        queues: &mut Queues,
        number: i32,
        sort: i32,
        text: &Text,
    ) -> (Answer, Woken) {
        let mut woken = Woken::empty();
        let answer = queues.write(&mut self.lines, number, sort, text, &mut woken);
        (answer, woken)
    }

    /// A queue ends; the answer, and who was answered.
    pub fn end_queue(&mut self, queues: &mut Queues, number: i32) -> (Answer, Woken) {
        let mut woken = Woken::empty();
        let answer = queues.shut(&mut self.lines, number, &mut woken);
        (answer, woken)
    }

    /// The task enters a section, or waits for it. No answer where 64 may wait, or where no
    /// task has its number.
    pub fn enter(&mut self, sections: &mut Sections, task: u32, text: &Text) -> Option<Reply> {
        self.leave(task);
        if self.many >= MOST_LIVE_TASKS || !is_task(task) {
            return None;
        }
        self.many += 1;
        Some(sections.enter(&mut self.lines, task, text))
    }

    /// The task leaves a section; the answer, and who was answered.
    pub fn depart(&mut self, sections: &mut Sections, task: u32, text: &Text) -> (Answer, Woken) {
        let mut woken = Woken::empty();
        let answer = sections.depart(&mut self.lines, task, text, &mut woken);
        (answer, woken)
    }

    /// The task leaves all its sections; who was answered.
    pub fn depart_all(&mut self, sections: &mut Sections, task: u32) -> Woken {
        let mut woken = Woken::empty();
        sections.depart_all(&mut self.lines, task, &mut woken);
        woken
    }
}
