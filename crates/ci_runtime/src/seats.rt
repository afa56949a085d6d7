//! The machines of the tasks.
ghost use Rattle.std.specs.Prelude.{◌≡◌, ◌<◌, ◌≤◌, [], ℕ, Some, IfOk, length, count_by, vec_len, vec_capacity};
ghost use Rattle.ci_base.specs.declared.bounds.TheConstants.{MOST_LIVE_TASKS, MOST_TASKS};
ghost use Rattle.ci_base.specs.declared.task.Trail.{Trail};
ghost use Rattle.ci_task.specs.Moved.{ArgsFit, instructions_of, moved};
ghost use Rattle.ci_world.specs.Lists.{at_task};
ghost use Rattle.ci_runtime.specs.Seats.{BornSettled, FreedAt, RanAt, ResumedAt, Runner, is_taken};

use ci_base::bounds::{MOST_LIVE_TASKS, MOST_TASKS};
use ci_base::{Answer, Birth, OutOfMemory};
use ci_task::{Pause, TaskMachine};
use ci_verify::Verified;
use std::alloc::Global;
use std::marker::Model;

/// A seat for each task that was started, in which its machine is while the task is live; and the spare machines. Contracts see
/// the seats.
#[derive(Debug, Drop)]
pub(crate) struct Seats {
    seats: Vec<Option<TaskMachine>>,
    spare: Vec<TaskMachine>,
}

impl Model for Seats {
    ghost use Rattle.std.specs.Prelude.{List, ◌≡◌, ◌≤◌, ◌+◌, count_by, vec_len, vec_capacity};
    ghost use Rattle.ci_base.specs.declared.bounds.TheConstants.{MOST_LIVE_TASKS, MOST_TASKS};
    ghost use Rattle.ci_runtime.specs.Seats.{Seat, is_taken};

    ghost Value = { List Seat };

    ghost view = { λ s. s.seats.items };

    // there are as many machines as there can be live tasks
    ghost invariant = { λ s. (vec_len s.spare + count_by is_taken s.seats.items ≡ MOST_LIVE_TASKS) × (MOST_LIVE_TASKS ≤ vec_capacity s.spare) × (MOST_TASKS ≤ vec_capacity s.seats) };
}

impl Seats {
    /// No seats yet, and room for all tasks of a run, with a machine for each that can be live.
    pub fn room(alloc: Global) -> Result<Seats, OutOfMemory>
        ensures { IfOk result (λ seats. seats ≡ []) }
    {
        let Ok(seats) = Vec::with_capacity(alloc, MOST_TASKS) else {
            return Err(OutOfMemory);
        };
        let spare = machines(alloc)?;
        Ok(Seats { seats, spare })
    }

    /// A spare machine begins a new task. Takes no memory.
    pub fn begin(&mut self, code: &Verified, birth: &Birth)
        requires spare { count_by is_taken self.old < MOST_LIVE_TASKS }
        requires room { length self.old < MOST_TASKS }
        requires fits { ArgsFit code.now birth.now.function birth.now.args }
        ensures { BornSettled code.now (Some birth.now) self.old self.new }
    {
        if let Some(mut machine) = self.spare.pop() {
            machine.begin(code, birth.function, &birth.args);
            self.seats.push_reserved(Some(machine));
        }
    }

    /// The machine of a task runs. Takes no memory.
    pub fn run(&mut self, code: &Verified, task: u32, ticks: u32) -> Pause
        requires one { 1 ≤ task }
        requires there { (m : Runner) × (at_task self.old task ≡ Some (Some m)) × ((x : Trail) × (k : ℕ) × moved code.now x k m) }
        ensures { RanAt code.now task ticks result self.old self.new }
    {
        match &mut self.seats[task as usize - 1] {
            Some(machine) => machine.run(code, ticks),
            None => Pause::OutOfTicks { ticks },
        }
    }

    /// The instructions of a task since its last answer. Takes no memory.
    pub fn instructions(&self, task: u32) -> u64
        requires one { 1 ≤ task }
        requires there { (m : Runner) × (at_task self.now task ≡ Some (Some m)) }
        ensures { (m : Runner) → at_task self.now task ≡ Some (Some m) → result ≡ instructions_of m }
    {
        match &self.seats[task as usize - 1] {
            Some(machine) => machine.instructions(),
            None => 0,
        }
    }

    /// The machine of a task takes an answer, if it is there. Takes no memory.
    pub fn resume(&mut self, task: u32, answer: &Answer)
        ensures { ResumedAt task answer.now self.old self.new }
    {
        if task > 0 && (task as usize) <= self.seats.len() {
            if let Some(machine) = &mut self.seats[task as usize - 1] {
                machine.resume(answer);
            }
        }
    }

    /// The machine of a task is spare from now on. Takes no memory.
    pub fn free(&mut self, task: u32)
        ensures { FreedAt task self.old self.new }
    {
        if task > 0 && (task as usize) <= self.seats.len() {
            if let Some(machine) = self.seats[task as usize - 1].take() {
                self.spare.push_reserved(machine);
            }
        }
    }
}

/// A machine for each task that can be live.
fn machines(alloc: Global) -> Result<Vec<TaskMachine>, OutOfMemory>
    ensures { IfOk result (λ spare. (vec_len spare ≡ MOST_LIVE_TASKS) × (MOST_LIVE_TASKS ≤ vec_capacity spare)) }
{
    let Ok(mut spare) = Vec::with_capacity(alloc, MOST_LIVE_TASKS) else {
        return Err(OutOfMemory);
    };
    for _ in 0..MOST_LIVE_TASKS {
        spare.push_reserved(TaskMachine::room(alloc)?);
    }
    Ok(spare)
}
