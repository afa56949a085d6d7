//! All tasks, one list by their numbers.
ghost use Rattle.std.specs.Prelude.{◌≡◌, ◌≤◌, ◌<◌, ◌++◌, ◌∷◌, suc, true, false, Some, List, [], length, option_map, IfOk, IfSome};
ghost use Rattle.ci_base.specs.declared.bounds.TheConstants.{MOST_LIVE_TASKS, MOST_TASKS};
ghost use Rattle.ci_base.specs.declared.place.Status.TheVariants as statuses;
ghost use Rattle.ci_shared.specs.declared.waiter.Waiter.{Waiter};
ghost use Rattle.ci_shared.specs.Rows.{plain};
ghost use Rattle.ci_shared.specs.Started.{least_live, spawn};
ghost use Rattle.ci_shared.specs.Words.{whole};
ghost use Rattle.ci_tasktab.specs.Births.{IsWithin, Spawns, fresh_slot};
ghost use Rattle.ci_tasktab.specs.Slots.{is_crowded, is_live, is_live_at, live_in, marked, set_status, slot_at, status_at, tasks_in, waiting};

use crate::arguments::arguments;
use crate::functions::{first_running, public_named};
use crate::slot::{Slot, drop_number, is_live_at, set_mark, set_status, waiting};
use ci_base::bounds::{MOST_LIVE_TASKS, MOST_TASKS};
use ci_base::{Answer, Birth, Layout, OutOfMemory, Status, Text};
use ci_shared::answers::coded;
use ci_shared::words::whole;
use std::alloc::Global;
use std::marker::Model;

/// The tasks that were started, at most 4,096, of which at most 64 are live. Contracts see the list of them by their
/// numbers, which count from 1. No call walks over those that have ended.
#[derive(Debug, Drop)]
pub struct TaskTable {
    slots: Vec<Slot>,
    live: Vec<u32>,
}

impl Model for TaskTable {
    ghost use Rattle.std.specs.Prelude.{List, ◌≡◌, ◌≤◌, length};
    ghost use Rattle.std.specs.Vec.{vec_capacity};
    ghost use Rattle.ci_base.specs.declared.bounds.TheConstants.{MOST_LIVE_TASKS, MOST_TASKS};
    ghost use Rattle.ci_tasktab.specs.declared.slot.Slot.{Slot as Member};
    ghost use Rattle.ci_tasktab.specs.Slots.{live_in};

    ghost Value = { List Member };

    ghost view = { λ table. table.slots.items };

    ghost invariant = { λ table. (MOST_TASKS ≤ vec_capacity table.slots) × (MOST_LIVE_TASKS ≤ vec_capacity table.live) × (length table.slots.items ≤ MOST_TASKS) × (length table.live.items ≤ MOST_LIVE_TASKS) × (table.live.items ≡ live_in table.slots.items) };
}

impl TaskTable {
    /// No task, with room for 4,096.
    pub fn room(alloc: Global) -> Result<TaskTable, OutOfMemory>
        ensures { IfOk result (λ table. table ≡ []) }
    {
        let Ok(slots) = Vec::with_capacity(alloc, MOST_TASKS) else {
            return Err(OutOfMemory);
        };
        match Vec::with_capacity(alloc, MOST_LIVE_TASKS) {
            Ok(live) => Ok(TaskTable { slots, live }),
            Err(_) => Err(OutOfMemory),
        }
    }

    /// Starts a task of the first PUBLIC function of the name, with the arguments in the list and the defaults of those left
    /// out. 5: there is no such function. 10: the list isn't one, or doesn't fit. 11: 64 tasks are live, or 4,096 were
    /// started. Takes no memory.
    pub fn spawn(&mut self, layout: &Layout, name: &Text, list: &Text) -> Result<Birth, u8>
        requires { IsWithin layout.now.functions }
        ensures tasks { (ws : List Waiter) → Spawns (spawn layout.now.functions (tasks_in ws self.old) name.now list.now) result self.old self.new }
        ensures within { IfOk result (λ birth. birth.task ≤ MOST_TASKS) }
    {
        let functions = layout.functions.members();
        let Some(function) = public_named(functions, name) else {
            return Err(5);
        };
        let Some(args) = arguments(functions, function, list) else {
            return Err(10);
        };
        if self.is_full() {
            return Err(11);
        }
        let function = function as u32;
        let task = self.add(function);
        Ok(Birth {
            task,
            function,
            args,
        })
    }

    /// The task ends by itself: with 0, or by the error of this number. Takes no memory.
    pub fn finish(&mut self, task: u32, code: u8)
        requires { is_live_at self.old task ≡ true }
        ensures { self.new ≡ set_status (statuses.Ended code) task self.old }
    {
        self.end(task, Status::Ended(code));
    }

    /// The task is killed. Takes no memory.
    pub fn kill(&mut self, task: u32)
        requires { is_live_at self.old task ≡ true }
        ensures { self.new ≡ set_status statuses.Killed task self.old }
    {
        self.end(task, Status::Killed);
    }

    /// The task waits from now on, or is ready. Takes no memory.
    pub fn set_waits(&mut self, task: u32, waits: bool)
        requires { is_live_at self.old task ≡ true }
        ensures { self.new ≡ set_status (waiting waits) task self.old }
    {
        set_status(&mut self.slots, task, waiting(waits));
    }

    /// Marks the task as suspended; 1 where it isn't live. Takes no memory.
    pub fn suspend(&mut self, task: i32) -> Answer
        ensures answer { result ≡ plain (marked true (whole task) self.old).reply }
        ensures tasks { self.new ≡ (marked true (whole task) self.old).objects }
    {
        self.mark(whole(task), true)
    }

    /// Clears that mark of the task; 1 where it isn't live. Takes no memory.
    pub fn wake(&mut self, task: i32) -> Answer
        ensures answer { result ≡ plain (marked false (whole task) self.old).reply }
        ensures tasks { self.new ≡ (marked false (whole task) self.old).objects }
    {
        self.mark(whole(task), false)
    }

    /// How the task stands. Takes no memory.
    pub fn status(&self, task: u32) -> Status
        requires least { 1 ≤ task }
        requires most { task ≤ length self.now }
        ensures { status_at self.now task ≡ Some result }
    {
        self.slots[task as usize - 1].status
    }

    /// Whether the task is marked as suspended. Takes no memory.
    pub fn is_suspended(&self, task: u32) -> bool
        requires least { 1 ≤ task }
        requires most { task ≤ length self.now }
        ensures { option_map (λ slot. slot.suspended) (slot_at self.now task) ≡ Some result }
    {
        self.slots[task as usize - 1].suspended
    }

    /// The least live task of a function of this name. Takes no memory.
    pub fn find(&self, layout: &Layout, name: &Text) -> Option<u32>
        ensures task { (ws : List Waiter) → result ≡ least_live layout.now.functions name.now 1 (tasks_in ws self.now) }
        ensures within { IfSome result (λ task. task ≤ MOST_TASKS) }
    {
        first_running(
            layout.functions.members(),
            name,
            self.slots.as_slice(),
            self.live.as_slice(),
        )
    }

    /// Whether the number is that of a live task. Takes no memory.
    pub fn is_live(&self, task: u32) -> bool
        ensures { result ≡ is_live_at self.now task }
    {
        is_live_at(self.slots.as_slice(), task)
    }

    /// How many tasks were started. Takes no memory.
    pub fn count(&self) -> u32
        ensures value { result ≡ length self.now }
        ensures within { result ≤ MOST_TASKS }
    {
        self.slots.len() as u32
    }

    /// The numbers of the live tasks, from the least, at most 64. Takes no memory.
    pub fn live(&self) -> &[u32]
        ensures value { result.now ≡ live_in self.now }
        ensures within { length result.now ≤ MOST_LIVE_TASKS }
    {
        self.live.as_slice()
    }

    // Whether no further task can be started.
    fn is_full(&self) -> bool
        ensures exact { result ≡ is_crowded self.now }
        ensures room { result ≡ false → length self.now < MOST_TASKS }
    {
        MOST_LIVE_TASKS <= self.live.len() || MOST_TASKS <= self.slots.len()
    }

    // A new task of the function stands behind the others.
    fn add(&mut self, function: u32) -> u32
        requires room { length self.old < MOST_TASKS }
        requires few { length (live_in self.old) < MOST_LIVE_TASKS }
        ensures number { result ≡ suc (length self.old) }
        ensures tasks { self.new ≡ self.old ++ fresh_slot function ∷ [] }
    {
        let task = self.count() + 1;
        let slot = Slot {
            function,
            status: Status::Ready,
            suspended: false,
        };
        self.slots.push_reserved(slot);
        self.live.push_reserved(task);
        task
    }

    // The live task is no longer live.
    fn end(&mut self, task: u32, status: Status)
        requires live { is_live_at self.old task ≡ true }
        requires dead { is_live status ≡ false }
        ensures { self.new ≡ set_status status task self.old }
    {
        set_status(&mut self.slots, task, status);
        drop_number(&mut self.live, task);
    }

    // The mark of a live task is set or cleared.
    fn mark(&mut self, task: u32, suspended: bool) -> Answer
        ensures answer { result ≡ plain (marked suspended task self.old).reply }
        ensures tasks { self.new ≡ (marked suspended task self.old).objects }
    {
        if !self.is_live(task) {
            return coded(1);
        }
        set_mark(&mut self.slots, task, suspended);
        coded(0)
    }
}
