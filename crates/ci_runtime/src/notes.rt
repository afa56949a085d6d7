//! What a run notes.
ghost use Rattle.std.specs.Prelude.{◌≡◌, ◌<◌, ◌≤◌, Some, All, IfOk, IfSome, length, map};
ghost use Rattle.ci_base.specs.declared.bounds.TheConstants.{MOST_TASKS};
ghost use Rattle.ci_shared.specs.Laws.{functions as functions_of};
ghost use Rattle.ci_world.specs.Lists.{at_task};
ghost use Rattle.ci_world.specs.Work.{loose_of};
ghost use Rattle.ci_runtime.specs.EndStates.{task_end};
ghost use Rattle.ci_runtime.specs.Notes.{nothing_noted, with_entry, with_ticks};

use crate::ended::{Ended, add_loose};
use crate::ends::add_ends;
use ci_base::bounds::MOST_TASKS;
use ci_base::{Birth, Ending, Entry, Head, Loose, LooseList, OutOfMemory};
use ci_history::{EndState, History, TaskEndList};
use ci_store::Store;
use std::alloc::Global;
use std::marker::Model;

/// The history, and for each task that was started its function and its ticks since its last entry. Contracts see the lists.
#[derive(Debug, Drop)]
pub(crate) struct Notes {
    history: History,
    ticks: Vec<u32>,
    functions: Vec<u32>,
    /// Room for the loose ticks of all tasks.
    loose: Vec<Loose>,
    /// Room for how all tasks stand at the end.
    ends: TaskEndList,
}

impl Model for Notes {
    ghost use Rattle.std.specs.Prelude.{◌≡◌, ◌≤◌, [], vec_len, vec_capacity};
    ghost use Rattle.ci_base.specs.declared.bounds.TheConstants.{MOST_TASKS};
    ghost use Rattle.ci_runtime.specs.Notes.{Noted};

    ghost Value = { Noted };

    ghost view = { λ n. record { entries = n.history.entries; room = n.history.room; ticks = n.ticks.items; functions = n.functions.items } };

    ghost invariant = { λ n. (vec_len n.functions ≡ vec_len n.ticks) × (MOST_TASKS ≤ vec_capacity n.ticks) × (vec_len n.ticks ≤ MOST_TASKS) × (MOST_TASKS ≤ vec_capacity n.functions) × (n.loose.items ≡ []) × (MOST_TASKS ≤ vec_capacity n.loose) × (n.ends ≡ []) };
}

impl Notes {
    /// Nothing noted, and room for so many entries and for all tasks of a run.
    pub fn room(alloc: Global, entries: u32) -> Result<Notes, OutOfMemory>
        ensures { IfOk result (λ notes. notes ≡ nothing_noted entries) }
    {
        let history = History::room(alloc, entries)?;
        let Ok(ticks) = Vec::with_capacity(alloc, MOST_TASKS) else {
            return Err(OutOfMemory);
        };
        let Ok(functions) = Vec::with_capacity(alloc, MOST_TASKS) else {
            return Err(OutOfMemory);
        };
        let Ok(loose) = Vec::with_capacity(alloc, MOST_TASKS) else {
            return Err(OutOfMemory);
        };
        let ends = TaskEndList::room(alloc)?;
        Ok(Notes {
            history,
            ticks,
            functions,
            loose,
            ends,
        })
    }

    /// The ticks of a task since its last entry. Takes no memory.
    pub fn ticks_of(&self, task: u32) -> u32
        requires least { 1 ≤ task }
        requires most { task ≤ length self.now.ticks }
        ensures { at_task self.now.ticks task ≡ Some result }
    {
        self.ticks[task as usize - 1]
    }

    /// The task has made so many ticks. Takes no memory.
    pub fn set_ticks(&mut self, task: u32, ticks: u32)
        requires least { 1 ≤ task }
        requires most { task ≤ length self.old.ticks }
        ensures { self.new ≡ with_ticks self.old task ticks }
    {
        self.ticks[task as usize - 1] = ticks;
    }

    /// Adds an entry, by which a task may be started. Takes no memory.
    pub fn add(&mut self, entry: Entry, birth: &Option<Birth>)
        requires room { length self.old.entries < self.old.room }
        requires born { IfSome birth.now (λ b. length self.old.ticks < MOST_TASKS) }
        ensures { self.new ≡ with_entry self.old entry birth.now }
    {
        self.history.add(entry);
        if let Some(birth) = birth {
            self.ticks.push_reserved(0);
            self.functions.push_reserved(birth.function);
        }
    }

    /// The entries, in order.
    pub fn entries(&self) -> &[Entry]
        ensures { result.now ≡ self.now.entries }
    {
        self.history.entries()
    }

    /// The ticks of each task since its last entry, by the numbers of tasks.
    pub fn ticks(&self) -> &[u32]
        ensures { result.now ≡ self.now.ticks }
    {
        self.ticks.as_slice()
    }

    /// The functions of all tasks, by the numbers of tasks.
    pub fn functions(&self) -> &[u32]
        ensures { result.now ≡ self.now.functions }
    {
        self.functions.as_slice()
    }

    /// What is kept of a run that ends so after so many instructions, with these functions and so much work. Takes no memory.
    pub fn into_ended(
        self,
        store: &Store,
        heads: &[Head],
        work: u64,
        instructions: u64,
        ending: Ending,
    ) -> Ended
        requires heads { heads.now ≡ store.now.basis.functions }
        requires functions { self.functions ≡ functions_of store.now.shared.roster.tasks }
        requires named { All (λ f. f < length heads.now) self.functions }
        ensures history { result.history.entries ≡ self.entries }
        ensures loose { result.loose ≡ loose_of self.ticks }
        ensures end { result.end ≡ record { tasks = map (task_end store.now.basis store.now.shared) store.now.shared.roster.tasks; work = work; instructions = instructions; ending = ending } }
    {
        let mut loose = self.loose;
        let mut tasks = self.ends;
        add_loose(&mut loose, self.ticks.as_slice());
        add_ends(&mut tasks, store, heads, self.functions.as_slice());
        Ended {
            history: self.history,
            loose: LooseList::of(loose),
            end: EndState {
                tasks,
                work,
                instructions,
                ending,
            },
        }
    }
}
