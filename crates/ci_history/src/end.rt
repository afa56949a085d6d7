//! How the tasks of a run stand at its end.
ghost use Rattle.std.specs.Prelude.{◌≡◌, ◌<◌, ◌≤◌, [], ◌∷◌, ◌++◌, length, IfOk};
ghost use Rattle.ci_base.specs.declared.bounds.TheConstants.{MOST_TASKS};

use ci_base::bounds::MOST_TASKS;
use ci_base::{Ending, OutOfMemory, Place, Status, Text};
use std::alloc::Global;
use std::marker::Model;

/// How a task stands at the end of a run.
#[derive(Debug, Drop)]
pub struct TaskEnd {
    /// The name of its function, as it is declared.
    pub name: Text,
    pub status: Status,
    /// Whether it is suspended.
    pub suspended: bool,
    /// Where it waits, if it does.
    pub place: Option<Place>,
    /// The task that owns the critical section for which it waits, if it waits for one.
    pub owner: Option<u32>,
}

/// How the tasks of a run stand at its end, by their numbers from 1: a list of at most 4,096, which contracts see.
#[derive(Debug, Drop)]
pub struct TaskEndList {
    kept: Vec<TaskEnd>,
}

impl Model for TaskEndList {
    ghost use Rattle.ci_base.specs.declared.bounds.TheConstants.{MOST_TASKS};
    ghost use Rattle.std.specs.Prelude.{List, ◌≡◌, ◌≤◌, length, vec_capacity};
    ghost use Rattle.ci_history.specs.declared.end.TaskEnd.{TaskEnd};

    ghost Value = { List TaskEnd };

    ghost view = { λ list. list.kept.items };

    // the room for all tasks is there from the start
    ghost invariant = { λ list. (length list.kept.items ≤ MOST_TASKS) × (vec_capacity list.kept ≡ MOST_TASKS) };
}

impl TaskEndList {
    /// No tasks, and room for all that a run may have.
    pub fn room(alloc: Global) -> Result<TaskEndList, OutOfMemory>
        ensures { IfOk result (λ list. list ≡ []) }
    {
        match Vec::with_capacity(alloc, MOST_TASKS) {
            Ok(kept) => Ok(TaskEndList { kept }),
            Err(_) => Err(OutOfMemory),
        }
    }

    /// Adds the next task. Takes no memory.
    pub fn add(&mut self, end: TaskEnd)
        requires { length self.old < MOST_TASKS }
        ensures { self.new ≡ self.old ++ end ∷ [] }
    {
        self.kept.push_reserved(end);
    }

    /// The tasks, by their numbers from 1.
    pub fn members(&self) -> &[TaskEnd]
        ensures value { result.now ≡ self.now }
        ensures within { length result.now ≤ MOST_TASKS }
    {
        self.kept.as_slice()
    }
}

/// How a run ended.
#[derive(Debug, Drop)]
pub struct EndState {
    pub tasks: TaskEndList,
    /// The ticks of the run, and 100 for each of its entries.
    pub work: u64,
    /// The number of instructions that led to its entries.
    pub instructions: u64,
    pub ending: Ending,
}
