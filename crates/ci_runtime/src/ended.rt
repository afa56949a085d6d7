//! What is kept of a run.
ghost use Rattle.std.specs.Prelude.{◌≡◌, ◌≤◌, ◌<◌, ◌+◌, [], ◌∷◌, ◌++◌, if◌then◌else◌, ◌==◌, length, vec_capacity, vec_len};
ghost use Rattle.ci_base.specs.declared.bounds.TheConstants.{MOST_TASKS};
ghost use Rattle.ci_base.specs.declared.limits.Ending.TheVariants.{Finished, Resting};
ghost use Rattle.ci_store.specs.Stored.{live_tasks};
ghost use Rattle.ci_world.specs.Work.{loose_from, loose_of};

use ci_base::{Ending, Loose, LooseList};
use ci_history::{EndState, History};
use ci_store::Store;

/// What is kept of a run that has ended: its history, its loose ticks, and the state in which it ended.
#[derive(Debug, Drop)]
pub struct Ended {
    /// Its entries.
    pub history: History,
    /// The ticks that tasks made after their last entries, by rising numbers of tasks.
    pub loose: LooseList,
    /// How each task stands, the work, the instructions that led to the entries, and how the run ended.
    pub end: EndState,
}

/// How a run ends where no event is left and no task can make a step. Takes no memory.
pub(crate) fn ending_at_rest(store: &Store) -> Ending
    ensures { result ≡ (if length (live_tasks 1 store.now.shared.roster.tasks) == 0 then Finished else Resting) }
{
    if store.live().is_empty() {
        Ending::Finished
    } else {
        Ending::Resting
    }
}

/// Adds the ticks of each task that made some since its last entry, by the numbers of tasks. Takes no memory.
pub(crate) fn add_loose(loose: &mut Vec<Loose>, ticks: &[u32])
    requires none { loose.old.items ≡ [] }
    requires room { length ticks.now ≤ vec_capacity loose.old }
    requires few { length ticks.now ≤ MOST_TASKS }
    ensures { loose.new.items ≡ loose_of ticks.now }
{
    for index in 0..ticks.len() {
        add_one(loose, index as u32 + 1, ticks[index]);
    }
}

/// Adds the ticks of a task, if it made some. Takes no memory.
#[tactic(auto, using(crate::proofs::Closing::one_some, crate::proofs::Closing::one_none))]
fn add_one(loose: &mut Vec<Loose>, task: u32, ticks: u32)
    requires { vec_len loose.old < vec_capacity loose.old }
    ensures items { loose.new.items ≡ loose.old.items ++ loose_from task (ticks ∷ []) }
    ensures long { vec_len loose.new ≤ vec_len loose.old + 1 }
    ensures room { vec_capacity loose.new ≡ vec_capacity loose.old }
{
    if ticks > 0 {
        loose.push_reserved(Loose { task, ticks });
    }
}
