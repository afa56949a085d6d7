//! How the tasks of a run stand at its end.
ghost use Rattle.std.specs.Prelude.{◌≡◌, ◌≤◌, ◌<◌, [], Some, All, length, map, option_map};
ghost use Rattle.ci_shared.specs.Laws.{functions as functions_of};
ghost use Rattle.ci_world.specs.Lists.{at_task};
ghost use Rattle.ci_runtime.specs.EndStates.{owner_at, task_end};

use ci_base::{Head, Place};
use ci_history::{TaskEnd, TaskEndList};
use ci_store::Store;

/// Adds how each task of a run stands, by the numbers of tasks. The functions are those of the tasks. Takes no memory.
pub(crate) fn add_ends(ends: &mut TaskEndList, store: &Store, heads: &[Head], functions: &[u32])
    requires none { ends.old ≡ [] }
    requires heads { heads.now ≡ store.now.basis.functions }
    requires functions { functions.now ≡ functions_of store.now.shared.roster.tasks }
    requires named { All (λ f. f < length heads.now) functions.now }
    ensures { ends.new ≡ map (task_end store.now.basis store.now.shared) store.now.shared.roster.tasks }
{
    for index in 0..store.started() {
        let function = functions[index as usize];
        ends.add(end_of(store, heads, function, index + 1));
    }
}

/// How the task of this number stands, which is of this function. Takes no memory.
fn end_of(store: &Store, heads: &[Head], function: u32, task: u32) -> TaskEnd
    requires heads { heads.now ≡ store.now.basis.functions }
    requires named { function < length heads.now }
    requires least { 1 ≤ task }
    requires most { task ≤ length store.now.shared.roster.tasks }
    requires function { at_task (functions_of store.now.shared.roster.tasks) task ≡ Some function }
    ensures { option_map (task_end store.now.basis store.now.shared) (at_task store.now.shared.roster.tasks task) ≡ Some result }
{
    let place = store.place(task);
    let owner = owner_of(store, &place);
    TaskEnd {
        name: heads[function as usize].name.copy(),
        status: store.status(task),
        suspended: store.is_suspended(task),
        place,
        owner,
    }
}

/// Who owns the section at a place. Takes no memory.
fn owner_of(store: &Store, place: &Option<Place>) -> Option<u32>
    ensures { result ≡ owner_at store.now.shared.sections place.now }
{
    match place {
        Some(Place::Section(name)) => store.owner(name),
        _ => None,
    }
}
