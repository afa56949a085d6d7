//! The parts of the store, and what each call does at its end.
ghost use Rattle.std.specs.Prelude.{◌≡◌, ◌≤◌, true, IfOk};
ghost use Rattle.std.specs.Prelude.{List, [], ◌∷◌, None};
ghost use Rattle.ci_base.specs.declared.event.EventReply.{EventReply};
ghost use Rattle.ci_shared.specs.Rows.{plain};
ghost use Rattle.ci_tasktab.specs.Slots.{is_live_at};
ghost use Rattle.ci_store.specs.Done.{AllLive, freed, settled};

use ci_base::{Answer, Birth, Delivery, EventReply, Layout, Reply, Value, Woken};
use ci_lines::Lines;
use ci_queues::Queues;
use ci_sections::Sections;
use ci_sems::Sems;
use ci_tasktab::TaskTable;
use ci_vars::Vars;

/// The parts of the store.
#[derive(Debug, Drop)]
pub struct Parts {
    /// The functions and the GLOBAL scalars; its cells are left out.
    pub layout: Layout,
    pub tasks: TaskTable,
    pub lines: Lines,
    pub vars: Vars,
    pub sems: Sems,
    pub queues: Queues,
    pub sections: Sections,
    /// In milliseconds.
    pub clock: u64,
    /// The number that the next semaphore or queue gets.
    pub next: i32,
    /// Whom the last call answered.
    pub woken: Woken,
    /// Whom the last call started.
    pub birth: Option<Birth>,
}

/// The answered tasks are ready.
pub(crate) fn free(tasks: &mut TaskTable, woken: &[Delivery])
    requires { AllLive woken.now tasks.old }
    ensures { tasks.new ≡ freed woken.now tasks.old }
{
    for i in 0..woken.len() {
        tasks.set_waits(woken[i].task, false);
    }
}

/// The task that asked waits, where that is its reply.
pub(crate) fn settle(tasks: &mut TaskTable, task: u32, reply: &Reply)
    requires { is_live_at tasks.old task ≡ true }
    ensures { tasks.new ≡ settled reply.now task tasks.old }
{
    match reply {
        Reply::Waits => tasks.set_waits(task, true),
        Reply::Answer(_) => {}
        Reply::Ends => {}
    }
}

/// What an answer says to the script.
pub(crate) fn told(answer: &Answer) -> EventReply
    ensures { (reply : EventReply) → answer.now ≡ plain reply → result ≡ reply }
{
    match &answer.value {
        Value::Int(value) => EventReply {
            value: *value,
            code: answer.code,
        },
        Value::Str(_) => EventReply {
            value: 0,
            code: answer.code,
        },
    }
}
