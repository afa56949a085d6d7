//! The store.
ghost use Rattle.std.specs.Prelude.{◌≡◌, ◌≤◌, ◌<◌, ◌+◌, ◌^◌, [], None, Some, IfOk, length, map, option_map};
ghost use Rattle.ci_base.specs.declared.bounds.TheConstants.{MOST_LIVE_TASKS, MOST_TASKS};
ghost use Rattle.ci_sections.specs.Picked.{owner_of};
ghost use Rattle.ci_shared.specs.Laws.{IsFormed, gained, opening};
ghost use Rattle.ci_shared.specs.Roster.{Ready, standing_at, status_of};
ghost use Rattle.ci_shared.specs.Sections.{section_of};
ghost use Rattle.ci_shared.specs.Serving.{apply, script};
ghost use Rattle.ci_shared.specs.Started.{basis_of};
ghost use Rattle.ci_store.specs.Stored.{IsUsable, after, live_tasks, mark_at, place_of};

use crate::layout::without_cells;
use crate::parts::Parts;
use crate::serving;
use ci_base::{
    Birth, Delivery, Event, EventReply, Layout, OutOfMemory, Place, Reply, Request, Status, Text,
    Woken,
};
use ci_lines::Lines;
use ci_queues::Queues;
use ci_sections::Sections;
use ci_sems::Sems;
use ci_tasktab::TaskTable;
use ci_vars::Vars;
use std::alloc::Global;
use std::marker::Model;

/// All that tasks share. Contracts see what it knows of the project, the shared state, and whom the last call answered and
/// started. No call walks over tasks that have ended, and none but a start walks over all cells.
#[derive(Debug, Drop)]
pub struct Store {
    parts: Parts,
}

impl Model for Store {
    ghost use Rattle.ci_store.specs.Stored.{IsSound, Stored, stored};

    ghost Value = { Stored };

    ghost view = { λ store. stored store.parts };

    ghost invariant = { λ store. IsSound store.parts };
}

impl Store {
    /// The state at the beginning of a run: the cells have their first values, and no task was started. Takes all memory that
    /// the store ever needs.
    pub fn start(alloc: Global, layout: &Layout) -> Result<Store, OutOfMemory>
        requires { IsUsable layout.now }
        ensures { IfOk result (λ store. store ≡ record { basis = basis_of layout.now; shared = opening (map (λ cell. cell.first) layout.now.cells); deliveries = []; birth = None }) }
    {
        let Ok(vars) = Vars::start(alloc, layout) else {
            return Err(OutOfMemory);
        };
        let Ok(layout) = without_cells(alloc, layout) else {
            return Err(OutOfMemory);
        };
        let Ok(tasks) = TaskTable::room(alloc) else {
            return Err(OutOfMemory);
        };
        let Ok(lines) = Lines::room(alloc) else {
            return Err(OutOfMemory);
        };
        let Ok(sems) = Sems::room(alloc) else {
            return Err(OutOfMemory);
        };
        let Ok(queues) = Queues::room(alloc) else {
            return Err(OutOfMemory);
        };
        let Ok(sections) = Sections::room(alloc) else {
            return Err(OutOfMemory);
        };
        let parts = Parts {
            layout,
            tasks,
            lines,
            vars,
            sems,
            queues,
            sections,
            clock: 0,
            next: 1,
            woken: Woken::empty(),
            birth: None,
        };
        Ok(Store { parts })
    }

    /// Serves a request of a task that is ready. Takes no memory.
    pub fn serve(&mut self, task: u32, request: &Request) -> Reply
        requires ready { standing_at self.old.shared.roster task ≡ Some Ready }
        requires formed { IsFormed self.old.basis request.now }
        ensures reply { result ≡ (apply self.old.basis self.old.shared task request.now).reply }
        ensures stored { self.new ≡ after self.old.basis (apply self.old.basis self.old.shared task request.now) }
    {
        self.parts.woken.clear();
        forget(&mut self.parts.birth);
        serving::serve(&mut self.parts, task, request)
    }

    /// Takes an event of the script. Takes no memory.
    pub fn event(&mut self, event: &Event) -> EventReply
        requires { self.old.shared.clock + gained event.now.what < 2 ^ 62 }
        ensures reply { result ≡ (script self.old.basis self.old.shared event.now.what).reply }
        ensures stored { self.new ≡ after self.old.basis (script self.old.basis self.old.shared event.now.what) }
    {
        self.parts.woken.clear();
        forget(&mut self.parts.birth);
        serving::happen(&mut self.parts, &event.what)
    }

    /// Whom the last request or event answered, in order. Takes no memory.
    pub fn deliveries(&self) -> &[Delivery]
        ensures value { result.now ≡ self.now.deliveries }
        ensures within { length result.now ≤ MOST_LIVE_TASKS }
    {
        self.parts.woken.deliveries()
    }

    /// Whom the last request or event started. Takes no memory.
    pub fn birth(&self) -> &Option<Birth>
        ensures { result.now ≡ self.now.birth }
    {
        &self.parts.birth
    }

    /// How the task stands. Takes no memory.
    pub fn status(&self, task: u32) -> Status
        requires least { 1 ≤ task }
        requires most { task ≤ length self.now.shared.roster.tasks }
        ensures { option_map status_of (standing_at self.now.shared.roster task) ≡ Some result }
    {
        self.parts.tasks.status(task)
    }

    /// Whether the task is marked as suspended. Takes no memory.
    pub fn is_suspended(&self, task: u32) -> bool
        requires least { 1 ≤ task }
        requires most { task ≤ length self.now.shared.roster.tasks }
        ensures { mark_at self.now.shared.roster.tasks task ≡ Some result }
    {
        self.parts.tasks.is_suspended(task)
    }

    /// Where the task waits, if it waits. Takes no memory.
    pub fn place(&self, task: u32) -> Option<Place>
        ensures { result ≡ place_of (standing_at self.now.shared.roster task) }
    {
        self.parts.lines.place(task)
    }

    /// The task that owns the section, if one does. Takes no memory.
    pub fn owner(&self, text: &Text) -> Option<u32>
        ensures { result ≡ owner_of (section_of text.now self.now.shared.sections) }
    {
        self.parts.sections.owner(text)
    }

    /// How many tasks were started. Takes no memory.
    pub fn started(&self) -> u32
        ensures value { result ≡ length self.now.shared.roster.tasks }
        ensures within { result ≤ MOST_TASKS }
    {
        self.parts.tasks.count()
    }

    /// The numbers of the live tasks, from the least, at most 64. Takes no memory.
    pub fn live(&self) -> &[u32]
        ensures value { result.now ≡ live_tasks 1 self.now.shared.roster.tasks }
        ensures within { length result.now ≤ MOST_LIVE_TASKS }
    {
        self.parts.tasks.live()
    }
}

/// No birth is left. Where there is none nothing is written: to write that would blank the room of its 16 arguments.
fn forget(birth: &mut Option<Birth>)
    ensures { birth.new ≡ None }
{
    match birth {
        Some(_) => *birth = None,
        None => {}
    }
}
