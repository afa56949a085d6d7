//! Serving requests and events: the store serves, the machines are told, and the entry is noted.
ghost use Rattle.std.specs.Prelude.{◌≡◌, ◌≤◌, ◌<◌, ◌+◌, ◌^◌, Some, length};
ghost use Rattle.ci_base.specs.declared.entry.Entry.TheVariants.{Ask, Script};
ghost use Rattle.ci_base.specs.declared.reply.Reply.TheVariants.{Waits};
ghost use Rattle.ci_shared.specs.Laws.{IsFormed, gained, victims, victims_of};
ghost use Rattle.ci_shared.specs.Roster.{Ready, standing_at};
ghost use Rattle.ci_shared.specs.Serving.{apply, script};
ghost use Rattle.ci_store.specs.Stored.{after};
ghost use Rattle.ci_world.specs.Serial.{is_answer as answers};
ghost use Rattle.ci_runtime.specs.Notes.{with_entry, with_ticks};
ghost use Rattle.ci_runtime.specs.Seats.{CanBegin, Settled};

use crate::notes::Notes;
use crate::seats::Seats;
use crate::settle::{settle, victim, victim_of};
use ci_base::{Entry, Event, Reply, Request};
use ci_store::Store;
use ci_verify::Verified;

/// Serves the request that a task makes after so many ticks, and notes the entry. Whether the task was answered. Takes no memory.
pub(crate) fn serve(
    notes: &mut Notes,
    seats: &mut Seats,
    store: &mut Store,
    code: &Verified,
    task: u32,
    used: u32,
    request: Request,
) -> bool
    requires ready { standing_at store.old.shared.roster task ≡ Some Ready }
    requires formed { IsFormed store.old.basis request }
    requires least { 1 ≤ task }
    requires most { task ≤ length notes.old.ticks }
    requires room { length notes.old.entries < notes.old.room }
    requires begins { CanBegin code.now (apply store.old.basis store.old.shared task request).birth seats.old notes.old.ticks }
    ensures answered { result ≡ answers (apply store.old.basis store.old.shared task request).reply }
    ensures stored { store.new ≡ after store.old.basis (apply store.old.basis store.old.shared task request) }
    ensures noted { let served = apply store.old.basis store.old.shared task request in notes.new ≡ with_entry (with_ticks notes.old task 0) (Ask task used request served.reply) served.birth }
    ensures settled { let served = apply store.old.basis store.old.shared task request in Settled code.now task served.reply (victims request) served.shared.roster.tasks served.deliveries served.birth seats.old seats.new }
{
    let reply = store.serve(task, &request);
    settle(seats, store, code, task, &reply, victim(&request));
    let answered = is_answer(&reply);
    notes.set_ticks(task, 0);
    notes.add(
        Entry::Ask {
            task,
            ticks: used,
            request,
            reply,
        },
        store.birth(),
    );
    answered
}

/// Takes an event, and notes the entry. Takes no memory.
pub(crate) fn happen(
    notes: &mut Notes,
    seats: &mut Seats,
    store: &mut Store,
    code: &Verified,
    event: &Event,
)
    requires early { store.old.shared.clock + gained event.now.what < 2 ^ 62 }
    requires room { length notes.old.entries < notes.old.room }
    requires begins { CanBegin code.now (script store.old.basis store.old.shared event.now.what).birth seats.old notes.old.ticks }
    ensures stored { store.new ≡ after store.old.basis (script store.old.basis store.old.shared event.now.what) }
    ensures noted { let served = script store.old.basis store.old.shared event.now.what in notes.new ≡ with_entry notes.old (Script event.now served.reply) served.birth }
    ensures settled { let served = script store.old.basis store.old.shared event.now.what in Settled code.now 0 Waits (victims_of event.now.what) served.shared.roster.tasks served.deliveries served.birth seats.old seats.new }
{
    let reply = store.event(event);
    settle(seats, store, code, 0, &Reply::Waits, victim_of(&event.what));
    notes.add(
        Entry::Script {
            event: event.copy(),
            reply,
        },
        store.birth(),
    );
}

fn is_answer(reply: &Reply) -> bool
    ensures { result ≡ answers reply.now }
{
    match reply {
        Reply::Answer(_) => true,
        Reply::Waits => false,
        Reply::Ends => false,
    }
}
