//! What an entry does to the machines.
ghost use Rattle.std.specs.Option.{option_to_list};
ghost use Rattle.std.specs.Prelude.{◌≡◌, ◌≤◌, length, count_by};
ghost use Rattle.ci_shared.specs.Laws.{victims, victims_of};
ghost use Rattle.ci_runtime.specs.Seats.{CanStart, Delivered, OwnSettled, Settled, VictimAt, VictimsSettled, is_taken};

use crate::seats::Seats;
use ci_base::{Delivery, EventKind, Reply, Request, Status};
use ci_shared::words::whole;
use ci_store::Store;
use ci_verify::Verified;

/// What an entry does to the machines, as the store tells it: the reply to the task that asked, the end of the one that may be
/// killed, the answers to others, and the new one. Takes no memory.
pub(crate) fn settle(
    seats: &mut Seats,
    store: &Store,
    code: &Verified,
    task: u32,
    reply: &Reply,
    victim: Option<u32>,
)
    requires { CanStart code.now store.now.birth seats.old }
    ensures { Settled code.now task reply.now (option_to_list victim) store.now.shared.roster.tasks store.now.deliveries store.now.birth seats.old seats.new }
{
    own(seats, task, reply);
    end_victim(seats, store, victim);
    deliver(seats, store.deliveries());
    if let Some(birth) = store.birth() {
        seats.begin(code, birth);
    }
}

/// What the reply does to the machine of the task that asked.
fn own(seats: &mut Seats, task: u32, reply: &Reply)
    ensures own { OwnSettled task reply.now seats.old seats.new }
    ensures long { length seats.new ≡ length seats.old }
    ensures few { count_by is_taken seats.new ≤ count_by is_taken seats.old }
{
    match reply {
        Reply::Answer(answer) => seats.resume(task, answer),
        Reply::Waits => {}
        Reply::Ends => seats.free(task),
    }
}

/// The machine of the task that may have been killed is spare, where it is dead.
fn end_victim(seats: &mut Seats, store: &Store, victim: Option<u32>)
    ensures victims { VictimsSettled (option_to_list victim) store.now.shared.roster.tasks seats.old seats.new }
    ensures long { length seats.new ≡ length seats.old }
    ensures few { count_by is_taken seats.new ≤ count_by is_taken seats.old }
{
    if let Some(task) = victim {
        end_one(seats, store, task);
    }
}

fn end_one(seats: &mut Seats, store: &Store, task: u32)
    ensures victim { VictimAt task store.now.shared.roster.tasks seats.old seats.new }
    ensures long { length seats.new ≡ length seats.old }
    ensures few { count_by is_taken seats.new ≤ count_by is_taken seats.old }
{
    if task > 0 && task <= store.started() {
        match store.status(task) {
            Status::Ended(_) => seats.free(task),
            Status::Killed => seats.free(task),
            Status::Ready => {}
            Status::Waits => {}
        }
    }
}

/// Each machine takes its answer.
fn deliver(seats: &mut Seats, deliveries: &[Delivery])
    ensures delivered { Delivered deliveries.now seats.old seats.new }
    ensures long { length seats.new ≡ length seats.old }
    ensures few { count_by is_taken seats.new ≤ count_by is_taken seats.old }
{
    for delivery in deliveries {
        seats.resume(delivery.task, &delivery.answer);
    }
}

/// The one task that a request may kill, or none.
pub(crate) fn victim(request: &Request) -> Option<u32>
    ensures { option_to_list result ≡ victims request.now }
{
    match request {
        Request::TaskKill { n } => Some(whole(*n)),
        _ => None,
    }
}

/// The one task that an event may kill, or none.
pub(crate) fn victim_of(event: &EventKind) -> Option<u32>
    ensures { option_to_list result ≡ victims_of event.now }
{
    match event {
        EventKind::Kill { n } => Some(whole(*n)),
        _ => None,
    }
}
