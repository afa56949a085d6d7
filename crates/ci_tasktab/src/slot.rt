//! A task as the table knows it.
ghost use Rattle.std.specs.Prelude.{◌≡◌, ◌≤◌, length, filter, not, nat_eq};
ghost use Rattle.std.specs.Vec.{vec_capacity};
ghost use Rattle.ci_tasktab.specs.Slots.{change_slot, is_live, is_live_at, set_status, slot_at, waiting, with_mark};

use ci_base::Status;

/// A task that was started.
#[derive(Clone, Copy, Debug, PartialEq, Eq)]
pub struct Slot {
    /// The number of its function, from 0.
    pub function: u32,
    /// How it stands.
    pub status: Status,
    /// Whether it makes no shared step until it is resumed.
    pub suspended: bool,
}

/// The task of the number, if it was started.
pub(crate) fn slot_at(slots: &[Slot], task: u32) -> Option<Slot>
    ensures { result ≡ slot_at slots.now task }
{
    if task == 0 {
        return None;
    }
    slots.get(task as usize - 1).copied()
}

/// Whether the task of the number was started, and has neither ended nor been killed.
pub(crate) fn is_live_at(slots: &[Slot], task: u32) -> bool
    ensures { result ≡ is_live_at slots.now task }
{
    match slot_at(slots, task) {
        Some(slot) => is_live(slot.status),
        None => false,
    }
}

// Whether a task that stands so has neither ended nor been killed.
fn is_live(status: Status) -> bool
    ensures { result ≡ is_live status }
{
    match status {
        Status::Ready | Status::Waits => true,
        Status::Ended(_) | Status::Killed => false,
    }
}

/// How a live task stands.
pub(crate) fn waiting(waits: bool) -> Status
    ensures { result ≡ waiting waits }
{
    if waits { Status::Waits } else { Status::Ready }
}

/// The task stands so from now on.
pub(crate) fn set_status(slots: &mut Vec<Slot>, task: u32, status: Status)
    requires least { 1 ≤ task }
    requires most { task ≤ length slots.old.items }
    ensures items { slots.new.items ≡ set_status status task slots.old.items }
    ensures capacity { vec_capacity slots.new ≡ vec_capacity slots.old }
{
    let slot = &mut slots[task as usize - 1];
    slot.status = status;
}

/// The mark of the task is set or cleared.
pub(crate) fn set_mark(slots: &mut Vec<Slot>, task: u32, suspended: bool)
    requires least { 1 ≤ task }
    requires most { task ≤ length slots.old.items }
    ensures items { slots.new.items ≡ change_slot (with_mark suspended) task slots.old.items }
    ensures capacity { vec_capacity slots.new ≡ vec_capacity slots.old }
{
    let slot = &mut slots[task as usize - 1];
    slot.suspended = suspended;
}

/// The number goes from the list.
pub(crate) fn drop_number(live: &mut Vec<u32>, task: u32)
    ensures items { live.new.items ≡ filter (λ other. not (nat_eq other task)) live.old.items }
    ensures fewer { length live.new.items ≤ length live.old.items }
    ensures capacity { vec_capacity live.new ≡ vec_capacity live.old }
{
    live.retain(|other| *other != task);
}
