//! The entries of a history.
ghost use Rattle.std.specs.Prelude.{◌≡◌, ◌↔◌, IsTrue};

use crate::{Event, EventReply, Reply, Request};

/// One step of the machine: a request of a task or an event of the script, with its reply.
#[derive(Debug, PartialEq, Eq, Drop)]
pub enum Entry {
    /// The task made the request after so many ticks since its last entry, or since its start.
    Ask {
        task: u32,
        ticks: u32,
        request: Request,
        reply: Reply,
    },
    /// The event happened.
    Script {
        event: Event,
        reply: EventReply,
    },
}

impl Entry {
    /// The same entry again. Takes no memory.
    pub fn copy(&self) -> Entry
        ensures { result ≡ self.now }
    {
        match self {
            Entry::Ask {
                task,
                ticks,
                request,
                reply,
            } => Entry::Ask {
                task: *task,
                ticks: *ticks,
                request: request.copy(),
                reply: reply.copy(),
            },
            Entry::Script { event, reply } => Entry::Script {
                event: event.copy(),
                reply: *reply,
            },
        }
    }

    /// Whether both are the same.
    pub fn is_same(&self, other: &Entry) -> bool
        ensures { IsTrue result ↔ (self.now ≡ other.now) }
    {
        match self {
            Entry::Ask {
                task,
                ticks,
                request,
                reply,
            } => match other {
                Entry::Ask {
                    task: other_task,
                    ticks: other_ticks,
                    request: other_request,
                    reply: other_reply,
                } => {
                    task == other_task
                        && ticks == other_ticks
                        && request.is_same(other_request)
                        && reply == other_reply
                }
                _ => false,
            },
            Entry::Script { event, reply } => match other {
                Entry::Script {
                    event: other_event,
                    reply: other_reply,
                } => event.is_same(other_event) && reply == other_reply,
                _ => false,
            },
        }
    }
}
