//! The events of a script.
ghost use Rattle.std.specs.Prelude.{◌≡◌, ◌↔◌, IsTrue};

use crate::{Text, Value};

/// An event of a script.
#[derive(Debug, PartialEq, Eq, Drop)]
pub struct Event {
    /// Whether it comes as soon as it is the next event. Otherwise it comes once no task can make a step.
    pub soon: bool,
    /// What happens.
    pub what: EventKind,
}

/// The reply to an event.
#[derive(Clone, Copy, Debug, PartialEq, Eq)]
pub struct EventReply {
    /// The number of the task that was started, or -1, for `Run`; otherwise the code again.
    pub value: i32,
    /// 0 where all is well, otherwise the number of the error.
    pub code: u8,
}

/// What happens by an event.
#[derive(Debug, PartialEq, Eq, Drop)]
pub enum EventKind {
    /// A task is started from the PUBLIC function of this name, with the arguments in the list.
    Run { name: Text, list: Text },
    /// The clock gains so many milliseconds.
    Tick { ms: i32 },
    /// The task with this number is killed.
    Kill { n: i32 },
    /// The task with this number makes no shared step until it is resumed.
    Suspend { n: i32 },
    /// The task with this number may go on.
    Resume { n: i32 },
    /// An element is put into the queue of this name.
    Put { name: Text, sort: i32, text: Text },
    /// A unit is given to the semaphore of this name.
    Signal { name: Text },
    /// The value is put into the GLOBAL variable of this name.
    Set { name: Text, value: Value },
}

impl Event {
    /// The same event again. Takes no memory.
    pub fn copy(&self) -> Event
        ensures { result ≡ self.now }
    {
        Event {
            soon: self.soon,
            what: self.what.copy(),
        }
    }

    /// Whether both are the same.
    pub fn is_same(&self, other: &Event) -> bool
        ensures { IsTrue result ↔ (self.now ≡ other.now) }
    {
        self.soon == other.soon && self.what == other.what
    }
}

impl EventReply {
    /// The same reply again. Takes no memory.
    pub fn copy(&self) -> EventReply
        ensures { result ≡ self.now }
    {
        *self
    }
}

impl EventKind {
    /// The same again. Takes no memory.
    pub fn copy(&self) -> EventKind
        ensures { result ≡ self.now }
    {
        match self {
            EventKind::Run { name, list } => EventKind::Run {
                name: name.copy(),
                list: list.copy(),
            },
            EventKind::Tick { ms } => EventKind::Tick { ms: *ms },
            EventKind::Kill { n } => EventKind::Kill { n: *n },
            EventKind::Suspend { n } => EventKind::Suspend { n: *n },
            EventKind::Resume { n } => EventKind::Resume { n: *n },
            EventKind::Put { name, sort, text } => EventKind::Put {
                name: name.copy(),
                sort: *sort,
                text: text.copy(),
            },
            EventKind::Signal { name } => EventKind::Signal { name: name.copy() },
            EventKind::Set { name, value } => EventKind::Set {
                name: name.copy(),
                value: value.copy(),
            },
        }
    }
}
