//! Where tasks stand.
ghost use Rattle.std.specs.Prelude.{◌≡◌};

use crate::Text;

/// How a task that was started stands.
#[derive(Clone, Copy, Debug, PartialEq, Eq)]
pub enum Status {
    /// It can make a step, unless it is suspended.
    Ready,
    /// It waits in a line.
    Waits,
    /// It has ended: by itself with 0, or by the error with this number.
    Ended(u8),
    /// It was killed.
    Killed,
}

impl Status {
    /// The same status again. Takes no memory.
    pub fn copy(&self) -> Status
        ensures { result ≡ self.now }
    {
        *self
    }
}

/// The line in which a task waits.
#[derive(Debug, PartialEq, Eq, Drop)]
pub enum Place {
    /// The line of the semaphore with this number.
    Semaphore(i32),
    /// The line of the queue with this number.
    Queue(i32),
    /// The line of the critical section of this name.
    Section(Text),
    /// The line of those that sleep.
    Clock,
}

impl Place {
    /// The same place again. Takes no memory.
    pub fn copy(&self) -> Place
        ensures { result ≡ self.now }
    {
        match self {
            Place::Semaphore(number) => Place::Semaphore(*number),
            Place::Queue(number) => Place::Queue(*number),
            Place::Section(name) => Place::Section(name.copy()),
            Place::Clock => Place::Clock,
        }
    }
}
