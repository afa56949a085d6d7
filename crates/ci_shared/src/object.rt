//! The parts of the shared objects.
use ci_base::Text;

/// A semaphore.
#[derive(Debug, PartialEq, Eq, Drop)]
pub struct Semaphore {
    /// Its number, at least 1.
    pub number: i32,
    /// Its name, which isn't empty.
    pub name: Text,
    /// The units that it has, at most 65,535.
    pub count: u32,
}

/// A critical section that a task owns.
#[derive(Debug, PartialEq, Eq, Drop)]
pub struct Section {
    /// Its name, which isn't empty.
    pub name: Text,
    /// The number of the task that owns it.
    pub owner: u32,
    /// How often its owner has entered it more than left it, from 1 to 65,535.
    pub count: u32,
}

/// An element of a queue.
#[derive(Debug, PartialEq, Eq, Drop)]
pub struct Item {
    /// Its number.
    pub sort: i32,
    /// Its text.
    pub text: Text,
}
