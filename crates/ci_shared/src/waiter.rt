//! Tasks in lines.
use ci_base::Place;

/// A task in a line.
#[derive(Debug, PartialEq, Eq, Drop)]
pub struct Waiter {
    /// The number of the task, at least 1.
    pub task: u32,
    /// Where it waits.
    pub place: Place,
    /// The moment in milliseconds at which it is answered though nobody has served it; none is for ever. Whoever waits
    /// at a queue or a section has none.
    pub limit: Option<u64>,
}
