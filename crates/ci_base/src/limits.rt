//! The limits of a run, and how it goes on and ends.
ghost use Rattle.std.specs.Prelude.{◌≡◌};

/// The limits of a run.
#[derive(Clone, Copy, Debug, PartialEq, Eq)]
pub struct Limits {
    /// The ticks of a turn, 1 to 1,000,000.
    pub slice: u32,
    /// The work that the run may take, 200 to 100,000,000.
    pub budget: u32,
    /// The number of worker threads, 0 to 16; with 0 the run has one thread.
    pub workers: u32,
}

/// How a run ended.
#[derive(Clone, Copy, Debug, PartialEq, Eq)]
pub enum Ending {
    /// No event is left, and no task is live.
    Finished,
    /// No event is left, and no live task can make a step.
    Resting,
    /// The budget is used up.
    Spent,
    /// There was no run.
    NotRun,
}

/// The answer of one round of a run on one thread.
#[derive(Clone, Copy, Debug, PartialEq, Eq)]
pub enum Turn {
    /// An event was taken, or a task had its turn.
    Went,
    /// No event is left, and no task can make a step.
    Finished,
    /// The budget is used up.
    Spent,
}

impl Limits {
    /// The same limits again. Takes no memory.
    pub fn copy(&self) -> Limits
        ensures { result ≡ self.now }
    {
        *self
    }
}

impl Ending {
    /// The same ending again. Takes no memory.
    pub fn copy(&self) -> Ending
        ensures { result ≡ self.now }
    {
        *self
    }
}

impl Turn {
    /// The same answer again. Takes no memory.
    pub fn copy(&self) -> Turn
        ensures { result ≡ self.now }
    {
        *self
    }
}
