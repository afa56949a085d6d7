//! Where a test can hold a worker.

/// What is called before a worker runs a task.
pub trait Gate {
    /// Called without the lock, each time before a worker runs the lent task that it holds. Workers are numbered from 1.
    /// `turn` counts the calls of this worker from 0, and stays at the greatest u64 once it is there.
    fn away(&self, worker: u32, task: u32, turn: u64);
}

/// The gate that holds nobody.
#[derive(Clone, Copy, Debug)]
pub struct OpenGate;

impl Gate for OpenGate {
    fn away(&self, _worker: u32, _task: u32, _turn: u64) {}
}
