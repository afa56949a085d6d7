//! The lines in which tasks wait: for semaphores, queues, critical sections and the clock. Whoever came first is served
//! first; at its limit a task is answered though nobody has served it.
#![tactic(auto)]

mod lines;
mod search;
mod turn;

pub use lines::Lines;
