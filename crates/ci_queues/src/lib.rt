//! Queues of elements. Each call does what its row of the definitions of serving says, and nothing else.
#![tactic(auto)]

mod held;
mod queues;

pub use queues::Queues;
