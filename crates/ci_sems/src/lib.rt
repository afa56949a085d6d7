//! Semaphores. Each call does what its row of the definitions of serving says, and nothing else.
#![tactic(auto)]

mod find;
mod semaphores;

pub use semaphores::Sems;
