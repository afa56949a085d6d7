//! All that tasks share, in one store: it serves the requests of tasks and takes the events of a script, exactly as the
//! definitions of serving say.
#![tactic(auto)]

mod cells;
mod clock;
mod layout;
mod objects;
mod parts;
mod serving;
mod store;
mod tasks;

pub use store::Store;
