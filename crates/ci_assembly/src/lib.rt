//! Code that is put together from parts that nobody vouches for.
#![tactic(auto)]

mod assembly;
mod cells;
mod functions;
mod heads;

pub use assembly::assemble;
