//! The history of a run, how its tasks stand at its end, and the report that tells both.
#![tactic(auto)]

mod end;
mod history;
mod report;

pub use end::{EndState, TaskEnd, TaskEndList};
pub use history::History;
