//! The table of tasks: which tasks were started, of which functions, and how each stands. Where a task waits, the lines know.
#![tactic(auto)]

mod arguments;
mod functions;
mod list;
mod slot;
mod table;

pub use slot::Slot;
pub use table::TaskTable;
