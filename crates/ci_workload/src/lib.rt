//! The workload: a source with many small functions, all of which are started as tasks, and the script with which it runs.
#![tactic(auto)]

mod script;
mod source;

pub use script::workload_script;
pub use source::{MOST_WORKLOAD, workload};
