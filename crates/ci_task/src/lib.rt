//! The machine that runs the code of a task.
#![tactic(auto)]

mod act;
mod active;
mod arrays;
mod behind;
mod calls;
mod course;
mod heard;
mod hot;
pub mod laws;
mod machine;
mod operators;
mod outcomes;
mod rare;
mod relations;
mod request;
mod run;
mod texts;
mod went;

pub use active::Active;
pub use behind::Behind;
pub use heard::Heard;
pub use machine::{Pause, TaskMachine};
pub use went::Went;
