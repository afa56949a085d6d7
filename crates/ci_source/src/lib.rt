//! What sources mean, and why they are refused: their tokens, their trees, and their project or first fault.
#![tactic(auto)]

mod compiled;
mod fault;
mod laws;
mod reading;
mod telling;

pub use compiled::Compiled;
pub use fault::{Fault, fault_text};
pub use laws::{one_meaning, some_meaning};
pub use reading::read_sources;
pub use telling::SourceFault;
