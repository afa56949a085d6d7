//! The bodies of functions: one walk gives a body with its names replaced, and finds its first fault.
#![tactic(auto)]

mod bodies;
mod calls;
mod counters;
mod expressions;
mod faults;
mod kinds;
mod labels;
mod locals;
mod names;
mod que_read;
mod simple;

pub use bodies::body;
pub use expressions::expression;
pub use faults::note_if;
pub use locals::{note_local, note_type};
