//! What tasks share, and how a request or an event is served: the definitions on plain lists, what they are made of, and
//! their laws. There is no code here that serves; the objects above do, and each call of theirs is a row of these
//! definitions.
#![tactic(auto)]

pub mod answers;
pub mod laws;
mod object;
mod waiter;
pub mod words;

pub use object::{Item, Section, Semaphore};
pub use waiter::Waiter;
