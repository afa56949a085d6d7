//! The values of a task: its locals and its operands, one behind the other.
#![tactic(auto)]

mod letters;
mod stack;
mod table;

pub use stack::TaskStack;
