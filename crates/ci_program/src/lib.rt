//! A bound project with its code.
#![tactic(auto)]

mod program;

pub use program::Program;
