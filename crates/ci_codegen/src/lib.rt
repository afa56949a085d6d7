//! The generator: from a bound project to its program.
#![tactic(auto)]

mod generator;

pub use generator::generate;
