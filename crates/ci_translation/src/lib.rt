//! The code of a project, and that it does what the project says.
#![tactic(auto)]

pub mod laws;
