//! The code of a project breaks no rule of the verifier.
#![tactic(auto)]

pub mod laws;
