//! The verifier: code in which no rule is broken, or the first rule that is.
#![tactic(auto)]

mod effects;
mod kinds;
pub mod laws;
mod rules;
mod shapes;
mod tables;
mod verifier;
mod way;

pub use verifier::{Broken, Verified, verify};
