//! Tests of the report, byte by byte. Nothing but tests stands here. They are a crate of their own so that they are proved again
//! only where the crates below them change.
#![tactic(auto)]

#[cfg(test)]
mod tests;
