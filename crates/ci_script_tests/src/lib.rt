//! Tests of the reading of scripts, as tables. Nothing but tests stands here. They are a crate of their own so that they are
//! proved again only where the crates below them change.
#![tactic(auto)]

#[cfg(test)]
mod rows;
#[cfg(test)]
mod tests;
