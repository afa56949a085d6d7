//! Tests of the values that all crates share, and of the outside of a run in memory and on the machine. Nothing but tests
//! stands here, so that what they test is proved once.
#![tactic(auto)]

#[cfg(test)]
mod outside;
#[cfg(test)]
mod values;
