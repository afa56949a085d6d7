//! Tests of the workload. Nothing but tests stands here, so that what they test is proved once.
#![tactic(auto)]

#[cfg(test)]
mod sizes;
