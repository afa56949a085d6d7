//! Tests of runs on one thread: what sources and scripts give, entry by entry, and how their tasks stand at the end. Nothing but
//! tests stands here. They are a crate of their own so that they are proved again only where the crates below them change.
#![tactic(auto)]

#[cfg(test)]
mod ends;
#[cfg(test)]
mod entries;
#[cfg(test)]
mod plain;
#[cfg(test)]
mod running;
#[cfg(test)]
mod shown;
#[cfg(test)]
mod turns;
