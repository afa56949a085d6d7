//! Tests of the machine of a task and of its stack: code made by hand is run, and what is told of it stands in tables. Nothing but
//! tests stands here. They are a crate of their own so that they are proved again only where the crates below them change.
#![tactic(auto)]

#[cfg(test)]
mod calls;
#[cfg(test)]
mod errors;
#[cfg(test)]
mod instructions;
#[cfg(test)]
mod operators;
#[cfg(test)]
mod plans;
#[cfg(test)]
mod play;
#[cfg(test)]
mod rooms;
#[cfg(test)]
mod shown;
#[cfg(test)]
mod stands;
