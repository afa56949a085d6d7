//! Tests of the shared objects: their calls one after another, as tables. Nothing but tests stands here. They are a crate of
//! their own so that they are proved again only where the crates below them change.
#![tactic(auto)]

#[cfg(test)]
mod crowd;
#[cfg(test)]
mod lines;
#[cfg(test)]
mod making;
#[cfg(test)]
mod plain;
#[cfg(test)]
mod queues;
#[cfg(test)]
mod sections;
#[cfg(test)]
mod semaphores;
#[cfg(test)]
mod tests;
#[cfg(test)]
mod told;
