//! Tests of the store and its tasks: requests and events one after another, as tables. Nothing but tests stands here. They are a
//! crate of their own so that they are proved again only where the crates below them change.
#![tactic(auto)]

#[cfg(test)]
mod arguments;
#[cfg(test)]
mod clock;
#[cfg(test)]
mod events;
#[cfg(test)]
mod kills;
#[cfg(test)]
mod limits;
#[cfg(test)]
mod play;
#[cfg(test)]
mod project;
#[cfg(test)]
mod shown;
#[cfg(test)]
mod steps;
#[cfg(test)]
mod tasks;
#[cfg(test)]
mod time;
