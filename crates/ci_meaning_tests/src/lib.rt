//! Tests of tasks on the tree: sources, and the requests that a task of them makes, with the ticks before each. Nothing but
//! tests stands here, so that what they test is proved once.
#![tactic(auto)]

#[cfg(test)]
mod errors;
#[cfg(test)]
mod expressions;
#[cfg(test)]
mod printer;
#[cfg(test)]
mod statements;
#[cfg(test)]
mod stepping;
