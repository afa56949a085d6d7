//! Tests of the generator: a task on the tree of a source and one in its code are stepped side by side with the same answers, and
//! their requests and ticks are compared. Nothing but tests stands here, so that what they test is proved once.
#![tactic(auto)]

#[cfg(test)]
mod answers;
#[cfg(test)]
mod arguments;
#[cfg(test)]
mod coded;
#[cfg(test)]
mod differing;
#[cfg(test)]
mod expressions;
#[cfg(test)]
mod limits;
#[cfg(test)]
mod programs;
#[cfg(test)]
mod shown;
#[cfg(test)]
mod sides;
#[cfg(test)]
mod statements;
#[cfg(test)]
mod worked;
