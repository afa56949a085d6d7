//! Tests of the reading of words and of sources: a few rows of each layer, which a layer that always finds no memory doesn't
//! keep, and what only a test inside can show: tokens, trees, and the parts of an order. Nothing but tests stands here, so
//! that what they test is proved once. The tables of what users see are cases on the built program.
#![tactic(auto)]

#[cfg(test)]
mod orders;
#[cfg(test)]
mod printer;
#[cfg(test)]
mod sources;
#[cfg(test)]
mod tokens;
#[cfg(test)]
mod trees;
