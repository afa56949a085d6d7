//! Tests of the verifier and of the listing, on code made by hand: each rule broken once at its least place and once later, two
//! faults at once, code that breaks none, and the lines of a listing. Nothing but tests stands here, so that what they test is
//! proved once.
#![tactic(auto)]

#[cfg(test)]
mod broken;
#[cfg(test)]
mod instructions;
#[cfg(test)]
mod kept;
#[cfg(test)]
mod listing;
#[cfg(test)]
mod plans;
