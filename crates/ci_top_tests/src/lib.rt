//! Tests of the top call over a shelf and a sink in memory: what it keeps of a run, what it puts where the sink takes little,
//! and that nothing is kept where an order is refused. Nothing but tests stands here, so that what they test is proved once.
//! What users see of orders are cases on the built program.
#![tactic(auto)]

#[cfg(test)]
mod doing;
#[cfg(test)]
mod refusals;
#[cfg(test)]
mod runs;
#[cfg(test)]
mod shown;
