//! The world of a run: the steps of the preemptive machine, its runs, their work and endings, the round-robin run, and the
//! trail of each task; and their laws. There is no code here that runs anything.
#![tactic(auto)]

mod laws;

pub use laws::{
    no_step_after_end, one_ending, one_serial, one_world, run_follows_trails, serial_is_run,
};
