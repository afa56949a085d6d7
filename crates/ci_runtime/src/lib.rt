//! The run of a program on one thread, turn by turn, and what joins the code of a project and its tree, in the runs of the
//! preemptive machine.
#![tactic(auto)]

mod board;
mod choice;
mod desk;
mod ended;
mod ends;
mod laws;
mod notes;
mod rounds;
mod seats;
mod serving;
mod settle;

pub use desk::Desk;
pub use ended::Ended;
pub use laws::code_leads_tree;
pub use rounds::run;
