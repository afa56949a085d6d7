//! The shared cells: the variables and the elements of arrays that all tasks see.
#![tactic(auto)]

mod vars;

pub use vars::Vars;
