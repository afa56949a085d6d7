//! The code of a project, put down place by place.
#![tactic(auto)]

mod arguments;
mod counting;
mod expressions;
mod functions;
mod instructions;
mod kinds;
mod labels;
pub mod laws;
mod pad;
mod simple;
mod sizes;
mod statements;
mod table;
mod whole;
mod word;
mod writer;

pub use whole::emit;
