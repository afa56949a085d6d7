//! Critical sections. Each call does what its row of the definitions of serving says, and nothing else.
#![tactic(auto)]

mod find;
mod giving;
mod sections;

pub use sections::Sections;
