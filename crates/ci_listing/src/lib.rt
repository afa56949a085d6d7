//! The listing: code as text, an instruction a line.
#![tactic(auto)]

mod instruction;
mod listing;

pub use listing::write_listing;
