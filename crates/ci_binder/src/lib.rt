//! Binding: from the trees of all files to their project, or to the first fault of their names and kinds.
#![tactic(auto)]

mod binding;
mod functions;
mod parameters;
mod rules;
mod shared;
mod variables;

pub use binding::bind;
pub use ci_names::{BindFault, BindKind, Limit};
