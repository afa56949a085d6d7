//! Names and kinds: what each name of a project means, which projects are refused, and what holds of those that are bound.
#![tactic(auto)]

mod fault;
mod laws;

pub use fault::{BindFault, BindKind, Fault, Limit};
pub use laws::{
    bound_is_project, bound_is_sound, faults_in_order, faults_name_tokens, first_is_noted,
    kind_or_fault, nesting_is_small, nodes_are_few, rooms_are_small,
};
