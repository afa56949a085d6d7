//! The parser: from the tokens of a source to its tree.
#![tactic(auto)]

mod items;
mod labels;
mod laws;
mod members;
mod parsing;
mod statements;
mod variables;

pub use ci_expressions::ParseFault;
pub use laws::{one_tree, token_for_each_node, tree_or_refused};
pub use parsing::parse;
