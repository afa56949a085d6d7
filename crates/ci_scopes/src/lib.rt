//! What names mean: the declarations of all files in tables, and the look-up of a name at each place of a function.
#![tactic(auto)]

mod called;
mod functions;
mod given;
mod locals;
mod meaning;
mod memory;
mod name;
mod project_names;
mod rows;
mod scope;
mod spelling;
mod table;
mod values;
mod variables;

pub use called::{Called, Heading, Taken};
pub use functions::FunctionAt;
pub use meaning::Meaning;
pub use memory::{boxed, push};
pub use project_names::ProjectNames;
pub use scope::Scope;
pub use values::{given_kind, kind_of_type, value_of};
pub use variables::{VariableAt, size};
