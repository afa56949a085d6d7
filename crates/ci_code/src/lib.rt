//! The code that a project is compiled to, before anything is known of it, and the machine that it is for.
#![tactic(auto)]

mod instruction;
mod lists;
mod raw;

pub use instruction::{Instruction, Step};
pub use lists::{ArrayList, FunctionList, ShapeList, StepList, TextList};
pub use raw::{Cells, RawCode, RawFunction, RawParts};
