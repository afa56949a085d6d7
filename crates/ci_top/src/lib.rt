//! The top call: from words and files to a run and its report, or to what is told of them.
#![tactic(auto)]

mod accept;
mod compiling;
mod decide;
mod decision;
mod defaults;
mod fetch;
pub mod laws;
mod outcome;
mod tell;
mod texts;
mod top;

pub use compiling::{CompileFault, Sources, compile};
pub use decision::FileFault;
pub use outcome::Outcome;
pub use top::{cicode, cicode_alone};
