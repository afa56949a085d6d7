//! The reading of the command line: what the words ask for, or the fault that is given of those that they have.
#![tactic(auto)]

mod command;
mod fault;
mod laws;
mod number;
mod order;
mod read;
mod role;

pub use command::Command;
pub use fault::{WordFault, fault_text};
pub use laws::words_have_one_answer;
pub use order::{FileList, Order};
pub use read::read_words;
