//! The script of a run: its text is read into events, or refused at its first fault.
#![tactic(auto)]

mod fault;
mod forms;
mod lines;
mod parts;
mod reader;
mod reading;
mod script;
mod words;

pub use fault::ScriptFault;
pub use reader::read_script;
pub use script::Script;
