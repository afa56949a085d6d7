//! The outside of a run: the shelf that files are fetched from, the sink that output is put into, and the gate that
//! tests hold before each private run. Each has implementations in memory, and shelf and sink have those of the machine.
#![tactic(auto)]

mod files;
mod gate;
mod machine;
mod memory;
mod shelf;
mod sink;

pub use files::{NamedFile, NamedFiles, NumberList};
pub use gate::{Gate, OpenGate};
pub use machine::{DirShelf, OutSink};
pub use memory::{MemShelf, MemSink, SureShelf, SureSink};
pub use shelf::{Fetch, Shelf};
pub use sink::{Failed, Sink, put_all, put_three, put_two};
