//! What becomes of an order.
use ci_base::{Bytes, Position};
use ci_program::Program;
use ci_runtime::Ended;
use ci_script::ScriptFault;
use ci_source::Fault;
use ci_words::WordFault;

/// Why a file isn't fetched.
#[derive(Clone, Copy, Debug, PartialEq, Eq)]
pub enum FileFault {
    /// There is no file of its name.
    Absent,
    /// It couldn't be read.
    ReadFault,
    /// It is longer than its limit.
    TooLong,
}

/// A workload that was made.
#[derive(Clone, Copy, Debug, PartialEq, Eq)]
pub(crate) struct Made {
    /// The number of its functions beside Main.
    pub(crate) size: u32,
    /// The length of its source.
    pub(crate) bytes: u32,
}

/// What becomes of an order, before it is told.
#[derive(Debug, Drop)]
pub(crate) enum Decision<'w> {
    /// The words have this fault, or ask for worker threads.
    WordsRefused(WordFault),
    /// The order can't be done yet.
    OrderNotBuilt,
    /// The file with this number, from 1, and this name isn't fetched.
    NotFetched {
        fault: FileFault,
        number: u32,
        name: &'w Bytes,
    },
    /// The sources have this first fault, told at this place of the source of this name.
    SourceRefused {
        name: &'w [u8],
        fault: Fault,
        place: Position,
    },
    /// The sources compile, and the script has this first fault.
    ScriptRefused(ScriptFault),
    /// The sources were checked, and compile.
    Checked,
    /// The sources compile to this program, whose code is to be listed.
    Listed(Program),
    NoMemory,
    /// This is kept of the run of files, or of the workload that was made.
    Ran {
        made: Option<Made>,
        ended: Ended,
    },
}
