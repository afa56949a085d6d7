//! Why a script is refused.
use thiserror::Error;

/// The first fault of a script, with the number of its line, counted from 1; or want of memory, which tells nothing of the script.
#[derive(Clone, Copy, Debug, PartialEq, Eq, Error)]
pub enum ScriptFault {
    /// The line has no word of an event.
    #[error("unknown event in line {line}")]
    UnknownEvent { line: u32 },
    /// What stands behind the word of the event doesn't fit it.
    #[error("bad argument in line {line}")]
    BadArgument { line: u32 },
    /// There is a line 100,001.
    #[error("too many lines")]
    TooManyLines,
    /// There is no memory for the events.
    #[error("out of memory")]
    Memory,
}
