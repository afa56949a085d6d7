//! What a call of the program leaves behind.
use ci_base::{Ending, LooseList};
use ci_history::History;

/// The outcome of an order.
#[derive(Debug, Drop)]
pub struct Outcome {
    /// The exit status: 0 to 15, as docs/FORMATS.md lists them.
    pub status: u8,
    /// The entries of the run; none where there was no run.
    pub history: History,
    /// The ticks of tasks after their last entries, by rising numbers of tasks.
    pub loose: LooseList,
    /// How the run ended.
    pub ending: Ending,
}
