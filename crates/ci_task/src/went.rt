//! What an instruction came to.

/// What an instruction came to.
#[derive(Clone, Copy, Debug)]
pub enum Went {
    /// It was done.
    On,
    /// A tick comes next.
    Tick,
    /// The task ends with this code.
    Ends(u8),
    /// It makes a request.
    Asks,
}
