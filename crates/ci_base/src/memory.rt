//! Want of memory.
ghost use Rattle.std.specs.Prelude.{◌≡◌};

/// The answer of a call that found no memory. It may come from every call that has it, and tells nothing else.
#[derive(Clone, Copy, Debug, PartialEq, Eq)]
pub struct OutOfMemory;

impl OutOfMemory {
    /// The same value again. Takes no memory.
    pub fn copy(&self) -> OutOfMemory
        ensures { result ≡ self.now }
    {
        *self
    }
}
