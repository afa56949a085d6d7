//! How two values are compared.
ghost use Rattle.std.specs.Prelude.{◌≡◌};

/// The relation of a label with `IS`, and of an instruction that compares.
#[derive(Clone, Copy, Debug, PartialEq, Eq)]
pub enum Relation {
    Equal,
    Unequal,
    Less,
    Greater,
    AtMost,
    AtLeast,
}

impl Relation {
    /// The same relation again. Takes no memory.
    pub fn copy(&self) -> Relation
        ensures { result ≡ self.now }
    {
        *self
    }
}
