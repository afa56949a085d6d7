//! What variables hold.
ghost use Rattle.std.specs.Prelude.{◌≡◌, pos};
ghost use Rattle.ci_base.specs.declared.value.Value.TheVariants.{Int};

use crate::Text;

/// The two kinds of values.
#[derive(Clone, Copy, Debug, PartialEq, Eq, Hash)]
pub enum Kind {
    /// INT, a signed 32-bit number.
    Int,
    /// STRING, a text of at most 255 bytes.
    Str,
}

impl Kind {
    /// The same kind again. Takes no memory.
    pub fn copy(&self) -> Kind
        ensures { result ≡ self.now }
    {
        *self
    }
}

/// A value of the language.
#[derive(Debug, PartialEq, Eq, Drop)]
pub enum Value {
    Int(i32),
    Str(Text),
}

/// The INT 0.
impl Default for Value {
    ghost is_default = { λ value. value ≡ Int (pos 0) };

    fn default() -> Value {
        Value::Int(0)
    }
}

impl Value {
    /// The same value again. Takes no memory.
    pub fn copy(&self) -> Value
        ensures { result ≡ self.now }
    {
        match self {
            Value::Int(n) => Value::Int(*n),
            Value::Str(text) => Value::Str(text.copy()),
        }
    }
}
