//! What a name means as a variable.

use ci_base::Kind;
use ci_tree::bound::Scalar;

/// What a name means as a variable.
#[derive(Clone, Copy, Debug, PartialEq, Eq)]
pub enum Meaning {
    /// A variable without elements.
    Scalar { of: Scalar, kind: Kind },
    /// The array of this number.
    Array { number: usize, kind: Kind },
    /// Only a function of this name is seen.
    OnlyFunction,
    /// Nothing of this name is seen.
    Nothing,
}
