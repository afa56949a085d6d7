//! What can be called, and what it takes.

use ci_base::{Kind, Value};
use ci_tree::bound::Callee;
use sqlite_items::Items;

/// An argument that a function takes.
#[derive(Debug, Drop)]
pub enum Taken {
    /// A value of the kind.
    ByValue { kind: Kind },
    /// A value of the kind, for which this one stands where it is left out.
    WithDefault { kind: Kind, default: Value },
    /// A scalar of the kind, which is set.
    ToBeSet { kind: Kind },
}

/// What a function takes, and the kind of its value, where it has one.
#[derive(Debug, Drop)]
pub struct Heading {
    pub takes: Items<Taken>,
    pub gives: Option<Kind>,
}

/// What a name means that is called.
#[derive(Clone, Copy)]
pub struct Called<'a> {
    pub callee: Callee,
    pub heading: &'a Heading,
}
