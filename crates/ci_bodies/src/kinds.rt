//! Kinds, and how operators join them. A part in which a fault lies has no kind.
ghost use Rattle.std.specs.Prelude.{◌≡◌};
ghost use Rattle.ci_tree.specs.Operators.{has_kind, joins, joined, formed};
ghost use Rattle.ci_names.specs.Expressions.{differs, differ, clash};
ghost use Rattle.ci_bodies.specs.Seen.{joins_of};

use ci_base::Kind;
use ci_tree::Operator;

/// Which kinds an operator joins.
#[derive(Clone, Copy, Debug, PartialEq, Eq)]
pub enum Joining {
    /// Two of one kind, to that kind.
    Sums,
    /// Two of one kind, to an INT.
    Compares,
    /// Two INT, to an INT.
    Counts,
}

/// Whether the part has this kind.
pub fn has_kind(kind: Kind, part: Option<Kind>) -> bool
    ensures { result ≡ has_kind kind part }
{
    match (kind, part) {
        (Kind::Int, Some(Kind::Int)) => true,
        (Kind::Str, Some(Kind::Str)) => true,
        _ => false,
    }
}

/// Whether the part has another kind than this one.
pub fn differs(kind: Kind, part: Option<Kind>) -> bool
    ensures { result ≡ differs kind part }
{
    match kind {
        Kind::Int => has_kind(Kind::Str, part),
        Kind::Str => has_kind(Kind::Int, part),
    }
}

/// Whether the parts have two kinds.
pub fn differ(left: Option<Kind>, right: Option<Kind>) -> bool
    ensures { result ≡ differ left right }
{
    match right {
        None => false,
        Some(kind) => differs(kind, left),
    }
}

/// Which kinds the operator joins.
pub fn joins(operator: Operator) -> Joining
    ensures { joins_of result ≡ joins operator }
{
    match operator {
        Operator::Plus => Joining::Sums,
        Operator::Equal
        | Operator::Unequal
        | Operator::Less
        | Operator::Greater
        | Operator::AtMost
        | Operator::AtLeast => Joining::Compares,
        Operator::BitAnd
        | Operator::BitOr
        | Operator::BitXor
        | Operator::Or
        | Operator::And
        | Operator::Minus
        | Operator::Times
        | Operator::Over
        | Operator::Mod => Joining::Counts,
    }
}

/// Whether these operands can't stand at an operator.
pub fn clash(joins: Joining, left: Option<Kind>, right: Option<Kind>) -> bool
    ensures { result ≡ clash (joins_of joins) left right }
{
    match joins {
        Joining::Sums | Joining::Compares => differ(left, right),
        Joining::Counts => differs(Kind::Int, left) || differs(Kind::Int, right),
    }
}

/// The kind of two operands with an operator between them.
pub fn joined(joins: Joining, left: Option<Kind>, right: Option<Kind>) -> Option<Kind>
    ensures { result ≡ joined (joins_of joins) left right }
{
    match (joins, left, right) {
        (_, Some(Kind::Int), Some(Kind::Int)) => Some(Kind::Int),
        (Joining::Sums, Some(Kind::Str), Some(Kind::Str)) => Some(Kind::Str),
        (Joining::Compares, Some(Kind::Str), Some(Kind::Str)) => Some(Kind::Int),
        _ => None,
    }
}

/// The kind of a text that `:` makes of a part.
pub fn formed(part: Option<Kind>) -> Option<Kind>
    ensures { result ≡ formed part }
{
    if has_kind(Kind::Int, part) {
        Some(Kind::Str)
    } else {
        None
    }
}
