//! Which instruction stands for which part of a tree, with its number in a word.
ghost use Rattle.std.specs.Prelude.{◌≡◌};
ghost use Rattle.ci_translation.specs.Instructions as stands;
ghost use Rattle.ci_translation.specs.Instructions.{operated, left_kind};
ghost use Rattle.ci_emit.specs.Pads.{in_word};
ghost use Rattle.ci_tree.specs.SeenBound.{scalar_of, callee_of};

use crate::word::word;
use ci_base::{Kind, Relation};
use ci_code::Instruction;
use ci_tree::Operator;
use ci_tree::bound::{Callee, Scalar};

/// The comparison of two values of a kind.
pub(crate) fn comparing(relation: Relation, kind: Kind) -> Instruction
    ensures { result ≡ in_word (stands.comparing relation kind) }
{
    match kind {
        Kind::Int => Instruction::CmpInt(relation),
        Kind::Str => Instruction::CmpStr(relation),
    }
}

/// Whether the first of three values of a kind lies from the second to the third.
pub(crate) fn within(kind: Kind) -> Instruction
    ensures { result ≡ in_word (stands.within kind) }
{
    match kind {
        Kind::Int => Instruction::WithinInt,
        Kind::Str => Instruction::WithinStr,
    }
}

/// An operator between two values of a kind.
pub(crate) fn operating(operator: Operator, kind: Kind) -> Instruction
    ensures { result ≡ in_word (stands.operating operator kind) }
{
    match operator {
        Operator::Plus => match kind {
            Kind::Int => Instruction::Add,
            Kind::Str => Instruction::Cat,
        },
        Operator::Minus => Instruction::Sub,
        Operator::Times => Instruction::Mul,
        Operator::Over => Instruction::Div,
        Operator::Mod => Instruction::Mod,
        Operator::And => Instruction::And,
        Operator::Or => Instruction::Or,
        Operator::BitAnd => Instruction::BitAnd,
        Operator::BitOr => Instruction::BitOr,
        Operator::BitXor => Instruction::BitXor,
        Operator::Equal => comparing(Relation::Equal, kind),
        Operator::Unequal => comparing(Relation::Unequal, kind),
        Operator::Less => comparing(Relation::Less, kind),
        Operator::Greater => comparing(Relation::Greater, kind),
        Operator::AtMost => comparing(Relation::AtMost, kind),
        Operator::AtLeast => comparing(Relation::AtLeast, kind),
    }
}

/// The kind of what an operator leaves of two values of a kind.
pub(crate) fn operated(operator: Operator, kind: Kind) -> Kind
    ensures { result ≡ left_kind (operated operator kind) }
{
    match operator {
        Operator::Plus => kind,
        _ => Kind::Int,
    }
}

/// `-` where `minus`, else NOT.
pub(crate) fn turning(minus: bool) -> Instruction
    ensures { result ≡ in_word (stands.turning minus) }
{
    if minus {
        Instruction::Neg
    } else {
        Instruction::Not
    }
}

/// A variable is read.
pub(crate) fn reading(of: Scalar) -> Instruction
    ensures { result ≡ in_word (stands.reading (scalar_of of)) }
{
    match of {
        Scalar::Local(i) => Instruction::Load(word(i)),
        Scalar::Cell(c) => Instruction::ReadCell(word(c)),
    }
}

/// A variable is written.
pub(crate) fn writing(to: Scalar) -> Instruction
    ensures { result ≡ in_word (stands.writing (scalar_of to)) }
{
    match to {
        Scalar::Local(i) => Instruction::Store(word(i)),
        Scalar::Cell(c) => Instruction::WriteCell(word(c)),
    }
}

/// A call is made.
pub(crate) fn calling(callee: Callee) -> Instruction
    ensures { result ≡ in_word (stands.calling (callee_of callee)) }
{
    match callee {
        Callee::Function(f) => Instruction::Call(word(f)),
        Callee::Private(q) => Instruction::Private(q),
        Callee::Shared(q) => Instruction::Ask(q),
    }
}
