//! Operators between the members of a chain, and their groups.
ghost use Rattle.std.specs.Prelude.{◌≡◌};
ghost use Rattle.ci_tree.specs.Refused as ask;
ghost use Rattle.ci_tree.specs.Refused.{operator_of_token};
ghost use Rattle.ci_tree.specs.Grammar.{group_of};
ghost use Rattle.ci_expressions.specs.Joints.{joint_of, joint_group};

use ci_tree::{Keyword, Operator, Sign, TokenKind};

/// What joins one more member to a chain.
pub enum Joint {
    Operator(Operator),
    Colon,
}

/// The group of `:`. Groups are counted from the one that binds most tightly.
const FORM_GROUP: u32 = 1;

/// The operator that the token is between two operands.
fn operator_of(kind: &TokenKind) -> Option<Operator>
    ensures { result ≡ operator_of_token kind.now }
{
    match kind {
        TokenKind::Keyword(Keyword::BitAnd) => Some(Operator::BitAnd),
        TokenKind::Keyword(Keyword::BitOr) => Some(Operator::BitOr),
        TokenKind::Keyword(Keyword::BitXor) => Some(Operator::BitXor),
        TokenKind::Keyword(Keyword::Or) => Some(Operator::Or),
        TokenKind::Keyword(Keyword::And) => Some(Operator::And),
        TokenKind::Keyword(Keyword::Mod) => Some(Operator::Mod),
        TokenKind::Sign(Sign::Equal) => Some(Operator::Equal),
        TokenKind::Sign(Sign::Unequal) => Some(Operator::Unequal),
        TokenKind::Sign(Sign::Less) => Some(Operator::Less),
        TokenKind::Sign(Sign::Greater) => Some(Operator::Greater),
        TokenKind::Sign(Sign::AtMost) => Some(Operator::AtMost),
        TokenKind::Sign(Sign::AtLeast) => Some(Operator::AtLeast),
        TokenKind::Sign(Sign::Plus) => Some(Operator::Plus),
        TokenKind::Sign(Sign::Minus) => Some(Operator::Minus),
        TokenKind::Sign(Sign::Star) => Some(Operator::Times),
        TokenKind::Sign(Sign::Slash) => Some(Operator::Over),
        _ => None,
    }
}

/// The group of an operator.
fn group_of(operator: Operator) -> u32
    ensures { result ≡ group_of operator }
{
    match operator {
        Operator::Times | Operator::Over | Operator::Mod => 0,
        Operator::Plus | Operator::Minus => 2,
        Operator::Less | Operator::Greater | Operator::AtMost | Operator::AtLeast => 3,
        Operator::Equal | Operator::Unequal => 4,
        Operator::And => 5,
        Operator::Or => 6,
        Operator::BitAnd | Operator::BitOr | Operator::BitXor => 7,
    }
}

/// The group to whose chains the token joins one more member, if it does to any.
pub fn joint_group(kind: &TokenKind) -> Option<u32>
    ensures { result ≡ joint_group kind.now }
{
    if matches!(kind, TokenKind::Sign(Sign::Colon)) {
        return Some(FORM_GROUP);
    }
    match operator_of(kind) {
        None => None,
        Some(operator) => Some(group_of(operator)),
    }
}

/// What joins one more member to a chain of this group, if the token does.
pub fn joint_in(kind: &TokenKind, group: u32) -> Option<Joint>
    ensures { joint_of result ≡ ask.joint group kind.now }
{
    if matches!(kind, TokenKind::Sign(Sign::Colon)) {
        return if group == FORM_GROUP {
            Some(Joint::Colon)
        } else {
            None
        };
    }
    match operator_of(kind) {
        None => None,
        Some(operator) => {
            if group_of(operator) == group {
                Some(Joint::Operator(operator))
            } else {
                None
            }
        }
    }
}
