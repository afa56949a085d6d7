//! Shapes, compared without memory.
ghost use Rattle.std.specs.Prelude.{◌≡◌, ◌++◌, ◌↔◌, IsTrue};
ghost use Rattle.ci_verify.specs.Kinds.{below, top_kind, second_kind};

use ci_base::Kind;

/// Whether two lists of kinds are the same.
fn is_same(a: &[Kind], b: &[Kind]) -> bool
    ensures { IsTrue result ↔ a.now ≡ b.now }
{
    a == b
}

/// Whether a list is two others, one behind the other.
pub fn joins(whole: &[Kind], low: &[Kind], high: &[Kind]) -> bool
    ensures { IsTrue result ↔ whole.now ≡ low.now ++ high.now }
{
    let length = low.len();
    if whole.len() < length {
        return false;
    }
    is_same(&whole[..length], low) && is_same(&whole[length..], high)
}

/// What stays of a shape below that which is taken.
pub fn below<'a>(before: &'a [Kind], taken: &[Kind]) -> &'a [Kind]
    ensures { result.now ≡ below before.now taken.now }
{
    &before[..before.len().saturating_sub(taken.len())]
}

/// The kind of the latest operand, or INT.
pub fn top_kind(before: &[Kind]) -> Kind
    ensures { result ≡ top_kind before.now }
{
    match before.get(before.len().saturating_sub(1)) {
        Some(kind) => *kind,
        None => Kind::Int,
    }
}

/// The kind of the operand below the latest, or INT.
pub fn second_kind(before: &[Kind]) -> Kind
    ensures { result ≡ second_kind before.now }
{
    match before.get(before.len().saturating_sub(2)) {
        Some(kind) => *kind,
        None => Kind::Int,
    }
}
