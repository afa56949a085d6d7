//! Rules that parameters, functions and variables share.
ghost use Rattle.std.specs.Prelude.{◌≡◌, Some};
ghost use Rattle.ci_names.specs.Fault.{noted};
ghost use Rattle.ci_names.specs.Expressions.{differs};
ghost use Rattle.ci_names.specs.Statements.{maybe};
ghost use Rattle.ci_names.specs.Faults.{const_kind, const_at, first_value};
ghost use Rattle.ci_scopes.specs.Seen.{scope_of};
ghost use Rattle.ci_binder.specs.Before.{is_among};

use ci_base::Kind;
use ci_bodies::note_if;
use ci_names::{BindKind, Fault};
use ci_scopes::Scope;
use ci_tree::Const;

/// Whether the number is one of the first so many.
pub(crate) fn is_among(count: usize, number: Option<usize>) -> bool
    ensures { result ≡ is_among count number }
{
    match number {
        None => false,
        Some(number) => number < count,
    }
}

/// Whether a first value has another kind than this one.
fn has_other_kind(kind: Kind, first: &Const) -> bool
    ensures { result ≡ differs kind (Some (const_kind first.now)) }
{
    match (kind, first) {
        (Kind::Int, Const::Literal { .. }) | (Kind::Str, Const::Number { .. }) => true,
        (Kind::Int, Const::Number { .. }) | (Kind::Str, Const::Literal { .. }) => false,
    }
}

/// The first token of a first value.
fn place_of(first: &Const) -> u32
    ensures { result ≡ const_at first.now }
{
    match first {
        Const::Number { at, .. } => *at,
        Const::Literal { at, .. } => *at,
    }
}

/// A first value that is to have this kind, where there is one.
pub(crate) fn note_first(
    found: &mut Option<Fault>,
    scope: &Scope,
    kind: Kind,
    first: &Option<Const>,
)
    ensures { found.new ≡ noted found.old (maybe (first_value (scope_of scope.now) kind) first.now) }
{
    if let Some(first) = first {
        note_if(
            found,
            has_other_kind(kind, first),
            scope,
            place_of(first),
            BindKind::KindsDiffer,
        );
    }
}
