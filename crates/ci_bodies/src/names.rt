//! Names that stand as variables.
ghost use Rattle.std.specs.Prelude.{◌≡◌};
ghost use Rattle.ci_tree.specs.SeenBound.{scalar_of as bound_scalar};
ghost use Rattle.ci_names.specs.Fault.{noted};
ghost use Rattle.ci_names.specs.Kinds.{plain_kind, element_kind};
ghost use Rattle.ci_names.specs.Expressions.{plain_name, indexed_name, is_variable};
ghost use Rattle.ci_names.specs.Binding.{scalar_of, array_of};
ghost use Rattle.ci_scopes.specs.Seen.{scope_of, meaning_of};

use crate::faults::note_if;
use ci_base::Kind;
use ci_names::{BindKind, Fault};
use ci_scopes::{Meaning, Scope};
use ci_tree::bound::Scalar;

/// The kind of a name that stands alone, if it has one.
pub fn plain_kind(meaning: Meaning) -> Option<Kind>
    ensures { result ≡ plain_kind (meaning_of meaning) }
{
    match meaning {
        Meaning::Scalar { kind, .. } => Some(kind),
        Meaning::Array { .. } | Meaning::OnlyFunction | Meaning::Nothing => None,
    }
}

/// The kind of a name with an index, if it has one.
pub fn element_kind(meaning: Meaning) -> Option<Kind>
    ensures { result ≡ element_kind (meaning_of meaning) }
{
    match meaning {
        Meaning::Array { kind, .. } => Some(kind),
        Meaning::Scalar { .. } | Meaning::OnlyFunction | Meaning::Nothing => None,
    }
}

/// The scalar that a name means; any scalar where it means none.
pub fn scalar_of(meaning: Meaning) -> Scalar
    ensures { bound_scalar result ≡ scalar_of (meaning_of meaning) }
{
    match meaning {
        Meaning::Scalar { of, .. } => of,
        Meaning::Array { .. } | Meaning::OnlyFunction | Meaning::Nothing => Scalar::Local(0),
    }
}

/// The number of the array that a name means; any number where it means none.
pub fn array_of(meaning: Meaning) -> usize
    ensures { result ≡ array_of (meaning_of meaning) }
{
    match meaning {
        Meaning::Array { number, .. } => number,
        Meaning::Scalar { .. } | Meaning::OnlyFunction | Meaning::Nothing => 0,
    }
}

/// Whether the name means a variable.
pub fn is_variable(meaning: Meaning) -> bool
    ensures { result ≡ is_variable (meaning_of meaning) }
{
    match meaning {
        Meaning::Scalar { .. } | Meaning::Array { .. } => true,
        Meaning::OnlyFunction | Meaning::Nothing => false,
    }
}

/// Notes the fault of a name that stands alone, if it has one.
pub fn note_plain(found: &mut Option<Fault>, scope: &Scope, at: u32, meaning: Meaning)
    ensures { found.new ≡ noted found.old (plain_name (scope_of scope.now) at (meaning_of meaning)) }
{
    match meaning {
        Meaning::Scalar { .. } => (),
        Meaning::Array { .. } => note_if(found, true, scope, at, BindKind::IndexMissing),
        Meaning::OnlyFunction => note_if(found, true, scope, at, BindKind::NotAVariable),
        Meaning::Nothing => note_if(found, true, scope, at, BindKind::NameUnknown),
    }
}

/// Notes the fault of a name with an index, if it has one.
pub fn note_indexed(found: &mut Option<Fault>, scope: &Scope, at: u32, meaning: Meaning)
    ensures { found.new ≡ noted found.old (indexed_name (scope_of scope.now) at (meaning_of meaning)) }
{
    match meaning {
        Meaning::Scalar { .. } => note_if(found, true, scope, at, BindKind::IndexOnScalar),
        Meaning::Array { .. } => (),
        Meaning::OnlyFunction => note_if(found, true, scope, at, BindKind::NotAVariable),
        Meaning::Nothing => note_if(found, true, scope, at, BindKind::NameUnknown),
    }
}
