//! The first fault that was found so far.
ghost use Rattle.std.specs.Prelude.{◌≡◌, [], ◌∷◌};
ghost use Rattle.ci_names.specs.Fault.{is_before, kind_number, noted};
ghost use Rattle.ci_names.specs.Expressions.{broken};
ghost use Rattle.ci_scopes.specs.Seen.{scope_of};
ghost use Rattle.ci_bodies.specs.Found.{merged};

use ci_names::{BindKind, Fault};
use ci_scopes::Scope;

/// The number of a kind in the order of faults.
fn kind_number(kind: BindKind) -> u8
    ensures { result ≡ kind_number kind }
{
    match kind {
        BindKind::DeclaredTwice => 1,
        BindKind::NameUnknown => 2,
        BindKind::NotAFunction => 3,
        BindKind::NotAVariable => 4,
        BindKind::KindsDiffer => 5,
        BindKind::ArgumentCount => 6,
        BindKind::NotAVariableArgument => 7,
        BindKind::ReturnValue => 8,
        BindKind::IndexMissing => 9,
        BindKind::IndexOnScalar => 10,
        BindKind::TypeOutOfScope => 11,
        BindKind::Limit(_) => 12,
    }
}

/// Whether the first fault stands before the second, or at the same place.
fn is_before(first: Fault, second: Fault) -> bool
    ensures { result ≡ is_before first second }
{
    first.file < second.file
        || (first.file == second.file
            && (first.token < second.token
                || (first.token == second.token
                    && kind_number(first.kind) <= kind_number(second.kind))))
}

/// Notes this fault, unless one was found that comes before it.
pub fn note(found: &mut Option<Fault>, fault: Fault)
    ensures { found.new ≡ noted found.old (fault ∷ []) }
{
    match *found {
        None => *found = Some(fault),
        Some(before) => {
            if is_before(fault, before) {
                *found = Some(fault);
            }
        }
    }
}

/// Notes a fault at this token, where the rule is broken.
pub fn note_if(
    found: &mut Option<Fault>,
    is_broken: bool,
    scope: &Scope,
    token: u32,
    kind: BindKind,
)
    ensures { found.new ≡ noted found.old (broken is_broken (scope_of scope.now) token kind) }
{
    if is_broken {
        note(
            found,
            Fault {
                file: scope.file(),
                token,
                kind,
            },
        );
    }
}

/// Notes the first fault that was found in a part, if any.
pub fn note_also(found: &mut Option<Fault>, part: Option<Fault>)
    ensures { found.new ≡ merged found.old part }
{
    if let Some(fault) = part {
        note(found, fault);
    }
}
