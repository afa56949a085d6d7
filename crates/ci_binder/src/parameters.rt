//! The parameters of a function.
ghost use Rattle.std.specs.Prelude.{◌≡◌, not, ◌&&◌, List, [], map, IfOk, OnOk, All};
ghost use Rattle.std.specs.List.{list_any};
ghost use Rattle.ci_tree.specs.declared.tree.Param as code;
ghost use Rattle.ci_tree.specs.SeenBound.{param_of};
ghost use Rattle.ci_names.specs.Fault.{noted};
ghost use Rattle.ci_names.specs.Declarations.{each_behind};
ghost use Rattle.ci_names.specs.Scopes.{with_locals, param_local};
ghost use Rattle.ci_names.specs.Faults.{has_default, param_faults};
ghost use Rattle.ci_names.specs.Binding.{bound_param};
ghost use Rattle.ci_scopes.specs.Seen.{scope_of};
ghost use Rattle.ci_tree.specs.Written.{IsShortFirst, IsShortParam};

use crate::rules::note_first;
use ci_base::OutOfMemory;
use ci_base::bounds::MOST_PARAMETERS;
use ci_bodies::{note_if, note_local, note_type};
use ci_names::{BindKind, Fault, Limit};
use ci_scopes::{Scope, kind_of_type, push, value_of};
use ci_tree::{Param, bound};
use sqlite_items::Items;
use std::alloc::Global;

/// Whether a parameter has no default and stands behind one that has.
fn lacks_default(param: &Param, behind_default: bool) -> bool
    ensures { result ≡ (not (has_default param.now) && behind_default) }
{
    param.first.is_none() && behind_default
}

/// Notes the faults of a parameter where those before it hold. `behind_default` says whether one of them has a default.
fn note_param(scope: &Scope, found: &mut Option<Fault>, param: &Param, behind_default: bool)
    ensures { (before : List code.Param) → (scope_of scope.now).locals ≡ map param_local before → behind_default ≡ list_any has_default before →
        found.new ≡ noted found.old (param_faults (scope_of scope.now) before param.now) }
{
    let at = param.at;
    let count = scope.count();
    note_type(found, scope, param.kind);
    note_local(found, scope, at, &param.name);
    note_if(
        found,
        count == MOST_PARAMETERS,
        scope,
        at,
        BindKind::Limit(Limit::Parameters),
    );
    note_if(
        found,
        lacks_default(param, behind_default),
        scope,
        at,
        BindKind::ArgumentCount,
    );
    note_first(found, scope, kind_of_type(param.kind.name), &param.first);
}

/// The parameter.
fn bound_param(param: &Param) -> bound::Param
    requires { IsShortFirst param.now.first }
    ensures { param_of result ≡ bound_param param.now }
{
    let first = match &param.first {
        None => None,
        Some(first) => Some(value_of(first)),
    };
    bound::Param {
        kind: kind_of_type(param.kind.name),
        first,
    }
}

/// The parameters of a function, and their faults. Behind them, they are the locals.
pub(crate) fn bound_params<'a>(
    alloc: Global,
    scope: &mut Scope<'a>,
    found: &mut Option<Fault>,
    params: &'a [Param],
) -> Result<Items<bound::Param>, OutOfMemory>
    requires none { (scope_of scope.old).locals ≡ [] }
    requires short { All IsShortParam params.now }
    ensures value { IfOk result (λ ps. map param_of ps ≡ map bound_param params.now) }
    ensures faults { OnOk result (found.new ≡ noted found.old (each_behind (param_faults (scope_of scope.old)) [] params.now)) }
    ensures scope { OnOk result (scope_of scope.new ≡ with_locals (scope_of scope.old) (map param_local params.now)) }
{
    let mut all = Items::new(alloc);
    let mut behind_default = false;
    for param in params {
        note_param(scope, found, param, behind_default);
        behind_default |= param.first.is_some();
        push(&mut all, bound_param(param))?;
        scope.declare(&param.name, kind_of_type(param.kind.name))?;
    }
    Ok(all)
}
