//! Declarations of locals.
ghost use Rattle.std.specs.Prelude.{◌≡◌, [], ◌∷◌, ◌++◌, map, option_map, OnOk};
ghost use Rattle.ci_tree.specs.Seen.{expr_of, local_of};
ghost use Rattle.ci_names.specs.Fault.{noted};
ghost use Rattle.ci_names.specs.Declarations.{kind_of_type, is_out_of_scope};
ghost use Rattle.ci_names.specs.Scopes.{with_locals, declared_local};
ghost use Rattle.ci_names.specs.Statements.{type_faults, local_name, maybe, part_faults, locals_faults};
ghost use Rattle.ci_names.specs.Binding.{set_before, locals_before};
ghost use Rattle.ci_scopes.specs.Seen.{scope_of};
ghost use Rattle.ci_bodies.specs.Parts.{Notes, IsAppended};

use crate::expressions::part;
use crate::faults::note_if;
use ci_base::bounds::MOST_LOCALS;
use ci_base::{Bytes, Kind, OutOfMemory};
use ci_names::{BindKind, Fault, Limit};
use ci_scopes::{Scope, kind_of_type, push};
use ci_tree::bound::{self, Scalar};
use ci_tree::{Expr, LocalAt, TypeAt, TypeName};
use sqlite_items::Items;
use std::alloc::Global;

/// Whether the type is REAL, OBJECT, QUALITY or TIMESTAMP.
fn is_out_of_scope(name: TypeName) -> bool
    ensures { result ≡ is_out_of_scope name }
{
    match name {
        TypeName::Int | TypeName::String => false,
        TypeName::Real | TypeName::Object | TypeName::Quality | TypeName::Timestamp => true,
    }
}

/// Notes the fault of a type that is out of scope.
pub fn note_type(found: &mut Option<Fault>, scope: &Scope, kind: TypeAt)
    ensures { found.new ≡ noted found.old (type_faults (scope_of scope.now) kind) }
{
    note_if(
        found,
        is_out_of_scope(kind.name),
        scope,
        kind.at,
        BindKind::TypeOutOfScope,
    );
}

/// Notes the faults of the name of a local, where those before it hold.
pub fn note_local(found: &mut Option<Fault>, scope: &Scope, at: u32, name: &Bytes)
    ensures { found.new ≡ noted found.old (local_name (scope_of scope.now) at name.now) }
{
    note_if(
        found,
        scope.has_local(name),
        scope,
        at,
        BindKind::DeclaredTwice,
    );
    note_if(
        found,
        scope.count() == MOST_LOCALS,
        scope,
        at,
        BindKind::Limit(Limit::Locals),
    );
}

/// The assignment of a first value to the next local, where there is one.
fn first_value(
    alloc: Global,
    scope: &Scope,
    found: &mut Option<Fault>,
    into: &mut Items<bound::Stmt>,
    kind: Kind,
    at: u32,
    value: &Option<Expr>,
) -> Result<(), OutOfMemory>
    ensures tree { OnOk result (IsAppended (scope_of scope.now) (set_before (scope_of scope.now) at (option_map expr_of value.now)) into.old into.new) }
    ensures found { OnOk result (Notes (maybe (part_faults (scope_of scope.now) kind) (option_map expr_of value.now)) found.old found.new) }
{
    match value {
        None => Ok(()),
        Some(value) => {
            let (bound, _) = part(alloc, scope, found, kind, value)?;
            push(
                into,
                bound::Stmt::assign(at, Scalar::Local(scope.count()), bound),
            )?;
            Ok(())
        }
    }
}

/// A local of this kind. It holds from the end of its first value on.
fn local<'a>(
    alloc: Global,
    scope: &mut Scope<'a>,
    found: &mut Option<Fault>,
    into: &mut Items<bound::Stmt>,
    kind: Kind,
    local: &'a LocalAt,
) -> Result<(), OutOfMemory>
    ensures tree { OnOk result (IsAppended (scope_of scope.old) (set_before (scope_of scope.old) (local_of local.now).at (local_of local.now).value) into.old into.new) }
    ensures found { OnOk result (Notes (local_name (scope_of scope.old) (local_of local.now).at (local_of local.now).name ++ maybe (part_faults (scope_of scope.old) kind) (local_of local.now).value) found.old found.new) }
    ensures scope { OnOk result (scope_of scope.new ≡ with_locals (scope_of scope.old) (declared_local kind (local_of local.now) ∷ [])) }
{
    note_local(found, scope, local.at, &local.name);
    first_value(alloc, scope, found, into, kind, local.at, &local.value)?;
    scope.declare(&local.name, kind)?;
    Ok(())
}

/// Locals of this kind, each where those before it hold.
fn locals<'a>(
    alloc: Global,
    scope: &mut Scope<'a>,
    found: &mut Option<Fault>,
    into: &mut Items<bound::Stmt>,
    kind: Kind,
    locals: &'a [LocalAt],
) -> Result<(), OutOfMemory>
    ensures tree { OnOk result (IsAppended (scope_of scope.old) (locals_before (scope_of scope.old) kind (map local_of locals.now)) into.old into.new) }
    ensures found { OnOk result (Notes (locals_faults (scope_of scope.old) kind (map local_of locals.now)) found.old found.new) }
    ensures scope { OnOk result (scope_of scope.new ≡ with_locals (scope_of scope.old) (map (declared_local kind) (map local_of locals.now))) }
{
    for one in locals {
        local(alloc, scope, found, into, kind, one)?;
    }
    Ok(())
}

/// A declaration: each local that has a first value is an assignment, behind what was made before it.
pub fn declare<'a>(
    alloc: Global,
    scope: &mut Scope<'a>,
    found: &mut Option<Fault>,
    into: &mut Items<bound::Stmt>,
    kind: TypeAt,
    names: &'a [LocalAt],
) -> Result<(), OutOfMemory>
    ensures tree { OnOk result (IsAppended (scope_of scope.old) (locals_before (scope_of scope.old) (kind_of_type kind.name) (map local_of names.now)) into.old into.new) }
    ensures found { OnOk result (Notes (type_faults (scope_of scope.old) kind ++ locals_faults (scope_of scope.old) (kind_of_type kind.name) (map local_of names.now)) found.old found.new) }
    ensures scope { OnOk result (scope_of scope.new ≡ with_locals (scope_of scope.old) (map (declared_local (kind_of_type kind.name)) (map local_of names.now))) }
{
    note_type(found, scope, kind);
    locals(alloc, scope, found, into, kind_of_type(kind.name), names)?;
    Ok(())
}
