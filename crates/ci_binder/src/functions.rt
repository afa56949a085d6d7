//! The functions of all files.
ghost use Rattle.std.specs.Prelude.{◌≡◌, ◌≤◌, ◌||◌, ◌==◌, ◌++◌, [], map, take, drop, length, is_some, IfOk, OnOk, All};
ghost use Rattle.std.specs.List.{list_any};
ghost use Rattle.ci_base.specs.declared.bounds.TheConstants.{MOST_FUNCTIONS};
ghost use Rattle.ci_tree.specs.SeenBound.{function_of};
ghost use Rattle.ci_names.specs.declared.fault.BindKind.TheVariants as kinds;
ghost use Rattle.ci_names.specs.declared.fault.Limit.TheVariants as limits;
ghost use Rattle.ci_names.specs.Fault.{noted};
ghost use Rattle.ci_names.specs.Declarations.{each_behind};
ghost use Rattle.ci_names.specs.Given.{given_named};
ghost use Rattle.ci_names.specs.Expressions.{broken};
ghost use Rattle.ci_names.specs.Statements.{maybe, type_faults};
ghost use Rattle.ci_names.specs.Faults.{same_function, function_faults};
ghost use Rattle.ci_names.specs.Binding.{heads_in, bound_function};
ghost use Rattle.ci_scopes.specs.Seen.{function_at, scope_of, declared_of};
ghost use Rattle.ci_tree.specs.Written.{IsShortParam};
ghost use Rattle.ci_scopes.specs.Short.{IsShortFunction};

use crate::parameters::bound_params;
use crate::rules::is_among;
use ci_base::bounds::MOST_FUNCTIONS;
use ci_base::{Bytes, Kind, OutOfMemory};
use ci_bodies::{body, note_if, note_type};
use ci_names::{BindKind, Fault, Limit};
use ci_scopes::{FunctionAt, ProjectNames, Scope, given_kind, push};
use ci_tree::bound;
use sqlite_items::Items;
use std::alloc::Global;

/// Whether one of the first `count` functions has the name of this one, and both would be seen; or one that every project has.
#[tactic(auto, using(crate::proofs::Among::functions_before))]
fn is_function_declared(names: &ProjectNames, count: usize, f: &FunctionAt) -> bool
    ensures { result ≡ (list_any (same_function (function_at f.now)) (take count (declared_of names.now).functions) || is_some (given_named f.now.name.now)) }
{
    let in_file = is_among(count, names.first_function(f.file, f.name));
    let everywhere = is_among(count, names.first_public(f.name));
    let given = names.given(f.name).is_some();
    in_file || (!f.private && everywhere) || given
}

/// Notes the faults of a function's name, of its number and of its type. `count` functions stand before it.
fn note_heading(
    names: &ProjectNames,
    scope: &Scope,
    found: &mut Option<Fault>,
    count: usize,
    f: &FunctionAt,
)
    ensures { let s = scope_of scope.now in found.new ≡ noted found.old (
        broken (list_any (same_function (function_at f.now)) (take count (declared_of names.now).functions) || is_some (given_named f.now.name.now)) s f.now.at kinds.DeclaredTwice
        ++ broken (count == MOST_FUNCTIONS) s f.now.at (kinds.Limit limits.Functions)
        ++ maybe (type_faults s) f.now.gives) }
{
    let twice = is_function_declared(names, count, f);
    note_if(found, twice, scope, f.at, BindKind::DeclaredTwice);
    note_if(
        found,
        count == MOST_FUNCTIONS,
        scope,
        f.at,
        BindKind::Limit(Limit::Functions),
    );
    if let Some(kind) = f.gives {
        note_type(found, scope, kind);
    }
}

/// The kinds of the locals behind the first `count`.
fn kinds_behind(alloc: Global, scope: &Scope, count: usize) -> Result<Items<Kind>, OutOfMemory>
    requires { count ≤ length (scope_of scope.now).locals }
    ensures { IfOk result (λ kinds. kinds ≡ map (λ l. l.kind) (drop count (scope_of scope.now).locals)) }
{
    let kinds = scope.kinds();
    match Items::from_slice(alloc, &kinds[count..]) {
        Ok(kinds) => Ok(kinds),
        Err(_) => Err(OutOfMemory),
    }
}

/// A function behind `count` others, and its faults.
fn bound_function<'a>(
    alloc: Global,
    names: &'a ProjectNames<'a>,
    found: &mut Option<Fault>,
    count: usize,
    f: &FunctionAt<'a>,
) -> Result<bound::Function, OutOfMemory>
    requires before { count ≤ length (declared_of names.now).functions }
    requires short { All IsShortParam f.now.params.now }
    ensures value { IfOk result (λ b. function_of (heads_in (declared_of names.now)) b ≡ bound_function (declared_of names.now) (function_at f.now)) }
    ensures faults { OnOk result (found.new ≡ noted found.old (function_faults (declared_of names.now) (take count (declared_of names.now).functions) (function_at f.now))) }
{
    let gives = given_kind(&f.gives);
    let mut scope = Scope::of(alloc, names, f.file, gives);
    note_heading(names, &scope, found, count, f);
    let params = bound_params(alloc, &mut scope, found, f.params)?;
    let body = body(alloc, &mut scope, found, f.body)?;
    let others = kinds_behind(alloc, &scope, f.params.len())?;
    Ok(bound::Function {
        file: f.file,
        name: Bytes::copy(alloc, f.name.bytes())?,
        public: !f.private,
        gives,
        params,
        others,
        body,
    })
}

/// The functions of all files, and their faults.
pub(crate) fn bound_functions<'a>(
    alloc: Global,
    names: &'a ProjectNames<'a>,
    found: &mut Option<Fault>,
) -> Result<Items<bound::Function>, OutOfMemory>
    requires { All IsShortFunction (declared_of names.now).functions }
    ensures value { IfOk result (λ fs. map (function_of (heads_in (declared_of names.now))) fs ≡ map (bound_function (declared_of names.now)) (declared_of names.now).functions) }
    ensures faults { OnOk result (found.new ≡ noted found.old (each_behind (function_faults (declared_of names.now)) [] (declared_of names.now).functions)) }
{
    let all = names.functions();
    let mut functions = Items::new(alloc);
    for (count, f) in all.iter().enumerate() {
        let function = bound_function(alloc, names, found, count, f)?;
        push(&mut functions, function)?;
    }
    Ok(functions)
}
