//! The faults of the variables of all files.
ghost use Rattle.std.specs.Prelude.{◌≡◌, ◌+◌, ◌≤◌, ◌&&◌, nat_le, nat_lt, [], min, take};
ghost use Rattle.std.specs.List.{list_any};
ghost use Rattle.ci_base.specs.declared.bounds.TheConstants.{MOST_CELLS};
ghost use Rattle.ci_names.specs.Fault.{noted};
ghost use Rattle.ci_names.specs.Declarations.{each_behind};
ghost use Rattle.ci_names.specs.Statements.{maybe};
ghost use Rattle.ci_names.specs.Faults.{same_variable, length_faults, file_scope, variable_faults};
ghost use Rattle.ci_scopes.specs.Seen.{variable_at, scope_of, declared_of};
ghost use Rattle.ci_binder.specs.Before.{counted};

use crate::rules::{is_among, note_first};
use ci_base::bounds::MOST_CELLS;
use ci_bodies::{note_if, note_type};
use ci_names::{BindKind, Fault, Limit};
use ci_scopes::{ProjectNames, Scope, VariableAt, kind_of_type, size};
use ci_tree::Length;
use std::alloc::Global;

/// Whether one of the first `count` variables has the name of this one, and both would be seen.
#[tactic(auto, using(crate::proofs::Among::variables_before))]
fn is_variable_declared(names: &ProjectNames, count: usize, v: &VariableAt) -> bool
    ensures { result ≡ list_any (same_variable (variable_at v.now)) (take count (declared_of names.now).variables) }
{
    let in_file = is_among(count, names.first_variable(v.file, v.name));
    let everywhere = is_among(count, names.first_global(v.name));
    in_file || (v.global && everywhere)
}

/// Whether so many cells more pass the limit that `cells` keep.
fn passes_cells(cells: usize, size: usize) -> bool
    requires { size ≤ MOST_CELLS }
    ensures { result ≡ (nat_le cells MOST_CELLS && nat_lt MOST_CELLS (cells + size)) }
{
    cells <= MOST_CELLS && cells + size > MOST_CELLS
}

/// The cells with so many more, counted no further than one above their limit.
fn counted_with(cells: usize, size: usize) -> usize
    requires { size ≤ MOST_CELLS }
    ensures { result ≡ min (cells + size) (MOST_CELLS + 1) }
{
    if cells > MOST_CELLS {
        return MOST_CELLS + 1;
    }
    (cells + size).min(MOST_CELLS + 1)
}

/// Notes the fault of an array's length, where there is one.
fn note_length(found: &mut Option<Fault>, scope: &Scope, length: Option<Length>)
    ensures { found.new ≡ noted found.old (maybe (length_faults (scope_of scope.now)) length) }
{
    if let Some(said) = length {
        note_if(
            found,
            size(length) == 0,
            scope,
            said.at,
            BindKind::Limit(Limit::Array),
        );
    }
}

/// Notes the faults of a variable. Before it stand `count` others, of so many cells.
fn note_variable(
    names: &ProjectNames,
    scope: &Scope,
    found: &mut Option<Fault>,
    count: usize,
    cells: usize,
    v: &VariableAt,
)
    requires scope { scope_of scope.now ≡ file_scope (declared_of names.now) v.now.file }
    requires cells { cells ≡ counted (take count (declared_of names.now).variables) }
    ensures { found.new ≡ noted found.old (variable_faults (declared_of names.now) (take count (declared_of names.now).variables) (variable_at v.now)) }
{
    let twice = is_variable_declared(names, count, v);
    note_if(found, twice, scope, v.at, BindKind::DeclaredTwice);
    note_if(
        found,
        passes_cells(cells, size(v.length)),
        scope,
        v.at,
        BindKind::Limit(Limit::Cells),
    );
    note_type(found, scope, v.kind);
    note_length(found, scope, v.length);
    note_first(found, scope, kind_of_type(v.kind.name), v.first);
}

/// Notes the faults of the variables of all files.
pub(crate) fn note_variables<'a>(
    alloc: Global,
    names: &'a ProjectNames<'a>,
    found: &mut Option<Fault>,
)
    ensures { found.new ≡ noted found.old (each_behind (variable_faults (declared_of names.now)) [] (declared_of names.now).variables) }
{
    let all = names.variables();
    let mut cells = 0;
    for (count, v) in all.iter().enumerate() {
        let scope = Scope::of(alloc, names, v.file, None);
        note_variable(names, &scope, found, count, cells, v);
        cells = counted_with(cells, size(v.length));
    }
}
