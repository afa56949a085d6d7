//! The cells, arrays and GLOBAL scalars of a project.
ghost use Rattle.std.specs.Prelude.{◌≡◌, ◌++◌, List, [], length, map, flat_map, replicate, IfOk, OnOk, All};
ghost use Rattle.ci_tree.specs.SeenBound.{cell_of, array_of, global_of};
ghost use Rattle.ci_names.specs.Declarations.{Variable, each_behind, cells_of, value_of_kind};
ghost use Rattle.ci_names.specs.Binding as binding;
ghost use Rattle.ci_names.specs.Binding.{bound_cells, bound_array, bound_global};
ghost use Rattle.ci_scopes.specs.Listed.{variable_at};
ghost use Rattle.ci_tree.specs.Written.{IsShortFirst};
ghost use Rattle.ci_scopes.specs.Short.{IsShortVariable};

use ci_base::{Bytes, Kind, OutOfMemory, Text, Value};
use ci_scopes::{VariableAt, kind_of_type, push, size, value_of};
use ci_tree::bound::{Array, Cell, Global as GlobalAt};
use sqlite_items::Items;
use std::alloc::Global;

/// The cells, arrays and GLOBAL scalars of variables, each in order.
#[derive(Drop)]
pub(crate) struct Shared {
    pub(crate) cells: Items<Cell>,
    pub(crate) arrays: Items<Array>,
    pub(crate) globals: Items<GlobalAt>,
}

/// The value of a kind where nothing else is said: 0, or the empty text.
fn value_of_kind(kind: Kind) -> Value
    ensures { result ≡ value_of_kind kind }
{
    match kind {
        Kind::Int => Value::Int(0),
        Kind::Str => Value::Str(Text::empty()),
    }
}

/// What each cell of a variable holds at first.
fn first_of(v: &VariableAt) -> Value
    requires { IsShortFirst v.now.first.now }
    ensures { result ≡ (binding.cell_of (variable_at v.now)).first }
{
    match v.first {
        None => value_of_kind(kind_of_type(v.kind.name)),
        Some(first) => value_of(first),
    }
}

/// Adds so many cells that hold this.
fn add_cells(
    cells: &mut Items<Cell>,
    kind: Kind,
    first: &Value,
    size: usize,
) -> Result<(), OutOfMemory>
    ensures { OnOk result (map cell_of cells.new ≡ map cell_of cells.old ++ replicate size (record { kind = kind; first = first.now })) }
{
    for _ in 0..size {
        let first = first.copy();
        push(cells, Cell { kind, first })?;
    }
    Ok(())
}

impl Shared {
    /// What these variables are.
    pub(crate) fn of(alloc: Global, all: &[VariableAt]) -> Result<Shared, OutOfMemory>
        requires { All IsShortVariable (map variable_at all.now) }
        ensures cells { IfOk result (λ shared. map cell_of shared.cells ≡ flat_map bound_cells (map variable_at all.now)) }
        ensures arrays { IfOk result (λ shared. map array_of shared.arrays ≡ each_behind bound_array [] (map variable_at all.now)) }
        ensures globals { IfOk result (λ shared. map global_of shared.globals ≡ each_behind bound_global [] (map variable_at all.now)) }
    {
        let mut shared = Shared {
            cells: Items::new(alloc),
            arrays: Items::new(alloc),
            globals: Items::new(alloc),
        };
        for v in all {
            shared.add(alloc, v)?;
        }
        Ok(shared)
    }

    /// Adds what this variable is.
    fn add(&mut self, alloc: Global, v: &VariableAt) -> Result<(), OutOfMemory>
        requires { IsShortFirst v.now.first.now }
        ensures cells { OnOk result (map cell_of self.new.cells ≡ map cell_of self.old.cells ++ bound_cells (variable_at v.now)) }
        ensures arrays { OnOk result ((before : List Variable) → cells_of before ≡ length self.old.cells → map array_of self.new.arrays ≡ map array_of self.old.arrays ++ bound_array before (variable_at v.now)) }
        ensures globals { OnOk result ((before : List Variable) → cells_of before ≡ length self.old.cells → map global_of self.new.globals ≡ map global_of self.old.globals ++ bound_global before (variable_at v.now)) }
    {
        let at = self.cells.len();
        let kind = kind_of_type(v.kind.name);
        let size = size(v.length);
        if v.length.is_some() {
            push(
                &mut self.arrays,
                Array {
                    first: at,
                    kind,
                    length: size,
                },
            )?;
        } else if v.global {
            let name = Bytes::copy(alloc, v.name.bytes())?;
            push(&mut self.globals, GlobalAt { name, cell: at })?;
        }
        add_cells(&mut self.cells, kind, &first_of(v), size)
    }
}
