//! The rules of the tables.
ghost use Rattle.std.specs.Prelude.{◌≡◌, ◌↔◌, IsTrue};
ghost use Rattle.std.specs.List.{list_all};
ghost use Rattle.ci_base.specs.declared.layout.CellHead.{CellHead};
ghost use Rattle.ci_verify.specs.Kinds.{same_kind};
ghost use Rattle.ci_verify.specs.Rules.{has_cell, has_cells, AreTablesKept};

use ci_base::bounds::{MOST_CELLS, MOST_FUNCTIONS};
use ci_base::{CellHead, Global, Kind};
use ci_code::{Cells, RawParts};

/// Whether the kinds are one.
fn is_kind(a: Kind, b: Kind) -> bool
    ensures { result ≡ same_kind a b }
{
    match (a, b) {
        (Kind::Int, Kind::Int) | (Kind::Str, Kind::Str) => true,
        _ => false,
    }
}

/// Whether each cell is of that kind.
fn are_cells_of(cells: &[CellHead], kind: Kind) -> bool
    ensures { result ≡ list_all (λ (cell : CellHead). same_kind cell.kind kind) cells.now }
{
    cells.iter().all(|cell| is_kind(cell.kind, kind))
}

/// Whether the cells of an array that has some exist, and are of its kind.
fn has_cells(cells: &[CellHead], array: &Cells) -> bool
    ensures { result ≡ has_cells cells.now array.now }
{
    if array.length == 0 {
        return true;
    }
    let first = array.first as usize;
    let end = first + array.length as usize;
    end <= cells.len() && are_cells_of(&cells[first..end], array.kind)
}

/// Whether the cell of each GLOBAL scalar exists.
fn have_cell(cells: &[CellHead], globals: &[Global]) -> bool
    ensures { result ≡ list_all (has_cell cells.now) globals.now }
{
    globals
        .iter()
        .all(|global| (global.cell as usize) < cells.len())
}

/// Whether the cells of each array exist, and are of its kind.
fn have_cells(cells: &[CellHead], arrays: &[Cells]) -> bool
    ensures { result ≡ list_all (has_cells cells.now) arrays.now }
{
    arrays.iter().all(|array| has_cells(cells, array))
}

/// Rule 1 of the tables: no limit is passed, and the cells that are named exist.
pub fn are_tables_kept(code: &RawParts) -> bool
    ensures { IsTrue result ↔ AreTablesKept code.now }
{
    let cells = code.layout.cells.members();
    code.layout.functions.members().len() <= MOST_FUNCTIONS
        && cells.len() <= MOST_CELLS
        && have_cell(cells, code.layout.globals.members())
        && have_cells(cells, code.arrays.members())
}
