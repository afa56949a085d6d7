//! The cells and the GLOBAL scalars of a layout.
ghost use Rattle.std.specs.Prelude.{◌↔◌, IsTrue, All, AllPairs};
ghost use Rattle.ci_assembly.specs.Parts.{IsCell, IsLower, IsNamed};

use crate::heads::is_of_kind;
use ci_base::{CellHead, Global};
use ci_lexer::is_name;

/// Whether each cell begins with a value of its kind.
pub fn are_cells(cells: &[CellHead]) -> bool
    ensures { IsTrue result ↔ All IsCell cells.now }
{
    for cell in cells {
        if !is_of_kind(&cell.first, cell.kind) {
            return false;
        }
    }
    true
}

/// Whether the GLOBAL scalars have names.
pub fn are_named(globals: &[Global]) -> bool
    ensures { IsTrue result ↔ All IsNamed globals.now }
{
    for global in globals {
        if !is_named(global) {
            return false;
        }
    }
    true
}

/// Whether the GLOBAL scalar has a name.
fn is_named(global: &Global) -> bool
    ensures { IsTrue result ↔ IsNamed global.now }
{
    is_name(global.name.bytes())
}

/// Whether the numbers of their cells rise.
pub fn do_rise(globals: &[Global]) -> bool
    ensures { IsTrue result ↔ AllPairs IsLower globals.now }
{
    for place in 1..globals.len() {
        if globals[place - 1].cell >= globals[place].cell {
            return false;
        }
    }
    true
}
