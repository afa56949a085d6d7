//! The parts of code, put together.
ghost use Rattle.std.specs.Prelude.{◌≡◌, ◌<◌, ◌^◌, ◌↔◌, IsTrue, All, MatchOption};
ghost use Rattle.ci_code.specs.Code.{IsCode};
ghost use Rattle.ci_assembly.specs.Parts.{AreListsCounted, DoFit, IsShapeCounted};

use crate::cells::{are_cells, are_named, do_rise};
use crate::functions::{are_functions_counted, begin_with_parameters};
use crate::heads::are_heads;
use ci_base::KindList;
use ci_code::{RawCode, RawParts};

/// The code of these parts, where they fit one another as those of code do, else none. Takes no memory. Its time is linear in
/// the tables and the functions' locals.
pub fn assemble(parts: RawParts) -> Option<RawCode>
    ensures { MatchOption result (IsCode parts → ⊥) (λ code. (code ≡ parts) × IsCode parts) }
{
    if !fit(&parts) {
        return None;
    }
    Some(RawCode::of(parts))
}

/// Whether the parts fit one another.
fn fit(parts: &RawParts) -> bool
    ensures { IsTrue result ↔ DoFit parts.now }
{
    let heads = parts.layout.functions.members();
    let functions = parts.functions.members();
    let cells = parts.layout.cells.members();
    let globals = parts.layout.globals.members();
    functions.len() == heads.len()
        && begin_with_parameters(heads, functions)
        && are_heads(heads)
        && are_cells(cells)
        && are_named(globals)
        && do_rise(globals)
        && are_functions_counted(functions)
        && are_lists_counted(parts)
}

/// Whether so few members have numbers of 32 bits.
pub fn is_few(count: usize) -> bool
    ensures { IsTrue result ↔ (count < 2 ^ 32) }
{
    count <= u32::MAX as usize
}

/// Whether the lists of the layout, of texts, arrays and shapes, and each shape, have fewer than 2^32 members.
fn are_lists_counted(parts: &RawParts) -> bool
    ensures { IsTrue result ↔ AreListsCounted parts.now }
{
    is_few(parts.layout.functions.members().len())
        && is_few(parts.layout.cells.members().len())
        && is_few(parts.layout.globals.members().len())
        && is_few(parts.texts.members().len())
        && is_few(parts.arrays.members().len())
        && is_few(parts.shapes.members().len())
        && is_few(parts.functions.members().len())
        && are_shapes_counted(parts.shapes.members())
}

/// Whether each shape has fewer than 2^32 kinds.
fn are_shapes_counted(shapes: &[KindList]) -> bool
    ensures { IsTrue result ↔ All IsShapeCounted shapes.now }
{
    for shape in shapes {
        if !is_shape_counted(shape) {
            return false;
        }
    }
    true
}

/// Whether the shape has fewer than 2^32 kinds.
fn is_shape_counted(shape: &KindList) -> bool
    ensures { IsTrue result ↔ IsShapeCounted shape.now }
{
    is_few(shape.members().len())
}
