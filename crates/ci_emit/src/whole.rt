//! The code of a project.
ghost use Rattle.std.specs.Prelude.{◌≡◌, ◌<◌, ◌≤◌, ◌^◌, length, map, All, IfOk};
ghost use Rattle.ci_base.specs.declared.bounds.TheConstants.{MOST_TEXT_BYTES};
ghost use Rattle.ci_translation.specs.Stands.{cells_of};
ghost use Rattle.ci_translation.specs.Translation.{translation};
ghost use Rattle.ci_tree.specs.Rooms.{room};
ghost use Rattle.ci_tree.specs.SeenBound.{array_of, project_of};

use crate::functions::functions;
use crate::laws::code_is_short;
use crate::writer::Writer;
use ci_base::{Kind, KindList, OutOfMemory, Text};
use ci_code::{ArrayList, Cells, RawCode, RawParts, ShapeList, TextList};
use ci_rules::laws::translation_fits;
use ci_tree::bound::Array;
use ci_tree::{Project, layout};
use std::alloc::Global;

/// The code of a project whose functions take these rooms: its translation. It takes time in proportion to the project's size
/// times its levels.
pub fn emit(alloc: Global, project: &Project, rooms: &[u32]) -> Result<RawCode, OutOfMemory>
    requires { rooms.now ≡ map room (project_of project.now).functions }
    ensures { IfOk result (λ code. code ≡ translation (project_of project.now)) }
{
    code_is_short();
    translation_fits();
    let parts = project.parts();
    let mut writer = Writer::empty(alloc);
    let functions = functions(alloc, project, rooms, &mut writer)?;
    let layout = layout(alloc, project)?;
    let arrays = arrays(alloc, parts.arrays.as_slice())?;
    let texts = text_list(alloc, writer.texts())?;
    let shapes = shape_list(alloc, writer.shapes())?;
    Ok(RawCode::of(RawParts {
        layout,
        texts,
        arrays,
        shapes,
        functions,
    }))
}

/// The arrays, with their numbers in words of 32 bits.
fn arrays(alloc: Global, arrays: &[Array]) -> Result<ArrayList, OutOfMemory>
    requires firsts { All (λ array. array.first < 2 ^ 32) arrays.now }
    requires lengths { All (λ array. array.length < 2 ^ 32) arrays.now }
    ensures { IfOk result (λ list. list ≡ map cells_of (map array_of arrays.now)) }
{
    let mut list = Vec::new(alloc);
    for array in arrays {
        let cells = Cells {
            first: array.first as u32,
            kind: array.kind,
            length: array.length as u32,
        };
        let Ok(()) = list.push(cells) else {
            return Err(OutOfMemory);
        };
    }
    Ok(ArrayList::of(list))
}

/// Texts of few bytes.
fn text_list(alloc: Global, texts: &[Vec<u8>]) -> Result<TextList, OutOfMemory>
    requires { All (λ text. length text.items ≤ MOST_TEXT_BYTES) texts.now }
    ensures { IfOk result (λ list. list ≡ map (λ text. text.items) texts.now) }
{
    let mut list = Vec::new(alloc);
    for text in texts {
        let Ok(()) = list.push(Text::of_few(text.as_slice())) else {
            return Err(OutOfMemory);
        };
    }
    Ok(TextList::of(list))
}

/// The kinds of a shape, once more.
fn copied(alloc: Global, shape: &[Kind]) -> Result<KindList, OutOfMemory>
    ensures { IfOk result (λ list. list ≡ shape.now) }
{
    let mut copy = Vec::new(alloc);
    match copy.extend_from_slice(shape) {
        Ok(()) => Ok(KindList::of(copy)),
        Err(_) => Err(OutOfMemory),
    }
}

/// Shapes.
fn shape_list(alloc: Global, shapes: &[Vec<Kind>]) -> Result<ShapeList, OutOfMemory>
    ensures { IfOk result (λ list. list ≡ map (λ shape. shape.items) shapes.now) }
{
    let mut list = Vec::new(alloc);
    for shape in shapes {
        let copy = copied(alloc, shape.as_slice())?;
        let Ok(()) = list.push(copy) else {
            return Err(OutOfMemory);
        };
    }
    Ok(ShapeList::of(list))
}
