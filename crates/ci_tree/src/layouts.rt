//! What the shared state knows of a bound project.
ghost use Rattle.std.specs.Prelude.{◌≡◌, ◌<◌, ◌≤◌, ◌^◌, [], ◌∷◌, ◌++◌, length, map, IfOk, OnOk, All};
ghost use Rattle.std.specs.List.{filter_map};
ghost use Rattle.ci_base.specs.declared.bounds.TheConstants.{MOST_TEXT_BYTES};
ghost use Rattle.ci_tree.specs.LeftOut.{Heads};
ghost use Rattle.ci_tree.specs.Layouts.{head_of, cell_head_of, global_head_of, layout_of};
ghost use Rattle.ci_tree.specs.SeenBound.{function_of, cell_of, global_of, project_of};

use crate::bound::{Cell, Function, Global as GlobalAt, Param};
use crate::lists::{push, room_for};
use crate::project::Project;
use ci_base::{
    Bytes, CellHead, CellHeadList, Global, GlobalList, Head, HeadList, KindList, Layout,
    OutOfMemory, Text, Value, ValueList,
};
use std::alloc::Global as Allocator;

/// What the shared state knows of the project: its functions with what they take, its cells with what they hold at first, and
/// its GLOBAL scalars by name.
pub fn layout(alloc: Allocator, project: &Project) -> Result<Layout, OutOfMemory>
    ensures { IfOk result (λ layout. layout ≡ layout_of (project_of project.now)) }
{
    let parts = project.parts();
    Ok(Layout {
        functions: heads(alloc, parts.functions.as_slice())?,
        cells: cell_heads(alloc, parts.cells.as_slice())?,
        globals: global_heads(alloc, parts.globals.as_slice())?,
    })
}

/// The kinds of the parameters.
fn kinds(alloc: Allocator, params: &[Param]) -> Result<KindList, OutOfMemory>
    ensures { IfOk result (λ kinds. kinds ≡ map (λ p. p.kind) params.now) }
{
    let mut kinds = room_for(alloc, params.len())?;
    for param in params {
        push(&mut kinds, param.kind)?;
    }
    Ok(KindList::of(kinds))
}

/// Adds the value for the parameter, where it may be left out.
fn add_default(values: &mut Vec<Value>, param: &Param) -> Result<(), OutOfMemory>
    ensures { OnOk result (values.new.items ≡ values.old.items ++ filter_map (λ p. p.first) (param.now ∷ [])) }
{
    match &param.first {
        Some(first) => push(values, first.copy()),
        None => Ok(()),
    }
}

/// The values for the parameters that may be left out.
fn defaults(alloc: Allocator, params: &[Param]) -> Result<ValueList, OutOfMemory>
    ensures { IfOk result (λ values. values ≡ filter_map (λ p. p.first) params.now) }
{
    let mut values = room_for(alloc, params.len())?;
    for param in params {
        add_default(&mut values, param)?;
    }
    Ok(ValueList::of(values))
}

/// A function, with what it takes.
fn head(alloc: Allocator, function: &Function) -> Result<Head, OutOfMemory>
    requires { length function.now.name ≤ MOST_TEXT_BYTES }
    ensures { IfOk result (λ head. (takes : Heads) → head ≡ head_of (function_of takes function.now)) }
{
    let kinds = kinds(alloc, function.params.as_slice())?;
    let defaults = defaults(alloc, function.params.as_slice())?;
    Ok(Head {
        name: Text::of_few(function.name.bytes()),
        public: function.public,
        kinds,
        defaults,
    })
}

/// The functions, with what they take.
fn heads(alloc: Allocator, functions: &[Function]) -> Result<HeadList, OutOfMemory>
    requires { All (λ f. length f.name ≤ MOST_TEXT_BYTES) functions.now }
    ensures { IfOk result (λ heads. (takes : Heads) → heads ≡ map head_of (map (function_of takes) functions.now)) }
{
    let mut heads = room_for(alloc, functions.len())?;
    for function in functions {
        let one = head(alloc, function)?;
        push(&mut heads, one)?;
    }
    Ok(HeadList::of(heads))
}

/// A cell, with what it holds at first.
fn cell_head(cell: &Cell) -> CellHead
    ensures { result ≡ cell_head_of (cell_of cell.now) }
{
    CellHead {
        kind: cell.kind,
        first: cell.first.copy(),
    }
}

/// The cells, with what they hold at first.
fn cell_heads(alloc: Allocator, cells: &[Cell]) -> Result<CellHeadList, OutOfMemory>
    ensures { IfOk result (λ heads. heads ≡ map cell_head_of (map cell_of cells.now)) }
{
    let mut heads = room_for(alloc, cells.len())?;
    for cell in cells {
        push(&mut heads, cell_head(cell))?;
    }
    Ok(CellHeadList::of(heads))
}

/// A GLOBAL scalar.
fn global_head(global: &GlobalAt) -> Global
    requires name { length global.now.name ≤ MOST_TEXT_BYTES }
    requires cell { global.now.cell < 2 ^ 32 }
    ensures { result ≡ global_head_of (global_of global.now) }
{
    Global {
        name: Text::of_few(global.name.bytes()),
        cell: global.cell as u32,
    }
}

/// The GLOBAL scalars by name.
fn global_heads(alloc: Allocator, globals: &[GlobalAt]) -> Result<GlobalList, OutOfMemory>
    requires names { All (λ g. length g.name ≤ MOST_TEXT_BYTES) globals.now }
    requires cells { All (λ g. g.cell < 2 ^ 32) globals.now }
    ensures { IfOk result (λ heads. heads ≡ map global_head_of (map global_of globals.now)) }
{
    let mut heads = room_for(alloc, globals.len())?;
    for global in globals {
        push(&mut heads, global_head(global))?;
    }
    Ok(GlobalList::of(heads))
}
