//! A list of values, one for each cell.
ghost use Rattle.std.specs.Prelude.{◌≡◌, ◌<◌, length, map, slice_get, slice_set, Some, IfOk};
ghost use Rattle.ci_base.specs.declared.value.Value.{Value};
ghost use Rattle.ci_base.specs.Values.{kind_of};

use ci_base::{Layout, OutOfMemory, Value};
use std::alloc::Global;
use std::marker::Model;
use std::mem::size_of;

/// The values of the cells, by their numbers from 0. Contracts see the list.
#[derive(Debug, Drop)]
pub struct Vars {
    kept: Vec<Value>,
}

// 100,000 cells take at most 28 MB.
const _: () = prove!(size_of::<Value>() <= 280);

impl Model for Vars {
    ghost use Rattle.std.specs.Prelude.{List};
    ghost use Rattle.ci_base.specs.declared.value.Value.{Value as Held};

    ghost Value = { List Held };

    ghost view = { λ vars. vars.kept.items };
}

impl Vars {
    /// The first values of a layout's cells. Takes the memory of all cells at once.
    pub fn start(alloc: Global, layout: &Layout) -> Result<Vars, OutOfMemory>
        ensures { IfOk result (λ vars. vars ≡ map (λ cell. cell.first) layout.now.cells) }
    {
        let heads = layout.cells.members();
        let mut kept = match Vec::with_capacity(alloc, heads.len()) {
            Ok(kept) => kept,
            Err(_) => return Err(OutOfMemory),
        };
        for head in heads {
            match kept.push(head.first.copy()) {
                Ok(()) => {}
                Err(_) => return Err(OutOfMemory),
            }
        }
        Ok(Vars { kept })
    }

    /// The value of the cell. Takes no memory.
    pub fn read(&self, cell: u32) -> Value
        requires { cell < length self.now }
        ensures { slice_get self.now cell ≡ Some result }
    {
        self.kept[cell as usize].copy()
    }

    /// Puts the value into the cell, whose kind it has. Takes no memory.
    pub fn write(&mut self, cell: u32, v: Value)
        requires cell { cell < length self.old }
        requires kind { (before : Value) → slice_get self.old cell ≡ Some before → kind_of before ≡ kind_of v }
        ensures { self.new ≡ slice_set self.old cell v }
    {
        self.kept[cell as usize] = v;
    }
}
