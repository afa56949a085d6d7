//! What the files declare, read item by item.
ghost use Rattle.std.specs.Prelude.{◌≡◌, ◌+◌, ◌*◌, ◌≤◌, [], ◌∷◌, OnOk, IfOk, length, map, All};
ghost use Rattle.ci_base.specs.declared.bounds.TheConstants.{MOST_FILES, MOST_CELLS};
ghost use Rattle.ci_tree.specs.Files.{IsFileTree};
ghost use Rattle.ci_tree.specs.Seen.{item_of, items_of};
ghost use Rattle.ci_names.specs.Declarations.{Declared, declared_in};
ghost use Rattle.ci_tree.specs.Written.{IsShortItem};

use crate::functions::{FunctionAt, Functions};
use crate::variables::{VariableAt, Variables};
use ci_base::OutOfMemory;
use ci_tree::{FileTree, Item};
use std::alloc::Global;

/// The functions and variables that were read so far.
#[derive(Drop)]
pub(crate) struct Rows<'a> {
    pub(crate) functions: Functions<'a>,
    pub(crate) variables: Variables<'a>,
}

impl<'a> Rows<'a> {
    ghost use Rattle.ci_scopes.specs.Stands.{with_items};
    ghost use Rattle.ci_scopes.specs.Rows.{IsRows, HasRoom};

    /// Adds the item of this file.
    fn add(&mut self, alloc: Global, file: u32, item: &'a Item) -> Result<(), OutOfMemory>
        requires room { HasRoom 1 self.old }
        requires short { IsShortItem (item_of item.now) }
        ensures stands { OnOk result ((d : Declared) → IsRows self.old d → IsRows self.new (with_items file d (item_of item.now ∷ []))) }
        ensures cells { OnOk result (self.new.variables.cells ≤ self.old.variables.cells + MOST_CELLS) }
        ensures arrays { OnOk result (self.new.variables.arrays ≤ self.old.variables.arrays + 1) }
    {
        match item {
            Item::Function {
                at,
                name,
                private,
                gives,
                params,
                body,
            } => self.functions.add(
                alloc,
                FunctionAt {
                    file,
                    at: *at,
                    name,
                    private: *private,
                    gives: *gives,
                    params: params.as_slice(),
                    body: body.as_slice(),
                },
            ),
            Item::Variable {
                at,
                name,
                global,
                kind,
                length,
                first,
            } => self.variables.add(VariableAt {
                file,
                at: *at,
                name,
                global: *global,
                kind: *kind,
                length: *length,
                first,
            }),
        }
    }

    /// Adds the items of this file.
    fn add_file(&mut self, alloc: Global, file: u32, items: &'a [Item]) -> Result<(), OutOfMemory>
        requires room { HasRoom (length items.now) self.old }
        requires short { All IsShortItem (items_of items.now) }
        ensures stands { OnOk result ((d : Declared) → IsRows self.old d → IsRows self.new (with_items file d (items_of items.now))) }
        ensures cells { OnOk result (self.new.variables.cells ≤ self.old.variables.cells + MOST_CELLS * length items.now) }
        ensures arrays { OnOk result (self.new.variables.arrays ≤ self.old.variables.arrays + length items.now) }
    {
        for item in items {
            self.add(alloc, file, item)?;
        }
        Ok(())
    }

    /// What these files declare.
    pub(crate) fn of(alloc: Global, trees: &'a [FileTree]) -> Result<Rows<'a>, OutOfMemory>
        requires { length trees.now ≤ MOST_FILES }
        ensures rows { IfOk result (λ rows. IsRows rows (declared_in (map items_of trees.now))) }
        ensures kept { OnOk result (All IsFileTree (map items_of trees.now)) }
    {
        let mut rows = Rows {
            functions: Functions::empty(alloc),
            variables: Variables::empty(alloc),
        };
        for file in 0..trees.len() {
            rows.add_file(alloc, file as u32, trees[file].items())?;
        }
        Ok(rows)
    }
}
