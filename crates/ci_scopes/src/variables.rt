//! The variables of a project, by number and by name.
ghost use Rattle.std.specs.Prelude.{◌≡◌, ◌+◌, ◌≤◌, ◌<◌, ◌^◌, ◌++◌, [], ◌∷◌, List, if◌then◌else◌, OnOk};
ghost use Rattle.ci_base.specs.declared.bounds.TheConstants.{MOST_CELLS};
ghost use Rattle.ci_names.specs.Declarations.{Variable, size_said, is_array_said};
ghost use Rattle.ci_names.specs.Scopes.{variable_behind};
ghost use Rattle.ci_scopes.specs.Listed.{variable_at};
ghost use Rattle.ci_scopes.specs.Values.{meaning_of};

use crate::meaning::Meaning;
use crate::memory::add;
use crate::table::NameTable;
use crate::values::kind_of_type;
use ci_base::bounds::MOST_CELLS;
use ci_base::{Bytes, OutOfMemory};
use ci_tree::bound::Scalar;
use ci_tree::{Const, Length, TypeAt};
use std::alloc::Global;

/// The declaration of a variable outside all functions.
#[derive(Clone, Copy)]
pub struct VariableAt<'a> {
    /// The number of its file, counted from 0.
    pub file: u32,
    /// Its name's token.
    pub at: u32,
    pub name: &'a Bytes,
    pub global: bool,
    pub kind: TypeAt,
    pub length: Option<Length>,
    pub first: &'a Option<Const>,
}

/// The variables by number, what each means, the first of each name, of the GLOBAL ones and of each file, and how many cells
/// and arrays they take.
#[derive(Drop)]
pub(crate) struct Variables<'a> {
    pub(crate) rows: Vec<VariableAt<'a>>,
    pub(crate) meanings: Vec<Meaning>,
    pub(crate) globals: NameTable<'a>,
    pub(crate) own: NameTable<'a>,
    pub(crate) cells: usize,
    pub(crate) arrays: usize,
}

/// How many cells a variable with this length takes.
pub fn size(length: Option<Length>) -> usize
    ensures value { result ≡ size_said length }
    ensures within { result ≤ MOST_CELLS }
{
    match length {
        None => 1,
        Some(Length { value, .. }) if 0 <= value && value <= MOST_CELLS as i32 => value as usize,
        Some(_) => 0,
    }
}

/// How many arrays a variable with this length is.
fn count(length: Option<Length>) -> usize
    ensures value { result ≡ (if is_array_said length then 1 else 0) }
    ensures within { result ≤ 1 }
{
    match length {
        None => 0,
        Some(_) => 1,
    }
}

impl<'a> Variables<'a> {
    ghost use Rattle.ci_scopes.specs.Stands.{IsVariables};

    /// No variable. Takes no memory.
    pub(crate) fn empty(alloc: Global) -> Variables<'a>
        ensures stands { IsVariables result [] }
        ensures cells { result.cells ≡ 0 }
        ensures arrays { result.arrays ≡ 0 }
    {
        Variables {
            rows: Vec::new(alloc),
            meanings: Vec::new(alloc),
            globals: NameTable::empty(alloc),
            own: NameTable::empty(alloc),
            cells: 0,
            arrays: 0,
        }
    }

    /// What a variable means that stands behind these.
    fn next(&self, variable: &VariableAt) -> Meaning
        ensures { (vs : List Variable) → IsVariables self.now vs → meaning_of result ≡ variable_behind vs (variable_at variable.now) }
    {
        let kind = kind_of_type(variable.kind.name);
        match variable.length {
            None => Meaning::Scalar {
                of: Scalar::Cell(self.cells),
                kind,
            },
            Some(_) => Meaning::Array {
                number: self.arrays,
                kind,
            },
        }
    }

    /// Adds the variable.
    pub(crate) fn add(&mut self, variable: VariableAt<'a>) -> Result<(), OutOfMemory>
        requires cells { self.old.cells + MOST_CELLS < 2 ^ 64 }
        requires arrays { self.old.arrays + 1 < 2 ^ 64 }
        ensures stands { OnOk result ((vs : List Variable) → IsVariables self.old vs → IsVariables self.new (vs ++ variable_at variable.entry ∷ [])) }
        ensures cells { OnOk result (self.new.cells ≤ self.old.cells + MOST_CELLS) }
        ensures arrays { OnOk result (self.new.arrays ≤ self.old.arrays + 1) }
    {
        let meaning = self.next(&variable);
        let number = self.rows.len();
        let name = variable.name.bytes();
        self.globals
            .note_where(variable.global, None, name, number)?;
        self.own.note(Some(variable.file), name, number)?;
        self.cells += size(variable.length);
        self.arrays += count(variable.length);
        add(&mut self.rows, variable)?;
        add(&mut self.meanings, meaning)?;
        Ok(())
    }
}
