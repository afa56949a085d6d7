//! The functions of a project, by number and by name.
ghost use Rattle.std.specs.Prelude.{◌≡◌, ◌++◌, [], ◌∷◌, List, OnOk, All};
ghost use Rattle.ci_names.specs.Declarations.{Function};
ghost use Rattle.ci_scopes.specs.Listed.{function_at};
ghost use Rattle.ci_tree.specs.Written.{IsShortParam};

use crate::called::Heading;
use crate::memory::add;
use crate::table::NameTable;
use crate::values::heading;
use ci_base::{Bytes, OutOfMemory};
use ci_tree::{Param, Stmt, TypeAt};
use std::alloc::Global;

/// The declaration of a function.
#[derive(Clone, Copy)]
pub struct FunctionAt<'a> {
    /// The number of its file, counted from 0.
    pub file: u32,
    /// Its name's token.
    pub at: u32,
    pub name: &'a Bytes,
    pub private: bool,
    pub gives: Option<TypeAt>,
    pub params: &'a [Param],
    pub body: &'a [Stmt],
}

/// The functions by number, and the first of each name: of those that are seen everywhere, of each file, and of the PRIVATE
/// ones of each file.
#[derive(Drop)]
pub(crate) struct Functions<'a> {
    pub(crate) rows: Vec<FunctionAt<'a>>,
    pub(crate) headings: Vec<Heading>,
    pub(crate) publics: NameTable<'a>,
    pub(crate) own: NameTable<'a>,
    pub(crate) privates: NameTable<'a>,
}

impl<'a> Functions<'a> {
    ghost use Rattle.ci_scopes.specs.Stands.{IsFunctions};

    /// No function. Takes no memory.
    pub(crate) fn empty(alloc: Global) -> Functions<'a>
        ensures { IsFunctions result [] }
    {
        Functions {
            rows: Vec::new(alloc),
            headings: Vec::new(alloc),
            publics: NameTable::empty(alloc),
            own: NameTable::empty(alloc),
            privates: NameTable::empty(alloc),
        }
    }

    /// Adds the function.
    pub(crate) fn add(&mut self, alloc: Global, function: FunctionAt<'a>) -> Result<(), OutOfMemory>
        requires { All IsShortParam function.params.now }
        ensures { OnOk result ((fs : List Function) → IsFunctions self.old fs → IsFunctions self.new (fs ++ function_at function.entry ∷ [])) }
    {
        let heading = heading(alloc, function.params, &function.gives)?;
        let number = self.rows.len();
        let name = function.name.bytes();
        let file = Some(function.file);
        self.publics
            .note_where(!function.private, None, name, number)?;
        self.own.note(file, name, number)?;
        self.privates
            .note_where(function.private, file, name, number)?;
        add(&mut self.rows, function)?;
        add(&mut self.headings, heading)?;
        Ok(())
    }
}
