//! The locals that hold at a place of a function.
ghost use Rattle.std.specs.Prelude.{◌≡◌, [], ◌∷◌, ◌++◌, length, map, position, OnOk, OnErr};
ghost use Rattle.ci_names.specs.Scopes.{Local};
ghost use Rattle.ci_scopes.specs.Locals.{is_local};

use crate::table::NameTable;
use ci_base::{Bytes, Kind, OutOfMemory};
use std::alloc::Global;
use std::marker::Model;

/// The locals that hold at a place of a function, in the order of their declarations. Contracts see their list.
#[derive(Drop)]
pub(crate) struct Locals<'a> {
    names: Vec<&'a Bytes>,
    kinds: Vec<Kind>,
    numbers: NameTable<'a>,
}

impl<'a> Model for Locals<'a> {
    ghost use Rattle.std.specs.Prelude.{List};
    ghost use Rattle.ci_names.specs.Scopes.{Local};
    ghost use Rattle.ci_scopes.specs.Locals.{locals_from, AreLocals};

    ghost Value = { List Local };

    ghost view = { λ locals. locals_from locals.names.items locals.kinds.items };

    ghost invariant = { λ locals. AreLocals locals.names.items locals.kinds.items locals.numbers };
}

impl<'a> Locals<'a> {
    /// No local. Takes no memory.
    pub(crate) fn empty(alloc: Global) -> Locals<'a>
        ensures { result ≡ [] }
    {
        Locals {
            names: Vec::new(alloc),
            kinds: Vec::new(alloc),
            numbers: NameTable::empty(alloc),
        }
    }

    /// How many there are.
    pub(crate) fn count(&self) -> usize
        ensures { result ≡ length self.now }
    {
        self.kinds.len()
    }

    /// Their kinds.
    pub(crate) fn kinds(&self) -> &[Kind]
        ensures { result.now ≡ map (λ (l : Local). l.kind) self.now }
    {
        self.kinds.as_slice()
    }

    /// The number of the first of this name; letter case has no meaning.
    pub(crate) fn number(&self, name: &[u8]) -> Option<usize>
        ensures { result ≡ position (is_local name.now) self.now }
    {
        self.numbers.get(None, name)
    }

    /// Adds a local at the end. Where there is no memory for it, nothing changes.
    pub(crate) fn add(&mut self, name: &'a Bytes, kind: Kind) -> Result<(), OutOfMemory>
        ensures ok { OnOk result (self.new ≡ self.old ++ record { name = name.now; kind = kind } ∷ []) }
        ensures err { OnErr result (self.new ≡ self.old) }
    {
        let number = self.kinds.len();
        if self.names.push(name).is_err() {
            return Err(OutOfMemory);
        }
        if self.kinds.push(kind).is_err() {
            let _ = self.names.pop();
            return Err(OutOfMemory);
        }
        match self.numbers.note(None, name.bytes(), number) {
            Ok(()) => Ok(()),
            Err(OutOfMemory) => {
                let _ = self.names.pop();
                let _ = self.kinds.pop();
                Err(OutOfMemory)
            }
        }
    }
}
