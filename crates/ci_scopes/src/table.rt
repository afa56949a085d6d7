//! A table from names to numbers.
ghost use Rattle.std.specs.Prelude.{◌≡◌, [], if◌then◌else◌, OnOk, OnErr};
ghost use Rattle.ci_scopes.specs.Table.{number_of, noted};

use crate::name::Name;
use ci_base::OutOfMemory;
use indexmap::IndexMap;
use std::alloc::Global;
use std::marker::Model;

/// A name, and the number of the file in which alone it is seen, if it isn't seen everywhere.
#[derive(Clone, Copy, PartialEq, Eq, Hash)]
pub(crate) struct Key<'a> {
    file: Option<u32>,
    name: Name<'a>,
}

/// The number of each name, the first that was noted. Contracts see the names and numbers in the order in which they came.
#[derive(Drop)]
pub(crate) struct NameTable<'a> {
    kept: IndexMap<Key<'a>, usize>,
}

impl<'a> Model for NameTable<'a> {
    ghost use Rattle.std.specs.Prelude.{List, map};
    ghost use Rattle.ci_scopes.specs.Table.{Noted};

    ghost Value = { List Noted };

    ghost view = { λ table. map (λ e. (e.0.file, e.0.name.bytes.now, e.1)) table.kept.entries };
}

impl<'a> NameTable<'a> {
    /// No name. Takes no memory.
    pub(crate) fn empty(alloc: Global) -> NameTable<'a>
        ensures { result ≡ [] }
    {
        NameTable {
            kept: IndexMap::new(alloc),
        }
    }

    /// The number of the name that is seen in this file alone, or everywhere where none is said.
    pub(crate) fn get(&self, file: Option<u32>, name: &[u8]) -> Option<usize>
        ensures { result ≡ number_of self.now file name.now }
    {
        let name = Name::of(name);
        self.kept.get(&Key { file, name }).copied()
    }

    /// Gives the name that is seen there the number, where it has none.
    pub(crate) fn note(
        &mut self,
        file: Option<u32>,
        name: &'a [u8],
        number: usize,
    ) -> Result<(), OutOfMemory>
        ensures ok { OnOk result (self.new ≡ noted self.old file name.now number) }
        ensures err { OnErr result (self.new ≡ self.old) }
    {
        if self.get(file, name).is_some() {
            return Ok(());
        }
        let name = Name::of(name);
        match self.kept.insert(Key { file, name }, number) {
            Ok(_) => Ok(()),
            Err(_) => Err(OutOfMemory),
        }
    }

    /// The same, where that is wanted.
    pub(crate) fn note_where(
        &mut self,
        wanted: bool,
        file: Option<u32>,
        name: &'a [u8],
        number: usize,
    ) -> Result<(), OutOfMemory>
        ensures ok { OnOk result (self.new ≡ (if wanted then noted self.old file name.now number else self.old)) }
        ensures err { OnErr result (self.new ≡ self.old) }
    {
        if wanted {
            self.note(file, name, number)
        } else {
            Ok(())
        }
    }
}
