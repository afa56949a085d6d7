//! Lists of files and of numbers, which the implementations in memory are made of.
ghost use Rattle.std.specs.Prelude.{◌≡◌, ◌≤◌, ◌<◌, ◌↔◌, ℕ, [], ◌∷◌, ◌++◌, length, Contains, IsTrue, Some, IfOk, OnOk, OnErr, IsErrOf};
ghost use Rattle.std.specs.Option.{option_copied};
ghost use Rattle.std.specs.FinMap.{get};
ghost use Rattle.ci_outside.specs.Shelf.{HasFile, LacksFile, HasLongFile};
ghost use Rattle.ci_outside.specs.Memory.{by_name};

use crate::Fetch;
use ci_base::{Bytes, OutOfMemory};
use std::alloc::Global;
use std::marker::Model;

/// A file with its name.
#[derive(Debug, Drop)]
pub struct NamedFile {
    /// The name, which need not be UTF-8.
    pub name: Bytes,
    /// The content.
    pub content: Bytes,
}

/// A list of files, of which the first of a name counts. Contracts see the list.
#[derive(Debug, Drop)]
pub struct NamedFiles {
    kept: Vec<NamedFile>,
}

impl Model for NamedFiles {
    ghost use Rattle.std.specs.Prelude.{List};
    ghost use Rattle.ci_outside.specs.declared.files.NamedFile.{NamedFile};

    ghost Value = { List NamedFile };

    ghost view = { λ files. files.kept.items };
}

impl NamedFiles {
    /// The empty list. Takes no memory.
    pub fn empty(alloc: Global) -> NamedFiles
        ensures { result ≡ [] }
    {
        NamedFiles {
            kept: Vec::new(alloc),
        }
    }

    /// Adds the file at the end. Where there is no memory for it, nothing changes.
    pub fn add(&mut self, file: NamedFile) -> Result<(), OutOfMemory>
        ensures ok { OnOk result (self.new ≡ self.old ++ file ∷ []) }
        ensures err { OnErr result (self.new ≡ self.old) }
    {
        match self.kept.push(file) {
            Ok(()) => Ok(()),
            Err(_) => Err(OutOfMemory),
        }
    }

    /// The content of the first file of this name.
    pub(crate) fn find(&self, name: &Bytes) -> Option<&Bytes>
        ensures { option_copied result ≡ get (by_name self.now) name.now }
    {
        for file in self.kept.as_slice() {
            if name.bytes() == file.name.bytes() {
                return Some(&file.content);
            }
        }
        None
    }

    /// What a fetch of this name answers, failures of the shelf aside.
    pub(crate) fn fetch(&self, alloc: Global, name: &Bytes, limit: u32) -> Result<Bytes, Fetch>
        ensures content { IfOk result (λ content. HasFile (Some (by_name self.now)) name.now content) }
        ensures within { IfOk result (λ content. length content ≤ limit) }
        ensures absent { IsErrOf result Fetch.Absent → LacksFile (Some (by_name self.now)) name.now }
        ensures too_long { IsErrOf result Fetch.TooLong → HasLongFile (Some (by_name self.now)) name.now limit }
        ensures never_failed { ¬ (IsErrOf result Fetch.Failed) }
    {
        let Some(content) = self.find(name) else {
            return Err(Fetch::Absent);
        };
        if content.bytes().len() > limit as usize {
            return Err(Fetch::TooLong);
        }
        match Bytes::copy(alloc, content.bytes()) {
            Ok(copy) => Ok(copy),
            Err(_) => Err(Fetch::Memory),
        }
    }
}

/// A list of numbers. Contracts see the list.
#[derive(Debug, Drop)]
pub struct NumberList {
    kept: Vec<u64>,
}

impl Model for NumberList {
    ghost use Rattle.std.specs.Prelude.{List, ℕ};

    ghost Value = { List ℕ };

    ghost view = { λ numbers. numbers.kept.items };
}

impl NumberList {
    /// The empty list. Takes no memory.
    pub fn empty(alloc: Global) -> NumberList
        ensures { result ≡ [] }
    {
        NumberList {
            kept: Vec::new(alloc),
        }
    }

    /// Adds the number at the end. Where there is no memory for it, nothing changes.
    pub fn add(&mut self, number: u64) -> Result<(), OutOfMemory>
        ensures ok { OnOk result (self.new ≡ self.old ++ number ∷ []) }
        ensures err { OnErr result (self.new ≡ self.old) }
    {
        match self.kept.push(number) {
            Ok(()) => Ok(()),
            Err(_) => Err(OutOfMemory),
        }
    }

    /// Whether the number is one of the list.
    pub fn contains(&self, number: u64) -> bool
        ensures { IsTrue result ↔ Contains self.now number }
    {
        self.kept.as_slice().contains(&number)
    }
}
