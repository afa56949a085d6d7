//! A shelf and a sink in memory, and those whose counts of faults stay 0.
ghost use Rattle.std.specs.Prelude.{◌≡◌, ℕ, ◌+◌, ◌-◌, ◌^◌, ◌<◌, ◌≤◌, ◌↔◌, [], length, take, min, Contains, Some, IfOk, OnOk, OnErr, IsErr, IsErrOf};
ghost use Rattle.std.specs.Io.KnownBytes.{Appends, Keeps};
ghost use Rattle.ci_outside.specs.Causes.{Rose};
ghost use Rattle.ci_outside.specs.Shelf.{HasFile, LacksFile, HasLongFile};
ghost use Rattle.ci_outside.specs.Memory.{by_name};

use crate::{Failed, Fetch, NamedFiles, NumberList, Shelf, Sink};
use ci_base::Bytes;
use std::alloc::Global;
use std::marker::Model;

/// A shelf in memory, some of whose fetches fail. It tells contracts its files, and the first of a name counts.
#[derive(Debug, Drop)]
pub struct MemShelf {
    files: NamedFiles,
    failing: NumberList,
    fetches: u64,
    faults: u64,
}

impl Model for MemShelf {
    ghost use Rattle.ci_outside.specs.Memory.{MemoryShelf};

    ghost Value = { MemoryShelf };

    ghost view = { λ shelf. record {
      files = shelf.files;
      failing = shelf.failing;
      fetches = shelf.fetches;
      faults = shelf.faults;
    } };
}

impl MemShelf {
    /// A shelf of these files, whose fetches of these numbers, counted from 1, fail.
    pub fn of(files: NamedFiles, failing: NumberList) -> MemShelf
        ensures { result ≡ record { files = files; failing = failing; fetches = 0; faults = 0 } }
    {
        MemShelf {
            files,
            failing,
            fetches: 0,
            faults: 0,
        }
    }
}

impl Shelf for MemShelf {
    ghost use Rattle.std.specs.Prelude.{Some};
    ghost use Rattle.ci_outside.specs.Memory.{by_name};

    ghost files = { λ shelf. Some (by_name shelf.files) };

    ghost faults = { λ shelf. shelf.faults };

    fn fetch(&mut self, alloc: Global, name: &Bytes, limit: u32) -> Result<Bytes, Fetch>
        ensures content { IfOk result (λ content. HasFile (Some (by_name self.old.files)) name.now content) }
        ensures within { IfOk result (λ content. length content ≤ limit) }
        ensures absent { IsErrOf result Fetch.Absent → LacksFile (Some (by_name self.old.files)) name.now }
        ensures too_long { IsErrOf result Fetch.TooLong → HasLongFile (Some (by_name self.old.files)) name.now limit }
        ensures failed { IsErrOf result Fetch.Failed → Rose self.old.faults self.new.faults }
        ensures kept { Some (by_name self.new.files) ≡ Some (by_name self.old.files) }
        ensures later { self.old.faults ≤ self.new.faults }
        ensures numbered { self.new.fetches ≡ min (self.old.fetches + 1) (2 ^ 64 - 1) }
        ensures fails { IsErrOf result Fetch.Failed ↔ Contains self.old.failing self.new.fetches }
        ensures calm { (IsErrOf result Fetch.Failed → ⊥) → self.new.faults ≡ self.old.faults }
        ensures same { (self.new.files ≡ self.old.files) × (self.new.failing ≡ self.old.failing) }
    {
        self.fetches = self.fetches.saturating_add(1);
        if self.failing.contains(self.fetches) {
            self.faults = self.faults.saturating_add(1);
            return Err(Fetch::Failed);
        }
        self.files.fetch(alloc, name, limit)
    }
}

/// A shelf in memory whose fetches never fail: its count of faults is always 0. It tells contracts its files, and the
/// first of a name counts. Contracts see the list of the files.
#[derive(Debug, Drop)]
pub struct SureShelf {
    files: NamedFiles,
}

impl Model for SureShelf {
    ghost use Rattle.std.specs.Prelude.{List};
    ghost use Rattle.ci_outside.specs.declared.files.NamedFile.{NamedFile};

    ghost Value = { List NamedFile };

    ghost view = { λ shelf. shelf.files };
}

impl SureShelf {
    /// A shelf of these files.
    pub fn of(files: NamedFiles) -> SureShelf
        ensures { result ≡ files }
    {
        SureShelf { files }
    }
}

impl Shelf for SureShelf {
    ghost use Rattle.std.specs.Prelude.{Some};
    ghost use Rattle.ci_outside.specs.Memory.{by_name};

    ghost files = { λ files. Some (by_name files) };

    ghost faults = { λ _. 0 };

    fn fetch(&mut self, alloc: Global, name: &Bytes, limit: u32) -> Result<Bytes, Fetch> {
        self.files.fetch(alloc, name, limit)
    }
}

/// A sink in memory, which takes no more than so many bytes at once, and some of whose puts fail. It tells contracts its
/// bytes.
#[derive(Debug, Drop)]
pub struct MemSink {
    kept: Bytes,
    most: usize,
    failing: NumberList,
    puts: u64,
    faults: u64,
}

impl Model for MemSink {
    ghost use Rattle.std.specs.Prelude.{◌<◌};
    ghost use Rattle.ci_outside.specs.Memory.{MemorySink};

    ghost Value = { MemorySink };

    ghost view = { λ sink. record {
      bytes = sink.kept;
      most = sink.most;
      failing = sink.failing;
      puts = sink.puts;
      faults = sink.faults;
    } };

    ghost invariant = { λ sink. 0 < sink.most };
}

impl MemSink {
    /// A sink without bytes, which takes at most `most` bytes at once, and whose puts of these numbers, counted from 1,
    /// fail. Takes no memory.
    pub fn of(alloc: Global, most: usize, failing: NumberList) -> MemSink
        requires { 0 < most }
        ensures { result ≡ record { bytes = []; most = most; failing = failing; puts = 0; faults = 0 } }
    {
        MemSink {
            kept: Bytes::empty(alloc),
            most,
            failing,
            puts: 0,
            faults: 0,
        }
    }

    /// The bytes that it has taken.
    pub fn bytes(&self) -> &[u8]
        ensures { result.now ≡ self.now.bytes }
    {
        self.kept.bytes()
    }
}

impl Sink for MemSink {
    ghost use Rattle.std.specs.Prelude.{Some};

    ghost bytes = { λ sink. Some sink.bytes };

    ghost faults = { λ sink. sink.faults };

    /// A growth for which there is no memory is a fault too.
    fn put(&mut self, piece: &[u8]) -> Result<usize, Failed>
        ensures within { IfOk result (λ taken. taken ≤ length piece.now) }
        ensures some { 0 < length piece.now → IfOk result (λ taken. 0 < taken) }
        ensures taken { IfOk result (λ taken. Appends (Some self.old.bytes) (Some self.new.bytes) (take taken piece.now)) }
        ensures unchanged { OnErr result (Keeps (Some self.old.bytes) (Some self.new.bytes)) }
        ensures failed { OnErr result (Rose self.old.faults self.new.faults) }
        ensures later { self.old.faults ≤ self.new.faults }
        ensures most { IfOk result (λ taken. taken ≡ min (length piece.now) self.old.most) }
        ensures numbered { self.new.puts ≡ min (self.old.puts + 1) (2 ^ 64 - 1) }
        ensures fails { Contains self.old.failing self.new.puts → IsErr result }
        ensures calm { OnOk result (self.new.faults ≡ self.old.faults) }
        ensures same { (self.new.most ≡ self.old.most) × (self.new.failing ≡ self.old.failing) }
    {
        self.puts = self.puts.saturating_add(1);
        if self.failing.contains(self.puts) {
            self.faults = self.faults.saturating_add(1);
            return Err(Failed);
        }
        let taken = piece.len().min(self.most);
        match self.kept.append(&piece[..taken]) {
            Ok(()) => Ok(taken),
            Err(_) => {
                self.faults = self.faults.saturating_add(1);
                Err(Failed)
            }
        }
    }
}

/// A sink whose puts never fail: its count of faults is always 0. It keeps no bytes, and tells none.
#[derive(Debug, Drop)]
pub struct SureSink;

impl SureSink {
    /// The sink.
    pub fn of() -> SureSink
        ensures { result ≡ record {} }
    {
        SureSink
    }
}

impl Sink for SureSink {
    ghost use Rattle.std.specs.Prelude.{None};

    ghost bytes = { λ _. None };

    ghost faults = { λ _. 0 };

    fn put(&mut self, piece: &[u8]) -> Result<usize, Failed> {
        Ok(piece.len())
    }
}
