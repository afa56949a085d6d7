//! The files and the standard output of the machine: the edge, of whose bytes contracts tell nothing.
ghost use Rattle.std.specs.Prelude.{◌≡◌, ◌<◌, ◌≤◌, ◌↔◌, length, take, None, IfOk, IfSome, OnOk, OnErr, IsErrOf, IsUtf8};
ghost use Rattle.std.specs.Io.KnownBytes.{Appends, Keeps};
ghost use Rattle.std.specs.IoError.{error_kind};
ghost use Rattle.ci_outside.specs.Causes.{Rose};
ghost use Rattle.ci_outside.specs.Shelf.{HasFile, LacksFile, HasLongFile};

use crate::{Failed, Fetch, Shelf, Sink};
use ci_base::Bytes;
use std::alloc::Global;
use std::fs;
use std::io::{Error, ErrorKind, Print, Read};
use std::marker::Model;
use std::rt::Files;

/// How many bytes of a file are read at once, at most.
const PIECE: usize = 8192;

/// The files of the machine, by their paths. Tells contracts no file. Contracts see the count of its faults.
///
/// A name that isn't UTF-8 is Absent, and so is one of which the machine says that there is no such file. Every other
/// error is a fault: a directory, a file that may not be read, a name that no file can have.
#[derive(Drop)]
pub struct DirShelf<'r, R> {
    machine: &'r R,
    faults: u64,
}

impl<'r, R> Model for DirShelf<'r, R> {
    ghost use Rattle.std.specs.Prelude.{ℕ};

    ghost Value = { ℕ };

    ghost view = { λ shelf. shelf.faults };
}

impl<'r, R: Files> DirShelf<'r, R> {
    /// The files that this machine has. Names without a `/` at their front count from where the program runs.
    pub fn new(machine: &'r R) -> DirShelf<'r, R>
        ensures { result ≡ 0 }
    {
        DirShelf { machine, faults: 0 }
    }

    /// How many faults there were.
    pub fn faults(&self) -> u64
        ensures { result ≡ self.now }
    {
        self.faults
    }
}

impl<R: Files> Shelf for DirShelf<'_, R> {
    ghost use Rattle.std.specs.Prelude.{None};

    ghost files = { λ _. None };

    ghost faults = { λ faults. faults };

    fn fetch(&mut self, alloc: Global, name: &Bytes, limit: u32) -> Result<Bytes, Fetch>
        // what the trait asks; of files, of which this shelf tells none, it says nothing
        ensures content { IfOk result (λ content. HasFile None name.now content) }
        ensures within { IfOk result (λ content. length content ≤ limit) }
        ensures absent { IsErrOf result Fetch.Absent → LacksFile None name.now }
        ensures too_long { IsErrOf result Fetch.TooLong → HasLongFile None name.now limit }
        ensures failed { IsErrOf result Fetch.Failed → Rose self.old self.new }
        ensures later { self.old ≤ self.new }

        // nothing but a failure is counted, and a name that is no text is absent
        ensures calm { ¬ (IsErrOf result Fetch.Failed) → self.new ≡ self.old }
        ensures no_text { ¬ (IsUtf8 name.now) → IsErrOf result Fetch.Absent }
    {
        match read_named(self.machine, alloc, name, limit) {
            Ok(content) => Ok(content),
            Err(Fetch::Failed) => {
                self.faults = self.faults.saturating_add(1);
                Err(Fetch::Failed)
            }
            Err(other) => Err(other),
        }
    }
}

/// The content of the file of this name.
fn read_named<R: Files>(
    machine: &R,
    alloc: Global,
    name: &Bytes,
    limit: u32,
) -> Result<Bytes, Fetch>
    ensures within { IfOk result (λ content. length content ≤ limit) }
    ensures no_text { ¬ (IsUtf8 name.now) → IsErrOf result Fetch.Absent }
{
    let Ok(path) = str::from_utf8(name.bytes()) else {
        return Err(Fetch::Absent);
    };
    match fs::open(machine, path) {
        Ok(mut file) => read_within(&mut file, alloc, limit),
        Err(error) => Err(fault_of(&error)),
    }
}

/// Why the machine opened no file.
fn fault_of(error: &Error) -> Fetch
    ensures { (result ≡ Fetch.Absent) ↔ (error_kind error.now ≡ ErrorKind.NotFound) }
{
    match error.kind() {
        ErrorKind::NotFound => Fetch::Absent,
        _ => Fetch::Failed,
    }
}

/// All that the reader has left, which is read no further than one byte past the limit.
fn read_within<F: Read>(file: &mut F, alloc: Global, limit: u32) -> Result<Bytes, Fetch>
    ensures within { IfOk result (λ content. length content ≤ limit) }
    ensures all { IfOk result (λ content. IfSome (F.remaining file.old) (λ left. content ≡ left)) }
    ensures too_long { IsErrOf result Fetch.TooLong → IfSome (F.remaining file.old) (λ left. limit < length left) }
    ensures never_absent { ¬ (IsErrOf result Fetch.Absent) }
{
    let mut content = Bytes::empty(alloc);
    let mut piece = [0; PIECE];
    loop {
        let room = limit as usize - content.bytes().len();
        let wanted = (room + 1).min(PIECE);
        let Ok(taken) = file.read(&mut piece[..wanted]) else {
            return Err(Fetch::Failed);
        };
        if taken == 0 {
            return Ok(content);
        }
        if taken > room {
            return Err(Fetch::TooLong);
        }
        let Ok(()) = content.append(&piece[..taken]) else {
            return Err(Fetch::Memory);
        };
    }
}

/// The standard output. Tells contracts no bytes. Contracts see the count of its faults.
///
/// An error is a fault, and so is a write that takes nothing of a piece that isn't empty.
#[derive(Drop)]
pub struct OutSink<'r, R> {
    machine: &'r R,
    faults: u64,
}

impl<'r, R> Model for OutSink<'r, R> {
    ghost use Rattle.std.specs.Prelude.{ℕ};

    ghost Value = { ℕ };

    ghost view = { λ sink. sink.faults };
}

impl<'r, R: Print> OutSink<'r, R> {
    /// The standard output of this machine.
    pub fn new(machine: &'r R) -> OutSink<'r, R>
        ensures { result ≡ 0 }
    {
        OutSink { machine, faults: 0 }
    }

    /// How many faults there were.
    pub fn faults(&self) -> u64
        ensures { result ≡ self.now }
    {
        self.faults
    }
}

impl<R: Print> Sink for OutSink<'_, R> {
    ghost use Rattle.std.specs.Prelude.{None};

    ghost bytes = { λ _. None };

    ghost faults = { λ faults. faults };

    fn put(&mut self, piece: &[u8]) -> Result<usize, Failed>
        // what the trait asks; of bytes, of which this sink tells none, it says nothing
        ensures within { IfOk result (λ taken. taken ≤ length piece.now) }
        ensures some { 0 < length piece.now → IfOk result (λ taken. 0 < taken) }
        ensures taken { IfOk result (λ taken. Appends None None (take taken piece.now)) }
        ensures unchanged { OnErr result (Keeps None None) }
        ensures failed { OnErr result (Rose self.old self.new) }
        ensures later { self.old ≤ self.new }

        // nothing but a failure is counted
        ensures calm { OnOk result (self.new ≡ self.old) }
    {
        match self.machine.write_some(piece) {
            Ok(taken) if taken > 0 || piece.is_empty() => Ok(taken),
            _ => {
                self.faults = self.faults.saturating_add(1);
                Err(Failed)
            }
        }
    }
}
