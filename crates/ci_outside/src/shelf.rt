//! Where files are fetched.
ghost use Rattle.std.specs.Prelude.{◌≡◌, ℕ, ◌≤◌, length, Option, IfOk, IsErrOf};
ghost use Rattle.ci_outside.specs.Causes.{Rose};
ghost use Rattle.ci_outside.specs.Shelf.{Files, HasFile, LacksFile, HasLongFile};

use ci_base::Bytes;
use std::alloc::Global;

/// Why a file wasn't fetched.
#[derive(Clone, Copy, Debug, PartialEq, Eq)]
pub enum Fetch {
    /// There is no file of this name.
    Absent,
    /// The file has more bytes than the limit.
    TooLong,
    /// The file couldn't be read: a fault, which the shelf has counted.
    Failed,
    /// There was no memory for the content. It may come at every fetch.
    Memory,
}

/// A source of files, which never change.
///
/// A shelf may tell contracts its files, as a map from names to contents, or tell none.
pub trait Shelf {
    // The contents by names, where the shelf tells them.
    ghost files: { Self → Option Files };

    // The count of the faults so far. It never falls, and stays at its last value, 2^64 - 1.
    ghost faults: { Self → ℕ };

    /// The content of the file of this name, at most `limit` bytes. Each refusal but `Memory` has its cause.
    fn fetch(&mut self, alloc: Global, name: &Bytes, limit: u32) -> Result<Bytes, Fetch>
        ensures content { IfOk result (λ content. HasFile (files self.old) name.now content) }
        ensures within { IfOk result (λ content. length content ≤ limit) }
        ensures absent { IsErrOf result Fetch.Absent → LacksFile (files self.old) name.now }
        ensures too_long { IsErrOf result Fetch.TooLong → HasLongFile (files self.old) name.now limit }
        ensures failed { IsErrOf result Fetch.Failed → Rose (faults self.old) (faults self.new) }
        ensures kept { files self.new ≡ files self.old }
        ensures later { faults self.old ≤ faults self.new };
}
