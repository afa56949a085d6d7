//! Byte strings of any length.
ghost use Rattle.std.specs.Prelude.{◌≡◌, [], ◌++◌, IfOk, OnOk, OnErr, nat_eq};
ghost use Rattle.std.specs.Cmp.{partial_equiv_from_equiv};
ghost use Rattle.std.specs.Cmp.Lexicographic.{pointwise, nat_list_eq_equiv};

use crate::OutOfMemory;
use smallvec::SmallVec;
use std::alloc::Global;
use std::marker::Model;

/// A byte string of any length. Contracts see the list of its bytes. One of at most 16 bytes, as most names are, takes no memory
/// beside the value.
#[derive(Debug, Drop)]
pub struct Bytes {
    kept: SmallVec<u8, 16>,
}

impl Model for Bytes {
    ghost use Rattle.std.specs.Prelude.{List, ℕ};

    ghost Value = { List ℕ };

    ghost view = { λ b. b.kept.items };
}

impl PartialEq for Bytes {
    ghost eq = { λ a b. pointwise nat_eq a b };

    ghost laws = { partial_equiv_from_equiv nat_list_eq_equiv };

    fn eq(&self, other: &Bytes) -> bool {
        self.bytes() == other.bytes()
    }
}

impl Eq for Bytes {
    ghost laws = { nat_list_eq_equiv };
}

impl Bytes {
    /// The byte string without bytes. Takes no memory.
    pub fn empty(alloc: Global) -> Bytes
        ensures { result ≡ [] }
    {
        Bytes {
            kept: SmallVec::new(alloc),
        }
    }

    /// A byte string with these bytes.
    pub fn copy(alloc: Global, from: &[u8]) -> Result<Bytes, OutOfMemory>
        ensures { IfOk result (λ bytes. bytes ≡ from.now) }
    {
        match SmallVec::from_slice(alloc, from) {
            Ok(kept) => Ok(Bytes { kept }),
            Err(_) => Err(OutOfMemory),
        }
    }

    /// The bytes.
    pub fn bytes(&self) -> &[u8]
        ensures { result.now ≡ self.now }
    {
        self.kept.as_slice()
    }

    /// Adds the piece at the end. Where there is no memory for it, nothing changes.
    pub fn append(&mut self, piece: &[u8]) -> Result<(), OutOfMemory>
        ensures ok { OnOk result (self.new ≡ self.old ++ piece.now) }
        ensures err { OnErr result (self.new ≡ self.old) }
    {
        match self.kept.extend_from_slice(piece) {
            Ok(()) => Ok(()),
            Err(_) => Err(OutOfMemory),
        }
    }
}
