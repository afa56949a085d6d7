//! A line of output, which is put together without taking memory.
ghost use Rattle.std.specs.Prelude.{◌≡◌, ◌+◌, ◌≤◌, [], ◌++◌, length, decimal};
ghost use Rattle.std.specs.Fmt.{signed_decimal};
ghost use Rattle.ci_base.specs.declared.bounds.TheConstants.{MOST_LINE_BYTES};

use crate::bounds::MOST_LINE_BYTES;
use arrayvec::ArrayVec;
use itoa::Buffer;
use std::marker::Model;

/// A list of at most 4,096 bytes. Contracts see the list.
#[derive(Debug, PartialEq, Eq, Drop)]
pub struct Line {
    kept: ArrayVec<u8, MOST_LINE_BYTES>,
}

impl Model for Line {
    ghost use Rattle.ci_base.specs.declared.bounds.TheConstants.{MOST_LINE_BYTES};
    ghost use Rattle.std.specs.Prelude.{List, ℕ, ◌≤◌, length};

    ghost Value = { List ℕ };

    ghost view = { λ line. line.kept.items };

    ghost invariant = { λ line. length line.kept.items ≤ MOST_LINE_BYTES };

    ghost inverse = { λ bytes. record { kept = record { items = bytes } } };
}

impl Line {
    /// The line without bytes.
    pub fn empty() -> Line
        ensures { result ≡ [] }
    {
        Line {
            kept: ArrayVec::new(),
        }
    }

    /// Adds the piece at the end.
    pub fn add(&mut self, piece: &[u8])
        requires { length self.old + length piece.now ≤ MOST_LINE_BYTES }
        ensures { self.new ≡ self.old ++ piece.now }
    {
        let _fits = self.kept.try_extend_from_slice(piece);
    }

    /// The bytes of the line.
    pub fn bytes(&self) -> &[u8]
        ensures value { result.now ≡ self.now }
        ensures within { length result.now ≤ MOST_LINE_BYTES }
    {
        self.kept.as_slice()
    }

    /// The same line again. Takes no memory.
    pub fn copy(&self) -> Line
        ensures value { result ≡ self.now }
        ensures within { length result ≤ MOST_LINE_BYTES }
    {
        let mut kept = ArrayVec::new();
        let _fits = kept.try_extend_from_slice(self.kept.as_slice());
        Line { kept }
    }
}

/// Adds the number in decimal digits, with `-` before them where it is negative.
pub fn put_number(n: i64, to: &mut Line)
    requires { length to.old + length (signed_decimal n) ≤ MOST_LINE_BYTES }
    ensures { to.new ≡ to.old ++ signed_decimal n }
{
    let mut buffer = Buffer::new();
    to.add(buffer.format(n).as_bytes());
}

/// Adds the number in decimal digits, at most ten of them.
pub fn put_u32(n: u32, to: &mut Line)
    requires { length to.old + 10 ≤ MOST_LINE_BYTES }
    ensures value { to.new ≡ to.old ++ decimal n }
    ensures short { length to.new ≤ length to.old + 10 }
{
    let mut buffer = Buffer::new();
    to.add(buffer.format(n).as_bytes());
}

/// Adds the number in decimal digits, at most twenty of them.
pub fn put_u64(n: u64, to: &mut Line)
    requires { length to.old + 20 ≤ MOST_LINE_BYTES }
    ensures value { to.new ≡ to.old ++ decimal n }
    ensures short { length to.new ≤ length to.old + 20 }
{
    let mut buffer = Buffer::new();
    to.add(buffer.format(n).as_bytes());
}
