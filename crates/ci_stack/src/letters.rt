//! The text of a place.
ghost use Rattle.std.specs.Prelude.{◌≡◌, ◌≤◌, ◌+◌, [], ◌++◌, length, take, drop};
ghost use Rattle.ci_base.specs.declared.bounds.TheConstants.{MOST_TEXT_BYTES};

use ci_base::bounds::MOST_TEXT_BYTES;
use std::marker::Model;

/// A text that is written where it stands. Contracts see the list of its bytes.
///
/// The bytes of the text are the first ones of the array; those behind them are left from earlier texts.
#[derive(Debug, Drop)]
pub struct Letters {
    count: usize,
    bytes: [u8; MOST_TEXT_BYTES],
}

impl Model for Letters {
    ghost use Rattle.ci_base.specs.declared.bounds.TheConstants.{MOST_TEXT_BYTES};
    ghost use Rattle.std.specs.Prelude.{List, ℕ, ◌≤◌, length, take};

    ghost Value = { List ℕ };

    ghost view = { λ letters. take letters.count letters.bytes };

    ghost invariant = { λ letters. letters.count ≤ MOST_TEXT_BYTES };
}

impl Letters {
    /// The empty text.
    pub fn none() -> Letters
        ensures { result ≡ [] }
    {
        Letters {
            count: 0,
            bytes: [0; MOST_TEXT_BYTES],
        }
    }

    /// The bytes.
    #[inline(always)]
    pub fn bytes(&self) -> &[u8]
        ensures value { result.now ≡ self.now }
        ensures within { length result.now ≤ MOST_TEXT_BYTES }
    {
        &self.bytes[..self.count]
    }

    /// These bytes take the place of the text.
    pub fn set(&mut self, bytes: &[u8])
        requires { length bytes.now ≤ MOST_TEXT_BYTES }
        ensures { self.new ≡ bytes.now }
    {
        let all = bytes.len();
        self.bytes[..all].copy_from_slice(bytes);
        self.count = all;
    }

    /// These bytes follow the text.
    pub fn join(&mut self, bytes: &[u8])
        requires { length self.old + length bytes.now ≤ MOST_TEXT_BYTES }
        ensures { self.new ≡ self.old ++ bytes.now }
    {
        let low = self.count;
        let high = low + bytes.len();
        self.bytes[low..high].copy_from_slice(bytes);
        self.count = high;
    }

    /// The bytes from an offset on stay, at most so many.
    pub fn keep_part(&mut self, from: usize, count: usize)
        ensures { self.new ≡ take count (drop from self.old) }
    {
        let low = from.min(self.count);
        let kept = count.min(self.count - low);
        self.keep_within(low, kept);
    }

    /// So many bytes stay, from an offset on.
    fn keep_within(&mut self, from: usize, count: usize)
        requires { from + count ≤ length self.old }
        ensures { self.new ≡ take count (drop from self.old) }
    {
        let _count = self.count;
        self.bytes.copy_within(from..from + count, 0);
        self.count = count;
    }
}
