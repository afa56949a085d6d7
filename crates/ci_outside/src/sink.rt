//! Where output is put.
ghost use Rattle.std.specs.Prelude.{◌≡◌, ℕ, ◌<◌, ◌≤◌, List, ◌++◌, length, take, Option, IfOk, OnErr};
ghost use Rattle.std.specs.Io.KnownBytes.{Appends, Keeps};
ghost use Rattle.ci_outside.specs.Causes.{Rose};
ghost use Rattle.ci_outside.specs.Sink.{Puts};

/// A sink took nothing of a piece: a fault, which it has counted.
#[derive(Clone, Copy, Debug, PartialEq, Eq)]
pub struct Failed;

/// What takes output, a front of a piece at a time.
///
/// A sink may tell contracts the bytes that it has taken, or tell none.
pub trait Sink {
    // All bytes that the sink has taken, where it tells them.
    ghost bytes: { Self → Option (List ℕ) };

    // The count of the faults so far. It never falls, and stays at its last value, 2^64 - 1.
    ghost faults: { Self → ℕ };

    /// Takes a front of the piece, and tells how many bytes of it: at least one of a piece that isn't empty.
    fn put(&mut self, piece: &[u8]) -> Result<usize, Failed>
        ensures within { IfOk result (λ taken. taken ≤ length piece.now) }
        ensures some { 0 < length piece.now → IfOk result (λ taken. 0 < taken) }
        ensures taken { IfOk result (λ taken. Appends (bytes self.old) (bytes self.new) (take taken piece.now)) }
        ensures unchanged { OnErr result (Keeps (bytes self.old) (bytes self.new)) }
        ensures failed { OnErr result (Rose (faults self.old) (faults self.new)) }
        ensures later { faults self.old ≤ faults self.new };
}

/// Puts all of the text, piece by piece, until a put fails.
pub fn put_all<K: Sink>(out: &mut K, text: &[u8]) -> Result<(), Failed>
    ensures { Puts K.bytes K.faults out.old out.new result text.now }
{
    let mut rest = text;
    while !rest.is_empty() {
        let taken = out.put(rest)?;
        (_, rest) = rest.split_at(taken);
    }
    Ok(())
}

/// Puts all of two texts, one after the other, until a put fails.
pub fn put_two<K: Sink>(out: &mut K, first: &[u8], second: &[u8]) -> Result<(), Failed>
    ensures { Puts K.bytes K.faults out.old out.new result (first.now ++ second.now) }
{
    put_all(out, first)?;
    put_all(out, second)
}

/// Puts all of three texts, one after the other, until a put fails.
pub fn put_three<K: Sink>(
    out: &mut K,
    first: &[u8],
    second: &[u8],
    third: &[u8],
) -> Result<(), Failed>
    ensures { Puts K.bytes K.faults out.old out.new result (first.now ++ second.now ++ third.now) }
{
    put_two(out, first, second)?;
    put_all(out, third)
}
