//! Numbers of code, which are words of 32 bits.
ghost use Rattle.std.specs.Prelude.{◌≡◌, ◌+◌};
ghost use Rattle.ci_emit.specs.Pads.{word};

/// The number, as a word of 32 bits holds it. No number of a project's code is larger.
pub(crate) fn word(number: usize) -> u32
    ensures { result ≡ word number }
{
    (number % (1 << 32)) as u32
}

/// The place that lies so many places behind this one, as a word of 32 bits holds it.
pub(crate) fn word_behind(place: usize, more: usize, size: usize) -> u32
    ensures { result ≡ word (place + (more + size)) }
{
    let behind = more % (1 << 32) + size % (1 << 32);
    let both = place % (1 << 32) + behind;
    (both % (1 << 32)) as u32
}

/// The number again, cut to a word of 32 bits.
pub(crate) fn cut(number: usize) -> usize
    ensures { result ≡ word number }
{
    number % (1 << 32)
}
