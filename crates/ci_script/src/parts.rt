//! The parts of a line.
ghost use Rattle.std.specs.Prelude.{◌≡◌, ◌≤◌, length, option_map};
ghost use Rattle.ci_base.specs.Names.{is_name};
ghost use Rattle.ci_script.specs.Parts.{behind_word, both, closes, halves, is_short_name, marks, reach, word};

use ci_base::bounds::MOST_NAME_BYTES;
use ci_literals::{Edge, is_word};

/// What ends a part.
#[derive(Clone, Copy, Debug, PartialEq, Eq)]
pub(crate) enum Mark {
    /// A space or a tab.
    Blank,
    /// `(`.
    Bracket,
    /// `=`.
    Equals,
    /// LF.
    LineFeed,
}

impl Mark {
    /// Whether the byte is such a mark.
    fn marks(self, byte: u8) -> bool
        ensures { result ≡ marks self byte }
    {
        match self {
            Mark::Blank => byte == b' ' || byte == b'\t',
            Mark::Bracket => byte == b'(',
            Mark::Equals => byte == b'=',
            Mark::LineFeed => byte == b'\n',
        }
    }

    /// How many bytes stand before the first mark, or in all.
    pub(crate) fn reach(self, bytes: &[u8]) -> usize
        ensures value { result ≡ reach self bytes.now }
        ensures within { result ≤ length bytes.now }
    {
        let mut count = 0;
        while count < bytes.len() && !self.marks(bytes[count]) {
            count += 1;
        }
        count
    }

    /// What stands before the first mark and behind it, where there is one.
    pub(crate) fn halves(self, bytes: &[u8]) -> Option<(&[u8], &[u8])>
        ensures { option_map both result ≡ halves self bytes.now }
    {
        let front = self.reach(bytes);
        if front < bytes.len() {
            Some((&bytes[..front], &bytes[front + 1..]))
        } else {
            None
        }
    }
}

/// What stands before the first blank, and what behind it, without blanks at its ends.
pub(crate) fn split_word(bytes: &[u8]) -> (&[u8], &[u8])
    ensures word { result.0.now ≡ word bytes.now }
    ensures behind { result.1.now ≡ behind_word bytes.now }
{
    let (word, behind) = bytes.split_at(Mark::Blank.reach(bytes));
    (word, Edge::Blanks.trimmed(behind))
}

/// Whether `)` stands at the end.
pub(crate) fn closes(bytes: &[u8]) -> bool
    ensures { result ≡ closes bytes.now }
{
    bytes.len() > 0 && bytes[bytes.len() - 1] == b')'
}

/// Whether the bytes are a name of at most 64 bytes; it may be a keyword.
pub(crate) fn is_short_name(bytes: &[u8]) -> bool
    ensures { result ≡ is_short_name bytes.now }
{
    is_word(bytes) && bytes.len() <= MOST_NAME_BYTES
}
