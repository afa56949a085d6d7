//! What stands at the ends.
ghost use Rattle.std.specs.Prelude.{◌≡◌, ◌-◌, ◌≤◌, length};
ghost use Rattle.std.specs.List.{prefix_len, suffix_len};
ghost use Rattle.ci_base.specs.TextFunctions as texts;

/// What is left out at both ends.
#[derive(Clone, Copy, Debug, PartialEq, Eq)]
pub enum Edge {
    /// Spaces.
    Spaces,
    /// Spaces and tabs.
    Blanks,
}

impl Edge {
    ghost use Rattle.ci_literals.specs.Edges.{leaves_out};

    /// Whether the byte is left out.
    pub fn leaves_out(self, byte: u8) -> bool
        ensures { result ≡ leaves_out self byte }
    {
        match self {
            Edge::Spaces => byte == b' ',
            Edge::Blanks => byte == b' ' || byte == b'\t',
        }
    }

    /// How many bytes at the front are left out.
    fn leading(self, bytes: &[u8]) -> usize
        ensures value { result ≡ prefix_len (leaves_out self) bytes.now }
        ensures within { result ≤ length bytes.now }
    {
        let mut count = 0;
        while count < bytes.len() && self.leaves_out(bytes[count]) {
            count += 1;
        }
        count
    }

    /// Where those at the end begin that are left out.
    fn end_of(self, bytes: &[u8]) -> usize
        ensures value { result ≡ length bytes.now - suffix_len (leaves_out self) bytes.now }
        ensures within { result ≤ length bytes.now }
    {
        let mut end = bytes.len();
        while end > 0 && self.leaves_out(bytes[end - 1]) {
            end -= 1;
        }
        end
    }

    /// The bytes without those that are left out at the front and at the end.
    pub fn trimmed(self, bytes: &[u8]) -> &[u8]
        ensures value { result.now ≡ texts.trimmed (leaves_out self) bytes.now }
        ensures short { length result.now ≤ length bytes.now }
    {
        let behind = &bytes[self.leading(bytes)..];
        &behind[..self.end_of(behind)]
    }
}
