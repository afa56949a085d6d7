//! Lines and columns.
ghost use Rattle.std.specs.Prelude.{◌≡◌, ◌-◌, ◌^◌, ◌<◌, ◌≤◌, length};
ghost use Rattle.ci_base.specs.Places.{place};

/// The place of an offset as people count it.
#[derive(Clone, Copy, Debug, PartialEq, Eq)]
pub struct Position {
    /// 1, and one more for each LF before the offset.
    pub line: u32,
    /// 1, and one more for each byte before the offset behind the last LF there.
    pub column: u32,
}

impl Position {
    /// The same place again. Takes no memory.
    pub fn copy(&self) -> Position
        ensures { result ≡ self.now }
    {
        *self
    }
}

/// The line and the column of an offset in a source. Takes no memory, and time by the offset.
pub fn place_of(source: &[u8], offset: u32) -> Position
    requires within { offset ≤ length source.now }
    requires short { offset < 2 ^ 32 - 1 }
    ensures { result ≡ place source.now offset }
{
    let mut line = 1;
    let mut column = 1;
    for b in &source[..offset as usize] {
        if *b == b'\n' {
            line += 1;
            column = 1;
        } else {
            column += 1;
        }
    }
    Position { line, column }
}
