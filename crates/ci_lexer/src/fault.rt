//! Why a source is refused.

/// Why a source has no tokens, with the place of what is refused: the offset of its first byte.
#[derive(Clone, Copy, Debug, PartialEq, Eq)]
pub enum LexFault {
    /// A byte that begins no token, or a letter or `_` directly behind a number.
    StrayByte { at: u32 },
    /// A text that isn't closed on its line.
    OpenString { at: u32 },
    /// A comment that begins with `/*` and isn't closed.
    OpenComment { at: u32 },
    /// A text in which a caret begins no escape.
    BadEscape { at: u32 },
    /// A decimal number above 2,147,483,648, or a hexadecimal one above 4,294,967,295.
    NumberTooLarge { at: u32 },
    /// A text of more than 255 bytes, or more than 255 `#`.
    TextTooLong { at: u32 },
    /// A name of more than 64 bytes.
    NameTooLong { at: u32 },
    /// Want of memory; it tells nothing of the source.
    Memory,
}
