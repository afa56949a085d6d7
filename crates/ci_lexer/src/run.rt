//! Runs of bytes of one class.
ghost use Rattle.std.specs.Prelude.{◌≡◌, ◌++◌, true, false, IsTrue};
ghost use Rattle.std.specs.List.{list_all};
ghost use Rattle.ci_base.specs.Letters.{begins};
ghost use Rattle.ci_lexer.specs.Classes.{passes};

use crate::lead::is_white;
use ci_literals::{is_digit, is_hex_digit, is_letter};

/// A class of bytes.
#[derive(Clone, Copy, Debug, PartialEq, Eq)]
pub enum Class {
    /// White space.
    White,
    /// A letter, a digit or `_`.
    NameByte,
    /// 0 to 9.
    Digit,
    /// 0 to 9, A to F, a to f.
    HexDigit,
    /// `#`.
    Hash,
    /// Any byte but LF and CR.
    Inline,
}

/// Whether the byte is of the class.
#[inline(always)]
#[tactic(auto, unfolding(ci_base::specs::Letters::is_name_byte, ci_base::specs::Letters::is_line_end, ci_tree::specs::Comments::is_inline, ci_tree::specs::Shapes::is_hash))]
fn is_of(b: u8, class: Class) -> bool
    ensures { result ≡ passes class b }
{
    match class {
        Class::White => is_white(b),
        Class::NameByte => is_letter(b) || is_digit(b),
        Class::Digit => is_digit(b),
        Class::HexDigit => is_hex_digit(b),
        Class::Hash => b == b'#',
        Class::Inline => b != b'\n' && b != b'\r',
    }
}

/// The longest run of the class at the front, which may be empty, and what is left behind it.
#[inline(always)]
pub fn split_run(bytes: &[u8], class: Class) -> (&[u8], &[u8])
    ensures whole { bytes.now ≡ result.0.now ++ result.1.now }
    ensures each { list_all (passes class) result.0.now ≡ true }
    ensures longest { begins (passes class) result.1.now ≡ false }
{
    let mut n = 0;
    while n < bytes.len() {
        if !is_of(bytes[n], class) {
            return bytes.split_at(n);
        }
        n += 1;
    }
    bytes.split_at(n)
}
