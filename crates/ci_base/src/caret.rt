//! Texts in output: printable bytes as they are, all others behind a caret.
ghost use Rattle.std.specs.Prelude.{◌≡◌, ◌+◌, ◌*◌, ◌<◌, ◌≤◌, ◌++◌, length};
ghost use Rattle.ci_base.specs.Caret.{small_hex, caret_byte, caret};
ghost use Rattle.ci_base.specs.declared.bounds.TheConstants.{MOST_LINE_BYTES};

use crate::line::Line;

/// Adds the bytes of a text, each in caret spelling, which is at most five bytes long.
pub fn put_caret(text: &[u8], to: &mut Line)
    requires { length to.old + 5 * length text.now ≤ MOST_LINE_BYTES }
    ensures value { to.new ≡ to.old ++ caret text.now }
    ensures short { length to.new ≤ length to.old + 5 * length text.now }
{
    for byte in text {
        put_byte(*byte, to);
    }
}

/// Adds a byte in caret spelling.
#[tactic(auto, unfolding(crate::specs::Caret::caret_byte))]
fn put_byte(byte: u8, to: &mut Line)
    requires { length to.old + 5 ≤ MOST_LINE_BYTES }
    ensures value { to.new ≡ to.old ++ caret_byte byte }
    ensures short { length to.new ≤ length to.old + 5 }
{
    if byte == b'"' || byte == b'^' {
        to.add(&[b'^', byte]);
    } else if byte == b'\n' {
        to.add(b"^n");
    } else if byte == b'\r' {
        to.add(b"^r");
    } else if byte == b'\t' {
        to.add(b"^t");
    } else if byte >= 32 && byte <= 126 {
        to.add(&[byte]);
    } else {
        to.add(&[b'^', b'0', b'x', small_hex(byte / 16), small_hex(byte % 16)]);
    }
}

/// The hexadecimal digit of a number below 16, in lower case.
fn small_hex(n: u8) -> u8
    requires { n < 16 }
    ensures { result ≡ small_hex n }
{
    if n < 10 { b'0' + n } else { b'a' - 10 + n }
}
