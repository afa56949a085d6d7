//! What the first byte of a token tells.
ghost use Rattle.std.specs.Prelude.{◌≡◌, ◌==◌};
ghost use Rattle.ci_base.specs.Letters.{begins, is_white};
ghost use Rattle.ci_lexer.specs.Leads.{lead};

use ci_literals::{is_digit, is_letter};

/// What may begin with a byte.
#[derive(Clone, Copy, Debug, PartialEq, Eq)]
pub enum Lead {
    /// A name or a keyword.
    Letter,
    /// A number.
    Digit,
    /// White space.
    White,
    /// A text.
    Quote,
    /// Hashes.
    Hash,
    /// A comment that `!` begins.
    Mark,
    /// The sign `/`, or a comment that begins with it.
    Slash,
    /// Another sign, or nothing.
    Other,
}

/// What may begin with the byte.
#[tactic(auto, unfolding(crate::specs::Leads::lead))]
pub fn lead_of(b: u8) -> Lead
    ensures { result ≡ lead b }
{
    if is_letter(b) {
        Lead::Letter
    } else if is_digit(b) {
        Lead::Digit
    } else if is_white(b) {
        Lead::White
    } else if b == b'"' {
        Lead::Quote
    } else if b == b'#' {
        Lead::Hash
    } else if b == b'!' {
        Lead::Mark
    } else if b == b'/' {
        Lead::Slash
    } else {
        Lead::Other
    }
}

/// Whether the byte is white space.
#[tactic(auto, unfolding(ci_base::specs::Letters::is_white))]
pub fn is_white(b: u8) -> bool
    ensures { result ≡ is_white b }
{
    (b >= b'\t' && b <= b'\r') || b == b' '
}

/// Whether the byte stands at the front.
#[inline(always)]
pub fn begins_with(bytes: &[u8], b: u8) -> bool
    ensures { result ≡ begins (λ c. c == b) bytes.now }
{
    bytes.len() > 0 && bytes[0] == b
}
