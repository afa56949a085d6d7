//! Texts.
ghost use Rattle.std.specs.Prelude.{◌≡◌, ◌∷◌};
ghost use Rattle.ci_literals.specs.Texts.{begins_quote, text_at, IsCut};

use crate::items::{TextEnd, scan_items};
use arrayvec::ArrayVec;
use ci_base::Text;

/// The text at the front, and what stands behind its closing quote, if one of at most 255 bytes stands there.
pub fn read_text(bytes: &[u8]) -> Option<(Text, &[u8])>
    ensures { IsCut (text_at bytes.now) result }
{
    if begins_quote(bytes) {
        text_behind(&bytes[1..])
    } else {
        None
    }
}

/// Whether a quote stands at the front.
fn begins_quote(bytes: &[u8]) -> bool
    ensures { result ≡ begins_quote bytes.now }
{
    bytes.len() > 0 && bytes[0] == b'"'
}

/// The text whose opening quote stands before these bytes, and what stands behind its closing one.
fn text_behind(body: &[u8]) -> Option<(Text, &[u8])>
    ensures { IsCut (text_at (34 ∷ body.now)) result }
{
    let mut value = ArrayVec::new();
    let end = scan_items(body, &mut value);
    let bytes = value.as_slice();
    match end {
        TextEnd::Closed { rest } => match Text::of(bytes) {
            Some(text) => Some((text, rest)),
            None => None,
        },
        TextEnd::BadEscape => None,
        TextEnd::TooLong => None,
        TextEnd::LineEnd => None,
    }
}
