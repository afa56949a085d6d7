//! Texts put together from others.
ghost use Rattle.std.specs.Prelude.{◌≡◌, ◌<◌, ◌≤◌, length, take};
ghost use Rattle.std.specs.List.{repeat};
ghost use Rattle.ci_base.specs.declared.bounds.TheConstants.{MOST_TEXT_BYTES};
ghost use Rattle.ci_base.specs.TextFunctions as texts;

use arrayvec::ArrayVec;
use ci_base::bounds::MOST_TEXT_BYTES;
use ci_base::errors::TEXT_TOO_LONG;
use ci_base::{Text, Value};

/// `a + b` of texts: one and then the other, or run error 9 where they have more than 255 bytes together.
pub fn joined(a: &Text, b: &Text) -> Result<Value, u8>
    ensures { result ≡ texts.joined a.now b.now }
{
    match a.try_join(b) {
        Some(text) => Ok(Value::Str(text)),
        None => Err(TEXT_TOO_LONG),
    }
}

/// `StrFill(s, n)`: copies of the text one after another, n bytes of them. Run error 9 where n is above 255 and the text
/// isn't empty.
pub fn str_fill(s: &Text, n: i32) -> Result<Value, u8>
    ensures { result ≡ texts.filled s.now n }
{
    let piece = s.bytes();
    if piece.is_empty() || n < 1 {
        return Ok(Value::Str(Text::empty()));
    }
    if n as usize > MOST_TEXT_BYTES {
        return Err(TEXT_TOO_LONG);
    }
    Ok(Value::Str(repeated(piece, n as usize)))
}

/// Copies of the bytes one after another, so many bytes of them.
fn repeated(piece: &[u8], count: usize) -> Text
    requires some { 0 < length piece.now }
    requires fits { count ≤ MOST_TEXT_BYTES }
    ensures { result ≡ take count (repeat count piece.now) }
{
    let mut kept = ArrayVec::<u8, MOST_TEXT_BYTES>::new();
    for offset in 0..count {
        kept.push(piece[offset % piece.len()]);
    }
    Text::of_few(kept.as_slice())
}
