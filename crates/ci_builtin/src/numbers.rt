//! Numbers in texts.
ghost use Rattle.std.specs.Prelude.{◌≡◌, ◌≤◌, length};
ghost use Rattle.std.specs.Fmt.{signed_decimal};
ghost use Rattle.ci_base.specs.declared.bounds.TheConstants.{MOST_TEXT_BYTES};
ghost use Rattle.ci_base.specs.declared.value.Value.TheVariants.{Str};
ghost use Rattle.ci_base.specs.TextFunctions as texts;

use arrayvec::ArrayVec;
use ci_base::bounds::MOST_TEXT_BYTES;
use ci_base::errors::{NOT_A_NUMBER, TEXT_TOO_LONG};
use ci_base::{Text, Value};
use ci_literals::Edge;
use itoa::Buffer;

/// `IntToStr(n)`: decimal digits, with `-` before them where n is negative.
pub fn int_to_str(n: i32) -> Result<Value, u8>
    ensures { result ≡ Ok (Str (signed_decimal n)) }
{
    let mut buffer = Buffer::new();
    Ok(Value::Str(Text::of_few(buffer.format(n).as_bytes())))
}

/// `n:##..`, with so many hashes: the decimal text, with spaces before it up to that width. Run error 9 where the width is
/// above 255, which no hashes have.
pub fn formatted(n: i32, hashes: u32) -> Result<Value, u8>
    ensures { result ≡ texts.formatted n hashes }
{
    if hashes as usize > MOST_TEXT_BYTES {
        Err(TEXT_TOO_LONG)
    } else {
        Ok(Value::Str(padded(n, hashes as usize)))
    }
}

/// The decimal text, with spaces before it up to the width.
fn padded(n: i32, width: usize) -> Text
    requires { width ≤ MOST_TEXT_BYTES }
    ensures value { result ≡ texts.padded n width }
    ensures within { length result ≤ MOST_TEXT_BYTES }
{
    let mut buffer = Buffer::new();
    let digits = buffer.format(n).as_bytes();
    let mut kept = ArrayVec::<u8, MOST_TEXT_BYTES>::new();
    for _space in 0..width.saturating_sub(digits.len()) {
        kept.push(b' ');
    }
    let _fits = kept.try_extend_from_slice(digits);
    Text::of_few(kept.as_slice())
}

/// `StrToInt(s)`: the INT that the text spells, with spaces at both ends or not. Run error 13 where it spells none.
pub fn str_to_int(s: &Text) -> Result<Value, u8>
    ensures { result ≡ texts.number_in s.now }
{
    spelled_int(Edge::Spaces.trimmed(s.bytes()))
}

/// The INT that the bytes spell, or run error 13.
fn spelled_int(bytes: &[u8]) -> Result<Value, u8>
    ensures { result ≡ texts.spelled_int bytes.now }
{
    match str::from_utf8(bytes) {
        Ok(text) => match i32::from_str_radix(text, 10) {
            Ok(n) => Ok(Value::Int(n)),
            Err(_) => Err(NOT_A_NUMBER),
        },
        Err(_) => Err(NOT_A_NUMBER),
    }
}

/// `CharToStr(n)`: the one byte that n is modulo 256.
pub fn char_to_str(n: i32) -> Result<Value, u8>
    ensures { result ≡ Ok (Str (texts.one_byte n)) }
{
    Ok(Value::Str(Text::of_few(&[n.rem_euclid(256) as u8])))
}
