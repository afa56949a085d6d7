//! Parts of texts.
ghost use Rattle.std.specs.Prelude.{◌≡◌, length, pos};
ghost use Rattle.ci_base.specs.declared.value.Value.TheVariants.{Int, Str};
ghost use Rattle.ci_base.specs.TextFunctions as texts;

use ci_base::{Text, Value};

/// How many bytes an INT asks for: none where it is negative.
pub fn count_of(n: i32) -> usize
    ensures value { result ≡ texts.count_of n }
{
    if n < 0 { 0 } else { n as usize }
}

/// `StrLength(s)`: the number of bytes.
pub fn str_length(s: &Text) -> Result<Value, u8>
    ensures { result ≡ Ok (Int (pos (length s.now))) }
{
    Ok(Value::Int(s.bytes().len() as i32))
}

/// `StrLeft(s, n)`: the first n bytes, or all.
pub fn str_left(s: &Text, n: i32) -> Result<Value, u8>
    ensures { result ≡ Ok (Str (texts.left s.now n)) }
{
    let bytes = s.bytes();
    let end = count_of(n).min(bytes.len());
    Ok(Value::Str(Text::of_few(&bytes[..end])))
}

/// `StrRight(s, n)`: the last n bytes, or all.
pub fn str_right(s: &Text, n: i32) -> Result<Value, u8>
    ensures { result ≡ Ok (Str (texts.right s.now n)) }
{
    let bytes = s.bytes();
    let start = bytes.len().saturating_sub(count_of(n));
    Ok(Value::Str(Text::of_few(&bytes[start..])))
}

/// `StrMid(s, n, m)`: the m bytes from offset n on, or as many as there are.
pub fn str_mid(s: &Text, n: i32, m: i32) -> Result<Value, u8>
    ensures { result ≡ Ok (Str (texts.mid s.now n m)) }
{
    if n < 0 {
        return Ok(Value::Str(Text::empty()));
    }
    let bytes = s.bytes();
    let start = count_of(n).min(bytes.len());
    let behind = &bytes[start..];
    let end = count_of(m).min(behind.len());
    Ok(Value::Str(Text::of_few(&behind[..end])))
}

/// `StrGetChar(s, n)`: the byte at offset n, or 0 where there is none.
pub fn str_get_char(s: &Text, n: i32) -> Result<Value, u8>
    ensures { result ≡ Ok (Int (texts.byte_at s.now n)) }
{
    let bytes = s.bytes();
    if n < 0 {
        return Ok(Value::Int(0));
    }
    let offset = n as usize;
    if offset < bytes.len() {
        Ok(Value::Int(bytes[offset] as i32))
    } else {
        Ok(Value::Int(0))
    }
}
