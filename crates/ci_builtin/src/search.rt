//! Searching a text.
ghost use Rattle.std.specs.Prelude.{◌≡◌, ◌≤◌, length, pos, IfSome};
ghost use Rattle.ci_base.specs.declared.value.Value.TheVariants.{Int};
ghost use Rattle.ci_base.specs.TextFunctions as texts;

use ci_base::{Text, Value};
use memchr::memmem;

/// `StrSearch(n, s, p)`: the least offset at or after n at which p stands in s, or -1 where there is none or n is negative.
/// Takes time by the length of both together.
pub fn str_search(n: i32, s: &Text, p: &Text) -> Result<Value, u8>
    ensures { result ≡ Ok (Int (texts.search n s.now p.now)) }
{
    let bytes = s.bytes();
    if n < 0 || n as usize > bytes.len() {
        return Ok(Value::Int(-1));
    }
    match first_from(n as usize, bytes, p.bytes()) {
        Some(offset) => Ok(Value::Int(offset as i32)),
        None => Ok(Value::Int(-1)),
    }
}

/// The least offset from this one on at which the pattern stands.
fn first_from(start: usize, bytes: &[u8], pattern: &[u8]) -> Option<usize>
    requires { start ≤ length bytes.now }
    ensures value { texts.offset_or_none result ≡ texts.search (pos start) bytes.now pattern.now }
    ensures within { IfSome result (λ offset. offset ≤ length bytes.now) }
{
    match memmem::find(&bytes[start..], pattern) {
        Some(behind) => Some(start + behind),
        None => None,
    }
}
