//! Digits, and numbers without a sign.
ghost use Rattle.std.specs.Prelude.{◌≡◌, ◌<◌, ◌≤◌, IfSome, MatchOption};
ghost use Rattle.std.specs.Char.{digit_value};
ghost use Rattle.std.specs.Str.Parse.{digits_value};
ghost use Rattle.ci_literals.specs.Digits.{is_digit_of, is_numeral, natural};

/// The value of a digit or a letter, and 36 for any other byte.
pub fn digit_value(digit: u8) -> u8
    ensures value { result ≡ digit_value digit }
    ensures small { result ≤ 36 }
{
    if digit < b'0' {
        36
    } else if digit <= b'9' {
        digit - b'0'
    } else if digit < b'A' {
        36
    } else if digit <= b'Z' {
        digit - 55
    } else if digit < b'a' {
        36
    } else if digit <= b'z' {
        digit - 87
    } else {
        36
    }
}

/// The number that the bytes spell in the base, where it is at most the limit.
pub fn natural(digits: &[u8], base: u32, limit: u32) -> Option<u32>
    requires least { 1 ≤ base }
    requires most { base ≤ 16 }
    ensures value { result ≡ natural base limit digits.now }
    ensures within { IfSome result (λ n. n ≤ limit) }
{
    if is_numeral(digits, base) {
        value_of(digits, base, limit)
    } else {
        None
    }
}

/// Whether there are digits of the base, and nothing else.
fn is_numeral(digits: &[u8], base: u32) -> bool
    ensures { result ≡ is_numeral base digits.now }
{
    if digits.is_empty() || !is_digit_of(digits[0], base) {
        return false;
    }
    for digit in digits {
        if !is_digit_of(*digit, base) {
            return false;
        }
    }
    true
}

/// Whether the byte is a digit of the base.
fn is_digit_of(digit: u8, base: u32) -> bool
    ensures { result ≡ is_digit_of base digit }
{
    (digit_value(digit) as u32) < base
}

/// The value of digits of the base, or none where it is above the limit. Digits of a greater base count with their value there.
pub fn value_of(digits: &[u8], base: u32, limit: u32) -> Option<u32>
    requires least { 1 ≤ base }
    requires most { base ≤ 16 }
    ensures { MatchOption result (limit < digits_value base digits.now) (λ n. (n ≡ digits_value base digits.now) × (n ≤ limit)) }
{
    let mut value: u64 = 0;
    for digit in digits {
        if value <= limit as u64 {
            value = value * base as u64 + digit_value(*digit) as u64;
        }
    }
    if value <= limit as u64 {
        Some(value as u32)
    } else {
        None
    }
}
