//! INTs.
ghost use Rattle.std.specs.Prelude.{◌≡◌};
ghost use Rattle.ci_literals.specs.Ints.{begins_hexadecimal, begins_minus, bits_of, int_of, negative_of, positive_of};

use crate::digits::natural;

/// The INT that the bytes spell, if they spell one: decimal digits, with `-` before them or not; or `0x` and hexadecimal digits, whose
/// value is taken modulo 2^32.
#[tactic(auto, using(std::proofs::lemmas::List::take_rest), unfolding(crate::specs::Ints::int_of))]
pub fn read_int(spelled: &[u8]) -> Option<i32>
    ensures { result ≡ int_of spelled.now }
{
    if begins_minus(spelled) {
        negative(&spelled[1..])
    } else if begins_hexadecimal(spelled) {
        bits(&spelled[2..])
    } else {
        positive(spelled)
    }
}

/// Whether `-` stands at the front.
fn begins_minus(spelled: &[u8]) -> bool
    ensures { result ≡ begins_minus spelled.now }
{
    spelled.len() > 0 && spelled[0] == b'-'
}

/// Whether `0x` stands at the front.
fn begins_hexadecimal(spelled: &[u8]) -> bool
    ensures { result ≡ begins_hexadecimal spelled.now }
{
    spelled.len() > 1 && spelled[0] == b'0' && spelled[1] == b'x'
}

/// The INT of these decimal digits.
fn positive(digits: &[u8]) -> Option<i32>
    ensures { result ≡ positive_of digits.now }
{
    match natural(digits, 10, 2_147_483_647) {
        Some(n) => Some(n as i32),
        None => None,
    }
}

/// The INT of these decimal digits behind `-`.
fn negative(digits: &[u8]) -> Option<i32>
    ensures { result ≡ negative_of digits.now }
{
    match natural(digits, 10, 2_147_483_648) {
        Some(n) => Some((-(n as i64)) as i32),
        None => None,
    }
}

/// The INT of these hexadecimal digits.
fn bits(digits: &[u8]) -> Option<i32>
    ensures { result ≡ bits_of digits.now }
{
    match natural(digits, 16, u32::MAX) {
        Some(n) => Some(n.cast_signed()),
        None => None,
    }
}
