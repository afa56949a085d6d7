//! Conditions, and the bits of INTs.
ghost use Rattle.std.specs.Prelude.{◌≡◌, pos};
ghost use Rattle.std.specs.Prelude.{Bool};
ghost use Rattle.ci_base.specs.Values as values;
ghost use Rattle.ci_base.specs.Arithmetic as numbers;

use ci_base::Value;
use ci_base::errors::ASSERTION;

/// Whether the INT is 0.
pub fn is_zero(n: i32) -> bool
    ensures { result ≡ values.is_zero n }
{
    n == 0
}

/// Whether the INT holds as a condition.
pub fn is_set(n: i32) -> bool
    ensures { result ≡ values.is_set n }
{
    !is_zero(n)
}

/// 1 where the condition holds, else 0.
pub fn truth(condition: bool) -> i32
    ensures { result ≡ values.truth condition }
{
    if condition { 1 } else { 0 }
}

/// `a AND b`.
pub fn conjunction(a: i32, b: i32) -> i32
    ensures { result ≡ numbers.conjunction a b }
{
    truth(is_set(a) && is_set(b))
}

/// `a OR b`.
pub fn disjunction(a: i32, b: i32) -> i32
    ensures { result ≡ numbers.disjunction a b }
{
    truth(is_set(a) || is_set(b))
}

/// `NOT a`.
pub fn inversion(a: i32) -> i32
    ensures { result ≡ numbers.inversion a }
{
    truth(is_zero(a))
}

/// `a BITAND b`, of the 32 bits.
pub fn common_bits(a: i32, b: i32) -> i32
    ensures { result ≡ numbers.common_bits a b }
{
    a & b
}

/// `a BITOR b`, of the 32 bits.
pub fn joint_bits(a: i32, b: i32) -> i32
    ensures { result ≡ numbers.joint_bits a b }
{
    a | b
}

/// `a BITXOR b`, of the 32 bits.
pub fn differing_bits(a: i32, b: i32) -> i32
    ensures { result ≡ numbers.differing_bits a b }
{
    a ^ b
}

/// `Assert(n)`: 0, or run error 14 where n is 0.
pub fn assert_that(n: i32) -> Result<Value, u8>
    ensures { result ≡ numbers.assertion n }
{
    if is_set(n) {
        Ok(Value::Int(0))
    } else {
        Err(ASSERTION)
    }
}
