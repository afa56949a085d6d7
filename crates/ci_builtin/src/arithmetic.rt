//! Arithmetic of INTs.
ghost use Rattle.std.specs.Prelude.{◌≡◌};
ghost use Rattle.ci_base.specs.Arithmetic as numbers;
ghost use Rattle.ci_base.specs.declared.value.Value.TheVariants.{Int};

use crate::conditions::is_zero;
use ci_base::Value;
use ci_base::errors::DIVIDE_BY_ZERO;

/// `a + b`, which wraps.
pub fn sum(a: i32, b: i32) -> i32
    ensures { result ≡ numbers.sum a b }
{
    a.wrapping_add(b)
}

/// `a - b`, which wraps.
pub fn difference(a: i32, b: i32) -> i32
    ensures { result ≡ numbers.difference a b }
{
    a.wrapping_sub(b)
}

/// `a * b`, which wraps.
pub fn product(a: i32, b: i32) -> i32
    ensures { result ≡ numbers.product a b }
{
    a.wrapping_mul(b)
}

/// `-a`, which wraps.
pub fn negation(a: i32) -> i32
    ensures { result ≡ numbers.negation a }
{
    a.wrapping_neg()
}

/// `a / b`, cut toward zero; run error 8 where b is 0.
pub fn quotient(a: i32, b: i32) -> Result<Value, u8>
    ensures { result ≡ numbers.quotient a b }
{
    if is_zero(b) {
        Err(DIVIDE_BY_ZERO)
    } else {
        Ok(Value::Int(a.wrapping_div(b)))
    }
}

/// `a MOD b`, which is 0 or has the sign of a; run error 8 where b is 0.
pub fn remainder(a: i32, b: i32) -> Result<Value, u8>
    ensures { result ≡ numbers.remainder a b }
{
    if is_zero(b) {
        Err(DIVIDE_BY_ZERO)
    } else {
        Ok(Value::Int(a.wrapping_rem(b)))
    }
}

/// `Abs(n)`: n without its sign. The least INT stays.
pub fn abs(n: i32) -> Result<Value, u8>
    ensures { result ≡ Ok (Int (numbers.magnitude n)) }
{
    Ok(Value::Int(n.wrapping_abs()))
}

/// `Max(a, b)`: the larger one.
pub fn max(a: i32, b: i32) -> Result<Value, u8>
    ensures { result ≡ Ok (Int (numbers.larger a b)) }
{
    Ok(Value::Int(a.max(b)))
}

/// `Min(a, b)`: the smaller one.
pub fn min(a: i32, b: i32) -> Result<Value, u8>
    ensures { result ≡ Ok (Int (numbers.smaller a b)) }
{
    Ok(Value::Int(a.min(b)))
}
