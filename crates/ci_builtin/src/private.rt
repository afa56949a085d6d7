//! The private functions by name.
ghost use Rattle.std.specs.Prelude.{◌≡◌, pos, [], ◌∷◌};
ghost use Rattle.ci_base.specs.declared.value.Value.TheVariants.{Int, Str};
ghost use Rattle.ci_base.specs.PrivateFunctions as functions;
ghost use Rattle.ci_base.specs.Values as values;

use crate::arithmetic::{abs, max, min};
use crate::conditions::{assert_that, is_set};
use crate::joining::str_fill;
use crate::letters::{str_lower, str_trim, str_upper};
use crate::numbers::{char_to_str, int_to_str, str_to_int};
use crate::parts::{str_get_char, str_left, str_length, str_mid, str_right};
use crate::search::str_search;
use ci_base::errors::BAD_ARGUMENT;
use ci_base::{PrivateName, Text, Value};

/// `ErrSet(n)`: 0. What it changes of the task isn't done here.
pub fn err_set(_n: i32) -> Result<Value, u8>
    ensures { result ≡ Ok (Int (pos 0)) }
{
    Ok(Value::Int(0))
}

/// `IsError()`: the last error of the task. That it becomes 0 isn't done here.
pub fn is_error(last_error: u8) -> Result<Value, u8>
    ensures { result ≡ Ok (Int (pos last_error)) }
{
    Ok(Value::Int(i32::from(last_error)))
}

/// The last error of the task after a call of the private function.
pub fn error_after(name: PrivateName, last_error: u8) -> u8
    ensures { result ≡ functions.error_after name last_error }
{
    match name {
        PrivateName::IsError => 0,
        _ => last_error,
    }
}

/// Whether the task goes on after run errors, after a call of the private function with these values.
pub fn goes_on_after(name: PrivateName, given: &[Value], goes_on: bool) -> bool
    ensures { result ≡ functions.goes_on_after name given.now goes_on }
{
    match name {
        PrivateName::ErrSet => match given {
            [Value::Int(n)] => is_set(*n),
            _ => goes_on,
        },
        _ => goes_on,
    }
}

/// What the private function gives of these values, in a task with this last error: a value, or a run error. Error 10
/// where it doesn't take such values.
pub fn private_value(last_error: u8, name: PrivateName, given: &[Value]) -> Result<Value, u8>
    ensures { result ≡ functions.private_value last_error name given.now }
{
    match given {
        [] => plain_value(last_error, name),
        [only] => value_of_one(last_error, name, only),
        [first, second] => value_of_two(last_error, name, first, second),
        [first, second, third] => value_of_three(last_error, name, first, second, third),
        _ => Err(BAD_ARGUMENT),
    }
}

fn plain_value(last_error: u8, name: PrivateName) -> Result<Value, u8>
    ensures { result ≡ functions.plain_value last_error name }
{
    match name {
        PrivateName::IsError => is_error(last_error),
        _ => Err(BAD_ARGUMENT),
    }
}

fn value_of_one(last_error: u8, name: PrivateName, only: &Value) -> Result<Value, u8>
    ensures { result ≡ functions.private_value last_error name (only.now ∷ []) }
{
    match only {
        Value::Int(n) => int_value(name, *n),
        Value::Str(s) => text_value(name, s),
    }
}

fn value_of_two(
    last_error: u8,
    name: PrivateName,
    first: &Value,
    second: &Value,
) -> Result<Value, u8>
    ensures { result ≡ functions.private_value last_error name (first.now ∷ second.now ∷ []) }
{
    match (first, second) {
        (Value::Int(a), Value::Int(b)) => ints_value(name, *a, *b),
        (Value::Str(s), Value::Int(n)) => text_int_value(name, s, *n),
        _ => Err(BAD_ARGUMENT),
    }
}

fn value_of_three(
    last_error: u8,
    name: PrivateName,
    first: &Value,
    second: &Value,
    third: &Value,
) -> Result<Value, u8>
    ensures { result ≡ functions.private_value last_error name (first.now ∷ second.now ∷ third.now ∷ []) }
{
    match (first, second, third) {
        (Value::Str(s), Value::Int(n), Value::Int(m)) => text_ints_value(name, s, *n, *m),
        (Value::Int(n), Value::Str(s), Value::Str(p)) => int_texts_value(name, *n, s, p),
        _ => Err(BAD_ARGUMENT),
    }
}

fn int_value(name: PrivateName, n: i32) -> Result<Value, u8>
    ensures { result ≡ functions.int_value name n }
{
    match name {
        PrivateName::IntToStr => int_to_str(n),
        PrivateName::CharToStr => char_to_str(n),
        PrivateName::Abs => abs(n),
        PrivateName::Assert => assert_that(n),
        PrivateName::ErrSet => err_set(n),
        _ => Err(BAD_ARGUMENT),
    }
}

fn text_value(name: PrivateName, s: &Text) -> Result<Value, u8>
    ensures { result ≡ functions.text_value name s.now }
{
    match name {
        PrivateName::StrLength => str_length(s),
        PrivateName::StrUpper => str_upper(s),
        PrivateName::StrLower => str_lower(s),
        PrivateName::StrTrim => str_trim(s),
        PrivateName::StrToInt => str_to_int(s),
        _ => Err(BAD_ARGUMENT),
    }
}

fn ints_value(name: PrivateName, a: i32, b: i32) -> Result<Value, u8>
    ensures { result ≡ functions.ints_value name a b }
{
    match name {
        PrivateName::Max => max(a, b),
        PrivateName::Min => min(a, b),
        _ => Err(BAD_ARGUMENT),
    }
}

fn text_int_value(name: PrivateName, s: &Text, n: i32) -> Result<Value, u8>
    ensures { result ≡ functions.text_int_value name s.now n }
{
    match name {
        PrivateName::StrLeft => str_left(s, n),
        PrivateName::StrRight => str_right(s, n),
        PrivateName::StrFill => str_fill(s, n),
        PrivateName::StrGetChar => str_get_char(s, n),
        _ => Err(BAD_ARGUMENT),
    }
}

fn text_ints_value(name: PrivateName, s: &Text, n: i32, m: i32) -> Result<Value, u8>
    ensures { result ≡ functions.text_ints_value name s.now n m }
{
    match name {
        PrivateName::StrMid => str_mid(s, n, m),
        _ => Err(BAD_ARGUMENT),
    }
}

fn int_texts_value(name: PrivateName, n: i32, s: &Text, p: &Text) -> Result<Value, u8>
    ensures { result ≡ functions.int_texts_value name n s.now p.now }
{
    match name {
        PrivateName::StrSearch => str_search(n, s, p),
        _ => Err(BAD_ARGUMENT),
    }
}
