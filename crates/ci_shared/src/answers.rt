//! The answers that the objects give.
ghost use Rattle.std.specs.Prelude.{◌≡◌};
ghost use Rattle.ci_shared.specs.Rows.{coded, element, number, plain, refused};

use ci_base::{Answer, Extra, Text, Value};

/// The code, as value and code.
pub fn coded(code: u8) -> Answer
    ensures { result ≡ plain (coded code) }
{
    Answer {
        value: Value::Int(i32::from(code)),
        code,
        extra: Extra::Nothing,
    }
}

/// -1 with the code.
pub fn refused(code: u8) -> Answer
    ensures { result ≡ plain (refused code) }
{
    Answer {
        value: Value::Int(-1),
        code,
        extra: Extra::Nothing,
    }
}

/// A number with code 0.
pub fn numbered(value: i32) -> Answer
    ensures { result ≡ plain (number value) }
{
    Answer {
        value: Value::Int(value),
        code: 0,
        extra: Extra::Nothing,
    }
}

/// 0 with an element.
pub fn with_element(sort: i32, text: Text) -> Answer
    ensures { result ≡ element sort text }
{
    Answer {
        value: Value::Int(0),
        code: 0,
        extra: Extra::Element { sort, text },
    }
}
