//! The requests of the shared functions.
ghost use Rattle.std.specs.Prelude.{◌≡◌, [], ◌∷◌};
ghost use Rattle.ci_base.specs.Requests as requests;

use ci_base::errors::BAD_ARGUMENT;
use ci_base::{Request, SharedName, Text, Value};

/// The request that the shared function makes of these values. Where it doesn't take such values, the end of the task with
/// error 10. Takes no memory.
pub fn request_of(name: SharedName, given: &[Value]) -> Request
    ensures { result ≡ requests.request_of name given.now }
{
    match given {
        [] => plain_request(name),
        [only] => request_of_one(name, only),
        [first, second] => request_of_two(name, first, second),
        [first, second, third] => request_of_three(name, first, second, third),
        _ => misused(),
    }
}

fn misused() -> Request
    ensures { result ≡ requests.misused }
{
    Request::End { code: BAD_ARGUMENT }
}

fn plain_request(name: SharedName) -> Request
    ensures { result ≡ requests.plain_request name }
{
    match name {
        SharedName::SysTime => Request::SysTime,
        SharedName::End => Request::End { code: 0 },
        _ => misused(),
    }
}

fn request_of_one(name: SharedName, only: &Value) -> Request
    ensures { result ≡ requests.request_of name (only.now ∷ []) }
{
    match only {
        Value::Int(n) => int_request(name, *n),
        Value::Str(s) => text_request(name, s),
    }
}

fn request_of_two(name: SharedName, first: &Value, second: &Value) -> Request
    ensures { result ≡ requests.request_of name (first.now ∷ second.now ∷ []) }
{
    match (first, second) {
        (Value::Int(a), Value::Int(b)) => ints_request(name, *a, *b),
        (Value::Str(s), Value::Int(n)) => text_int_request(name, s, *n),
        _ => misused(),
    }
}

fn request_of_three(name: SharedName, first: &Value, second: &Value, third: &Value) -> Request
    ensures { result ≡ requests.request_of name (first.now ∷ second.now ∷ third.now ∷ []) }
{
    match (first, second, third) {
        (Value::Str(s), Value::Str(t), Value::Int(n)) => texts_int_request(name, s, t, *n),
        (Value::Int(a), Value::Int(b), Value::Str(s)) => ints_text_request(name, *a, *b, s),
        _ => misused(),
    }
}

fn int_request(name: SharedName, n: i32) -> Request
    ensures { result ≡ requests.int_request name n }
{
    match name {
        SharedName::TaskKill => Request::TaskKill { n },
        SharedName::TaskSuspend => Request::TaskSuspend { n },
        SharedName::TaskResume => Request::TaskResume { n },
        SharedName::Sleep => Request::Sleep { n },
        SharedName::SleepMS => Request::SleepMS { n },
        SharedName::SemSignal => Request::SemSignal { number: n },
        SharedName::SemClose => Request::SemClose { number: n },
        SharedName::QueLength => Request::QueLength { number: n },
        SharedName::QueClose => Request::QueClose { number: n },
        _ => misused(),
    }
}

fn text_request(name: SharedName, text: &Text) -> Request
    ensures { result ≡ requests.text_request name text.now }
{
    match name {
        SharedName::TaskHnd => Request::TaskHnd { name: text.copy() },
        SharedName::Enter => Request::Enter { text: text.copy() },
        SharedName::Leave => Request::Leave { text: text.copy() },
        SharedName::Trace => Request::Trace { text: text.copy() },
        _ => misused(),
    }
}

fn ints_request(name: SharedName, number: i32, n: i32) -> Request
    ensures { result ≡ requests.ints_request name number n }
{
    match name {
        SharedName::SemWait => Request::SemWait { number, n },
        SharedName::QueRead => Request::QueRead { number, mode: n },
        _ => misused(),
    }
}

fn text_int_request(name: SharedName, text: &Text, mode: i32) -> Request
    ensures { result ≡ requests.text_int_request name text.now mode }
{
    match name {
        SharedName::SemOpen => Request::SemOpen {
            name: text.copy(),
            mode,
        },
        SharedName::QueOpen => Request::QueOpen {
            name: text.copy(),
            mode,
        },
        _ => misused(),
    }
}

fn texts_int_request(name: SharedName, function: &Text, list: &Text, mode: i32) -> Request
    ensures { result ≡ requests.texts_int_request name function.now list.now mode }
{
    match name {
        SharedName::TaskNew => Request::TaskNew {
            name: function.copy(),
            list: list.copy(),
            mode,
        },
        _ => misused(),
    }
}

fn ints_text_request(name: SharedName, number: i32, sort: i32, text: &Text) -> Request
    ensures { result ≡ requests.ints_text_request name number sort text.now }
{
    match name {
        SharedName::QueWrite => Request::QueWrite {
            number,
            sort,
            text: text.copy(),
        },
        _ => misused(),
    }
}
