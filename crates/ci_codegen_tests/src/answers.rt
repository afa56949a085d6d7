//! What a task hears.
ghost use Rattle.std.specs.Prelude.{◌≡◌, IfSome, IsTrue, Some, slice_get};
ghost use Rattle.ci_base.specs.Requests.{Fits, IsCellAnswer, IsPlainAnswer, IsQueueAnswer, done};
ghost use Rattle.ci_base.specs.Values.{kind_of};
ghost use Rattle.ci_task.specs.Moved.{cell_kinds};

use ci_base::{Answer, Extra, Kind, Request, Text, Value};
use ci_verify::Verified;

/// What a task hears in answer to a request.
#[derive(Clone, Copy)]
pub enum Heard {
    /// An INT with code 0.
    Int(i32),
    /// A STRING with code 0.
    Str(&'static str),
    /// An INT with this code.
    Coded(i32, u8),
    /// An element of a queue.
    Element(i32, &'static str),
}

/// The text of a table, which has at most 255 bytes.
pub fn text(bytes: &str) -> Text {
    match Text::of(bytes.as_bytes()) {
        Some(text) => text,
        None => Text::empty(),
    }
}

/// The answer to the request, if it may be heard there. A write hears nothing but that it is done.
pub fn answer_to(code: &Verified, request: &Request, heard: Heard) -> Option<Answer>
    ensures { IfSome result (λ answer. Fits (cell_kinds code.now) request.now answer) }
{
    match request {
        Request::Read { cell } => value_of(code, *cell, heard),
        Request::Write { cell: _, value: _ } => Some(is_done()),
        Request::QueRead { number: _, mode: _ } => element(heard),
        Request::End { code: _ } => None,
        _ => Some(number(heard)),
    }
}

/// The answer to a write.
fn is_done() -> Answer
    ensures { result ≡ done }
{
    Answer {
        value: Value::Int(0),
        code: 0,
        extra: Extra::Nothing,
    }
}

/// The value of this cell, if it is of its kind.
fn value_of(code: &Verified, cell: u32, heard: Heard) -> Option<Answer>
    ensures { IfSome result (λ answer. IsCellAnswer (cell_kinds code.now) cell answer) }
{
    let value = match heard {
        Heard::Int(n) => Value::Int(n),
        Heard::Str(bytes) => Value::Str(text(bytes)),
        Heard::Coded(_, _) => return None,
        Heard::Element(_, _) => return None,
    };
    value_in(code, cell, value)
}

/// The value as an answer, if it is of the cell's kind.
fn value_in(code: &Verified, cell: u32, value: Value) -> Option<Answer>
    ensures { IfSome result (λ answer. IsCellAnswer (cell_kinds code.now) cell answer) }
{
    if !is_of_cell(code, cell, kind(&value)) {
        return None;
    }
    Some(Answer {
        value,
        code: 0,
        extra: Extra::Nothing,
    })
}

/// The kind of a value.
pub fn kind(value: &Value) -> Kind
    ensures { result ≡ kind_of value.now }
{
    match value {
        Value::Int(_) => Kind::Int,
        Value::Str(_) => Kind::Str,
    }
}

/// Whether there is such a cell, and it is of this kind.
fn is_of_cell(code: &Verified, cell: u32, kind: Kind) -> bool
    ensures { IsTrue result → slice_get (cell_kinds code.now) cell ≡ Some kind }
{
    match code.parts().layout.cells.members().get(cell as usize) {
        Some(found) => found.kind == kind,
        None => false,
    }
}

/// An element, or a code that says why there is none.
fn element(heard: Heard) -> Option<Answer>
    ensures { IfSome result (λ answer. IsQueueAnswer answer) }
{
    match heard {
        Heard::Element(sort, bytes) => Some(Answer {
            value: Value::Int(0),
            code: 0,
            extra: Extra::Element {
                sort,
                text: text(bytes),
            },
        }),
        Heard::Coded(n, code) => refusal(n, code),
        Heard::Int(_) => None,
        Heard::Str(_) => None,
    }
}

/// No element, and why.
fn refusal(n: i32, code: u8) -> Option<Answer>
    ensures { IfSome result (λ answer. IsQueueAnswer answer) }
{
    if code == 0 {
        return None;
    }
    Some(Answer {
        value: Value::Int(n),
        code,
        extra: Extra::Nothing,
    })
}

/// An INT, and its code; 0 where something else is heard.
fn number(heard: Heard) -> Answer
    ensures { IsPlainAnswer result }
{
    let (n, code) = match heard {
        Heard::Int(n) => (n, 0),
        Heard::Coded(n, code) => (n, code),
        Heard::Str(_) => (0, 0),
        Heard::Element(_, _) => (0, 0),
    };
    Answer {
        value: Value::Int(n),
        code,
        extra: Extra::Nothing,
    }
}
