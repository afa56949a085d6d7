//! The request at which a machine stands.
ghost use Rattle.std.specs.Prelude.{◌≡◌, ◌<◌, ◌^◌, ℕ, Some, List, ◌∷◌, [], ◌++◌, true};
ghost use Rattle.ci_base.specs.declared.request.Request.{Request as Asked};
ghost use Rattle.ci_base.specs.declared.value.Value.{Value as Held};
ghost use Rattle.ci_code.specs.declared.instruction.Instruction.TheVariants as does;
ghost use Rattle.ci_code.specs.Code.{IsCode};
ghost use Rattle.ci_code.specs.Moves as moves;
ghost use Rattle.ci_task.specs.Going.{makes_request};
ghost use Rattle.ci_task.specs.Moved.{Asking, IsMade};

use crate::arrays::array_at;
use crate::outcomes::last_values;
use ci_base::{Request, SharedName, Value};
use ci_builtin::request_of;
use ci_code::{Cells, Instruction, RawParts};
use ci_stack::TaskStack;

/// The cell of an element of an array.
fn cell_in(array: &Cells, index: i32) -> u32
    requires { (c : ℕ) × (moves.cell_in array.now index ≡ Some c) × (c < 2 ^ 32) }
    ensures { moves.cell_in array.now index ≡ Some result }
{
    array.first + index as u32
}

/// The value on top.
fn last_value(stack: &TaskStack) -> Value
    requires { (low : List Held) × (v : Held) × (stack.now ≡ low ++ v ∷ []) }
    ensures { (low : List Held) (v : Held) → stack.now ≡ low ++ v ∷ [] → result ≡ v }
{
    let last = stack.count() - 1;
    stack.copy_at(last as u32)
}

fn element_read(code: &RawParts, number: u32, stack: &TaskStack) -> Request
    requires code { IsCode code.now }
    requires asks { (q : Asked) × Asking code.now (does.ReadAt number) stack.now q × IsMade code.now q }
    ensures { (q : Asked) → Asking code.now (does.ReadAt number) stack.now q → result ≡ q }
{
    let array = array_at(code, number);
    let index = stack.last_number();
    Request::Read {
        cell: cell_in(array, index),
    }
}

fn element_written(code: &RawParts, number: u32, stack: &TaskStack) -> Request
    requires code { IsCode code.now }
    requires asks { (q : Asked) × Asking code.now (does.WriteAt number) stack.now q × IsMade code.now q }
    ensures { (q : Asked) → Asking code.now (does.WriteAt number) stack.now q → result ≡ q }
{
    let array = array_at(code, number);
    let index = stack.second_number();
    Request::Write {
        cell: cell_in(array, index),
        value: last_value(stack),
    }
}

fn cell_written(code: &RawParts, cell: u32, stack: &TaskStack) -> Request
    requires { (q : Asked) × Asking code.now (does.WriteCell cell) stack.now q }
    ensures { (q : Asked) → Asking code.now (does.WriteCell cell) stack.now q → result ≡ q }
{
    Request::Write {
        cell,
        value: last_value(stack),
    }
}

fn cell_read(code: &RawParts, cell: u32, stack: &TaskStack) -> Request
    ensures { (q : Asked) → Asking code.now (does.ReadCell cell) stack.now q → result ≡ q }
{
    Request::Read { cell }
}

fn shared(code: &RawParts, name: SharedName, stack: &TaskStack) -> Request
    requires { (q : Asked) × Asking code.now (does.Ask name) stack.now q }
    ensures { (q : Asked) → Asking code.now (does.Ask name) stack.now q → result ≡ q }
{
    let count = name.takes().len();
    let given = last_values(stack, count);
    request_of(name, given.as_slice())
}

/// The request that an instruction makes over these values.
pub fn request(code: &RawParts, what: Instruction, stack: &TaskStack) -> Request
    requires code { IsCode code.now }
    requires makes { makes_request what ≡ true }
    requires asks { (q : Asked) × Asking code.now what stack.now q × IsMade code.now q }
    ensures { (q : Asked) → Asking code.now what stack.now q → result ≡ q }
{
    match what {
        Instruction::ReadCell(cell) => cell_read(code, cell, stack),
        Instruction::WriteCell(cell) => cell_written(code, cell, stack),
        Instruction::ReadAt(array) => element_read(code, array, stack),
        Instruction::WriteAt(array) => element_written(code, array, stack),
        Instruction::Ask(name) => shared(code, name, stack),
        _ => unreachable!(),
    }
}
