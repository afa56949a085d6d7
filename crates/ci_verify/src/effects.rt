//! What instructions take from the operands and leave there.
ghost use Rattle.std.specs.Prelude.{◌≡◌, [], ◌∷◌, slice_get};
ghost use Rattle.ci_code.specs.Moves.{parameters_of, value_kind};
ghost use Rattle.ci_verify.specs.Kinds.{listed, cell_kind, array_kind, callee_kind, takes_of, leaves_of, stays_of};

use crate::kinds::{pair, single};
use crate::shapes::{below, second_kind, top_kind};
use ci_base::{Kind, KindList};
use ci_code::{Instruction, RawFunction, RawParts};

/// The kind of the local of this number, where there is one.
fn local_kind(locals: &KindList, number: u32) -> &'static [Kind]
    ensures { result.now ≡ listed (slice_get locals.now number) }
{
    match locals.members().get(number as usize) {
        Some(kind) => single(*kind),
        None => &[],
    }
}

/// The kind of the cell of this number, where there is one.
fn cell_kind(code: &RawParts, number: u32) -> &'static [Kind]
    ensures { result.now ≡ listed (cell_kind code.now number) }
{
    match code.layout.cells.members().get(number as usize) {
        Some(cell) => single(cell.kind),
        None => &[],
    }
}

/// The kind of the elements of the array of this number, where there is one.
fn array_kind(code: &RawParts, number: u32) -> &'static [Kind]
    ensures { result.now ≡ listed (array_kind code.now number) }
{
    match code.arrays.members().get(number as usize) {
        Some(array) => single(array.kind),
        None => &[],
    }
}

/// An index, and the kind of the elements of the array of this number.
fn element_kinds(code: &RawParts, number: u32) -> &'static [Kind]
    ensures { result.now ≡ Kind.Int ∷ listed (array_kind code.now number) }
{
    match code.arrays.members().get(number as usize) {
        Some(array) => pair(Kind::Int, array.kind),
        None => &[Kind::Int],
    }
}

/// The kind of a function's value.
fn value_kind(function: &RawFunction) -> Kind
    ensures { result ≡ value_kind function.now }
{
    match function.gives {
        Some(kind) => kind,
        None => Kind::Int,
    }
}

/// The kind of what the function of this number gives, where there is one.
fn callee_kind(code: &RawParts, number: u32) -> &'static [Kind]
    ensures { result.now ≡ listed (callee_kind code.now number) }
{
    match code.functions.members().get(number as usize) {
        Some(function) => single(value_kind(function)),
        None => &[],
    }
}

/// The kinds of the parameters of the function of this number.
fn parameters(code: &RawParts, number: u32) -> &[Kind]
    ensures { result.now ≡ parameters_of code.now number }
{
    match code.layout.functions.members().get(number as usize) {
        Some(head) => head.kinds.members(),
        None => &[],
    }
}

/// What the instruction takes where these kinds stand.
pub fn takes<'a>(
    code: &'a RawParts,
    function: &RawFunction,
    before: &[Kind],
    what: Instruction,
) -> &'a [Kind]
    ensures { result.now ≡ takes_of code.now function.now before.now what }
{
    match what {
        Instruction::Store(local) => local_kind(&function.locals, local),
        Instruction::WriteCell(cell) => cell_kind(code, cell),
        Instruction::WriteAt(array) => element_kinds(code, array),
        Instruction::ReadAt(_)
        | Instruction::Neg
        | Instruction::Not
        | Instruction::Form(_)
        | Instruction::JumpIfZero(_) => &[Kind::Int],
        Instruction::Add
        | Instruction::Sub
        | Instruction::Mul
        | Instruction::Div
        | Instruction::Mod
        | Instruction::And
        | Instruction::Or
        | Instruction::BitAnd
        | Instruction::BitOr
        | Instruction::BitXor
        | Instruction::CmpInt(_) => &[Kind::Int, Kind::Int],
        Instruction::Cat | Instruction::CmpStr(_) => &[Kind::Str, Kind::Str],
        Instruction::WithinInt => &[Kind::Int, Kind::Int, Kind::Int],
        Instruction::WithinStr => &[Kind::Str, Kind::Str, Kind::Str],
        Instruction::Dup | Instruction::Drop => single(top_kind(before)),
        Instruction::Swap => pair(second_kind(before), top_kind(before)),
        Instruction::Call(callee) => parameters(code, callee),
        Instruction::Private(name) => name.takes(),
        Instruction::Ask(name) => name.takes(),
        Instruction::Return => single(value_kind(function)),
        _ => &[],
    }
}

/// What stays of these kinds behind the instruction, below that which it leaves.
pub fn stays<'a>(
    code: &RawParts,
    function: &RawFunction,
    before: &'a [Kind],
    what: Instruction,
) -> &'a [Kind]
    ensures { result.now ≡ stays_of code.now function.now before.now what }
{
    match what {
        Instruction::Return => &[],
        _ => below(before, takes(code, function, before, what)),
    }
}

/// What the instruction leaves where these kinds stood.
pub fn leaves(
    code: &RawParts,
    function: &RawFunction,
    before: &[Kind],
    what: Instruction,
) -> &'static [Kind]
    ensures { result.now ≡ leaves_of code.now function.now before.now what }
{
    match what {
        Instruction::Tick
        | Instruction::Store(_)
        | Instruction::WriteCell(_)
        | Instruction::WriteAt(_)
        | Instruction::Drop
        | Instruction::Jump(_)
        | Instruction::JumpIfZero(_)
        | Instruction::Return => &[],
        Instruction::PushStr(_) | Instruction::Cat | Instruction::Form(_) | Instruction::TakeText =>
            &[Kind::Str],
        Instruction::Load(local) => local_kind(&function.locals, local),
        Instruction::ReadCell(cell) => cell_kind(code, cell),
        Instruction::ReadAt(array) => array_kind(code, array),
        Instruction::Dup => pair(top_kind(before), top_kind(before)),
        Instruction::Swap => pair(top_kind(before), second_kind(before)),
        Instruction::Call(callee) => callee_kind(code, callee),
        Instruction::Private(name) => single(name.gives()),
        _ => &[Kind::Int],
    }
}
