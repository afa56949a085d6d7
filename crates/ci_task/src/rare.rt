//! The instructions that are met less.
ghost use Rattle.std.specs.Prelude.{◌≡◌, ◌+◌, ◌<◌, Some, slice_get, length, true, false};
ghost use Rattle.ci_code.specs.declared.instruction.Instruction.{Instruction as Does};
ghost use Rattle.ci_code.specs.declared.instruction.Instruction.TheVariants as does;
ghost use Rattle.ci_code.specs.Machine.{instruction_in};
ghost use Rattle.ci_task.specs.Operators as operators;
ghost use Rattle.ci_task.specs.declared.went.Went.TheVariants.{On};
ghost use Rattle.ci_task.specs.Going.{next_place, active, Can, Does as Leaves, CanHeard, DoesHeard, is_straight};

use crate::active::Active;
use crate::arrays::{read_at, write_at};
use crate::heard::Heard;
use crate::hot::{drop_last, duplicate, load, push_int, store, swap, two_ints};
use crate::operators::{compute, operate};
use crate::run::instruction_of;
use crate::texts::{compare, join, take_part};
use crate::went::Went;
use ci_base::{PrivateName, Text};
use ci_code::{Instruction, RawFunction, RawParts};
use ci_stack::TaskStack;

/// The text of this number.
fn text_at(code: &RawParts, number: u32) -> &Text
    requires { number < length code.now.texts }
    ensures { slice_get code.now.texts number ≡ Some result.now }
{
    &code.texts.members()[number as usize]
}

/// A text of the code goes on top.
fn push_text(code: &RawParts, number: u32, at: Active, stack: &mut TaskStack)
    requires { Can code.now (does.PushStr number) at stack.old }
    ensures { Leaves code.now (does.PushStr number) at stack.old (next_place at) stack.new }
{
    let text = text_at(code, number);
    stack.replace_by_text(0, text.bytes());
}

/// The sort of the last element read goes on top.
fn push_sort(code: &RawParts, at: Active, stack: &mut TaskStack, heard: &Heard)
    requires { CanHeard code.now does.TakeSort at stack.old heard.now }
    ensures { DoesHeard code.now does.TakeSort at stack.old heard.now On stack.new heard.now }
{
    let sort = heard.sort;
    stack.replace_by_number(0, sort);
}

/// Its text goes on top.
fn push_element(code: &RawParts, at: Active, stack: &mut TaskStack, heard: &Heard)
    requires { CanHeard code.now does.TakeText at stack.old heard.now }
    ensures { DoesHeard code.now does.TakeText at stack.old heard.now On stack.new heard.now }
{
    stack.replace_by_text(0, heard.text.bytes());
}

/// Whether two INTs become one, and nothing can fail.
fn is_whole(what: Instruction) -> bool
    ensures { result ≡ operators.is_whole what }
{
    match what {
        Instruction::Add
        | Instruction::Sub
        | Instruction::Mul
        | Instruction::And
        | Instruction::Or
        | Instruction::BitAnd
        | Instruction::BitOr
        | Instruction::BitXor
        | Instruction::CmpInt(_) => true,
        _ => false,
    }
}

/// Whether it is another operator.
fn is_operator(what: Instruction) -> bool
    ensures { result ≡ operators.is_operator what }
{
    match what {
        Instruction::Neg
        | Instruction::Not
        | Instruction::Div
        | Instruction::Mod
        | Instruction::Cat
        | Instruction::CmpStr(_)
        | Instruction::WithinInt
        | Instruction::WithinStr
        | Instruction::Form(_) => true,
        _ => false,
    }
}

/// What an instruction does that goes on at the next place, and is met less.
fn rare(
    code: &RawParts,
    what: Instruction,
    at: Active,
    stack: &mut TaskStack,
    heard: &mut Heard,
) -> Went
    requires straight { is_straight what ≡ true }
    requires can { CanHeard code.now what at stack.old heard.old }
    ensures { DoesHeard code.now what at stack.old heard.old result stack.new heard.new }
{
    match what {
        Instruction::Cat => join(code, at, stack, heard),
        Instruction::CmpStr(relation) => {
            compare(code, relation, at, stack, heard);
            Went::On
        }
        Instruction::Private(PrivateName::StrMid) => {
            take_part(code, at, stack, heard);
            Went::On
        }
        _ => plain(code, what, at, stack, heard),
    }
}

/// The same over values of their own.
fn plain(
    code: &RawParts,
    what: Instruction,
    at: Active,
    stack: &mut TaskStack,
    heard: &mut Heard,
) -> Went
    requires straight { is_straight what ≡ true }
    requires can { CanHeard code.now what at stack.old heard.old }
    ensures { DoesHeard code.now what at stack.old heard.old result stack.new heard.new }
{
    if is_whole(what) {
        two_ints(code, what, at, stack);
        return Went::On;
    }
    if is_operator(what) {
        return operate(code, what, at, stack, heard);
    }
    other(code, what, at, stack, heard)
}

/// The same of the instruction at a place of a function.
///
/// What runs is handed over in parts, and not as an instruction and an active function: those would be passed by their places,
/// so they would have to be written there ahead of every instruction, whichever it is.
#[cold]
#[inline(never)]
pub fn rare_at(
    code: &RawParts,
    function: &RawFunction,
    number: u32,
    place: u32,
    base: u32,
    rooms: u32,
    stack: &mut TaskStack,
    heard: &mut Heard,
) -> Went
    requires within { place < length function.now.steps }
    requires straight { (what : Does) → instruction_in (Some function.now) place ≡ Some what → is_straight what ≡ true }
    requires can { (what : Does) → instruction_in (Some function.now) place ≡ Some what → CanHeard code.now what (active number place base rooms) stack.old heard.old }
    ensures { (what : Does) → instruction_in (Some function.now) place ≡ Some what → DoesHeard code.now what (active number place base rooms) stack.old heard.old result stack.new heard.new }
{
    let what = instruction_of(function, place);
    let at = Active {
        function: number,
        place,
        base,
        rooms,
    };
    rare(code, what, at, stack, heard)
}

/// The same of an instruction that is no operator.
fn other(
    code: &RawParts,
    what: Instruction,
    at: Active,
    stack: &mut TaskStack,
    heard: &mut Heard,
) -> Went
    requires straight { is_straight what ≡ true }
    requires no_whole { operators.is_whole what ≡ false }
    requires no_operator { operators.is_operator what ≡ false }
    requires can { CanHeard code.now what at stack.old heard.old }
    ensures { DoesHeard code.now what at stack.old heard.old result stack.new heard.new }
{
    match what {
        Instruction::PushInt(n) => {
            push_int(code, n, at, stack);
            Went::On
        }
        Instruction::PushStr(text) => {
            push_text(code, text, at, stack);
            Went::On
        }
        Instruction::Load(local) => {
            load(code, local, at, stack);
            Went::On
        }
        Instruction::Store(local) => {
            store(code, local, at, stack);
            Went::On
        }
        Instruction::Dup => {
            duplicate(code, at, stack);
            Went::On
        }
        Instruction::Swap => {
            swap(code, at, stack);
            Went::On
        }
        Instruction::Drop => {
            drop_last(code, at, stack);
            Went::On
        }
        Instruction::TakeSort => {
            push_sort(code, at, stack, heard);
            Went::On
        }
        Instruction::TakeText => {
            push_element(code, at, stack, heard);
            Went::On
        }
        Instruction::Private(name) => compute(code, name, at, stack, heard),
        Instruction::ReadAt(array) => read_at(code, array, at, stack, heard),
        Instruction::WriteAt(array) => write_at(code, array, at, stack, heard),
        Instruction::ReadCell(_) => Went::Asks,
        Instruction::WriteCell(_) => Went::Asks,
        Instruction::Ask(_) => Went::Asks,
        _ => unreachable!(),
    }
}
