//! What a machine of code does at a place.
use ci_base::{PrivateName, Relation, SharedName};

/// An instruction. It takes values from the operands, the latest first, and leaves others there.
#[derive(Clone, Copy, Debug)]
pub enum Instruction {
    /// Counts a tick.
    Tick,
    /// Leaves this number.
    PushInt(i32),
    /// Leaves the text of this number.
    PushStr(u32),
    /// Leaves what the local of this number holds.
    Load(u32),
    /// Takes a value into the local of this number.
    Store(u32),
    /// Asks what the cell of this number holds.
    ReadCell(u32),
    /// Takes a value, and asks that the cell of this number hold it.
    WriteCell(u32),
    /// Takes an index, and asks what that element of the array of this number holds.
    ReadAt(u32),
    /// Takes an index and then a value, and asks that that element of the array of this number hold it.
    WriteAt(u32),
    /// The sign of an INT is turned.
    Neg,
    /// 1 for 0, and 0 for any other INT.
    Not,
    Add,
    Sub,
    Mul,
    Div,
    Mod,
    And,
    Or,
    BitAnd,
    BitOr,
    BitXor,
    /// Two texts are joined.
    Cat,
    /// Two INTs are compared.
    CmpInt(Relation),
    /// Two texts are compared.
    CmpStr(Relation),
    /// Whether the first of three INTs lies from the second to the third.
    WithinInt,
    /// Whether the first of three texts lies from the second to the third.
    WithinStr,
    /// An INT is written with at least so many bytes, from 1 to 255.
    Form(u32),
    /// Leaves the latest operand twice.
    Dup,
    /// The two latest operands change places.
    Swap,
    /// Takes the latest operand.
    Drop,
    /// Goes on at this place of the function.
    Jump(u32),
    /// Takes an INT, and goes on at this place where it is 0.
    JumpIfZero(u32),
    /// Calls the function of this number.
    Call(u32),
    /// Calls a private function.
    Private(PrivateName),
    /// Makes the request of a shared function.
    Ask(SharedName),
    /// Leaves the sort of the last element that the task has read.
    TakeSort,
    /// Leaves the text of that element.
    TakeText,
    /// Gives the function's value.
    Return,
}

/// An instruction at its place.
#[derive(Clone, Copy, Debug)]
pub struct Step {
    /// The number of the shape, the kinds of the operands that stand before it.
    pub shape: u32,
    pub what: Instruction,
}
