//! Why sources are refused.
ghost use Rattle.std.specs.Prelude.{◌≡◌, ◌≤◌, length};
ghost use Rattle.ci_source.specs.Faults.{fault_text as text_of_fault, limit_fault as fault_of_limit, name_fault as fault_of_names};

use ci_names::{BindKind, Limit};

/// Why a source is refused.
#[derive(Clone, Copy, Debug, PartialEq, Eq)]
pub enum Fault {
    /// A byte that begins no token, or a letter or `_` directly behind a number.
    StrayByte,
    /// A text that isn't closed on its line.
    OpenString,
    /// A comment that begins with `/*` and isn't closed.
    OpenComment,
    /// A caret in a text that begins no escape.
    BadEscape,
    /// A number beyond 2147483648, or a hexadecimal one beyond 4294967295.
    NumberTooLarge,
    /// A text of more than 255 bytes, or more than 255 `#`.
    TextTooLong,
    /// A name of more than 64 bytes.
    NameTooLong,
    /// A token that no text of the grammar has behind the tokens before it.
    UnexpectedToken,
    /// The source ends where more must follow.
    UnexpectedEnd,
    /// A token that would open the 33rd level.
    NestingTooDeep,
    /// A name that is declared twice where both would be seen, or a function with the name of one that every project has.
    DeclaredTwice,
    /// A name of which nothing is seen.
    NameUnknown,
    /// A variable that is called.
    NotAFunction,
    /// A function that is used as a variable.
    NotAVariable,
    /// A part of another kind than its place asks for, or the value of a function without a type.
    KindsDiffer,
    /// Too few or too many arguments, or a parameter without a default behind one with a default.
    ArgumentCount,
    /// An argument that is to be set and isn't the name of a variable.
    NotAVariableArgument,
    /// RETURN with a value in a function without a type, or without one in a function with a type.
    ReturnValue,
    /// An array without an index.
    IndexMissing,
    /// A scalar with an index.
    IndexOnScalar,
    /// REAL, OBJECT, QUALITY or TIMESTAMP.
    TypeOutOfScope,
    /// More than 1,000 functions.
    LimitFunctions,
    /// More than 16 parameters of a function.
    LimitParameters,
    /// More than 64 locals of a function.
    LimitLocals,
    /// More than 100,000 cells.
    LimitCells,
    /// An array of no element, or of more than 100,000.
    LimitArray,
}

/// The words for a fault.
pub fn fault_text(fault: Fault) -> &'static [u8]
    ensures value { result.now ≡ text_of_fault fault }
    ensures short { length result.now ≤ 23 }
{
    match fault {
        Fault::StrayByte => b"stray byte",
        Fault::OpenString => b"open string",
        Fault::OpenComment => b"open comment",
        Fault::BadEscape => b"bad escape",
        Fault::NumberTooLarge => b"number too large",
        Fault::TextTooLong => b"text too long",
        Fault::NameTooLong => b"name too long",
        Fault::UnexpectedToken => b"unexpected token",
        Fault::UnexpectedEnd => b"unexpected end",
        Fault::NestingTooDeep => b"nesting too deep",
        Fault::DeclaredTwice => b"declared twice",
        Fault::NameUnknown => b"name unknown",
        Fault::NotAFunction => b"not a function",
        Fault::NotAVariable => b"not a variable",
        Fault::KindsDiffer => b"kinds differ",
        Fault::ArgumentCount => b"argument count",
        Fault::NotAVariableArgument => b"not a variable argument",
        Fault::ReturnValue => b"return value",
        Fault::IndexMissing => b"index missing",
        Fault::IndexOnScalar => b"index on a scalar",
        Fault::TypeOutOfScope => b"type out of scope",
        Fault::LimitFunctions => b"limit functions",
        Fault::LimitParameters => b"limit parameters",
        Fault::LimitLocals => b"limit locals",
        Fault::LimitCells => b"limit cells",
        Fault::LimitArray => b"limit array",
    }
}

/// The fault of a limit that is passed.
fn limit_fault(limit: Limit) -> Fault
    ensures { result ≡ fault_of_limit limit }
{
    match limit {
        Limit::Functions => Fault::LimitFunctions,
        Limit::Parameters => Fault::LimitParameters,
        Limit::Locals => Fault::LimitLocals,
        Limit::Cells => Fault::LimitCells,
        Limit::Array => Fault::LimitArray,
    }
}

/// The fault of names and kinds.
pub(crate) fn name_fault(kind: BindKind) -> Fault
    ensures { result ≡ fault_of_names kind }
{
    match kind {
        BindKind::DeclaredTwice => Fault::DeclaredTwice,
        BindKind::NameUnknown => Fault::NameUnknown,
        BindKind::NotAFunction => Fault::NotAFunction,
        BindKind::NotAVariable => Fault::NotAVariable,
        BindKind::KindsDiffer => Fault::KindsDiffer,
        BindKind::ArgumentCount => Fault::ArgumentCount,
        BindKind::NotAVariableArgument => Fault::NotAVariableArgument,
        BindKind::ReturnValue => Fault::ReturnValue,
        BindKind::IndexMissing => Fault::IndexMissing,
        BindKind::IndexOnScalar => Fault::IndexOnScalar,
        BindKind::TypeOutOfScope => Fault::TypeOutOfScope,
        BindKind::Limit(limit) => limit_fault(limit),
    }
}
