//! Why the names and kinds of a project are refused.

/// What a project has at most.
#[derive(Clone, Copy, Debug, PartialEq, Eq)]
pub enum Limit {
    /// 1,000 functions, those of all files together.
    Functions,
    /// 16 parameters of a function.
    Parameters,
    /// 64 locals of a function, its parameters among them.
    Locals,
    /// 100,000 cells of the variables of all files: one for a scalar, and as many for an array as it is long.
    Cells,
    /// 100,000 elements of an array, which has at least one.
    Array,
}

/// A fault of names and kinds.
#[derive(Clone, Copy, Debug, PartialEq, Eq)]
pub enum BindKind {
    /// The name was declared before, where both would be seen; or a function has the name of one that every project has.
    DeclaredTwice,
    /// Nothing of this name is seen.
    NameUnknown,
    /// What is called is a variable.
    NotAFunction,
    /// What is used as a variable is a function.
    NotAVariable,
    /// A part has another kind than its place asks for, or a function without a type is used for its value.
    KindsDiffer,
    /// A call has too few or too many arguments; or a parameter without a default stands behind one with a default.
    ArgumentCount,
    /// An argument that is to be set isn't the name of a variable.
    NotAVariableArgument,
    /// RETURN has a value in a function without a type, or none in a function with one.
    ReturnValue,
    /// An array stands without an index.
    IndexMissing,
    /// A scalar stands with an index.
    IndexOnScalar,
    /// REAL, OBJECT, QUALITY or TIMESTAMP.
    TypeOutOfScope,
    /// A limit is passed.
    Limit(Limit),
}

/// A fault, and where it is told.
#[derive(Clone, Copy, Debug, PartialEq, Eq)]
pub struct Fault {
    /// The number of its file, counted from 0.
    pub file: u32,
    /// The index of its token in that file.
    pub token: u32,
    /// The rule that is broken.
    pub kind: BindKind,
}

/// Why a project isn't bound.
#[derive(Clone, Copy, Debug, PartialEq, Eq)]
pub enum BindFault {
    /// The first fault: the number of its file, counted from 0, and the index of its token in that file.
    Fault {
        file: u32,
        token: u32,
        kind: BindKind,
    },
    /// Want of memory; it tells nothing of the files.
    Memory,
}
