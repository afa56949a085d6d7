//! Bound projects: trees whose names are replaced by the numbers of what they mean. Functions, cells and arrays are numbered
//! from 0 in the order of files and places, and the locals of a function in their order, its parameters first.

mod making;

use crate::tree::Operator;
use ci_base::{Bytes, Kind, PrivateName, Relation, SharedName, Value};
use sqlite_items::{Boxed, Items};

/// A variable without an index.
#[derive(Clone, Copy, Debug, PartialEq, Eq)]
pub enum Scalar {
    /// The local of this number.
    Local(usize),
    /// The shared cell of this number.
    Cell(usize),
}

/// What is called.
#[derive(Clone, Copy, Debug, PartialEq, Eq)]
pub enum Callee {
    /// The function of the project with this number.
    Function(usize),
    Private(PrivateName),
    Shared(SharedName),
}

/// An expression.
#[cycle(bound_expressions)]
#[derive(Debug, Drop)]
pub enum Expr {
    Number {
        value: i32,
    },
    Literal {
        text: Bytes,
    },
    Scalar {
        of: Scalar,
    },
    /// The element of the array of this number.
    Element {
        array: usize,
        index: Boxed<Expr>,
    },
    Called {
        call: Call,
    },
    /// `-` where `minus`, else `NOT`.
    Unary {
        minus: bool,
        operand: Boxed<Expr>,
    },
    /// Operands with operators of one group between them, grouped from the left.
    Chain {
        first: Boxed<Expr>,
        rest: Items<Link>,
    },
}

/// A call with the arguments that stand in the source; nothing is kept for those that were left out. QueRead is apart, since
/// its second and third argument are set.
#[cycle(bound_expressions)]
#[derive(Debug, Drop)]
pub enum Call {
    Plain {
        callee: Callee,
        args: Items<Expr>,
    },
    QueRead {
        queue: Boxed<Expr>,
        sort: Scalar,
        text: Scalar,
        mode: Boxed<Expr>,
    },
}

/// One more member of a chain: an operator and its right operand, or `:` and its hashes.
#[cycle(bound_expressions)]
#[derive(Debug, Drop)]
pub enum Link {
    Operand { operator: Operator, operand: Expr },
    Hashes { count: u32 },
}

/// A label of a clause.
#[derive(Debug, Drop)]
pub enum Label {
    One { value: Expr },
    Range { low: Expr, high: Expr },
    Is { relation: Relation, value: Expr },
}

/// A statement. `at` is its first token; that of an assignment which a declaration makes is its local's. Most statements are
/// calls and assignments, so the parts of the others stand in boxes, and no statement takes more room than those.
#[cycle(bound_statements)]
#[derive(Debug, Drop)]
pub enum Stmt {
    Assign {
        at: u32,
        to: Scalar,
        value: Expr,
    },
    AssignElement {
        at: u32,
        array: usize,
        index: Boxed<Expr>,
        value: Expr,
    },
    CallOf {
        at: u32,
        call: Call,
    },
    If {
        at: u32,
        test: Boxed<Expr>,
        body: Items<Stmt>,
        other: Option<Items<Stmt>>,
    },
    While {
        at: u32,
        test: Expr,
        body: Items<Stmt>,
    },
    For {
        at: u32,
        counter: Scalar,
        from: Boxed<Expr>,
        to: Boxed<Expr>,
        body: Items<Stmt>,
    },
    /// Without ELSE `other` is empty.
    Select {
        at: u32,
        subject: Boxed<Expr>,
        clauses: Items<Clause>,
        other: Items<Stmt>,
    },
    Return {
        at: u32,
        value: Expr,
    },
}

/// A clause of SELECT.
#[cycle(bound_statements)]
#[derive(Debug, Drop)]
pub struct Clause {
    pub labels: Items<Label>,
    pub body: Items<Stmt>,
}

/// A parameter, and the value that stands for its argument where that is left out.
#[derive(Debug, Drop)]
pub struct Param {
    pub kind: Kind,
    pub first: Option<Value>,
}

/// A function of a file.
#[derive(Debug, Drop)]
pub struct Function {
    /// The number of its file, counted from 0.
    pub file: u32,
    /// Its name, as it is declared.
    pub name: Bytes,
    /// Whether it is seen in every file.
    pub public: bool,
    pub gives: Option<Kind>,
    pub params: Items<Param>,
    /// The kinds of the locals behind the parameters.
    pub others: Items<Kind>,
    pub body: Items<Stmt>,
}

/// A shared cell, and what it holds at first.
#[derive(Debug, Drop)]
pub struct Cell {
    pub kind: Kind,
    pub first: Value,
}

/// An array: its first cell, the kind of its cells, and how many there are.
#[derive(Clone, Copy, Debug, PartialEq, Eq)]
pub struct Array {
    pub first: usize,
    pub kind: Kind,
    pub length: usize,
}

/// A GLOBAL scalar.
#[derive(Debug, Drop)]
pub struct Global {
    /// Its name, as it is declared.
    pub name: Bytes,
    pub cell: usize,
}

/// All that a bound project has.
#[derive(Debug, Drop)]
pub struct ProjectParts {
    pub functions: Items<Function>,
    pub cells: Items<Cell>,
    pub arrays: Items<Array>,
    pub globals: Items<Global>,
}
