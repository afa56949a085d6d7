//! The parts of a task on the tree. They lend the trees of the project, and copy none.
//!
//! Lists of what waits have the latest at their end.
ghost use Rattle.std.specs.Prelude.{◌≡◌};

use ci_base::{Relation, Value};
use ci_tree::Operator;
use ci_tree::bound::{Call, Callee, Clause, Expr, Label, Link, Scalar, Stmt};
use sqlite_items::Items;
use std::alloc::Global;

/// The two variables that QueRead sets.
#[derive(Clone, Copy)]
pub struct Targets {
    pub sort: Scalar,
    pub text: Scalar,
}

/// A FOR that runs: its counter, its last value and its body.
#[derive(Drop)]
pub struct Counting<'p> {
    pub counter: Scalar,
    pub last: Value,
    pub body: &'p [Stmt],
}

/// A clause of SELECT that is tried: its body, the clauses behind it, and the ELSE part.
#[derive(Clone, Copy)]
pub struct Branch<'p> {
    pub body: &'p [Stmt],
    pub rest: &'p [Clause],
    pub other: &'p [Stmt],
}

/// What is called, the arguments that are to be evaluated, and how many of all stand before the first that is left out.
#[derive(Clone, Copy)]
pub struct Behind<'p> {
    pub callee: Callee,
    pub rest: &'p [Expr],
    pub given: usize,
}

/// What the value in hand is wanted for, inside its expression.
#[derive(Drop)]
pub enum Want<'p> {
    /// It is the operand of `-`, where `minus`, or of NOT.
    Operand {
        minus: bool,
    },
    /// It is the front of a chain.
    Front {
        rest: &'p [Link],
    },
    /// It is a right operand.
    Right {
        left: Value,
        operator: Operator,
        rest: &'p [Link],
    },
    /// It is the index of an element of this array.
    Index {
        array: usize,
    },
    /// It is an argument, behind these.
    Argument {
        before: Items<Value>,
        behind: Behind<'p>,
    },
    /// It is QueRead's number of a queue.
    Queue {
        mode: &'p Expr,
        targets: Targets,
    },
    /// It is QueRead's mode.
    Mode {
        queue: Value,
        targets: Targets,
    },
    /// It is QueRead's answer, after which the variables are set.
    Answer {
        targets: Targets,
    },
    /// It is QueRead's answer, after which the text is set.
    Kept {
        target: Scalar,
    },
}

/// What the value of the whole expression is for.
#[derive(Drop)]
pub enum Aim<'p> {
    /// It is assigned.
    Store {
        to: Scalar,
    },
    /// It is the index of an element that gets a value.
    Index {
        array: usize,
        value: &'p Expr,
    },
    /// It is the value of that element.
    Element {
        array: usize,
        index: Value,
    },
    /// It is the test of IF.
    Choose {
        body: &'p [Stmt],
        other: &'p Option<Items<Stmt>>,
    },
    /// It is the test of WHILE.
    Turn {
        test: &'p Expr,
        body: &'p [Stmt],
    },
    /// It is the first value of FOR.
    Begin {
        counter: Scalar,
        last: &'p Expr,
        body: &'p [Stmt],
    },
    /// It is the last value of FOR.
    Count {
        first: Value,
        counter: Scalar,
        body: &'p [Stmt],
    },
    /// It is the counter of FOR, at a test.
    Compare {
        counting: Counting<'p>,
    },
    /// It is the counter of FOR, behind the body.
    Raise {
        counting: Counting<'p>,
    },
    /// It is the subject of SELECT.
    Select {
        clauses: &'p [Clause],
        other: &'p [Stmt],
    },
    /// It is a label, to which the subject is to stand so.
    Match {
        of: Value,
        relation: Relation,
        labels: &'p [Label],
        branch: Branch<'p>,
    },
    /// It is the low end of a label.
    Low {
        of: Value,
        high: &'p Expr,
        labels: &'p [Label],
        branch: Branch<'p>,
    },
    /// It is the high end of a label.
    High {
        of: Value,
        low: Value,
        labels: &'p [Label],
        branch: Branch<'p>,
    },
    /// The function gives it.
    Return,
    /// It is dropped.
    Forget,
}

/// What is left to do in a function, behind what is in hand.
#[derive(Drop)]
pub enum Left<'p> {
    Run {
        rest: &'p [Stmt],
    },
    /// WHILE's next test.
    Again {
        test: &'p Expr,
        body: &'p [Stmt],
    },
    /// FOR's next test.
    Round {
        counting: Counting<'p>,
    },
    /// The end of FOR's body.
    Bump {
        counting: Counting<'p>,
    },
    /// The clauses of SELECT.
    Sift {
        of: Value,
        clauses: &'p [Clause],
        other: &'p [Stmt],
    },
    /// The labels of a clause.
    Pick {
        of: Value,
        labels: &'p [Label],
        branch: Branch<'p>,
    },
}

/// The part in hand.
#[derive(Drop)]
pub enum Hand<'p> {
    /// An expression that is to be evaluated.
    Eval {
        expr: &'p Expr,
    },
    /// A value that stands in the place of an expression.
    Constant {
        value: Value,
    },
    /// A scalar that is to be read.
    Scalar {
        of: Scalar,
    },
    /// A call whose value is wanted.
    Called {
        call: &'p Call,
    },
    /// A value.
    Give {
        value: Value,
    },
    /// A shared cell that is to be written, and the value that is in hand after that.
    Write {
        cell: usize,
        value: Value,
        after: Option<Value>,
    },
    /// A function that is to be entered.
    Enter,
    /// Nothing.
    Go,
}

/// A function that runs, or that waits for the value of a call: its number, its locals, and what is left of it.
#[derive(Drop)]
pub struct Frame<'p> {
    pub function: usize,
    pub locals: Items<Value>,
    pub wants: Items<Want<'p>>,
    pub aim: Aim<'p>,
    pub left: Items<Left<'p>>,
}

impl<'p> Counting<'p> {
    /// The same again. Takes no memory.
    pub fn copy(&self) -> Counting<'p>
        ensures { result ≡ self.now }
    {
        Counting {
            counter: self.counter,
            last: self.last.copy(),
            body: self.body,
        }
    }
}
