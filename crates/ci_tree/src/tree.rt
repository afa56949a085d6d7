//! Syntax trees: what a source says, with the tokens that say it. All indexes are indexes of tokens in the list
//! that the tree was read from.

use ci_base::{Bytes, Relation};
use sqlite_items::{Boxed, Items};

/// The word of a type.
#[derive(Clone, Copy, Debug, PartialEq, Eq)]
pub enum TypeName {
    Int,
    String,
    Real,
    Object,
    Quality,
    Timestamp,
}

/// A type and its word's token.
#[derive(Clone, Copy, Debug, PartialEq, Eq)]
pub struct TypeAt {
    pub at: u32,
    pub name: TypeName,
}

/// The length of an array, and its number's token.
#[derive(Clone, Copy, Debug, PartialEq, Eq)]
pub struct Length {
    pub at: u32,
    pub value: i32,
}

/// A first value, and its first token: a number, with its `-` taken in, or a text.
#[derive(Debug, Drop)]
pub enum Const {
    Number { at: u32, value: i32 },
    Literal { at: u32, text: Bytes },
}

/// An operator that stands between two operands.
#[derive(Clone, Copy, Debug, PartialEq, Eq)]
pub enum Operator {
    BitAnd,
    BitOr,
    BitXor,
    Or,
    And,
    Equal,
    Unequal,
    Less,
    Greater,
    AtMost,
    AtLeast,
    Plus,
    Minus,
    Times,
    Over,
    Mod,
}

/// An expression.
#[cycle(expressions)]
#[derive(Debug, Drop)]
pub struct Expr {
    /// Its first token, parentheses round it included.
    pub start: u32,
    /// Its number, text, name or unary operator; of a chain the first operator or `:`.
    pub at: u32,
    pub what: ExprKind,
}

/// What an expression is.
#[cycle(expressions)]
#[derive(Debug, Drop)]
pub enum ExprKind {
    Number {
        value: i32,
    },
    Literal {
        text: Bytes,
    },
    Name {
        name: Bytes,
    },
    Element {
        name: Bytes,
        index: Boxed<Expr>,
    },
    CallOf {
        name: Bytes,
        args: Items<Expr>,
    },
    /// `-` where `minus`, else `NOT`.
    Unary {
        minus: bool,
        operand: Boxed<Expr>,
    },
    /// Operands with operators of one group between them, grouped from the left.
    Chain {
        first: Boxed<Expr>,
        rest: Items<Link>,
    },
}

/// One more member of a chain: an operator and its right operand, or `:` and its hashes.
#[cycle(expressions)]
#[derive(Debug, Drop)]
pub enum Link {
    Operand {
        at: u32,
        operator: Operator,
        operand: Expr,
    },
    Hashes {
        at: u32,
        count: u32,
    },
}

/// The arguments of a call.
pub type ExprList = Items<Expr>;

/// The members of a chain behind the first.
pub type LinkList = Items<Link>;

/// A local of a declaration, and its name's token.
#[derive(Debug, Drop)]
pub struct LocalAt {
    pub at: u32,
    pub name: Bytes,
    pub value: Option<Expr>,
}

/// The locals of a declaration.
pub type LocalAtList = Items<LocalAt>;

/// A label of a clause.
#[derive(Debug, Drop)]
pub enum Label {
    One {
        value: Expr,
    },
    Range {
        low: Expr,
        high: Expr,
    },
    Is {
        at: u32,
        relation: Relation,
        value: Expr,
    },
}

/// The labels of a clause.
pub type LabelList = Items<Label>;

/// A statement. `at` is its first token.
#[cycle(statements)]
#[derive(Debug, Drop)]
pub enum Stmt {
    Declare {
        at: u32,
        kind: TypeAt,
        locals: Items<LocalAt>,
    },
    /// `equals` is the token of its `=`.
    Assign {
        at: u32,
        name: Bytes,
        index: Option<Expr>,
        equals: u32,
        value: Expr,
    },
    CallOf {
        at: u32,
        name: Bytes,
        args: Items<Expr>,
    },
    If {
        at: u32,
        test: Expr,
        body: Items<Stmt>,
        other: Option<Items<Stmt>>,
    },
    While {
        at: u32,
        test: Expr,
        body: Items<Stmt>,
    },
    For {
        at: u32,
        name_at: u32,
        name: Bytes,
        from: Expr,
        to: Expr,
        body: Items<Stmt>,
    },
    Select {
        at: u32,
        subject: Expr,
        clauses: Items<Clause>,
        other: Option<Items<Stmt>>,
    },
    Return {
        at: u32,
        value: Option<Expr>,
    },
}

/// A clause of SELECT, and its `CASE`'s token.
#[cycle(statements)]
#[derive(Debug, Drop)]
pub struct Clause {
    pub at: u32,
    pub labels: Items<Label>,
    pub body: Items<Stmt>,
}

/// The statements of a body.
pub type StmtList = Items<Stmt>;

/// The clauses of SELECT.
pub type ClauseList = Items<Clause>;

/// A parameter, and its name's token.
#[derive(Debug, Drop)]
pub struct Param {
    pub at: u32,
    pub name: Bytes,
    pub kind: TypeAt,
    pub first: Option<Const>,
}

/// The parameters of a function.
pub type ParamList = Items<Param>;

/// A function or a variable of a file, and its name's token.
#[derive(Debug, Drop)]
pub enum Item {
    Function {
        at: u32,
        name: Bytes,
        private: bool,
        gives: Option<TypeAt>,
        params: Items<Param>,
        body: Items<Stmt>,
    },
    Variable {
        at: u32,
        name: Bytes,
        global: bool,
        kind: TypeAt,
        length: Option<Length>,
        first: Option<Const>,
    },
}

/// The items of a file.
pub type ItemList = Items<Item>;
