//! Makers of bound trees. Each says which tree it makes, whatever the functions of the project take.
ghost use Rattle.std.specs.Prelude.{◌≡◌, map, option_map};
ghost use Rattle.ci_tree.specs.Bound as tree;
ghost use Rattle.ci_tree.specs.Bound.{other_from};
ghost use Rattle.ci_tree.specs.LeftOut.{Heads, call_given};
ghost use Rattle.ci_tree.specs.SeenBound.{scalar_of, callee_of, expr_of, call_of, link_of, exprs_of, links_of, label_of, stmt_of, clause_of, block_of, clauses_of};

use crate::bound::{Call, Callee, Clause, Expr, Label, Link, Scalar, Stmt};
use crate::tree::Operator;
use ci_base::Bytes;
use sqlite_items::{Boxed, Items};

impl Expr {
    /// The number.
    pub fn number(value: i32) -> Expr
        ensures { (heads : Heads) → expr_of heads result ≡ tree.number value }
    {
        Expr::Number { value }
    }

    /// The text.
    pub fn literal(text: Bytes) -> Expr
        ensures { (heads : Heads) → expr_of heads result ≡ tree.literal text }
    {
        Expr::Literal { text }
    }

    /// The scalar.
    pub fn scalar(of: Scalar) -> Expr
        ensures { (heads : Heads) → expr_of heads result ≡ tree.scalar (scalar_of of) }
    {
        Expr::Scalar { of }
    }

    /// The element of the array of this number.
    pub fn element(array: usize, index: Boxed<Expr>) -> Expr
        ensures { (heads : Heads) → expr_of heads result ≡ tree.element array (expr_of heads index) }
    {
        Expr::Element { array, index }
    }

    /// The value of the call.
    pub fn called(call: Call) -> Expr
        ensures { (heads : Heads) → expr_of heads result ≡ tree.called (call_of heads call) }
    {
        Expr::Called { call }
    }

    /// The operand behind a unary operator.
    pub fn unary(minus: bool, operand: Boxed<Expr>) -> Expr
        ensures { (heads : Heads) → expr_of heads result ≡ tree.unary minus (expr_of heads operand) }
    {
        Expr::Unary { minus, operand }
    }

    /// The chain of these members.
    pub fn chain(first: Boxed<Expr>, rest: Items<Link>) -> Expr
        ensures { (heads : Heads) → expr_of heads result ≡ tree.chain (expr_of heads first) (links_of heads rest) }
    {
        Expr::Chain { first, rest }
    }
}

impl Call {
    /// A call with these arguments; those that it leaves out aren't kept.
    pub fn plain(callee: Callee, args: Items<Expr>) -> Call
        ensures { (heads : Heads) → call_of heads result ≡ call_given heads (callee_of callee) (exprs_of heads args) }
    {
        Call::Plain { callee, args }
    }

    /// A call of QueRead, which sets two scalars.
    pub fn que_read(queue: Boxed<Expr>, sort: Scalar, text: Scalar, mode: Boxed<Expr>) -> Call
        ensures { (heads : Heads) → call_of heads result ≡ tree.que_read (expr_of heads queue) (scalar_of sort) (scalar_of text) (expr_of heads mode) }
    {
        Call::QueRead {
            queue,
            sort,
            text,
            mode,
        }
    }
}

impl Link {
    /// An operator, and its right operand.
    pub fn of_operand(operator: Operator, operand: Expr) -> Link
        ensures { (heads : Heads) → link_of heads result ≡ tree.operand_link operator (expr_of heads operand) }
    {
        Link::Operand { operator, operand }
    }

    /// `:` and so many hashes.
    pub fn of_hashes(count: u32) -> Link
        ensures { (heads : Heads) → link_of heads result ≡ tree.hashes_link count }
    {
        Link::Hashes { count }
    }
}

impl Stmt {
    /// An assignment to a scalar.
    pub fn assign(at: u32, to: Scalar, value: Expr) -> Stmt
        ensures { (heads : Heads) → stmt_of heads result ≡ tree.assign at (scalar_of to) (expr_of heads value) }
    {
        Stmt::Assign { at, to, value }
    }

    /// An assignment to an element of the array of this number.
    pub fn assign_element(at: u32, array: usize, index: Boxed<Expr>, value: Expr) -> Stmt
        ensures { (heads : Heads) → stmt_of heads result ≡ tree.assign_element at array (expr_of heads index) (expr_of heads value) }
    {
        Stmt::AssignElement {
            at,
            array,
            index,
            value,
        }
    }

    /// A call whose value is dropped.
    pub fn call(at: u32, call: Call) -> Stmt
        ensures { (heads : Heads) → stmt_of heads result ≡ tree.call_of at (call_of heads call) }
    {
        Stmt::CallOf { at, call }
    }

    /// An IF.
    pub fn choose(at: u32, test: Boxed<Expr>, body: Items<Stmt>, other: Option<Items<Stmt>>) -> Stmt
        ensures { (heads : Heads) → stmt_of heads result ≡ tree.choose at (expr_of heads test) (block_of heads body) (other_from (option_map (block_of heads) other)) }
    {
        Stmt::If {
            at,
            test,
            body,
            other,
        }
    }

    /// A WHILE.
    pub fn repeat(at: u32, test: Expr, body: Items<Stmt>) -> Stmt
        ensures { (heads : Heads) → stmt_of heads result ≡ tree.while at (expr_of heads test) (block_of heads body) }
    {
        Stmt::While { at, test, body }
    }

    /// A FOR.
    pub fn count(
        at: u32,
        counter: Scalar,
        from: Boxed<Expr>,
        to: Boxed<Expr>,
        body: Items<Stmt>,
    ) -> Stmt
        ensures { (heads : Heads) → stmt_of heads result ≡ tree.for at (scalar_of counter) (expr_of heads from) (expr_of heads to) (block_of heads body) }
    {
        Stmt::For {
            at,
            counter,
            from,
            to,
            body,
        }
    }

    /// A SELECT; without ELSE the last body is empty.
    pub fn select(at: u32, subject: Boxed<Expr>, clauses: Items<Clause>, other: Items<Stmt>) -> Stmt
        ensures { (heads : Heads) → stmt_of heads result ≡ tree.select at (expr_of heads subject) (clauses_of heads clauses) (block_of heads other) }
    {
        Stmt::Select {
            at,
            subject,
            clauses,
            other,
        }
    }

    /// A RETURN.
    pub fn give_back(at: u32, value: Expr) -> Stmt
        ensures { (heads : Heads) → stmt_of heads result ≡ tree.return at (expr_of heads value) }
    {
        Stmt::Return { at, value }
    }
}

impl Clause {
    /// A clause of SELECT.
    pub fn new(labels: Items<Label>, body: Items<Stmt>) -> Clause
        ensures labels { (heads : Heads) → (clause_of heads result).labels ≡ map (label_of heads) labels }
        ensures body { (heads : Heads) → (clause_of heads result).body ≡ block_of heads body }
    {
        Clause { labels, body }
    }
}
