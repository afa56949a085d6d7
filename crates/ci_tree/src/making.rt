//! Makers of trees. Each says which tree it makes.
ghost use Rattle.std.specs.Prelude.{◌≡◌, List, map, option_map};
ghost use Rattle.ci_tree.specs.Tree as tree;
ghost use Rattle.ci_tree.specs.Tree.{block_from, other_from};
ghost use Rattle.ci_tree.specs.Grammar.{begun_at};
ghost use Rattle.ci_tree.specs.Seen.{expr_of, link_of, exprs_of, links_of, local_of, label_of, stmt_of, clause_of, block_of, clauses_of};

use crate::tree::{Clause, Expr, ExprKind, Label, Link, LocalAt, Operator, Stmt, TypeAt};
use ci_base::Bytes;
use sqlite_items::{Boxed, Items};

impl Expr {
    /// The number at this token.
    pub fn number(at: u32, value: i32) -> Expr
        ensures { expr_of result ≡ tree.expr at at (tree.number value) }
    {
        Expr {
            start: at,
            at,
            what: ExprKind::Number { value },
        }
    }

    /// The text at this token.
    pub fn literal(at: u32, text: Bytes) -> Expr
        ensures { expr_of result ≡ tree.expr at at (tree.literal text) }
    {
        Expr {
            start: at,
            at,
            what: ExprKind::Literal { text },
        }
    }

    /// The name alone at this token.
    pub fn name(at: u32, name: Bytes) -> Expr
        ensures { expr_of result ≡ tree.expr at at (tree.name name) }
    {
        Expr {
            start: at,
            at,
            what: ExprKind::Name { name },
        }
    }

    /// The element of the array named at this token.
    pub fn element(at: u32, name: Bytes, index: Boxed<Expr>) -> Expr
        ensures { expr_of result ≡ tree.expr at at (tree.element name (expr_of index)) }
    {
        Expr {
            start: at,
            at,
            what: ExprKind::Element { name, index },
        }
    }

    /// The call of the function named at this token.
    pub fn call(at: u32, name: Bytes, args: Items<Expr>) -> Expr
        ensures { expr_of result ≡ tree.expr at at (tree.call name (exprs_of args)) }
    {
        Expr {
            start: at,
            at,
            what: ExprKind::CallOf { name, args },
        }
    }

    /// The operand behind the unary operator at this token.
    pub fn unary(at: u32, minus: bool, operand: Boxed<Expr>) -> Expr
        ensures { expr_of result ≡ tree.expr at at (tree.unary minus (expr_of operand)) }
    {
        Expr {
            start: at,
            at,
            what: ExprKind::Unary { minus, operand },
        }
    }

    /// The chain that begins at the token `start`, and whose first operator is at the token `at`.
    pub fn chain(start: u32, at: u32, first: Boxed<Expr>, rest: Items<Link>) -> Expr
        ensures { expr_of result ≡ tree.expr start at (tree.chain (expr_of first) (links_of rest)) }
    {
        Expr {
            start,
            at,
            what: ExprKind::Chain { first, rest },
        }
    }

    /// The same expression, begun by a parenthesis at this token.
    pub fn begun_at(self, start: u32) -> Expr
        ensures { expr_of result ≡ begun_at start (expr_of self) }
    {
        let Expr { start: _, at, what } = self;
        Expr { start, at, what }
    }
}

impl Link {
    /// An operator at this token, and its right operand.
    pub fn of_operand(at: u32, operator: Operator, operand: Expr) -> Link
        ensures { link_of result ≡ tree.operand_link at operator (expr_of operand) }
    {
        Link::Operand {
            at,
            operator,
            operand,
        }
    }

    /// `:` at this token, and so many hashes.
    pub fn of_hashes(at: u32, count: u32) -> Link
        ensures { link_of result ≡ tree.hashes_link at count }
    {
        Link::Hashes { at, count }
    }
}

impl Stmt {
    /// A declaration that begins at this token.
    pub fn declare(at: u32, kind: TypeAt, locals: Items<LocalAt>) -> Stmt
        ensures { stmt_of result ≡ tree.declare at kind (map local_of locals) }
    {
        Stmt::Declare { at, kind, locals }
    }

    /// An assignment that begins at this token.
    pub fn assign(at: u32, name: Bytes, index: Option<Expr>, equals: u32, value: Expr) -> Stmt
        ensures { stmt_of result ≡ tree.assign at name (option_map expr_of index) equals (expr_of value) }
    {
        Stmt::Assign {
            at,
            name,
            index,
            equals,
            value,
        }
    }

    /// A call that begins at this token.
    pub fn call(at: u32, name: Bytes, args: Items<Expr>) -> Stmt
        ensures { stmt_of result ≡ tree.call_of at name (exprs_of args) }
    {
        Stmt::CallOf { at, name, args }
    }

    /// An IF at this token.
    pub fn choose(at: u32, test: Expr, body: Items<Stmt>, other: Option<Items<Stmt>>) -> Stmt
        ensures { stmt_of result ≡ tree.choose at (expr_of test) (block_of body) (other_from (option_map block_of other)) }
    {
        Stmt::If {
            at,
            test,
            body,
            other,
        }
    }

    /// A WHILE at this token.
    pub fn repeat(at: u32, test: Expr, body: Items<Stmt>) -> Stmt
        ensures { stmt_of result ≡ tree.while at (expr_of test) (block_of body) }
    {
        Stmt::While { at, test, body }
    }

    /// A FOR at this token.
    pub fn count(
        at: u32,
        name_at: u32,
        name: Bytes,
        from: Expr,
        to: Expr,
        body: Items<Stmt>,
    ) -> Stmt
        ensures { stmt_of result ≡ tree.for at name_at name (expr_of from) (expr_of to) (block_of body) }
    {
        Stmt::For {
            at,
            name_at,
            name,
            from,
            to,
            body,
        }
    }

    /// A SELECT at this token.
    pub fn select(
        at: u32,
        subject: Expr,
        clauses: Items<Clause>,
        other: Option<Items<Stmt>>,
    ) -> Stmt
        ensures { stmt_of result ≡ tree.select at (expr_of subject) (clauses_of clauses) (other_from (option_map block_of other)) }
    {
        Stmt::Select {
            at,
            subject,
            clauses,
            other,
        }
    }

    /// A RETURN at this token.
    pub fn give_back(at: u32, value: Option<Expr>) -> Stmt
        ensures { stmt_of result ≡ tree.return at (option_map expr_of value) }
    {
        Stmt::Return { at, value }
    }
}

impl Clause {
    /// A clause whose CASE is at this token.
    pub fn new(at: u32, labels: Items<Label>, body: Items<Stmt>) -> Clause
        ensures at { (clause_of result).at ≡ at }
        ensures labels { (clause_of result).labels ≡ map label_of labels }
        ensures body { (clause_of result).body ≡ block_of body }
    {
        Clause { at, labels, body }
    }
}
