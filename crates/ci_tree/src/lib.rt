//! The tokens of a source, and the trees that are made of them.
#![tactic(auto)]

pub mod bound;
mod file_tree;
mod file_trees;
mod laws;
mod layouts;
mod lists;
mod making;
mod project;
mod token;
mod tree;

pub use file_tree::FileTree;
pub use file_trees::FileTrees;
pub use laws::files_are_written;
pub use layouts::layout;
pub use lists::list_with_room;
pub use project::Project;
pub use token::{Keyword, Sign, Token, TokenKind, TokenList};
pub use tree::{
    Clause, ClauseList, Const, Expr, ExprKind, ExprList, Item, ItemList, Label, LabelList, Length,
    Link, LinkList, LocalAt, LocalAtList, Operator, Param, ParamList, Stmt, StmtList, TypeAt,
    TypeName,
};
