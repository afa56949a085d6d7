//! Places between tokens, the readers of single tokens, and expressions, for the parser of statements and items.
#![tactic(auto)]

mod begins;
mod behind;
mod cursor;
mod expressions;
mod fault;
mod operators;

pub use begins::{
    begins_else, begins_expression, begins_keyword, begins_name, begins_range_end, begins_sign,
    begins_statement, begins_type, begins_value,
};
pub use behind::{with_keyword, with_sign};
pub use cursor::{
    Cursor, below, expect_keyword, expect_sign, is_keyword, name_at, next, number_at, relation_at,
    type_at, type_of,
};
pub use expressions::{arguments, expression};
pub use fault::ParseFault;
