//! The lexer: a source is cut into its tokens, or refused at its first lexical fault.
#![tactic(auto)]

mod comment;
mod fault;
mod laws;
mod lead;
mod lexing;
mod number;
mod run;
mod sign;
mod step;
mod text;
mod word;

pub use fault::LexFault;
pub use laws::one_reading;
pub use lexing::lex;
pub use word::is_name;
