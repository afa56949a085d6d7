//! Why tokens have no tree.

ghost use Rattle.std.specs.Prelude.{◌≡◌};
ghost use Rattle.ci_expressions.specs.declared.fault.ParseFault.TheVariants.{Memory};

use ci_base::OutOfMemory;
use std::alloc::{AllocError, AllocFailed};
use thiserror::Error;

/// The first token that is refused, or want of memory. Each number is the index of a token.
#[derive(Debug, Drop, Error)]
pub enum ParseFault {
    /// No text of the grammar has this token behind the tokens before it.
    #[error("unexpected token {at}")]
    Unexpected { at: u32 },
    /// The tokens begin a text of the grammar, and are none.
    #[error("unexpected end")]
    UnexpectedEnd,
    /// The token would open the 33rd level.
    #[error("nesting too deep at token {at}")]
    TooDeep { at: u32 },
    /// There is no memory for the tree.
    #[error("out of memory")]
    Memory,
}

impl From<OutOfMemory> for ParseFault {
    ghost from_gives = { λ _ e. e ≡ Memory };

    fn from(_e: OutOfMemory) -> ParseFault {
        ParseFault::Memory
    }
}

impl From<AllocError> for ParseFault {
    ghost from_gives = { λ _ e. e ≡ Memory };

    fn from(_e: AllocError) -> ParseFault {
        ParseFault::Memory
    }
}

impl<T: Drop> From<AllocFailed<T>> for ParseFault {
    ghost from_gives = { λ _ e. e ≡ Memory };

    fn from(_e: AllocFailed<T>) -> ParseFault {
        ParseFault::Memory
    }
}
