use std::alloc::AllocError;
use thiserror::Error;

/// Why a text is no expression.
#[derive(Clone, Copy, Debug, PartialEq, Eq)]
pub enum ExprCause {
    /// No token begins there: a byte that begins none, a text that does not end, is over 1,024
    /// bytes or holds a control character, an identifier over 64 bytes, or a numeral that is no
    /// amount.
    Lexical,
    /// The first of more than 512 tokens, or the first bracket of more than 32 that are open at
    /// once.
    TooLarge,
    /// The tokens are no expression.
    Syntax,
}

/// Why a text is no expression, and where: the number of bytes in front of the place.
#[derive(Clone, Copy, Debug, PartialEq, Eq)]
pub struct ExprFault {
    pub place: u64,
    pub cause: ExprCause,
}

/// Why a text was not read as an expression.
#[derive(Debug, Drop, Error)]
pub enum ParseFault {
    #[error("no expression: {:?} at {}", .0.cause, .0.place)]
    Expr(ExprFault),
    #[error("out of memory")]
    Memory(AllocError),
}
