//! The tokens of expressions.
//!
//! It knows how a text is cut into lexemes, which token each identifier is by its neighbours, how
//! many tokens and open brackets an expression may have, and which token is wrong beside its
//! neighbours. Which tokens are an expression is known to `expr_grammar`.
//!
//! Main calls: `lexemes`, `tokens`, `excess`, `first_misplaced`, `place_of_reference`. The cost of
//! each grows with the length of its text or of its list. Page: `docs/expressions.md`. Rows: the
//! cases `rows_tokens` and `rows_decimals_read` of `tests/conformance`.
#![tactic(auto)]

mod first_reference;
mod kinds;
mod lexing;
mod limits;
mod misplaced;
mod sign;
mod token;

pub use first_reference::place_of_reference;
pub use kinds::tokens;
pub use lexing::{LexFault, lexemes};
pub use limits::excess;
pub use misplaced::first_misplaced;
pub use sign::Sign;
pub use token::{Lexeme, Placed, Token};
