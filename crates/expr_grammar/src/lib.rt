//! The expressions of a document, from texts to trees and back.
//!
//! It knows which tokens have which tree, where a text goes wrong first, and the printed form of a
//! tree. What trees are, and which paths and areas stand in one, is known to `expr_tree`, and how a
//! text is cut into tokens to `expr_tokens`. The laws that texts and trees keep are those of
//! `expression_laws`.
//!
//! Main calls: `parse`, `parse_closed`, `print`, `is_too_large`, and most of those of `expr_tree`,
//! which are given again. Page: `docs/expressions.md`. Rows: `worked_calls` (`grammar.rt`), and the
//! cases `rows_*` of `tests/conformance`.
#![tactic(auto)]

mod closed;
mod descent;
mod fault;
mod limits;
mod no_tree;
mod parser;
mod parsing;
mod paths;
mod printing;
mod tightness;

pub use closed::parse_closed;
pub use expr_tree::{
    AggregateOp, Argument, BinaryOp, CompareOp, Expr, FunctionOp, NewReference, Node, Reference,
    Renaming, UnitPower, map_paths, references,
};
pub use fault::{ExprCause, ExprFault, ParseFault};
pub use limits::is_too_large;
pub use parsing::parse;
pub use printing::print;
