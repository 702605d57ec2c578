//! The expressions of a document, as trees.
//!
//! It knows what a tree is made of, how trees are built and copied, which paths and areas stand in
//! one and with which numbers, and a tree with some of them replaced. How a text has a tree, and a
//! tree a printed form, is known to `expr_grammar`, which gives most of this again.
//!
//! Main calls: `Expr::node_count`, `Expr::copy`, `references`, `reference_count`, `map_paths`, and
//! `is_function_name`. The cost of each but the last grows with the nodes, and that of `map_paths`
//! with the references times the listed ones too. `laws` has what holds of counted and of changed
//! references. Page: `docs/expressions.md`. Rows: `worked_calls` (`grammar.rt`).
#![tactic(auto)]

mod building;
mod copying;
mod expr;
mod functions;
pub mod laws;
mod operators;
mod reference;
mod renaming;

pub use expr::{Argument, Expr, Node, UnitPower};
pub use functions::{AggregateOp, FunctionOp, is_function_name};
pub use operators::{BinaryOp, CompareOp};
pub use reference::{Reference, reference_count, references};
pub use renaming::{NewReference, Renaming, map_paths};
