//! The sort of an expression, and its outcome for what its references give.
//!
//! `sort_of` answers which values an expression has, or the first cause why it has none. `evaluate`
//! answers its outcome, and counts a step for each node that it visits. Both are handed what the
//! references give: an `Env`, or the half of one that they want, a `SortEnv` or an `OutcomeEnv`.
//! `reference_count` says how many references there are; a tree with 2^32 or more is not handed over.
//! Which documents there are, and what a reference leads to, is not known here.
//!
//! `docs/expressions.md` tells the rules. Rows are tried in `worked_calls/src/evaluation.rt`, and by
//! whole scripts in `tests/conformance`.
#![tactic(auto)]

mod aggregates;
mod all_of;
mod comparison;
mod env;
mod evaluation;
pub mod laws;
mod numbers;
mod sort_cause;
mod sort_rows;
mod sorts;

pub use env::{Env, OutcomeEnv, SortEnv};
pub use evaluation::evaluate;
pub use expr_tree::reference_count;
pub use sort_cause::{SortCause, SortFault, SortOutcome};
pub use sort_rows::one_sort;
pub use sorts::sort_of;
