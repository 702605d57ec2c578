//! How things that read others can be put into an order, and which of them read themselves.
//!
//! Things are nodes with numbers from 0, and each has the numbers of the nodes that it reads, its
//! inputs.
//!
//! - `in_order` gives an order in which each node stands after its inputs, where there is one. Its
//!   time is linear in the nodes and inputs.
//! - `reaches_itself` says whether one node reads itself, directly or through others. Its time is
//!   linear in the nodes and in the inputs of those that it reaches.
//!
//! Neither goes deeper the longer a chain is. How a document's slots are put into order is told in
//! docs/evaluation.md, and the rows that try the calls are `worked_rows/src/orders.rt`.
#![tactic(auto)]

mod nodes;
mod ordering;
mod reaching;
mod walk;

pub use ordering::in_order;
pub use reaching::reaches_itself;
