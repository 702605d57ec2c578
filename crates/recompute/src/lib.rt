//! The outcomes of all slots of a document, each worked out once, after those that it depends on.
//!
//! `Values` keeps the outcomes by the numbers of slots: `recompute` works all of them out from
//! nothing, in the time of one visit of each node and each dependency, counts the nodes that it visits,
//! and tells how many slots have a fault; `peek` answers one. The document must have no fault. Which
//! faults there are, and how a document is changed, is not known here.
//!
//! `docs/evaluation.md` tells the rules. Rows are tried in `worked_documents/src/outcomes.rt`, and by
//! whole scripts in `tests/conformance`.
#![tactic(auto)]

mod behind;
mod evaluation;
mod faults;
mod fitting;
mod given;
mod kept;
pub mod laws;
mod ordering;
mod values;

pub use values::{Report, Values};
