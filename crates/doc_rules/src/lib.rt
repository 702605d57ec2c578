//! The rules on whole documents: the first fault of a document, edits, and why commands are refused.
//!
//! `check` answers the first fault of a document; its body has the order of the kinds. `apply_edit`
//! makes an edit, or refuses it and changes nothing: it edits a copy, and checks the whole of that.
//! `slot_commanded` answers the slot that the path of a command names. A `Refusal` has one of the
//! numbers in `numbers`, and prints itself as the reply of a command does. Lines of scripts are not
//! known here, nor how outcomes are worked out: an edit is handed those of a document that was
//! recomputed since its last edit.
//!
//! `docs/commands.md` has the refusals, `docs/evaluation.md` the first fault. Rows are tried in
//! `worked_documents/src/faults.rt`, and by whole scripts in `tests/conformance`.
#![tactic(auto)]

mod accepting;
mod checking;
mod closed;
mod commanded;
mod cycles;
mod edit;
mod edit_fault;
mod editing;
mod fault;
mod labels;
pub mod laws;
mod limits;
pub mod numbers;
mod object_edits;
mod property_edits;
mod references;
mod refusal;
mod slot_edits;
mod sort_rules;
mod sorts;
mod sorts_behind;
mod subjects;
mod values;

pub use checking::check;
pub use commanded::slot_commanded;
pub use edit::{Edit, EditText, EditTexts, StatusChange};
pub use edit_fault::EditFault;
pub use editing::apply_edit;
pub use fault::{CheckFault, DocFault};
pub use refusal::Refusal;
