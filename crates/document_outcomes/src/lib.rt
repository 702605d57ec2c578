//! What a document means: the sort and the outcome of each slot, and the first fault of a document.
//!
//! There is no code here beside `laws`, whose functions have nothing to do: their contracts are the
//! laws. The definitions stand in `specs/`: the sort of a slot (`Sorts`), its outcome (`Full`), which
//! slots depend on themselves (`Cycles`), which documents are too large (`Limits`), the first fault
//! (`Faults`) with the numbers that refusals have (`RefusalNumbers`), and which features are called
//! (`Called`). How tables hold a document, and what features give, is not known here.
//!
//! `docs/evaluation.md` tells the rules. Worked documents stand in `specs/Worked*.antt`; the same and
//! more are tried in `worked_documents`.
#![tactic(auto)]

pub mod laws;
