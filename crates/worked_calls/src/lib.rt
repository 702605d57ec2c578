//! Public calls that the program does not make, and runs over devices in memory, tried on rows that
//! were worked out by hand.
//!
//! - `evaluation`: sorts, outcomes and steps of expressions (`expr_eval`).
//! - `grammar`: expressions and their printed forms (`expr_grammar`), and the references, copies
//!   and renamings of their trees (`expr_tree`).
//! - `runs`: whole runs, where a device fails or memory ends (`fcdoc_core`).
//! - `tokens`: tokens and faults of XML, and what values of attributes mean (`fcxml_profile`).
//!
//! The rows of the crates at the base stand in `worked_rows`, those of documents in
//! `worked_documents`.
#![tactic(auto)]

#[cfg(test)]
mod evaluation;
#[cfg(test)]
mod grammar;
#[cfg(test)]
mod runs;
#[cfg(test)]
mod tokens;
