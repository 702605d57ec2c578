//! Documents worked out by hand, to which checking and recomputing are held.
//!
//! - `answers`: what tables answer of slots, their rules and their counts (`doc_tables`).
//! - `building`: documents built from lines of text, for the other files.
//! - `faults`: the first faults of documents (`doc_rules`).
//! - `outcomes`: the outcomes of documents (`recompute`).
//!
//! The rows of the crates at the base stand in `worked_rows`, those of expressions, tokens of XML and
//! whole runs in `worked_calls`.
#![tactic(auto)]

#[cfg(test)]
mod answers;
#[cfg(test)]
mod building;
#[cfg(test)]
mod faults;
#[cfg(test)]
mod outcomes;
