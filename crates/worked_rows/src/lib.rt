//! Rows worked out by hand for the crates at the base, as tables, one test for each table.
//!
//! - `addresses`: cells and areas of sheets, and their texts (`fc_base`).
//! - `devices`: stores and sinks that fail at a call, files, slow writers (`fc_base`).
//! - `names`: names, labels and text values (`fc_base`).
//! - `numbers`: amounts and their texts (`quantities`).
//! - `orders`: orders of nodes, and cycles (`dependency_order`).
//! - `paths`: paths to slots, and their texts (`object_paths`).
//! - `types`: types of properties, values that are fitted, plans (`property_types`).
//! - `units`: named units, their products and texts (`unit_signatures`).
//!
//! The rows of documents stand in `worked_documents`, those of expressions, tokens of XML and whole
//! runs in `worked_calls`.
#![tactic(auto)]

#[cfg(test)]
mod addresses;
#[cfg(test)]
mod devices;
#[cfg(test)]
mod names;
#[cfg(test)]
mod numbers;
#[cfg(test)]
mod orders;
#[cfg(test)]
mod paths;
#[cfg(test)]
mod types;
#[cfg(test)]
mod units;
