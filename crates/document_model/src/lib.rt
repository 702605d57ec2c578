//! What a document is: its objects, their slots, and what stands in them.
//!
//! The definitions stand in `specs/`: a document and its objects, the kinds of objects, the rows of
//! slots with their types and rules, what a path names, what a slot depends on, how much stands in a
//! document and how much may, and which documents are well-formed. The code has the three types that
//! documents and tables share (`Content`, `ObjectKind`, `Status2`) and laws, each as the contract of a
//! function with nothing to do. Files, commands and tables are not known here.
//!
//! `docs/definitions.md` and `docs/paths.md` tell the rules. Worked documents stand in
//! `specs/Examples.antt` and `specs/LinkedBox.antt`, and a law says what they are.
#![tactic(auto)]

mod content;
mod kind;
pub mod laws;
mod status;

pub use content::Content;
pub use kind::ObjectKind;
pub use status::Status2;
