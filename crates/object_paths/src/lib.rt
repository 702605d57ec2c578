//! Paths: how an expression or a command names a slot of an object.
//!
//! It knows what a slot is called in its object, how a path is read from a text and written in its
//! one spelling, and in which order paths stand. What a document has under a path is not known here.
//!
//! Main calls: `Path::read`, `Path::write`, `slot_path`; `opened` and `until_closing` find the
//! marks `<<` and `>>`, for texts too. The cost of each grows with its text. `laws` says that the
//! tests of slot names are exact, and which order they have. Page: `docs/paths.md`. Rows:
//! `worked_rows` (`paths.rt`), and the case `rows_paths` of `tests/conformance`.
#![tactic(auto)]

mod blanks;
pub mod laws;
mod marks;
mod path;
mod reading;
mod slot_name;
mod writing;

pub use marks::{opened, until_closing};
pub use path::{Owner, Path};
pub use reading::PathFault;
pub use slot_name::{Component, SlotName};
pub use writing::slot_path;
