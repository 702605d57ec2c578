//! Documents as text: which document bytes are the text of, and what is wrong where they are none.
//!
//! `load` makes tables of a document of the first form, which is VarSets of Float properties with
//! values of their own, in exactly one layout. Of all other bytes it tells whether they are
//! well-formed XML: `Load` has the first fault with its place, and `NotBuilt` comes for the rest.
//!
//! Which text a document has is told in `specs/FirstForm.antt` and `specs/FirstDocument.antt`. How the
//! code reads it is told in `specs/Reading.antt`, and `document_is_read_exactly` is the law between
//! the two.
//!
//! The form and the causes are on the page `docs/format.md`. The rows are cases of
//! `tests/conformance`, most of them named `document_refused_..`.
#![tactic(auto)]

mod cursor;
mod fault;
mod filling;
mod first_document;
mod load_error;
mod loading;
mod reading;
mod standing;
mod var_set;

pub use first_document::document_is_read_exactly;
pub use load_error::{LoadCause, LoadError, LoadFault};
pub use loading::load;
