//! The tokens of XML, of documents that are one element. It knows no element of a document by name.
//!
//! - `Scanner::next` gives the tokens of a document one after another, `Scanner::take_foreign` passes
//!   over the element that was opened last and says where it stands, and `first_fault` says what is
//!   wrong with a document that is not well-formed, and where.
//! - `Attributes` gives the values of a tag by name and by place, and `AttributeText::read` what a
//!   value means, with its references replaced.
//! - `laws` says that items are found where they are spelled, and nowhere else.
//!
//! The rules stand in docs/format.md under "What is well-formed". The rows that try them are
//! `worked_calls/src/tokens.rt`, and the conformance cases of documents that are refused.
#![tactic(auto)]

mod elements;
mod examining;
mod fault;
mod fronts;
mod items;
pub mod laws;
mod reading;
mod references;
mod repeated;
mod scanner;
mod token;

pub use fault::{XmlCause, XmlFault};
pub use references::EntityFault;
pub use scanner::{ScanFault, Scanner, first_fault};
pub use token::{AttributeText, Attributes, Tag, TagName, Token};
