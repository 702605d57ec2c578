//! The base of every layer: names and texts, the places of cells, and the outside.
//!
//! - `Name`, `Label` and `TextValue` are texts that keep a rule each; `SourceBytes` are bytes that
//!   are kept as they stand. To read, to copy and to compare one takes time with its text.
//! - `Address` and `Area` are the places of cells, as `$B7` and `A1:C3`.
//! - `Store` and `Sink` are what the program knows of the outside. `FileStore` and `StdSink` are the
//!   system's, `MemoryStore` and `MemorySink` stand in memory and fail where they are told to.
//! - `Steps` counts the steps of a computation. `ObjectId` and `SlotId` are numbers in a document.
//! - `laws` has what holds of graphs: of what is reached, and of orders.
//!
//! The rules of texts and cells stand in docs/names.md, those of the outside in docs/outside.md. The
//! rows that try them are `addresses`, `devices` and `names` in `worked_rows/src`.
#![tactic(auto)]

mod address;
mod call_counter;
mod devices;
mod faults;
mod file_store;
mod ids;
mod label;
pub mod laws;
mod memory_sink;
mod memory_store;
mod name;
mod readings;
mod source_bytes;
mod standard_sink;
mod steps;
mod text_value;

pub use address::{Address, Area};
pub use devices::{Sink, Store};
pub use faults::{DeviceFault, FetchFault};
pub use file_store::FileStore;
pub use ids::{ObjectId, SlotId};
pub use label::{Label, LabelFault};
pub use memory_sink::MemorySink;
pub use memory_store::MemoryStore;
pub use name::{Name, NameFault};
pub use source_bytes::SourceBytes;
pub use standard_sink::StdSink;
pub use steps::Steps;
pub use text_value::{TextFault, TextValue};
