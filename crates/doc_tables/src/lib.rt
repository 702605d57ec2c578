//! A document as tables: objects and properties by name, slots by number.
//!
//! `Tables` holds a document of VarSets. It answers by name (`object_by_name`, `resolve`), by label
//! (`object_labelled`), by place (`object_at`, `slot_at`) and by number (`own_value`, `bound_of`,
//! `shape_of`, `references_of`, `deps_of`, `dependency_lists`), and is changed by five primitives
//! (`add_object`, `add_property`, `set_rule`, `remove_property`, `remove_object`). `resolve_references`
//! resolves all references at once. Numbers of objects and slots stay as long as what they name, and are
//! free then. `is_property_name` tells which names a property may be added under, `limits` how large a
//! document may be. What a document means, and which documents are refused, is not known here.
//!
//! `docs/definitions.md` tells of `Numbered`, as which tables are seen. Rows are tried in
//! `worked_documents/src/answers.rt`.
#![tactic(auto)]

mod changes;
mod counts;
mod dependencies;
mod entry;
mod finds_all;
mod insertion;
mod labels;
pub mod limits;
mod numbers;
mod objects;
mod property_names;
mod reached;
mod removals;
mod rule;
mod slots;
mod tables;

pub use property_names::is_property_name;
pub use rule::Rule;
pub use tables::Tables;
