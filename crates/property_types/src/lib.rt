//! The types of properties, the values that slots hold, and the plans of features.
//!
//! - `PropType` is the type of a property, by its name in FreeCAD: `PropType::named` reads such a
//!   name, `sort` says which values the type has, and `zero` gives the value of a new slot.
//! - `PropType::fit` makes a value one of the type, or says that it is `NotWhole` or `OutOfType`.
//! - `Value` is a number, a flag or a text, and `Outcome` a value or why there is none.
//! - `SlotPlan` lists the inputs and outputs of a feature. `Outcomes` is where outcomes are kept.
//! - `laws` has what follows from the definitions.
//!
//! The rules and the table of types stand in docs/types.md, and the rows that try them in
//! `worked_rows/src/types.rt`. To copy a value takes time with its text, to copy a plan with its
//! inputs and outputs; every other call takes the same time whatever it is given.
#![tactic(auto)]

mod fit;
pub mod laws;
mod outcomes;
mod plan;
mod prop_type;
mod value;

pub use fit::FitFault;
pub use outcomes::Outcomes;
pub use plan::{InputPlan, OutputPlan, SlotPlan};
pub use prop_type::{PropType, Sort};
pub use value::{Outcome, Value, ValueFault, copy_outcome};
