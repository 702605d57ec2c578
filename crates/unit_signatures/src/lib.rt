//! Units of measurement as the exponents of eight base units: mm, kg, s, A, K, mol, cd, deg.
//!
//! - `Unit` is such a list of exponents, each -8 to 7. `Unit::times`, `over` and `power` calculate
//!   with them, and give `ExponentRange` where one would leave the range.
//! - `Unit::write` gives a unit's text, such as `mm*kg*s^-2`.
//! - `unit_named` looks a name such as `kN` up in the table of named units, and gives its factor and
//!   its unit.
//!
//! The rules and the table stand in docs/numbers.md under "Units". The rows that try them are
//! `worked_rows/src/units.rt`. Each call takes the same time whatever it is given; `unit_named` goes
//! over the 42 rows of the table.
#![tactic(auto)]

mod table;
mod unit;
mod writing;

pub use table::unit_named;
pub use unit::{ExponentRange, Unit};
