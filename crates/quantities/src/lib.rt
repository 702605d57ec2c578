//! Numbers with nine decimals, and numbers with units.
//!
//! - `Amount` is a whole number of billionths, at most 10^28 on each side of zero. `plus`, `minus`,
//!   `times`, `over`, `modulo`, `power`, `floor`, `ceil`, `round` and `trunc` calculate with amounts.
//! - `read_decimal` reads a text such as `-12.5e3`; `Amount::write_decimal` and `write_nine` write
//!   the two forms of an amount, and `Amount::read_nine` reads the second one back.
//! - `Quantity` is an amount of a unit; its calls calculate the unit first.
//! - `written_amounts_are_read_back` and `laws` have what follows from the definitions.
//!
//! The rules stand in docs/numbers.md, and the rows that try them in `worked_rows/src/numbers.rt`.
//! No call takes memory, and each takes the same time whatever it is given, but `power`, which
//! multiplies as often as its exponent says, and the calls that read, whose time grows with the text.
#![tactic(auto)]

mod amount;
mod amount_fault;
mod arithmetic;
mod decimal;
mod decimal_fault;
pub mod laws;
mod mark;
mod of_unit;
mod quantity;
mod quantity_fault;
mod round_trip;
mod scaling;
mod texts;

pub use amount::{Amount, ONE_RAW, Range};
pub use amount_fault::AmountFault;
pub use decimal::read_decimal;
pub use decimal_fault::DecimalFault;
pub use quantity::Quantity;
pub use quantity_fault::QuantityFault;
pub use round_trip::written_amounts_are_read_back;
