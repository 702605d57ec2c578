ghost use Rattle.std.specs.Prelude.{◌≡◌, ◌≢◌};
ghost use Rattle.property_types.specs.declared.prop_type.PropType.TheVariants.{Placement};
ghost use Rattle.property_types.specs.Fits.{FitsAs, fit, fit_amount, is_in_range};
ghost use Rattle.property_types.specs.Types.{is_whole_type};

use crate::prop_type::{PropType, Sort};
use crate::value::{Value, ValueFault};
use quantities::{Amount, ONE_RAW, Quantity};
use std::alloc::{AllocError, Global};
use thiserror::Error;
use unit_signatures::Unit;

/// Why a value was not fitted to a type.
#[derive(Debug, Drop, Error)]
pub enum FitFault {
    /// It is no value of the type: `NotWhole` or `OutOfType`.
    #[error("{0}")]
    Fault(ValueFault),
    #[error("out of memory")]
    Memory(AllocError),
}

impl PropType {
    /// The value as one of the type. It is meant for values of the type's sort, and for pure numbers
    /// where the type has numbers, which then count in the type's unit. `NotWhole` comes exactly
    /// where the type wants a whole number and this is none, and else `OutOfType` exactly where the
    /// number is outside the type's range.
    pub fn fit(&self, alloc: Global, value: &Value) -> Result<Value, FitFault>
        requires { self.now ≢ Placement }
        ensures { FitsAs (fit self.now value.now) result }
    {
        match value {
            Value::Number(number) => match self.sort() {
                Sort::Number(unit) => self
                    .fit_amount(number.amount, unit)
                    .map_err(FitFault::Fault),
                _ => Ok(Value::Number(*number)),
            },
            Value::Flag(flag) => Ok(Value::Flag(*flag)),
            Value::Text(text) => Ok(Value::Text(text.copy(alloc).map_err(FitFault::Memory)?)),
        }
    }

    /// The amount as a number of the type, in a unit.
    fn fit_amount(&self, amount: Amount, unit: Unit) -> Result<Value, ValueFault>
        ensures { result ≡ fit_amount self.now amount unit }
    {
        if self.is_whole() && amount.raw() % ONE_RAW != 0 {
            return Err(ValueFault::NotWhole);
        }
        if self.has_in_range(amount.raw()) {
            Ok(Value::Number(Quantity { amount, unit }))
        } else {
            Err(ValueFault::OutOfType)
        }
    }

    /// Whether the type's numbers are whole.
    fn is_whole(&self) -> bool
        ensures { result ≡ is_whole_type self.now }
    {
        matches!(self, PropType::Integer | PropType::Percent | PropType::Turn)
    }

    /// Whether so many billionths are in the type's range.
    fn has_in_range(&self, raw: i128) -> bool
        ensures { result ≡ is_in_range self.now raw }
    {
        match self {
            PropType::Percent => 0 <= raw && raw <= 100 * ONE_RAW,
            PropType::Turn => 0 <= raw && raw <= 23 * ONE_RAW,
            PropType::Length | PropType::Area | PropType::Volume => 0 <= raw,
            _ => true,
        }
    }
}
