ghost use Rattle.std.specs.Prelude.{◌≡◌};

use crate::amount::Amount;
use crate::of_unit::of_unit;
use crate::quantity_fault::QuantityFault;
use unit_signatures::Unit;

/// An amount of a unit, counted in base units.
#[derive(Clone, Copy, Debug, PartialEq, Eq)]
pub struct Quantity {
    pub amount: Amount,
    pub unit: Unit,
}

impl Quantity {
    ghost use Rattle.quantities.specs.Quantities.{common_unit, quantity_minus, quantity_modulo, quantity_over, quantity_plus, quantity_power, quantity_times};

    /// The sum; `UnitMismatch` exactly where the units differ, else `Range` exactly where the sum
    /// leaves the bound of an amount.
    pub fn plus(&self, other: &Quantity) -> Result<Quantity, QuantityFault>
        ensures { result ≡ quantity_plus self.now other.now }
    {
        of_unit(self.common_unit(other)?, self.amount.plus(&other.amount))
    }

    /// The difference; `UnitMismatch` exactly where the units differ, else `Range` exactly where it
    /// leaves the bound of an amount.
    pub fn minus(&self, other: &Quantity) -> Result<Quantity, QuantityFault>
        ensures { result ≡ quantity_minus self.now other.now }
    {
        of_unit(self.common_unit(other)?, self.amount.minus(&other.amount))
    }

    /// The remainder, with the sign of the dividend; `UnitMismatch` exactly where the units differ,
    /// else `DivideByZero` exactly at a zero divisor.
    pub fn modulo(&self, other: &Quantity) -> Result<Quantity, QuantityFault>
        ensures { result ≡ quantity_modulo self.now other.now }
    {
        of_unit(self.common_unit(other)?, self.amount.modulo(&other.amount))
    }

    /// The product; `ExponentRange` exactly where the unit has an exponent outside -8 to 7, else
    /// `Range` exactly where the rounded amount leaves its bound.
    pub fn times(&self, other: &Quantity) -> Result<Quantity, QuantityFault>
        ensures { result ≡ quantity_times self.now other.now }
    {
        let unit = self.unit.times(&other.unit);
        let unit = unit.map_err(|_| QuantityFault::ExponentRange)?;
        of_unit(unit, self.amount.times(&other.amount))
    }

    /// The quotient; `ExponentRange` exactly where the unit has an exponent outside -8 to 7, else
    /// `DivideByZero` exactly at a zero divisor, else `Range` exactly where the rounded amount
    /// leaves its bound.
    pub fn over(&self, other: &Quantity) -> Result<Quantity, QuantityFault>
        ensures { result ≡ quantity_over self.now other.now }
    {
        let unit = self.unit.over(&other.unit);
        let unit = unit.map_err(|_| QuantityFault::ExponentRange)?;
        of_unit(unit, self.amount.over(&other.amount))
    }

    /// The power with a whole exponent; `ExponentRange` exactly where the unit has an exponent
    /// outside -8 to 7, else the fault of the amount's power.
    pub fn power(&self, n: i8) -> Result<Quantity, QuantityFault>
        ensures { result ≡ quantity_power self.now n }
    {
        let unit = self.unit.power(n);
        let unit = unit.map_err(|_| QuantityFault::ExponentRange)?;
        of_unit(unit, self.amount.power(n))
    }

    /// The unit of both; `UnitMismatch` exactly where they differ.
    fn common_unit(&self, other: &Quantity) -> Result<Unit, QuantityFault>
        ensures { result ≡ common_unit self.now other.now }
    {
        if self.unit == other.unit {
            Ok(self.unit)
        } else {
            Err(QuantityFault::UnitMismatch)
        }
    }
}
