ghost use Rattle.std.specs.Prelude.{◌≡◌};
ghost use Rattle.quantities.specs.Quantities.{of_unit};

use crate::amount::Amount;
use crate::amount_fault::AmountFault;
use crate::quantity::Quantity;
use crate::quantity_fault::QuantityFault;
use unit_signatures::Unit;

/// What was calculated, in this unit.
pub fn of_unit(unit: Unit, amount: Result<Amount, AmountFault>) -> Result<Quantity, QuantityFault>
    ensures { result ≡ of_unit unit amount }
{
    match amount {
        Ok(amount) => Ok(Quantity { amount, unit }),
        Err(AmountFault::Range) => Err(QuantityFault::Range),
        Err(AmountFault::DivideByZero) => Err(QuantityFault::DivideByZero),
    }
}
