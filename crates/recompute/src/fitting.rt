ghost use Rattle.std.specs.Prelude.{◌≡◌, ◌≢◌, IfOk, IfSome, option_map};
ghost use Rattle.property_types.specs.Fits.{fit};
ghost use Rattle.property_types.specs.declared.prop_type.PropType.TheVariants.{Placement};
ghost use Rattle.expr_eval.specs.Firsts.{on_one};
ghost use Rattle.document_outcomes.specs.Full.{fitted};

use property_types::{FitFault, Outcome, PropType};
use std::alloc::{AllocError, Global};

/// An outcome as one of a type.
fn fitted_to(alloc: Global, prop: &PropType, given: &Outcome) -> Result<Outcome, AllocError>
    requires { prop.now ≢ Placement }
    ensures { IfOk result (λ o. o ≡ on_one (fit prop.now) given.now) }
{
    match given {
        Ok(value) => match prop.fit(alloc, value) {
            Ok(fitted) => Ok(Ok(fitted)),
            Err(FitFault::Fault(fault)) => Ok(Err(fault)),
            Err(FitFault::Memory(error)) => Err(error),
        },
        Err(fault) => Ok(Err(*fault)),
    }
}

/// What is given to a slot, as the slot's type has it.
pub fn fitted(alloc: Global, prop: Option<&PropType>, given: Outcome) -> Result<Outcome, AllocError>
    requires { IfSome prop (λ p. p.now ≢ Placement) }
    ensures { IfOk result (λ o. o ≡ fitted (option_map (λ p. p.now) prop.entry) given) }
{
    match prop {
        Some(prop) => fitted_to(alloc, prop, &given),
        None => Ok(given),
    }
}
