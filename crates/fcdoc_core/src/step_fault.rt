ghost use Rattle.std.specs.Prelude.{◌≡◌};
ghost use Rattle.fcdoc_core.specs.declared.step_fault.StepFault.TheVariants.{Memory, Refused};

use doc_rules::{EditFault, Refusal};
use std::alloc::AllocError;
use thiserror::Error;

/// Why a command was not done.
#[derive(Debug, Drop, Error)]
pub enum StepFault {
    /// A rule forbids it, or there is no answer yet. Nothing was changed.
    #[error("{0}")]
    Refused(Refusal),
    /// No memory was left. Nothing was changed.
    #[error("out of memory")]
    Memory(AllocError),
}

impl From<AllocError> for StepFault {
    ghost from_gives = { λ cause e. e ≡ Memory cause };

    fn from(cause: AllocError) -> StepFault {
        StepFault::Memory(cause)
    }
}

impl From<Refusal> for StepFault {
    ghost from_gives = { λ refusal e. e ≡ Refused refusal };

    fn from(refusal: Refusal) -> StepFault {
        StepFault::Refused(refusal)
    }
}

impl From<EditFault> for StepFault {
    ghost use Rattle.fcdoc_core.specs.StepFaults.{step_fault_of};

    ghost from_gives = { λ fault e. e ≡ step_fault_of fault };

    fn from(fault: EditFault) -> StepFault {
        match fault {
            EditFault::Refused(refusal) => StepFault::Refused(refusal),
            EditFault::Memory(error) => StepFault::Memory(error),
        }
    }
}
