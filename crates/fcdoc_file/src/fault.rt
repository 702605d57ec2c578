ghost use Rattle.std.specs.Prelude.{◌≡◌, alloc_error};
ghost use Rattle.fcdoc_file.specs.declared.fault.FormFault.TheVariants.{Memory};

use fc_base::NameFault;
use std::alloc::{AllocError, AllocFailed};

/// Why bytes were not read as a document of the first form.
#[derive(Drop)]
pub(crate) enum FormFault {
    /// They are not the text of a document of the first form.
    NotBuilt,
    Memory(AllocError),
}

impl From<AllocError> for FormFault {
    ghost from_gives = { λ cause e. e ≡ Memory cause };

    fn from(cause: AllocError) -> FormFault {
        FormFault::Memory(cause)
    }
}

impl From<NameFault> for FormFault {
    ghost use Rattle.fcdoc_file.specs.Answers.{form_fault_of};

    ghost from_gives = { λ fault e. e ≡ form_fault_of fault };

    fn from(fault: NameFault) -> FormFault {
        match fault {
            NameFault::BadName => FormFault::NotBuilt,
            NameFault::Memory(cause) => FormFault::Memory(cause),
        }
    }
}

impl<T: Drop> From<AllocFailed<T>> for FormFault {
    ghost from_gives = { λ _ e. e ≡ Memory alloc_error };

    fn from(_cause: AllocFailed<T>) -> FormFault {
        FormFault::Memory(AllocError)
    }
}
