ghost use Rattle.std.specs.Prelude.{◌≡◌};
ghost use Rattle.doc_rules.specs.declared.edit_fault.EditFault.TheVariants.{Memory};

use crate::numbers::EXPR_SYNTAX;
use crate::refusal::Refusal;
use expr_grammar::ParseFault;
use std::alloc::AllocError;
use thiserror::Error;

/// Why an edit was not made.
#[derive(Debug, Drop, Error)]
pub enum EditFault {
    #[error("{0}")]
    Refused(Refusal),
    #[error("out of memory")]
    Memory(AllocError),
}

impl From<AllocError> for EditFault {
    ghost from_gives = { λ cause e. e ≡ Memory cause };

    fn from(cause: AllocError) -> EditFault {
        EditFault::Memory(cause)
    }
}

impl From<ParseFault> for EditFault {
    ghost use Rattle.doc_rules.specs.EditFaults.{edit_fault_of};

    ghost from_gives = { λ fault e. e ≡ edit_fault_of fault };

    fn from(fault: ParseFault) -> EditFault {
        match fault {
            ParseFault::Expr(fault) => EditFault::Refused(Refusal {
                number: EXPR_SYNTAX,
                subject: None,
                place: Some(fault.place),
            }),
            ParseFault::Memory(error) => EditFault::Memory(error),
        }
    }
}
