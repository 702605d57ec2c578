ghost use Rattle.std.specs.Prelude.{◌≡◌, IfOk};
ghost use Rattle.doc_rules.specs.Edits.{fault_told, refusal_of_fault};

use crate::refusal::{Refusal, SubjectText, name_of};
use fc_base::TextValue;
use std::alloc::{AllocError, Global};
use std::fmt;
use thiserror::Error;

/// A fault of a document: its number, and what has it. The subject is the path of a slot from
/// outside, such as `V.a`, the name of an object, or empty where the whole document has the fault.
#[derive(Debug, Drop)]
pub struct DocFault {
    pub number: u8,
    pub subject: TextValue,
}

impl DocFault {
    /// The refusal of a command because of the fault. An empty subject is left out.
    pub fn refusal(&self, alloc: Global) -> Result<Refusal, AllocError>
        ensures { IfOk result (λ r. r ≡ refusal_of_fault (fault_told self.now)) }
    {
        let subject = if self.subject.as_str().is_empty() {
            None
        } else {
            Some(self.subject.copy(alloc)?)
        };
        Ok(Refusal {
            number: self.number,
            subject,
            place: None,
        })
    }
}

/// The fault as `fault 14 Cycle V.a`.
impl fmt::Display for DocFault {
    ghost use Rattle.std.specs.Prelude.{◌∷◌, ◌++◌, Some, codes, decimal};
    ghost use Rattle.doc_rules.specs.Refusals.{behind_space, refusal_name};

    ghost output = { λ d. Some (codes "fault " ++ decimal d.number ++ 32 ∷ refusal_name d.number ++ behind_space d.subject) };

    fn fmt<W: fmt::Write>(&self, f: &mut fmt::Formatter<W>) -> fmt::Result {
        let number = self.number;
        let name = name_of(number);
        let subject = SubjectText(self.subject.as_str());
        write!(f, "fault {number} {name}{subject}")
    }
}

/// Why a document was not found valid.
#[derive(Debug, Drop, Error)]
pub enum CheckFault {
    /// It has this fault, and none before it.
    #[error("{0}")]
    Doc(DocFault),
    #[error("out of memory")]
    Memory(AllocError),
}
