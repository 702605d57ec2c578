ghost use Rattle.std.specs.Prelude.{◌≡◌, Err};
ghost use Rattle.document_model.specs.Document.{Document};
ghost use Rattle.doc_tables.specs.Numbered.{LeadsTo, Numbered};
ghost use Rattle.doc_rules.specs.Accepted.{accepted, fault_told, refusal_of_fault};
ghost use Rattle.doc_rules.specs.Commanded.{refused};
ghost use Rattle.doc_rules.specs.Edits.{Answers, Becomes};
ghost use Rattle.doc_rules.specs.declared.edit_fault.EditFault.TheVariants.{Refused};

use crate::checking::check;
use crate::edit_fault::EditFault;
use crate::fault::{CheckFault, DocFault};
use crate::refusal::Refusal;
use doc_tables::Tables;
use std::alloc::Global;

/// An edit that is refused with that number.
pub fn refused(number: u8) -> EditFault
    ensures { result ≡ Refused (refused number) }
{
    EditFault::Refused(Refusal::of(number))
}

/// An edit whose document has a fault is refused.
fn refused_by(alloc: Global, fault: &DocFault) -> EditFault
    ensures { Answers {A = Document} (Err (refusal_of_fault (fault_told fault.now))) (Err result) }
{
    match fault.refusal(alloc) {
        Ok(refusal) => EditFault::Refused(refusal),
        Err(error) => EditFault::Memory(error),
    }
}

/// Edited tables, unless their document has a fault. Its references are resolved once, before it is
/// checked.
pub fn accepted(alloc: Global, mut edited: Tables) -> Result<Tables, EditFault>
    ensures { (before : Numbered) (d : Document) → LeadsTo before edited d → Becomes before (accepted d) result }
{
    edited.resolve_references()?;
    match check(alloc, &edited) {
        Ok(()) => Ok(edited),
        Err(CheckFault::Doc(fault)) => Err(refused_by(alloc, &fault)),
        Err(CheckFault::Memory(error)) => Err(EditFault::Memory(error)),
    }
}
