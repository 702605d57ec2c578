ghost use Rattle.std.specs.Prelude.{IsSome, Err, Some, option_map};
ghost use Rattle.document_outcomes.specs.Faults.{slot_fault};
ghost use Rattle.doc_tables.specs.Numbered.{slot_at};
ghost use Rattle.doc_rules.specs.Found.{MeetsFault};

use crate::fault::{CheckFault, DocFault};
use doc_tables::Tables;
use fc_base::{Name, SlotId, TextValue};
use std::alloc::Global;

/// The fault of a slot, or want of memory.
pub fn slot_fault(alloc: Global, tables: &Tables, number: u8, slot: SlotId) -> CheckFault
    requires { IsSome (slot_at tables.now slot.0) }
    ensures { MeetsFault (option_map (slot_fault number) (slot_at tables.now slot.0)) (Err result) }
{
    match tables.path_of(alloc, slot) {
        Ok(path) => CheckFault::Doc(DocFault {
            number,
            subject: TextValue::of(path),
        }),
        Err(error) => CheckFault::Memory(error),
    }
}

/// The fault of an object of that name, or want of memory.
pub fn object_fault(alloc: Global, number: u8, name: &Name) -> CheckFault
    ensures { MeetsFault (Some (record { number = number; subject = name.now })) (Err result) }
{
    match name.to_text_value(alloc) {
        Ok(subject) => CheckFault::Doc(DocFault { number, subject }),
        Err(error) => CheckFault::Memory(error),
    }
}
