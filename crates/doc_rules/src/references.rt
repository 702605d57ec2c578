ghost use Rattle.std.specs.Prelude.{◌≡◌, is_none, IfOk, IsSome};
ghost use Rattle.std.specs.List.{list_any};
ghost use Rattle.document_model.specs.Slots.{slots};
ghost use Rattle.document_outcomes.specs.Faults.{reference_faults};
ghost use Rattle.doc_tables.specs.Accessors.{AreNumbersOf, reached_at};
ghost use Rattle.doc_tables.specs.Numbered.{slot_at};
ghost use Rattle.doc_rules.specs.Found.{MeetsFault};
ghost use Rattle.doc_rules.specs.KindFaults.{fault_at, unknown_fault};

use crate::fault::CheckFault;
use crate::numbers::UNKNOWN_REFERENCE;
use crate::subjects::slot_fault;
use doc_tables::Tables;
use fc_base::SlotId;
use std::alloc::{AllocError, Global};

/// Whether one of a list is none.
fn has_none(references: &[Option<SlotId>]) -> bool
    ensures { result ≡ list_any is_none references.now }
{
    references.iter().any(|reference| reference.is_none())
}

/// Whether a reference of a slot's expression names no slot.
fn has_unknown_reference(alloc: Global, tables: &Tables, slot: SlotId) -> Result<bool, AllocError>
    requires { IsSome (slot_at tables.now slot.0) }
    ensures { IfOk result (λ unknown. unknown ≡ list_any is_none (reached_at tables.now slot.0)) }
{
    let references = tables.references_of(alloc, slot)?;
    Ok(has_none(&references))
}

/// UnknownReference, where a reference of the slot's expression names no slot.
fn check_references_of(alloc: Global, tables: &Tables, slot: SlotId) -> Result<(), CheckFault>
    requires { IsSome (slot_at tables.now slot.0) }
    ensures { MeetsFault (fault_at tables.now (unknown_fault tables.now.document) slot) result }
{
    if has_unknown_reference(alloc, tables, slot).map_err(CheckFault::Memory)? {
        return Err(slot_fault(alloc, tables, UNKNOWN_REFERENCE, slot));
    }
    Ok(())
}

/// UnknownReference of the first slot whose expression has a reference that names no slot.
pub fn check_references(alloc: Global, tables: &Tables, listed: &[SlotId]) -> Result<(), CheckFault>
    requires { AreNumbersOf tables.now listed.now (slots tables.now.document) }
    ensures { MeetsFault (reference_faults tables.now.document) result }
{
    tables.holds_var_sets(); // for the proof
    tables.finds_all(); // for the proof
    for slot in listed {
        check_references_of(alloc, tables, *slot)?;
    }
    Ok(())
}
