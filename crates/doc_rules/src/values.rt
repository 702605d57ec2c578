ghost use Rattle.std.specs.Prelude.{◌≡◌, IfOk, IsSome, Some, option_map};
ghost use Rattle.document_model.specs.Slots.{slots};
ghost use Rattle.document_outcomes.specs.Faults.{range_faults};
ghost use Rattle.doc_tables.specs.Accessors.{AreNumbersOf};
ghost use Rattle.doc_tables.specs.Numbered.{slot_at};
ghost use Rattle.doc_rules.specs.Found.{MeetsFault};
ghost use Rattle.doc_rules.specs.KindFaults.{fault_at, has_value_outside, range_fault};

use crate::fault::CheckFault;
use crate::numbers::OUT_OF_RANGE;
use crate::subjects::slot_fault;
use doc_tables::Tables;
use fc_base::SlotId;
use property_types::FitFault;
use std::alloc::{AllocError, Global};

/// Whether a slot has an own value that is outside its type.
fn has_value_outside(alloc: Global, tables: &Tables, slot: SlotId) -> Result<bool, AllocError>
    requires { IsSome (slot_at tables.now slot.0) }
    ensures { IfOk result (λ outside. option_map (has_value_outside tables.now.document) (slot_at tables.now slot.0) ≡ Some outside) }
{
    tables.holds_var_sets(); // for the proof
    let Some(prop) = tables.type_of(slot) else {
        return Ok(false);
    };
    let Some(value) = tables.own_value(slot) else {
        return Ok(false);
    };
    match prop.fit(alloc, value) {
        Ok(_) => Ok(false),
        Err(FitFault::Fault(_)) => Ok(true),
        Err(FitFault::Memory(error)) => Err(error),
    }
}

/// OutOfRange, where the slot has an own value that is outside its type.
fn check_value(alloc: Global, tables: &Tables, slot: SlotId) -> Result<(), CheckFault>
    requires { IsSome (slot_at tables.now slot.0) }
    ensures { MeetsFault (fault_at tables.now (range_fault tables.now.document) slot) result }
{
    if has_value_outside(alloc, tables, slot).map_err(CheckFault::Memory)? {
        return Err(slot_fault(alloc, tables, OUT_OF_RANGE, slot));
    }
    Ok(())
}

/// OutOfRange of the first slot whose own value is outside its type.
pub fn check_values(alloc: Global, tables: &Tables, listed: &[SlotId]) -> Result<(), CheckFault>
    requires { AreNumbersOf tables.now listed.now (slots tables.now.document) }
    ensures { MeetsFault (range_faults tables.now.document) result }
{
    for slot in listed {
        check_value(alloc, tables, *slot)?;
    }
    Ok(())
}
