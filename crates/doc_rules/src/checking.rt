ghost use Rattle.document_model.specs.Slots.{slots};
ghost use Rattle.document_outcomes.specs.Faults.{fault_within_limits, first_fault};
ghost use Rattle.doc_tables.specs.Accessors.{AreNumbersOf};
ghost use Rattle.doc_rules.specs.Found.{MeetsFault};

use crate::cycles::check_cycles;
use crate::fault::CheckFault;
use crate::labels::check_labels;
use crate::limits::check_limits;
use crate::references::check_references;
use crate::sorts::check_sorts;
use crate::values::check_values;
use doc_tables::Tables;
use fc_base::SlotId;
use std::alloc::Global;

/// The first fault of a document that passes no limit.
fn check_within_limits(alloc: Global, tables: &Tables, listed: &[SlotId]) -> Result<(), CheckFault>
    requires { AreNumbersOf tables.now listed.now (slots tables.now.document) }
    ensures { MeetsFault (fault_within_limits tables.now.document) result }
{
    tables.holds_var_sets(); // for the proof
    check_labels(alloc, tables)?;
    check_references(alloc, tables, listed)?;
    let order = check_cycles(alloc, tables, listed)?;
    check_sorts(alloc, tables, listed, &order)?;
    check_values(alloc, tables, listed)
}

/// The first fault of a document, if it has any. Kind by kind it is a limit that is passed (TooMany,
/// 29), a label that an earlier object has (LabelTaken, 6), a reference that names no slot
/// (UnknownReference, 12), a slot that depends on itself (Cycle, 14), a slot without a sort
/// (UnitMismatch, KindMismatch, ExponentRange, 15 to 17), and an own value outside its type
/// (OutOfRange, 10); of each kind the first in the document.
///
/// It grows with the slots, nodes and dependencies of the document, and little faster than its
/// objects, each of whose labels is searched for. Where `resolve_references` was not called, each
/// reference is resolved four times.
pub fn check(alloc: Global, tables: &Tables) -> Result<(), CheckFault>
    ensures { MeetsFault (first_fault tables.now.document) result }
{
    let listed = tables.slots_in_order(alloc).map_err(CheckFault::Memory)?;
    check_limits(alloc, tables, &listed)?;
    check_within_limits(alloc, tables, &listed)
}
