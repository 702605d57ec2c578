ghost use Rattle.std.specs.Prelude.{◌≡◌, ◌<◌, false, filter, length, slice_index_or, IfOk};
ghost use Rattle.fc_base.specs.Graph.{IsIn};
ghost use Rattle.fc_base.specs.declared.ids.SlotId.{SlotId};
ghost use Rattle.document_outcomes.specs.Faults.{IsValid};
ghost use Rattle.recompute.specs.Order.{MarksAll, OrdersNumbers, TellsUse};

use dependency_order::in_order;
use doc_tables::Tables;
use fc_base::SlotId;
use std::alloc::{AllocError, Global};

/// Marks the numbers of these slots.
fn marked(alloc: Global, count: u32, slots: &[SlotId]) -> Result<Vec<bool>, AllocError>
    requires { (id : SlotId) → IsIn id slots.now → id.0 < count }
    ensures { IfOk result (λ v. MarksAll slots.now v.items) }
{
    let mut marks = vec![in alloc; false; count as usize]?;
    for slot in slots {
        marks[slot.0 as usize] = true;
    }
    Ok(marks)
}

/// Which numbers are in use.
fn used_numbers(alloc: Global, tables: &Tables) -> Result<Vec<bool>, AllocError>
    ensures { IfOk result (λ v. TellsUse tables.now v.items) }
{
    tables.is_numbered(); // for the proof
    let slots = tables.slots_in_order(alloc)?;
    marked(alloc, tables.slot_limit(), &slots)
}

fn is_marked(marks: &[bool], number: u32) -> bool
    ensures { result ≡ slice_index_or marks.now number false }
{
    match marks.get(number as usize) {
        Some(mark) => *mark,
        None => false,
    }
}

/// Those of the numbers that are marked.
fn only_marked(alloc: Global, numbers: &[u32], marks: &[bool]) -> Result<Vec<u32>, AllocError>
    ensures { IfOk result (λ v. v.items ≡ filter (λ n. slice_index_or marks.now n false) numbers.now) }
{
    numbers
        .iter()
        .copied()
        .filter(|number| is_marked(marks, *number))
        .collect(alloc)
}

/// The numbers of all slots, each behind those that it depends on.
pub fn evaluation_order(alloc: Global, tables: &Tables) -> Result<Vec<u32>, AllocError>
    requires { IsValid tables.now.document }
    ensures { IfOk result (λ v. OrdersNumbers tables.now v.items) }
{
    tables.is_numbered(); // for the proof
    let _limit = tables.slot_limit(); // for the proof
    let used = used_numbers(alloc, tables)?;
    let lists = tables.dependency_lists(alloc)?;
    match in_order(alloc, &lists)? {
        Some(order) => only_marked(alloc, &order, &used),
        None => unreachable!(),
    }
}
