ghost use Rattle.std.specs.Prelude.{◌≡◌, ◌<◌, ◌^◌, IfOk, IsSome, Some, option_map, length};
ghost use Rattle.std.specs.Option.{option_and_then};
ghost use Rattle.property_types.specs.Types.{sort_of_type};
ghost use Rattle.expr_eval.specs.Sorts.{sort_of};
ghost use Rattle.expr_tree.specs.References.{reference_count};
ghost use Rattle.expr_tree.specs.Tree.{Tree};
ghost use Rattle.document_model.specs.Slots.{slots, type_of};
ghost use Rattle.document_outcomes.specs.Faults.{sort_faults};
ghost use Rattle.document_outcomes.specs.Sorts.{local_sort, sort_reading};
ghost use Rattle.doc_tables.specs.Accessors.{AreNumbersOf, IsShape, tree_at};
ghost use Rattle.doc_tables.specs.Numbered.{slot_at};
ghost use Rattle.doc_rules.specs.Found.{MeetsFault};
ghost use Rattle.doc_rules.specs.KindFaults.{fault_at, fault_of_sort};
ghost use Rattle.doc_rules.specs.SortTables.{AreSorts, MarksNumbers, OrdersNumbers, object_behind, sort_by_number};

use crate::fault::CheckFault;
use crate::sort_rules::{given_as, number_of_cause, own_as, wanted_as};
use crate::sorts_behind::{SortsBehind, sort_in};
use crate::subjects::slot_fault;
use doc_tables::Tables;
use expr_eval::{SortCause, SortFault, SortOutcome, sort_of};
use expr_tree::Expr;
use fc_base::SlotId;
use property_types::Sort;
use std::alloc::{AllocError, Global};

/// The sort of the type of a slot; none for a cell.
pub fn wanted_sort(tables: &Tables, slot: SlotId) -> Option<Sort>
    requires { IsSome (slot_at tables.now slot.0) }
    ensures { result ≡ option_map sort_of_type (option_and_then (type_of tables.now.document) (slot_at tables.now slot.0)) }
{
    tables.holds_var_sets(); // for the proof
    tables.type_of(slot).map(|prop| prop.sort())
}

/// The sort of a slot's expression, of this shape, by the sorts so far.
fn sort_of_shape(
    alloc: Global,
    tables: &Tables,
    sorts: &[SortOutcome],
    slot: SlotId,
    shape: &Expr,
) -> Result<SortOutcome, AllocError>
    requires live { IsSome (slot_at tables.now slot.0) }
    requires shape { IsShape (tree_at tables.now slot.0) (Some shape.now) }
    requires few { reference_count shape.now < 2 ^ 32 }
    ensures { IfOk result (λ found. (e : Tree) → tree_at tables.now slot.0 ≡ Some e → option_map (λ o. sort_of
        (sort_reading tables.now.document o e (sort_by_number tables.now sorts.now)) 0 e)
        (object_behind tables.now slot.0) ≡ Some found) }
{
    tables.is_numbered(); // for the proof
    tables.holds_var_sets(); // for the proof
    let references = tables.references_of(alloc, slot)?;
    let env = SortsBehind {
        references: &references,
        sorts,
    };
    match sort_of(alloc, shape, &env) {
        Ok(sort) => Ok(Ok(sort)),
        Err(SortFault::Cause(cause)) => Ok(Err(cause)),
        Err(SortFault::Memory(error)) => Err(error),
    }
}

/// The sort of a slot by the sorts so far.
fn sort_of_slot(
    alloc: Global,
    tables: &Tables,
    sorts: &[SortOutcome],
    slot: SlotId,
) -> Result<SortOutcome, AllocError>
    requires { IsSome (slot_at tables.now slot.0) }
    ensures { IfOk result (λ found. option_map (λ s. local_sort tables.now.document s (sort_by_number tables.now sorts.now))
        (slot_at tables.now slot.0) ≡ Some found) }
{
    let wanted = wanted_sort(tables, slot);
    if let Some(value) = tables.own_value(slot) {
        return Ok(own_as(wanted, value));
    }
    match tables.shape_of(slot) {
        Some(shape) => {
            let found = sort_of_shape(alloc, tables, sorts, slot, shape)?;
            Ok(given_as(wanted, found))
        }
        None => Ok(wanted_as(wanted)),
    }
}

/// Which numbers below a limit are those of slots.
fn numbers_in_use(
    alloc: Global,
    tables: &Tables,
    listed: &[SlotId],
) -> Result<Vec<bool>, AllocError>
    requires { AreNumbersOf tables.now listed.now (slots tables.now.document) }
    ensures { IfOk result (λ marks. MarksNumbers tables.now marks.items) }
{
    tables.is_numbered(); // for the proof
    let mut marks = vec![in alloc; false; tables.slot_limit() as usize]?;
    for slot in listed {
        marks[slot.0 as usize] = true;
    }
    Ok(marks)
}

/// The sorts of all slots by their numbers, each worked out after those on which it depends.
fn sorts_in_order(
    alloc: Global,
    tables: &Tables,
    marks: &[bool],
    order: &[u32],
) -> Result<Vec<SortOutcome>, AllocError>
    requires marks { MarksNumbers tables.now marks.now }
    requires order { OrdersNumbers tables.now order.now }
    ensures { IfOk result (λ sorts. AreSorts tables.now sorts.items) }
{
    tables.is_numbered(); // for the proof
    let mut sorts = vec![in alloc; Err(SortCause::KindMismatch); marks.len()]?;
    for number in order {
        if marks[*number as usize] {
            let sort = sort_of_slot(alloc, tables, &sorts, SlotId(*number))?;
            sorts[*number as usize] = sort;
        }
    }
    Ok(sorts)
}

/// The cause why the slot has no sort, where it has none.
fn check_sort(
    alloc: Global,
    tables: &Tables,
    sorts: &[SortOutcome],
    slot: SlotId,
) -> Result<(), CheckFault>
    requires live { IsSome (slot_at tables.now slot.0) }
    requires sorts { AreSorts tables.now sorts.now }
    ensures { MeetsFault (fault_at tables.now (fault_of_sort tables.now.document) slot) result }
{
    match sort_in(sorts, slot.0) {
        Ok(_) => Ok(()),
        Err(cause) => Err(slot_fault(alloc, tables, number_of_cause(cause), slot)),
    }
}

/// The cause why a slot has no sort, of the first slot that has none.
fn check_each_sort(
    alloc: Global,
    tables: &Tables,
    listed: &[SlotId],
    sorts: &[SortOutcome],
) -> Result<(), CheckFault>
    requires order { AreNumbersOf tables.now listed.now (slots tables.now.document) }
    requires sorts { AreSorts tables.now sorts.now }
    ensures { MeetsFault (sort_faults tables.now.document) result }
{
    for slot in listed {
        check_sort(alloc, tables, sorts, *slot)?;
    }
    Ok(())
}

/// The cause why a slot has no sort, of the first slot that has none. The sorts are worked out in an
/// order in which each slot stands after those on which it depends.
pub fn check_sorts(
    alloc: Global,
    tables: &Tables,
    listed: &[SlotId],
    order: &[u32],
) -> Result<(), CheckFault>
    requires slots { AreNumbersOf tables.now listed.now (slots tables.now.document) }
    requires order { OrdersNumbers tables.now order.now }
    ensures { MeetsFault (sort_faults tables.now.document) result }
{
    let marks = numbers_in_use(alloc, tables, listed).map_err(CheckFault::Memory)?;
    let sorts = sorts_in_order(alloc, tables, &marks, order).map_err(CheckFault::Memory)?;
    check_each_sort(alloc, tables, listed, &sorts)
}
