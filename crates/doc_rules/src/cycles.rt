ghost use Rattle.std.specs.Prelude.{◌≡◌, map, option_map, Err, Some, IfOk, IsSome, MatchOption, MatchResult};
ghost use Rattle.document_model.specs.Slots.{slots};
ghost use Rattle.document_outcomes.specs.Cycles.{is_cyclic};
ghost use Rattle.document_outcomes.specs.Faults.{cycle_faults};
ghost use Rattle.dependency_order.specs.Nodes.{AreNodes};
ghost use Rattle.doc_tables.specs.Accessors.{AreNumbersOf};
ghost use Rattle.doc_tables.specs.DependencyLists.{AreDependencyLists};
ghost use Rattle.doc_tables.specs.Numbered.{slot_at};
ghost use Rattle.doc_rules.specs.Found.{MeetsFault};
ghost use Rattle.doc_rules.specs.KindFaults.{cycle_fault, fault_at};
ghost use Rattle.doc_rules.specs.SortTables.{OrdersNumbers};

use crate::fault::CheckFault;
use crate::numbers::CYCLE;
use crate::subjects::slot_fault;
use dependency_order::{in_order, reaches_itself};
use doc_tables::Tables;
use fc_base::SlotId;
use std::alloc::{AllocError, Global};

/// For each number of a slot the numbers of those on which it depends.
fn dependency_nodes(alloc: Global, tables: &Tables) -> Result<Vec<Vec<u32>>, AllocError>
    ensures listed { IfOk result (λ lists. AreDependencyLists tables.now (map (λ list. list.items) lists.items)) }
    ensures nodes { IfOk result (λ lists. AreNodes lists.items) }
{
    let _ = tables.slot_limit(); // for the proof
    tables.dependency_lists(alloc)
}

/// Whether a slot depends on itself.
fn is_cyclic(
    alloc: Global,
    tables: &Tables,
    lists: &[Vec<u32>],
    slot: SlotId,
) -> Result<bool, AllocError>
    requires live { IsSome (slot_at tables.now slot.0) }
    requires listed { AreDependencyLists tables.now (map (λ list. list.items) lists.now) }
    requires nodes { AreNodes lists.now }
    ensures { IfOk result (λ cyclic. option_map (is_cyclic tables.now.document) (slot_at tables.now slot.0) ≡ Some cyclic) }
{
    tables.is_numbered(); // for the proof
    reaches_itself(alloc, lists, slot.0)
}

/// Cycle, where the slot depends on itself.
fn check_cycle(
    alloc: Global,
    tables: &Tables,
    lists: &[Vec<u32>],
    slot: SlotId,
) -> Result<(), CheckFault>
    requires live { IsSome (slot_at tables.now slot.0) }
    requires listed { AreDependencyLists tables.now (map (λ list. list.items) lists.now) }
    requires nodes { AreNodes lists.now }
    ensures { MeetsFault (fault_at tables.now (cycle_fault tables.now.document) slot) result }
{
    if is_cyclic(alloc, tables, lists, slot).map_err(CheckFault::Memory)? {
        return Err(slot_fault(alloc, tables, CYCLE, slot));
    }
    Ok(())
}

/// Cycle of the first slot that depends on itself. From each slot its dependencies are followed, so
/// this grows with the number of slots times that of dependencies.
fn check_each_cycle(
    alloc: Global,
    tables: &Tables,
    listed: &[SlotId],
    lists: &[Vec<u32>],
) -> Result<(), CheckFault>
    requires order { AreNumbersOf tables.now listed.now (slots tables.now.document) }
    requires listed { AreDependencyLists tables.now (map (λ list. list.items) lists.now) }
    requires nodes { AreNodes lists.now }
    ensures { MeetsFault (cycle_faults tables.now.document) result }
{
    for slot in listed {
        check_cycle(alloc, tables, lists, *slot)?;
    }
    Ok(())
}

/// The numbers in an order in which the slot of each stands after those on which it depends; none
/// where a slot depends on itself.
fn numbers_in_order(
    alloc: Global,
    tables: &Tables,
    lists: &[Vec<u32>],
) -> Result<Option<Vec<u32>>, AllocError>
    requires listed { AreDependencyLists tables.now (map (λ list. list.items) lists.now) }
    requires nodes { AreNodes lists.now }
    ensures { IfOk result (λ found. MatchOption found
        (IsSome (cycle_faults tables.now.document))
        (λ order. OrdersNumbers tables.now order.items)) }
{
    tables.is_numbered(); // for the proof
    in_order(alloc, lists)
}

/// Cycle of the first slot that depends on itself, in a document that has one.
fn first_cycle(alloc: Global, tables: &Tables, listed: &[SlotId], lists: &[Vec<u32>]) -> CheckFault
    requires order { AreNumbersOf tables.now listed.now (slots tables.now.document) }
    requires listed { AreDependencyLists tables.now (map (λ list. list.items) lists.now) }
    requires nodes { AreNodes lists.now }
    requires cyclic { IsSome (cycle_faults tables.now.document) }
    ensures { MeetsFault (cycle_faults tables.now.document) (Err result) }
{
    match check_each_cycle(alloc, tables, listed, lists) {
        Err(fault) => fault,
        Ok(()) => unreachable!(),
    }
}

/// The numbers of all slots in an order in which each stands after those on which it depends; or
/// Cycle of the first slot that depends on itself. Only a document that has one is searched slot by
/// slot.
pub fn check_cycles(
    alloc: Global,
    tables: &Tables,
    listed: &[SlotId],
) -> Result<Vec<u32>, CheckFault>
    requires { AreNumbersOf tables.now listed.now (slots tables.now.document) }
    ensures { MatchResult result
        (λ order. OrdersNumbers tables.now order.items)
        (λ fault. MeetsFault (cycle_faults tables.now.document) (Err fault)) }
{
    let lists = dependency_nodes(alloc, tables).map_err(CheckFault::Memory)?;
    match numbers_in_order(alloc, tables, &lists).map_err(CheckFault::Memory)? {
        Some(order) => Ok(order),
        None => Err(first_cycle(alloc, tables, listed, &lists)),
    }
}
