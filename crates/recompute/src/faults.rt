ghost use Rattle.std.specs.Prelude.{◌≡◌, IfOk, count_by};
ghost use Rattle.std.specs.Result.{is_err};
ghost use Rattle.document_model.specs.Slots.{slots};
ghost use Rattle.recompute.specs.Kept.{kept_at, kept_for};

use crate::kept::kept_at;
use doc_tables::Tables;
use fc_base::SlotId;
use property_types::Outcome;
use std::alloc::{AllocError, Global};

/// Whether a slot has a fault for an outcome, or none.
fn is_fault(outcomes: &[Option<Outcome>], slot: SlotId) -> bool
    ensures { result ≡ is_err (kept_at outcomes.now slot.0) }
{
    match kept_at(outcomes, slot) {
        Some(outcome) => outcome.is_err(),
        None => true,
    }
}

fn faults_among(outcomes: &[Option<Outcome>], slots: &[SlotId]) -> u64
    ensures { result ≡ count_by (λ id. is_err (kept_at outcomes.now id.0)) slots.now }
{
    slots
        .iter()
        .filter(|slot| is_fault(outcomes, **slot))
        .count() as u64
}

/// How many slots have a fault for an outcome.
pub fn fault_count(
    alloc: Global,
    tables: &Tables,
    outcomes: &[Option<Outcome>],
) -> Result<u64, AllocError>
    ensures { IfOk result (λ count. count ≡ count_by (λ s. is_err (kept_for tables.now outcomes.now s)) (slots tables.now.document)) }
{
    tables.is_numbered(); // for the proof
    let slots = tables.slots_in_order(alloc)?;
    Ok(faults_among(outcomes, &slots))
}
