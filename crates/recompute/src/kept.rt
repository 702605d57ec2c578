ghost use Rattle.std.specs.Prelude.{◌≡◌, IfOk, option_map};
ghost use Rattle.doc_tables.specs.Numbered.{at_number};

use fc_base::SlotId;
use property_types::{Outcome, copy_outcome};
use std::alloc::{AllocError, Global};

/// The outcome that is kept for a slot; none exactly where none is.
pub fn kept_at(outcomes: &[Option<Outcome>], slot: SlotId) -> Option<&Outcome>
    ensures { option_map (λ o. o.now) result ≡ at_number outcomes.now slot.0 }
{
    match outcomes.get(slot.0 as usize) {
        Some(Some(outcome)) => Some(outcome),
        _ => None,
    }
}

/// The slot that a reference names, by the reference's place among them; none where it names none.
pub fn slot_behind(reached: &[Option<SlotId>], occurrence: u32) -> Option<SlotId>
    ensures { result ≡ at_number reached.now occurrence }
{
    match reached.get(occurrence as usize) {
        Some(slot) => *slot,
        None => None,
    }
}

fn copied_outcome(alloc: Global, outcome: &Option<Outcome>) -> Result<Option<Outcome>, AllocError>
    ensures { IfOk result (λ copy. copy ≡ outcome.now) }
{
    match outcome {
        Some(outcome) => Ok(Some(copy_outcome(alloc, outcome)?)),
        None => Ok(None),
    }
}

/// Equal outcomes.
pub fn copied(
    alloc: Global,
    outcomes: &[Option<Outcome>],
) -> Result<Vec<Option<Outcome>>, AllocError>
    ensures { IfOk result (λ copies. copies.items ≡ outcomes.now) }
{
    let mut copies = Vec::with_capacity(alloc, outcomes.len())?;
    for outcome in outcomes {
        copies.push(copied_outcome(alloc, outcome)?)?;
    }
    Ok(copies)
}
