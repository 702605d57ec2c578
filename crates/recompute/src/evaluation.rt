ghost use Rattle.std.specs.Prelude.{◌≡◌, ◌+◌, ◌-◌, ◌<◌, ◌≤◌, ◌^◌, IfOk, None, OnOk, length, min, replicate};
ghost use Rattle.std.specs.List.{sum_by};
ghost use Rattle.document_outcomes.specs.Typed.{no_features};
ghost use Rattle.recompute.specs.Kept.{AreFull};
ghost use Rattle.recompute.specs.Order.{OrdersNumbers};
ghost use Rattle.recompute.specs.Steps.{nodes_at, visits_at};

use crate::given::given;
use doc_tables::Tables;
use fc_base::{SlotId, Steps};
use property_types::Outcome;
use std::alloc::{AllocError, Global};

/// Room for as many outcomes, none yet.
pub fn no_outcomes(alloc: Global, count: u32) -> Result<Vec<Option<Outcome>>, AllocError>
    ensures { IfOk result (λ v. v.items ≡ replicate count None) }
{
    let mut outcomes = Vec::with_capacity(alloc, count as usize)?;
    for _ in 0..count {
        outcomes.push(None)?;
    }
    Ok(outcomes)
}

/// Works out the slots of these numbers, one after another, each behind those that it depends on.
pub fn work_out<L>(
    alloc: Global,
    tables: &Tables,
    order: &[u32],
    outcomes: &mut [Option<Outcome>],
    steps: &mut Steps<L>,
) -> Result<(), AllocError>
    requires ordered { OrdersNumbers tables.now order.now }
    requires sized { outcomes.old ≡ replicate (length tables.now.slots) None }
    requires counted { steps.old < 2 ^ 64 }
    ensures outcomes { OnOk result (AreFull no_features tables.now outcomes.new) }
    ensures steps { OnOk result (steps.new ≡ min (steps.old + sum_by (visits_at no_features tables.now) order.now) (2 ^ 64 - 1)) }
    ensures never_less { steps.old ≤ steps.new }
    ensures at_most { steps.new ≤ min (steps.old + sum_by (nodes_at tables.now) order.now) (2 ^ 64 - 1) }
{
    tables.is_numbered(); // for the proof
    for number in order {
        let outcome = given(alloc, tables, SlotId(*number), outcomes, steps)?;
        outcomes[*number as usize] = Some(outcome);
    }
    Ok(())
}
