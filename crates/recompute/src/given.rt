ghost use Rattle.std.specs.Prelude.{◌≡◌, ◌+◌, ◌-◌, ◌<◌, ◌≤◌, ◌^◌, IfOk, IsSome, OnOk, Some, min};
ghost use Rattle.expr_tree.specs.References.{reference_count};
ghost use Rattle.doc_tables.specs.Accessors.{IsShape, tree_at};
ghost use Rattle.doc_tables.specs.Numbered.{slot_at};
ghost use Rattle.document_outcomes.specs.Typed.{no_features};
ghost use Rattle.recompute.specs.Kept.{IsGiven};
ghost use Rattle.recompute.specs.Steps.{nodes_at, visits_kept};

use crate::behind::Behind;
use crate::fitting::fitted;
use doc_tables::Tables;
use expr_eval::evaluate;
use expr_tree::Expr;
use fc_base::{SlotId, Steps};
use property_types::{Outcome, ValueFault};
use std::alloc::{AllocError, Global};

/// What the expression of a slot, of this shape, gives for the outcomes that are kept.
fn given_by_shape<L>(
    alloc: Global,
    tables: &Tables,
    slot: SlotId,
    shape: &Expr,
    outcomes: &[Option<Outcome>],
    steps: &mut Steps<L>,
) -> Result<Outcome, AllocError>
    requires slot { IsSome (slot_at tables.now slot.0) }
    requires shape { IsShape (tree_at tables.now slot.0) (Some shape.now) }
    requires references { reference_count shape.now < 2 ^ 32 }
    requires counted { steps.old < 2 ^ 64 }
    ensures outcome { IfOk result (IsGiven no_features tables.now outcomes.now slot.0) }
    ensures steps { OnOk result (steps.new ≡ min (steps.old + visits_kept tables.now outcomes.now slot.0) (2 ^ 64 - 1)) }
    ensures never_less { steps.old ≤ steps.new }
    ensures at_most { steps.new ≤ min (steps.old + nodes_at tables.now slot.0) (2 ^ 64 - 1) }
{
    tables.is_numbered(); // for the proof
    tables.holds_var_sets(); // for the proof
    let reached = tables.references_of(alloc, slot)?;
    let behind = Behind {
        reached: &reached,
        outcomes,
        unknown: Err(ValueFault::Range),
    };
    let given = evaluate(alloc, shape, &behind, steps)?;
    fitted(alloc, tables.type_of(slot), given)
}

/// What the rule of a slot gives for the outcomes that are kept. A slot without a rule would have a
/// fault; there is none.
pub fn given<L>(
    alloc: Global,
    tables: &Tables,
    slot: SlotId,
    outcomes: &[Option<Outcome>],
    steps: &mut Steps<L>,
) -> Result<Outcome, AllocError>
    requires slot { IsSome (slot_at tables.now slot.0) }
    requires counted { steps.old < 2 ^ 64 }
    ensures outcome { IfOk result (IsGiven no_features tables.now outcomes.now slot.0) }
    ensures steps { OnOk result (steps.new ≡ min (steps.old + visits_kept tables.now outcomes.now slot.0) (2 ^ 64 - 1)) }
    ensures never_less { steps.old ≤ steps.new }
    ensures at_most { steps.new ≤ min (steps.old + nodes_at tables.now slot.0) (2 ^ 64 - 1) }
{
    tables.is_numbered(); // for the proof
    tables.holds_var_sets(); // for the proof
    match tables.own_value(slot) {
        Some(value) => Ok(Ok(value.copy(alloc)?)),
        None => match tables.shape_of(slot) {
            Some(shape) => given_by_shape(alloc, tables, slot, shape, outcomes, steps),
            None => Ok(Err(ValueFault::Range)),
        },
    }
}
