//! Answers what is asked of a document.

ghost use Rattle.std.specs.Prelude.{◌≡◌, [], Err, true};
ghost use Rattle.document_outcomes.specs.Typed.{no_features};
ghost use Rattle.recompute.specs.Kept.{AreFull};
ghost use Rattle.doc_rules.specs.declared.refusal.Refusal.{Refusal};
ghost use Rattle.doc_rules.specs.Edits.{IsNamed};
ghost use Rattle.fcdoc_core.specs.declared.step_fault.StepFault.TheVariants.{Refused};
ghost use Rattle.fcdoc_core.specs.Machine.{expression_told, got};
ghost use Rattle.fcdoc_core.specs.Stepping.{Answers};

use crate::reply::{ExprText, Reply};
use crate::step_fault::StepFault;
use doc_rules::numbers::NOT_RECOMPUTED;
use doc_rules::{Refusal, slot_commanded};
use doc_tables::Tables;
use expr_grammar::print;
use object_paths::Path;
use property_types::copy_outcome;
use recompute::Values;
use std::alloc::Global;

/// The value of the slot that a path names: its own, or the outcome that is kept for it where the
/// document is clean.
pub(crate) fn value_reply(
    alloc: Global,
    tables: &Tables,
    values: &Values,
    clean: bool,
    path: &Path,
) -> Result<Reply, StepFault>
    requires { clean ≡ true → AreFull no_features tables.now values.now.outcomes }
    ensures exact { Answers (got no_features (record { now = tables.now.document; last = []; clean = clean }) path.now) result }
    ensures named { (r : Refusal) → result ≡ Err (Refused r) → IsNamed r }
{
    let slot = slot_commanded(tables, path)?;
    if let Some(value) = tables.own_value(slot) {
        return Ok(Reply::Value(Ok(value.copy(alloc)?)));
    }
    if !clean {
        return Err(StepFault::Refused(Refusal::of(NOT_RECOMPUTED)));
    }
    match values.peek(slot) {
        Some(outcome) => Ok(Reply::Value(copy_outcome(alloc, outcome)?)),
        None => unreachable!(),
    }
}

/// The expression to which the slot is bound that a path names.
pub(crate) fn expression_reply(
    alloc: Global,
    tables: &Tables,
    path: &Path,
) -> Result<Reply, StepFault>
    ensures exact { Answers (expression_told tables.now.document path.now) result }
    ensures named { (r : Refusal) → result ≡ Err (Refused r) → IsNamed r }
{
    let slot = slot_commanded(tables, path)?;
    match tables.bound_of(alloc, slot)? {
        Some(tree) => {
            let text = print(alloc, &tree)?;
            Ok(Reply::Expression(Some(ExprText::of(text))))
        }
        None => Ok(Reply::Expression(None)),
    }
}
