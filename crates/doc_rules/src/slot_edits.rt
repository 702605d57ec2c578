ghost use Rattle.std.specs.Prelude.{◌≡◌, ◌<◌, ◌^◌, ◌≢◌, Err, IfOk, IfSome, IsSome, Ok, Some, is_some, option_map};
ghost use Rattle.std.specs.Option.{ForSome};
ghost use Rattle.property_types.specs.Values.{Outcome as Given};
ghost use Rattle.property_types.specs.declared.prop_type.PropType.TheVariants.{Placement};
ghost use Rattle.object_paths.specs.Slots.{Slot};
ghost use Rattle.expr_eval.specs.Outcomes.{outcome_of};
ghost use Rattle.expr_eval.specs.Sorts.{sort_of};
ghost use Rattle.expr_grammar.specs.Parse.{closed_expression_in, expression_in};
ghost use Rattle.expr_tree.specs.References.{reference_count};
ghost use Rattle.document_model.specs.Edited.{with_content};
ghost use Rattle.document_outcomes.specs.Faults.{IsValid};
ghost use Rattle.document_outcomes.specs.Full.{fitted, full};
ghost use Rattle.document_outcomes.specs.Typed.{no_features};
ghost use Rattle.doc_tables.specs.Entries.{HasFewReferences};
ghost use Rattle.doc_tables.specs.Numbered.{LeadsTo, slot_at};
ghost use Rattle.doc_tables.specs.Primitives.{IsContentAt};
ghost use Rattle.doc_rules.specs.Edits.{Answers, Becomes, HasFullOutcomes};
ghost use Rattle.doc_rules.specs.SlotEdits.{bound_to, is_bound, no_outcomes, no_sorts, set_to, unbound, value_fitted, value_given, value_read};

use crate::accepting::{accepted, refused};
use crate::closed::NothingBehind;
use crate::edit_fault::EditFault;
use crate::numbers::{NOT_RECOMPUTED, OUT_OF_RANGE, WRONG_TYPE};
use crate::sort_rules::{given_as, number_of_cause};
use crate::sorts::wanted_sort;
use doc_tables::Tables;
use document_model::Content;
use expr_eval::{SortFault, SortOutcome, evaluate, sort_of};
use expr_grammar::{Expr, parse, parse_closed};
use fc_base::{SlotId, Steps};
use property_types::{FitFault, Outcome, Outcomes, PropType, Value, ValueFault};
use std::alloc::{AllocError, Global};

/// A copy of the tables with another content in a slot.
fn with_content(
    alloc: Global,
    tables: &Tables,
    slot: SlotId,
    content: Content,
) -> Result<Tables, AllocError>
    requires live { IsSome (slot_at tables.now slot.0) }
    requires content { IsContentAt tables.now slot.0 content }
    requires references { HasFewReferences content }
    ensures { IfOk result (λ edited. (s : Slot) → slot_at tables.now slot.0 ≡ Some s
        → LeadsTo tables.now edited (with_content tables.now.document s content)) }
{
    let mut edited = tables.copy(alloc)?;
    edited.set_rule(slot, content)?;
    Ok(edited)
}

/// A copy of the tables with a slot bound to the expression of a text.
pub fn with_binding(
    alloc: Global,
    tables: &Tables,
    slot: SlotId,
    text: &str,
) -> Result<Tables, EditFault>
    requires { IsSome (slot_at tables.now slot.0) }
    ensures { (s : Slot) → slot_at tables.now slot.0 ≡ Some s
        → Becomes tables.now (bound_to tables.now.document s (expression_in text.now)) result }
{
    let tree = parse(alloc, text)?;
    let edited = with_content(alloc, tables, slot, Content::Bound(tree))?;
    accepted(alloc, edited)
}

/// The sort of a closed expression.
fn closed_sort(alloc: Global, tree: &Expr) -> Result<SortOutcome, AllocError>
    requires { reference_count tree.now < 2 ^ 32 }
    ensures { IfOk result (λ found. found ≡ sort_of no_sorts 0 tree.now) }
{
    let nothing = NothingBehind {
        outcome: Err(ValueFault::Range),
    };
    match sort_of(alloc, tree, &nothing) {
        Ok(sort) => Ok(Ok(sort)),
        Err(SortFault::Cause(cause)) => Ok(Err(cause)),
        Err(SortFault::Memory(error)) => Err(error),
    }
}

/// The outcome of a closed expression.
fn closed_outcome(alloc: Global, tree: &Expr) -> Result<Outcome, AllocError>
    requires { reference_count tree.now < 2 ^ 32 }
    ensures { IfOk result (λ o. o ≡ outcome_of no_outcomes 0 tree.now) }
{
    let nothing = NothingBehind {
        outcome: Err(ValueFault::Range),
    };
    evaluate(alloc, tree, &nothing, &mut Steps::new(()))
}

/// An outcome as one that a slot of the type is given.
fn value_fitted(alloc: Global, prop: Option<&PropType>, given: Outcome) -> Result<Value, EditFault>
    requires { IfSome prop (λ p. p.now ≢ Placement) }
    ensures { Answers (value_fitted (fitted (option_map (λ p. p.now) prop.entry) given)) result }
{
    let Ok(value) = given else {
        return Err(refused(OUT_OF_RANGE));
    };
    let Some(prop) = prop else {
        return Ok(value);
    };
    match prop.fit(alloc, &value) {
        Ok(fitted) => Ok(fitted),
        Err(FitFault::Fault(_)) => Err(refused(OUT_OF_RANGE)),
        Err(FitFault::Memory(error)) => Err(EditFault::Memory(error)),
    }
}

/// The value of a closed expression, as the type of a slot has it.
fn value_given(
    alloc: Global,
    tables: &Tables,
    slot: SlotId,
    tree: &Expr,
) -> Result<Value, EditFault>
    requires live { IsSome (slot_at tables.now slot.0) }
    requires references { reference_count tree.now < 2 ^ 32 }
    ensures { (s : Slot) → slot_at tables.now slot.0 ≡ Some s → Answers (value_given tables.now.document s tree.now) result }
{
    tables.holds_var_sets(); // for the proof
    let found = closed_sort(alloc, tree)?;
    if let Err(cause) = given_as(wanted_sort(tables, slot), found) {
        return Err(refused(number_of_cause(cause)));
    }
    let given = closed_outcome(alloc, tree)?;
    value_fitted(alloc, tables.type_of(slot), given)
}

/// The value that a text gives a slot.
fn value_read(alloc: Global, tables: &Tables, slot: SlotId, text: &str) -> Result<Value, EditFault>
    requires { IsSome (slot_at tables.now slot.0) }
    ensures { (s : Slot) → slot_at tables.now slot.0 ≡ Some s
        → Answers (value_read tables.now.document s (closed_expression_in text.now)) result }
{
    let tree = parse_closed(alloc, text)?;
    value_given(alloc, tables, slot, &tree)
}

/// A copy of the tables with a slot set to the value of a text.
pub fn with_value(
    alloc: Global,
    tables: &Tables,
    slot: SlotId,
    text: &str,
) -> Result<Tables, EditFault>
    requires { IsSome (slot_at tables.now slot.0) }
    ensures { (s : Slot) → slot_at tables.now slot.0 ≡ Some s
        → Becomes tables.now (set_to tables.now.document s (closed_expression_in text.now)) result }
{
    let value = value_read(alloc, tables, slot, text)?;
    let edited = with_content(alloc, tables, slot, Content::Own(value))?;
    accepted(alloc, edited)
}

/// Whether a slot is bound to an expression.
fn is_bound(tables: &Tables, slot: SlotId) -> bool
    requires { IsSome (slot_at tables.now slot.0) }
    ensures { (s : Slot) → slot_at tables.now slot.0 ≡ Some s → result ≡ is_bound tables.now.document s }
{
    tables.type_of(slot).is_some() && tables.shape_of(slot).is_some()
}

/// A value that is kept for a slot.
fn value_kept<O: Outcomes>(alloc: Global, kept: &O, slot: SlotId) -> Result<Value, EditFault>
    requires { IsSome (O.outcomes kept.now slot) }
    ensures { (given : Given) → O.outcomes kept.now slot ≡ Some given → Answers (value_fitted given) result }
{
    match kept.outcome(slot) {
        Some(Ok(value)) => Ok(value.copy(alloc)?),
        _ => Err(refused(OUT_OF_RANGE)),
    }
}

/// A copy of the tables with a bound slot set to its outcome.
pub fn unbound<O: Outcomes>(
    alloc: Global,
    tables: &Tables,
    slot: SlotId,
    clean: Option<&O>,
) -> Result<Tables, EditFault>
    requires live { IsSome (slot_at tables.now slot.0) }
    requires valid { IsValid tables.now.document }
    requires known { ForSome clean (λ kept. HasFullOutcomes no_features tables.now (O.outcomes kept.now)) }
    ensures { (s : Slot) → slot_at tables.now slot.0 ≡ Some s
        → Becomes tables.now (unbound no_features (is_some clean.entry) tables.now.document s) result }
{
    tables.is_well_formed(); // for the proof
    if !is_bound(tables, slot) {
        return Err(refused(WRONG_TYPE));
    }
    let Some(kept) = clean else {
        return Err(refused(NOT_RECOMPUTED));
    };
    let value = value_kept(alloc, kept, slot)?;
    let edited = with_content(alloc, tables, slot, Content::Own(value))?;
    accepted(alloc, edited)
}
