ghost use Rattle.std.specs.Prelude.{◌≡◌, ◌+◌, ◌-◌, ◌<◌, ◌≤◌, ◌^◌, List, Option, length, min, option_map, IfOk, OnOk, OnErr};
ghost use Rattle.property_types.specs.Values.{Outcome};
ghost use Rattle.document_outcomes.specs.Called.{called};
ghost use Rattle.document_outcomes.specs.Faults.{IsValid};
ghost use Rattle.document_outcomes.specs.Typed.{no_features};
ghost use Rattle.doc_tables.specs.Numbered.{at_number};
ghost use Rattle.recompute.specs.Evaluated.{Evaluated, nodes_of_slots, stale_slots, to_be_done};
ghost use Rattle.recompute.specs.Kept.{AreFull, AreLast, entries, faults_of, nothing_kept};

use crate::evaluation::{no_outcomes, work_out};
use crate::faults::fault_count;
use crate::kept::{copied, kept_at};
use crate::ordering::evaluation_order;
use doc_tables::Tables;
use fc_base::{SlotId, Steps};
use property_types::{Outcome, Outcomes};
use std::alloc::{AllocError, Global};
use std::marker::Model;

/// What is kept from one recompute to the next: the outcomes of slots by their numbers, none where none
/// is kept, and the input lists of the last recompute with what their features gave. As yet no document
/// has a feature, so no input list is kept.
#[derive(Drop)]
pub struct Values {
    outcomes: Vec<Option<Outcome>>,
}

impl Model for Values {
    ghost use Rattle.std.specs.Prelude.{[]};
    ghost use Rattle.recompute.specs.Kept.{Kept};

    ghost Value = { Kept };

    ghost view = { λ v. record { outcomes = v.outcomes.items; last = [] } };
}

/// What a recompute has done.
#[derive(Clone, Copy, Debug, PartialEq, Eq)]
pub struct Report {
    /// How many features were called.
    pub calls: u64,
    /// How many slots have a fault for an outcome.
    pub faults: u64,
}

/// The outcomes of all slots, by their numbers, worked out from nothing.
fn worked_out<L>(
    alloc: Global,
    tables: &Tables,
    steps: &mut Steps<L>,
) -> Result<Vec<Option<Outcome>>, AllocError>
    requires valid { IsValid tables.now.document }
    requires counted { steps.old < 2 ^ 64 }
    ensures outcomes { IfOk result (λ v. AreFull no_features tables.now v.items) }
    ensures evaluated { OnOk result ((before : List (Option Outcome)) → Evaluated no_features tables.now before steps.old steps.new) }
    ensures never_less { steps.old ≤ steps.new }
    ensures at_most { steps.new ≤ min (steps.old + nodes_of_slots tables.now.document (to_be_done tables.now.document)) (2 ^ 64 - 1) }
{
    tables.is_numbered(); // for the proof
    tables.has_distinct_slots(); // for the proof
    let order = evaluation_order(alloc, tables)?;
    let mut outcomes = no_outcomes(alloc, tables.slot_limit())?;
    work_out(alloc, tables, &order, &mut outcomes, steps)?;
    Ok(outcomes)
}

impl Values {
    /// No outcomes.
    pub fn new(alloc: Global) -> Values
        ensures { result ≡ nothing_kept }
    {
        Values {
            outcomes: Vec::new(alloc),
        }
    }

    /// The outcome of a slot; none exactly where none is kept.
    pub fn peek(&self, slot: SlotId) -> Option<&Outcome>
        ensures { option_map (λ o. o.now) result ≡ at_number self.now.outcomes slot.0 }
    {
        kept_at(&self.outcomes, slot)
    }

    /// Equal outcomes. Each is copied.
    pub fn copy(&self, alloc: Global) -> Result<Values, AllocError>
        ensures { IfOk result (λ values. values ≡ self.now) }
    {
        Ok(Values {
            outcomes: copied(alloc, &self.outcomes)?,
        })
    }

    /// Works the outcome of each slot out from nothing: each once, after those that it depends on. Of
    /// the outcomes that were there before nothing is left; without memory they all stay. Each node that
    /// is visited is a step. It grows with the slots, the nodes of their expressions and their
    /// dependencies.
    pub fn recompute<L>(
        &mut self,
        tables: &Tables,
        steps: &mut Steps<L>,
    ) -> Result<Report, AllocError>
        requires valid { IsValid tables.now.document }
        ensures outcomes { OnOk result (AreFull no_features tables.now self.new.outcomes) }
        ensures last { OnOk result (AreLast no_features tables.now.document self.new.last) }
        ensures calls { IfOk result (λ report. report.calls ≡ length (called no_features (entries self.old.last) tables.now.document)) }
        ensures faults { IfOk result (λ report. report.faults ≡ faults_of no_features tables.now.document) }
        ensures unchanged { OnErr result (self.new ≡ self.old) }
        ensures evaluated { OnOk result (Evaluated no_features tables.now self.old.outcomes steps.old steps.new) }
        ensures at_least { OnOk result (min (steps.old + length (stale_slots no_features tables.now self.old.outcomes)) (2 ^ 64 - 1) ≤ steps.new) }
        ensures never_less { steps.old ≤ steps.new }
        ensures at_most { steps.new ≤ min (steps.old + nodes_of_slots tables.now.document (to_be_done tables.now.document)) (2 ^ 64 - 1) }
    {
        steps.is_bounded(); // for the proof
        let alloc = *self.outcomes.allocator();
        tables.is_numbered(); // for the proof
        tables.holds_var_sets(); // for the proof
        tables.has_distinct_slots(); // for the proof
        let outcomes = worked_out(alloc, tables, steps)?;
        let faults = fault_count(alloc, tables, &outcomes)?;
        self.outcomes = outcomes;
        Ok(Report { calls: 0, faults })
    }
}

impl Outcomes for Values {
    ghost use Rattle.doc_tables.specs.Numbered.{at_number};

    ghost outcomes = { λ values slot. at_number values.outcomes slot.0 };

    fn outcome(&self, slot: SlotId) -> Option<&Outcome> {
        self.peek(slot)
    }
}
