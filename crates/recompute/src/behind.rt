use crate::kept::{kept_at, slot_behind};
use expr_eval::OutcomeEnv;
use fc_base::SlotId;
use property_types::Outcome;

/// The outcomes of the references of an expression: the number of the slot that each names, and the
/// outcomes that are kept so far. There are no cells.
#[derive(Drop)]
pub struct Behind<'a> {
    pub reached: &'a [Option<SlotId>],
    pub outcomes: &'a [Option<Outcome>],
    /// What is given where no slot is named, and for a slot without an outcome.
    pub unknown: Outcome,
}

impl OutcomeEnv for Behind<'_> {
    ghost use Rattle.recompute.specs.Kept.{reading_kept};

    ghost reading = { λ e. reading_kept e.outcomes.now e.reached.now e.unknown };

    ghost cell_outcome = { λ e _. e.unknown };

    fn path_outcome(&self, occurrence: u32) -> &Outcome {
        match slot_behind(self.reached, occurrence) {
            Some(slot) => match kept_at(self.outcomes, slot) {
                Some(outcome) => outcome,
                None => &self.unknown,
            },
            None => &self.unknown,
        }
    }

    fn area_cells(&self, _occurrence: u32) -> &[SlotId] {
        &[]
    }

    fn cell_outcome(&self, _cell: SlotId) -> &Outcome {
        &self.unknown
    }
}
