use expr_eval::{Env, SortCause};
use fc_base::SlotId;
use property_types::{Outcome, Sort};

/// What stands behind the references of an expression that has none. The outcomes are all the same:
/// none is asked for.
#[derive(Drop)]
pub struct NothingBehind {
    pub outcome: Outcome,
}

impl Env for NothingBehind {
    ghost use Rattle.std.specs.Prelude.{[], Err};
    ghost use Rattle.expr_eval.specs.declared.sort_cause.SortCause.TheVariants.{KindMismatch};

    ghost reading = { λ e. record { at = λ k. e.outcome; inside = λ k. [] } };

    ghost sort_reading = { λ e. record { at = λ k. Err KindMismatch; inside = λ k. [] } };

    ghost cell_outcome = { λ e c. e.outcome };

    ghost cell_sort = { λ e c. Err KindMismatch };

    fn sort_at(&self, _occurrence: u32) -> Result<Sort, SortCause> {
        Err(SortCause::KindMismatch)
    }

    fn outcome_at(&self, _occurrence: u32) -> &Outcome {
        &self.outcome
    }

    fn area_at(&self, _occurrence: u32) -> &[SlotId] {
        &[]
    }

    fn sort_of_cell(&self, _cell: SlotId) -> Result<Sort, SortCause> {
        Err(SortCause::KindMismatch)
    }

    fn outcome_of_cell(&self, _cell: SlotId) -> &Outcome {
        &self.outcome
    }
}
