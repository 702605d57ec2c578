ghost use Rattle.std.specs.Prelude.{◌≡◌, map};

use crate::sort_cause::{SortCause, SortOutcome};
use fc_base::SlotId;
use property_types::{Outcome, Sort};

/// What the references of an expression give. Its paths and areas are counted together from the
/// left, from 0: this is a reference's occurrence.
pub trait Env {
    ghost use Rattle.fc_base.specs.declared.ids.SlotId.{SlotId};
    ghost use Rattle.property_types.specs.Values.{Outcome};
    ghost use Rattle.expr_eval.specs.SortRows.{SortOutcome};
    ghost use Rattle.expr_eval.specs.Sorts.{SortReading};
    ghost use Rattle.expr_eval.specs.Outcomes.{Reading};

    /// The outcomes of the references.
    ghost reading: { Self → Reading };

    /// The sorts of the references.
    ghost sort_reading: { Self → SortReading };

    /// The outcome of a cell.
    ghost cell_outcome: { Self → SlotId → Outcome };

    /// The sort of a cell.
    ghost cell_sort: { Self → SlotId → SortOutcome };

    /// The sort of the slot that a path names.
    fn sort_at(&self, occurrence: u32) -> Result<Sort, SortCause>
        ensures { result ≡ (sort_reading self.now).at occurrence };

    /// The outcome of the slot that a path names.
    fn outcome_at(&self, occurrence: u32) -> &Outcome
        ensures { result.now ≡ (reading self.now).at occurrence };

    /// The filled cells of an area, row by row.
    fn area_at(&self, occurrence: u32) -> &[SlotId]
        ensures outcomes { (reading self.now).inside occurrence ≡ map (cell_outcome self.now) result.now }
        ensures sorts { (sort_reading self.now).inside occurrence ≡ map (cell_sort self.now) result.now };

    /// The sort of a cell.
    fn sort_of_cell(&self, cell: SlotId) -> Result<Sort, SortCause>
        ensures { result ≡ cell_sort self.now cell };

    /// The outcome of a cell.
    fn outcome_of_cell(&self, cell: SlotId) -> &Outcome
        ensures { result.now ≡ cell_outcome self.now cell };
}

/// The half of an `Env` that sorts want.
pub trait SortEnv {
    ghost use Rattle.fc_base.specs.declared.ids.SlotId.{SlotId};
    ghost use Rattle.expr_eval.specs.SortRows.{SortOutcome};
    ghost use Rattle.expr_eval.specs.Sorts.{SortReading};

    /// The sorts of the references.
    ghost sort_reading: { Self → SortReading };

    /// The sort of a cell.
    ghost cell_sort: { Self → SlotId → SortOutcome };

    /// The sort of the slot that a path names.
    fn path_sort(&self, occurrence: u32) -> SortOutcome
        ensures { result ≡ (sort_reading self.now).at occurrence };

    /// The filled cells of an area, row by row.
    fn area_cells(&self, occurrence: u32) -> &[SlotId]
        ensures { (sort_reading self.now).inside occurrence ≡ map (cell_sort self.now) result.now };

    /// The sort of a cell.
    fn cell_sort(&self, cell: SlotId) -> SortOutcome
        ensures { result ≡ cell_sort self.now cell };
}

/// The half of an `Env` that outcomes want.
pub trait OutcomeEnv {
    ghost use Rattle.fc_base.specs.declared.ids.SlotId.{SlotId};
    ghost use Rattle.property_types.specs.Values.{Outcome};
    ghost use Rattle.expr_eval.specs.Outcomes.{Reading};

    /// The outcomes of the references.
    ghost reading: { Self → Reading };

    /// The outcome of a cell.
    ghost cell_outcome: { Self → SlotId → Outcome };

    /// The outcome of the slot that a path names.
    fn path_outcome(&self, occurrence: u32) -> &Outcome
        ensures { result.now ≡ (reading self.now).at occurrence };

    /// The filled cells of an area, row by row.
    fn area_cells(&self, occurrence: u32) -> &[SlotId]
        ensures { (reading self.now).inside occurrence ≡ map (cell_outcome self.now) result.now };

    /// The outcome of a cell.
    fn cell_outcome(&self, cell: SlotId) -> &Outcome
        ensures { result.now ≡ cell_outcome self.now cell };
}

impl<E: Env> SortEnv for E {
    ghost sort_reading = { λ e. E.sort_reading e };

    ghost cell_sort = { λ e c. E.cell_sort e c };

    fn path_sort(&self, occurrence: u32) -> SortOutcome {
        self.sort_at(occurrence)
    }

    fn area_cells(&self, occurrence: u32) -> &[SlotId] {
        self.area_at(occurrence)
    }

    fn cell_sort(&self, cell: SlotId) -> SortOutcome {
        self.sort_of_cell(cell)
    }
}

impl<E: Env> OutcomeEnv for E {
    ghost reading = { λ e. E.reading e };

    ghost cell_outcome = { λ e c. E.cell_outcome e c };

    fn path_outcome(&self, occurrence: u32) -> &Outcome {
        self.outcome_at(occurrence)
    }

    fn area_cells(&self, occurrence: u32) -> &[SlotId] {
        self.area_at(occurrence)
    }

    fn cell_outcome(&self, cell: SlotId) -> &Outcome {
        self.outcome_of_cell(cell)
    }
}
