ghost use Rattle.std.specs.Prelude.{◌≡◌};
ghost use Rattle.doc_rules.specs.SortTables.{sort_in};

use expr_eval::{SortCause, SortEnv, SortOutcome};
use fc_base::SlotId;

/// The sorts of the references of an expression, where those of the slots so far stand by number.
/// There are no cells.
#[derive(Drop)]
pub struct SortsBehind<'a> {
    pub references: &'a [Option<SlotId>],
    pub sorts: &'a [SortOutcome],
}

/// The sort of a number.
pub fn sort_in(sorts: &[SortOutcome], number: u32) -> SortOutcome
    ensures { result ≡ sort_in sorts.now number }
{
    sorts
        .get(number as usize)
        .copied()
        .unwrap_or(Err(SortCause::KindMismatch))
}

impl<'a> SortEnv for SortsBehind<'a> {
    ghost use Rattle.std.specs.Prelude.{Err};
    ghost use Rattle.expr_eval.specs.declared.sort_cause.SortCause.TheVariants.{KindMismatch};
    ghost use Rattle.doc_rules.specs.SortTables.{reading_behind};

    ghost sort_reading = { λ e. reading_behind e.references.now e.sorts.now };

    ghost cell_sort = { λ e c. Err KindMismatch };

    fn path_sort(&self, occurrence: u32) -> SortOutcome {
        match self.references.get(occurrence as usize) {
            Some(Some(slot)) => sort_in(self.sorts, slot.0),
            _ => Err(SortCause::KindMismatch),
        }
    }

    fn area_cells(&self, _occurrence: u32) -> &[SlotId] {
        &[]
    }

    fn cell_sort(&self, _cell: SlotId) -> SortOutcome {
        Err(SortCause::KindMismatch)
    }
}
