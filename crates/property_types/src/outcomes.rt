ghost use Rattle.std.specs.Prelude.{◌≡◌, option_copied};

use crate::value::Outcome;
use fc_base::SlotId;

/// Where the outcomes of slots are kept.
pub trait Outcomes {
    ghost use Rattle.std.specs.Prelude.{Option};
    ghost use Rattle.fc_base.specs.declared.ids.SlotId.{SlotId};
    ghost use Rattle.property_types.specs.Values.{Outcome};

    /// The outcome of each slot that has one.
    ghost outcomes: { Self → SlotId → Option Outcome };

    /// The outcome of a slot; none exactly where none is kept.
    fn outcome(&self, slot: SlotId) -> Option<&Outcome>
        ensures { option_copied result ≡ outcomes self.now slot };
}
