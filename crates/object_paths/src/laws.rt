//! Laws of the definitions, each as the contract of a function with nothing to do.
ghost use Rattle.std.specs.Prelude.{◌≡◌};
ghost use Rattle.object_paths.specs.Order.{slot_name_cmp};
ghost use Rattle.object_paths.specs.Slots.{SameSlotNameIsEquality, SameSlotIsEquality};

use crate::slot_name::SlotName;
use std::cmp::Ordering;

/// The test of slot names holds exactly between equal names.
pub fn slot_name_test_is_exact()
    ensures { SameSlotNameIsEquality }
{}

/// The test of slots holds exactly between equal slots, marks of a cell included.
pub fn slot_test_is_exact()
    ensures { SameSlotIsEquality }
{}

/// The order that is derived for slot names is the one of the definitions.
pub fn order_of_slot_names(a: &SlotName, b: &SlotName) -> Ordering
    ensures { result ≡ slot_name_cmp a.now b.now }
{
    a.cmp(b)
}
