ghost use Rattle.std.specs.Prelude.{◌≡◌, IsSome, false};
ghost use Rattle.std.specs.Option.{option_and_then, option_map_or};
ghost use Rattle.document_outcomes.specs.Faults.{has_taken_label, label_faults};
ghost use Rattle.doc_tables.specs.Numbered.{name_at, object_at};
ghost use Rattle.doc_rules.specs.Found.{MeetsFault};
ghost use Rattle.doc_rules.specs.KindFaults.{label_fault};

use crate::fault::CheckFault;
use crate::numbers::LABEL_TAKEN;
use crate::subjects::object_fault;
use doc_tables::Tables;
use fc_base::ObjectId;
use std::alloc::Global;

/// Whether an earlier object has the label of an object.
fn has_taken_label(tables: &Tables, object: ObjectId) -> bool
    requires { IsSome (object_at tables.now object.0) }
    ensures { result ≡ option_map_or (has_taken_label tables.now.document) (object_at tables.now object.0) false }
{
    tables.is_numbered(); // for the proof
    match tables.object_labelled(tables.label_of(object).as_str()) {
        Some(first) => first != object,
        None => false,
    }
}

/// LabelTaken, where an earlier object has the label of the object.
fn check_label(alloc: Global, tables: &Tables, object: ObjectId) -> Result<(), CheckFault>
    requires { IsSome (object_at tables.now object.0) }
    ensures { MeetsFault (option_and_then (label_fault tables.now.document) (object_at tables.now object.0)) result }
{
    if has_taken_label(tables, object) {
        return Err(object_fault(alloc, LABEL_TAKEN, tables.name_of(object)));
    }
    Ok(())
}

/// LabelTaken of the first object whose label an earlier one has. Each label is searched for once, so this
/// grows little faster than the number of objects.
pub fn check_labels(alloc: Global, tables: &Tables) -> Result<(), CheckFault>
    ensures { MeetsFault (label_faults tables.now.document) result }
{
    tables.finds_all(); // for the proof
    for place in 0..tables.object_count() {
        if let Some(object) = tables.object_at(place) {
            check_label(alloc, tables, object)?;
        }
    }
    Ok(())
}
