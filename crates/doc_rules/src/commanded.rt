ghost use Rattle.std.specs.Prelude.{◌≡◌, Err, IsSome, Some};
ghost use Rattle.object_paths.specs.declared.path.Path.{Path};
ghost use Rattle.property_types.specs.Reserved.{is_among};
ghost use Rattle.document_model.specs.declared.kind.ObjectKind.TheVariants.{VarSet};
ghost use Rattle.document_model.specs.Document.{Object};
ghost use Rattle.document_model.specs.Kinds.{known_names};
ghost use Rattle.doc_tables.specs.Accessors.{IsNumberOfObject};
ghost use Rattle.doc_tables.specs.Numbered.{name_at, object_at};
ghost use Rattle.doc_rules.specs.declared.refusal.Refusal.{Refusal};
ghost use Rattle.doc_rules.specs.Edits.{IsNamed};
ghost use Rattle.doc_rules.specs.Commanded.{IsCommanded, IsObjectOf, IsPropertyOf, object_commanded, object_of, property_commanded, property_in, slot_commanded};

use crate::numbers::{NO_OBJECT, NO_PROPERTY, NOT_DYNAMIC};
use crate::refusal::Refusal;
use doc_tables::Tables;
use fc_base::{ObjectId, SlotId};
use object_paths::{Owner, Path, SlotName};

/// The object that the path of a command begins with.
fn object_commanded(tables: &Tables, owner: &Owner) -> Option<ObjectId>
    ensures { IsNumberOfObject tables.now result (object_commanded tables.now.document owner.now) }
{
    match owner {
        Owner::Here => None,
        Owner::ByName(name) => tables.object_by_name(name),
        Owner::ByLabel(label) => tables.object_labelled(label.as_str()),
    }
}

/// The slot that the path of a command names. It is refused with NoObject (2) where there is no such
/// object, and else with NoProperty (3) where the object has no such slot.
pub fn slot_commanded(tables: &Tables, path: &Path) -> Result<SlotId, Refusal>
    ensures exact { IsCommanded tables.now (slot_commanded tables.now.document path.now) result }
    ensures named { (r : Refusal) → result ≡ Err r → IsNamed r }
{
    tables.finds_all(); // for the proof
    let Some(object) = object_commanded(tables, &path.owner) else {
        return Err(Refusal::of(NO_OBJECT));
    };
    match tables.resolve(object, path) {
        Some(slot) => Ok(slot),
        None => Err(Refusal::of(NO_PROPERTY)),
    }
}

/// The object of a name that a command gives. It is refused with NoObject (2) where there is none.
pub fn object_of(tables: &Tables, name: &str) -> Result<ObjectId, Refusal>
    ensures { IsObjectOf tables.now (object_of tables.now.document name.now) result }
{
    match tables.object_named(name) {
        Some(object) => Ok(object),
        None => Err(Refusal::of(NO_OBJECT)),
    }
}

/// Whether all VarSets have a property of that name that is not dynamic.
fn is_known_name(name: &str) -> bool
    ensures { result ≡ is_among name.now (known_names VarSet) }
{
    matches!(name, "Label" | "ExpressionEngine")
}

/// The number of the object, where its dynamic property has the name. It is refused with NotDynamic (13)
/// where something else has it, and with NoProperty (3) where nothing has it.
fn property_in(tables: &Tables, object: ObjectId, slot: &SlotName) -> Result<ObjectId, Refusal>
    requires { IsSome (name_at tables.now object.0) }
    ensures { (o : Object) (p : Path) → object_at tables.now object.0 ≡ Some o → p.slot ≡ slot.now
        → IsPropertyOf tables.now p (property_in tables.now.document slot.now o) result }
{
    tables.holds_var_sets(); // for the proof
    let SlotName::Plain(name) = slot else {
        return Err(Refusal::of(NO_PROPERTY));
    };
    if tables.slot_of(object, slot).is_some() {
        return Ok(object);
    }
    if is_known_name(name.as_str()) {
        Err(Refusal::of(NOT_DYNAMIC))
    } else {
        Err(Refusal::of(NO_PROPERTY))
    }
}

/// The object whose dynamic property the path of a command names; the path ends in that property's
/// name. It is refused with NoObject (2) where there is no such object, NotDynamic (13) where the
/// object has something else of the name, and NoProperty (3) where it has nothing of it.
pub fn property_commanded(tables: &Tables, path: &Path) -> Result<ObjectId, Refusal>
    ensures { IsPropertyOf tables.now path.now (property_commanded tables.now.document path.now) result }
{
    tables.finds_all(); // for the proof
    match object_commanded(tables, &path.owner) {
        Some(object) => property_in(tables, object, &path.slot),
        None => Err(Refusal::of(NO_OBJECT)),
    }
}
