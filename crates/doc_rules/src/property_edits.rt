ghost use Rattle.std.specs.Prelude.{◌≡◌, ◌≢◌, ℕ, IfOk, IsSome, IsTrue, List, Ok, Some, not};
ghost use Rattle.property_types.specs.declared.prop_type.PropType.TheVariants.{Placement};
ghost use Rattle.property_types.specs.Types.{type_name_of};
ghost use Rattle.object_paths.specs.Slots.{same_text};
ghost use Rattle.document_model.specs.declared.kind.ObjectKind.TheVariants.{VarSet};
ghost use Rattle.document_model.specs.Document.{Object};
ghost use Rattle.document_model.specs.Edited.{new_property, with_property, without_property};
ghost use Rattle.document_model.specs.Kinds.{is_dynamic_name};
ghost use Rattle.document_model.specs.WellFormed.{is_added_type};
ghost use Rattle.document_outcomes.specs.Faults.{IsValid};
ghost use Rattle.expr_eval.specs.Firsts.{on_one};
ghost use Rattle.doc_tables.specs.Numbered.{LeadsTo, name_at, object_at};
ghost use Rattle.doc_tables.specs.Primitives.{lacks_property};
ghost use Rattle.doc_rules.specs.Accepted.{unless_any};
ghost use Rattle.doc_rules.specs.Commanded.{property_commanded};
ghost use Rattle.doc_rules.specs.Edits.{Answers, Becomes};
ghost use Rattle.doc_rules.specs.PropertyEdits.{dropped, tests_of_added, with_added};

use crate::accepting::{accepted, refused};
use crate::commanded::property_commanded;
use crate::edit_fault::EditFault;
use crate::numbers::{BAD_NAME, NAME_TAKEN, NO_PROPERTY, WRONG_TYPE};
use doc_tables::{Tables, is_property_name};
use fc_base::{Name, NameFault, ObjectId};
use object_paths::{Path, SlotName};
use property_types::PropType;
use std::alloc::{AllocError, Global};

/// The name of a new property of an object. It is refused with NameTaken (4) where a property of the
/// object has it, and BadName (5) where it is no name or is kept.
fn added_name(
    alloc: Global,
    tables: &Tables,
    owner: ObjectId,
    name: &str,
) -> Result<Name, EditFault>
    requires { IsSome (name_at tables.now owner.0) }
    ensures { (o : Object) → object_at tables.now owner.0 ≡ Some o → Answers (unless_any (tests_of_added o name.now) (Ok name.now)) result }
{
    tables.holds_var_sets(); // for the proof
    tables.is_well_formed(); // for the proof
    let name = match Name::read(alloc, name) {
        Ok(name) => name,
        Err(NameFault::BadName) => return Err(refused(BAD_NAME)),
        Err(NameFault::Memory(error)) => return Err(EditFault::Memory(error)),
    };
    let slot_name = SlotName::Plain(name.copy(alloc)?);
    if tables.slot_of(owner, &slot_name).is_some() {
        return Err(refused(NAME_TAKEN));
    }
    if !is_property_name(&name) {
        return Err(refused(BAD_NAME));
    }
    Ok(name)
}

/// A copy of the tables with one more property of an object.
fn with_property(
    alloc: Global,
    tables: &Tables,
    owner: ObjectId,
    name: Name,
    prop: PropType,
) -> Result<Tables, AllocError>
    requires valid { IsValid tables.now.document }
    requires name { IsTrue (is_dynamic_name VarSet name) }
    requires added_type { IsTrue (is_added_type prop) }
    requires one_slot { prop ≢ Placement }
    requires live { IsSome (name_at tables.now owner.0) }
    requires new_name { IsTrue (lacks_property tables.now owner.0 name) }
    ensures { IfOk result (λ edited. (o : List ℕ) → name_at tables.now owner.0 ≡ Some o
        → LeadsTo tables.now edited (with_property tables.now.document o (new_property name prop))) }
{
    let mut edited = tables.copy(alloc)?;
    edited.add_property(owner, name, prop)?;
    Ok(edited)
}

/// A copy of the tables with one more property of an object, of a type, with zero in it.
pub fn with_added(
    alloc: Global,
    tables: &Tables,
    owner: ObjectId,
    type_name: &str,
    name: &str,
) -> Result<Tables, EditFault>
    requires valid { IsValid tables.now.document }
    requires live { IsSome (name_at tables.now owner.0) }
    requires there { IsSome (object_at tables.now owner.0) }
    requires built { IsTrue (not (same_text type_name.now (type_name_of Placement))) }
    ensures { (o : Object) → object_at tables.now owner.0 ≡ Some o
        → Becomes tables.now (with_added tables.now.document type_name.now name.now o) result }
{
    tables.holds_var_sets(); // for the proof
    let name = added_name(alloc, tables, owner, name)?;
    let Some(prop) = PropType::named(type_name) else {
        return Err(refused(WRONG_TYPE));
    };
    let edited = with_property(alloc, tables, owner, name, prop)?;
    accepted(alloc, edited)
}

/// A copy of the tables without a property of an object.
fn without_property(
    alloc: Global,
    tables: &Tables,
    owner: ObjectId,
    name: &Name,
) -> Result<Tables, AllocError>
    requires live { IsSome (name_at tables.now owner.0) }
    requires there { IsTrue (not (lacks_property tables.now owner.0 name.now)) }
    ensures { IfOk result (λ edited. (o : List ℕ) → name_at tables.now owner.0 ≡ Some o
        → LeadsTo tables.now edited (without_property tables.now.document o name.now)) }
{
    let mut edited = tables.copy(alloc)?;
    edited.remove_property(owner, name)?;
    Ok(edited)
}

/// A copy of the tables without the dynamic property that a path names.
pub fn dropped(alloc: Global, tables: &Tables, path: &Path) -> Result<Tables, EditFault>
    ensures { Becomes tables.now (on_one (dropped tables.now.document) (property_commanded tables.now.document path.now)) result }
{
    tables.finds_all(); // for the proof
    let owner = match property_commanded(tables, path) {
        Ok(owner) => owner,
        Err(refusal) => return Err(EditFault::Refused(refusal)),
    };
    match &path.slot {
        SlotName::Plain(name) => {
            let edited = without_property(alloc, tables, owner, name)?;
            accepted(alloc, edited)
        }
        _ => Err(refused(NO_PROPERTY)),
    }
}
