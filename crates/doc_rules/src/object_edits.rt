ghost use Rattle.std.specs.Prelude.{◌≡◌, [], IfOk, IsSome, IsTrue, List, Ok, Some, false, is_some, not, ℕ};
ghost use Rattle.property_types.specs.Reserved.{is_among};
ghost use Rattle.document_model.specs.declared.kind.ObjectKind.TheVariants.{VarSet};
ghost use Rattle.document_model.specs.Document.{Object, object_labelled, object_named};
ghost use Rattle.document_model.specs.Edited.{new_object, with_object, without_object};
ghost use Rattle.document_outcomes.specs.Faults.{IsValid};
ghost use Rattle.doc_tables.specs.Numbered.{LeadsTo, name_at, object_at};
ghost use Rattle.doc_rules.specs.Accepted.{unless_any};
ghost use Rattle.doc_rules.specs.Edits.{Answers, Becomes, unbuilt_types};
ghost use Rattle.doc_rules.specs.ObjectEdits.{deleted, is_object_type, tests_of_new, with_new};

use crate::accepting::{accepted, refused};
use crate::edit_fault::EditFault;
use crate::numbers::{BAD_NAME, LABEL_TAKEN, NAME_TAKEN, NO_FEATURE};
use doc_tables::{Tables, is_property_name};
use document_model::ObjectKind;
use fc_base::{Name, NameFault, ObjectId};
use std::alloc::{AllocError, Global};

/// Whether an object has the name.
fn has_name(tables: &Tables, name: &str) -> bool
    ensures { result ≡ is_some (object_named tables.now.document name.now) }
{
    tables.object_named(name).is_some()
}

/// Whether an object has the label.
fn has_label(tables: &Tables, label: &str) -> bool
    ensures { result ≡ is_some (object_labelled tables.now.document label.now) }
{
    tables.object_labelled(label).is_some()
}

/// Whether a new object may have the type. No features are at hand.
fn is_object_type(type_name: &str) -> bool
    ensures { result ≡ is_object_type [] type_name.now }
{
    matches!(
        type_name,
        "App::VarSet" | "Spreadsheet::Sheet" | "App::Link"
    )
}

/// The name of a new object. It is refused with NameTaken (4) where an object has it, BadName (5)
/// where it is no name or is kept for properties, LabelTaken (6) where an object has it for its label,
/// and NoFeature (30) where there are no objects of the type.
fn new_name(alloc: Global, tables: &Tables, type_name: &str, name: &str) -> Result<Name, EditFault>
    ensures { Answers (unless_any (tests_of_new [] tables.now.document type_name.now name.now) (Ok name.now)) result }
{
    if has_name(tables, name) {
        return Err(refused(NAME_TAKEN));
    }
    let name = match Name::read(alloc, name) {
        Ok(name) => name,
        Err(NameFault::BadName) => return Err(refused(BAD_NAME)),
        Err(NameFault::Memory(error)) => return Err(EditFault::Memory(error)),
    };
    if !is_property_name(&name) {
        return Err(refused(BAD_NAME));
    }
    if has_label(tables, name.as_str()) {
        return Err(refused(LABEL_TAKEN));
    }
    if !is_object_type(type_name) {
        return Err(refused(NO_FEATURE));
    }
    Ok(name)
}

/// A copy of the tables with one more VarSet, whose label is its name.
fn with_object(alloc: Global, tables: &Tables, name: Name) -> Result<Tables, AllocError>
    requires valid { IsValid tables.now.document }
    requires new_name { is_some (object_named tables.now.document name) ≡ false }
    ensures { IfOk result (λ edited. LeadsTo tables.now edited (with_object tables.now.document (new_object name name VarSet))) }
{
    let label = name.to_label(alloc)?;
    let mut edited = tables.copy(alloc)?;
    edited.add_object(name, label, ObjectKind::VarSet)?;
    Ok(edited)
}

/// A copy of the tables with one more object of a type, its label the same as its name.
pub fn with_new(
    alloc: Global,
    tables: &Tables,
    type_name: &str,
    name: &str,
) -> Result<Tables, EditFault>
    requires valid { IsValid tables.now.document }
    requires built { IsTrue (not (is_among type_name.now unbuilt_types)) }
    ensures { Becomes tables.now (with_new [] tables.now.document type_name.now name.now) result }
{
    let name = new_name(alloc, tables, type_name, name)?;
    let edited = with_object(alloc, tables, name)?;
    accepted(alloc, edited)
}

/// A copy of the tables without an object.
fn without_object(alloc: Global, tables: &Tables, object: ObjectId) -> Result<Tables, AllocError>
    requires { IsSome (name_at tables.now object.0) }
    ensures { IfOk result (λ edited. (name : List ℕ) → name_at tables.now object.0 ≡ Some name
        → LeadsTo tables.now edited (without_object tables.now.document name)) }
{
    let mut edited = tables.copy(alloc)?;
    edited.remove_object(object)?;
    Ok(edited)
}

/// A copy of the tables without an object, unless the document has a fault then.
pub fn deleted(alloc: Global, tables: &Tables, object: ObjectId) -> Result<Tables, EditFault>
    requires { IsSome (name_at tables.now object.0) }
    ensures { (o : Object) → name_at tables.now object.0 ≡ Some o.name → Becomes tables.now (deleted tables.now.document o) result }
{
    let edited = without_object(alloc, tables, object)?;
    accepted(alloc, edited)
}
