//! Fills tables with the objects of a document of the first form.

ghost use Rattle.std.specs.Prelude.{◌≡◌, ◌+◌, ◌<◌, ◌^◌, ℕ, List, length, map, IfOk, IsSome, IsTrue, None, OnOk, Some};
ghost use Rattle.object_paths.specs.declared.slot_name.SlotName.TheVariants.{Plain};
ghost use Rattle.property_types.specs.declared.prop_type.PropType.TheVariants.{Float};
ghost use Rattle.std.specs.List.{list_all};
ghost use Rattle.property_types.specs.Reserved.{are_distinct};
ghost use Rattle.property_types.specs.SoundPlans.{is_property_name};
ghost use Rattle.document_model.specs.Document.{object_named};
ghost use Rattle.document_model.specs.Edited.{new_property, with_property};
ghost use Rattle.document_model.specs.Slots.{slots, type_of};
ghost use Rattle.doc_tables.specs.Numbered.{name_at, slot_at};
ghost use Rattle.doc_tables.specs.Primitives.{lacks_property};
ghost use Rattle.fcdoc_file.specs.Filled.{with_first, with_float};
ghost use Rattle.fcdoc_file.specs.FirstDocument.{first_document};
ghost use Rattle.fcdoc_file.specs.FirstForm.{stands_together};
ghost use Rattle.fcdoc_file.specs.Rows.{object_of, property_of};

use crate::var_set::{FloatProperty, VarSet};
use doc_tables::Tables;
use document_model::{Content, ObjectKind};
use fc_base::{Name, ObjectId, SlotId};
use object_paths::SlotName;
use property_types::{PropType, Value};
use quantities::Quantity;
use std::alloc::{AllocError, Global};
use unit_signatures::Unit;

/// Adds a Float behind the properties of an object, and answers the number of its slot.
fn add_slot(
    tables: &mut Tables,
    object: ObjectId,
    name: Name,
    slot: &SlotName,
) -> Result<SlotId, AllocError>
    requires same { slot.now ≡ Plain name }
    requires named { IsTrue (is_property_name name) }
    requires live { IsSome (name_at tables.old object.0) }
    requires new_name { IsTrue (lacks_property tables.old object.0 name) }
    requires few { length (slots tables.old.document) + 1 < 2 ^ 32 }
    ensures document { OnOk result ((o : List ℕ) → name_at tables.old object.0 ≡ Some o
        → tables.new.document ≡ with_property tables.old.document o (new_property name Float)) }
    ensures number { OnOk result ((o : List ℕ) → name_at tables.old object.0 ≡ Some o → name_at tables.new object.0 ≡ Some o) }
    ensures slot { IfOk result (λ id. (o : List ℕ) → name_at tables.old object.0 ≡ Some o
        → slot_at tables.new id.0 ≡ Some (record { object = o; name = Plain name })) }
    ensures typed { OnOk result ((o : List ℕ) → name_at tables.old object.0 ≡ Some o
        → type_of tables.new.document (record { object = o; name = Plain name }) ≡ Some Float) }
{
    tables.holds_var_sets(); // for the proof
    tables.is_numbered(); // for the proof
    tables.add_property(object, name, PropType::Float)?;
    Ok(tables.slot_of(object, slot).unwrap())
}

/// Adds a property, with its value, behind those of an object.
fn add_property(
    alloc: Global,
    tables: &mut Tables,
    object: ObjectId,
    property: &FloatProperty,
) -> Result<(), AllocError>
    requires named { IsTrue (is_property_name property.now.name) }
    requires live { IsSome (name_at tables.old object.0) }
    requires new_name { IsTrue (lacks_property tables.old object.0 property.now.name) }
    requires few { length (slots tables.old.document) + 1 < 2 ^ 32 }
    ensures document { OnOk result ((o : List ℕ) → name_at tables.old object.0 ≡ Some o
        → tables.new.document ≡ with_float tables.old.document o (property_of property.now)) }
    ensures number { OnOk result ((o : List ℕ) → name_at tables.old object.0 ≡ Some o → name_at tables.new object.0 ≡ Some o) }
{
    let path = SlotName::Plain(property.name.copy(alloc)?);
    let name = property.name.copy(alloc)?;
    let slot = add_slot(tables, object, name, &path)?;
    tables.is_numbered(); // for the proof
    let _ = property.value.raw(); // for the proof
    let value = Value::Number(Quantity {
        amount: property.value,
        unit: Unit::pure(),
    });
    tables.set_rule(slot, Content::Own(value))
}

/// Adds an object, with its properties, behind those that are there.
fn add_object(alloc: Global, tables: &mut Tables, object: &VarSet) -> Result<(), AllocError>
    requires new_name { object_named tables.old.document object.now.name ≡ None }
    requires distinct { IsTrue (are_distinct (map (λ p. p.name) object.now.properties.items)) }
    requires named { IsTrue (list_all (λ p. is_property_name p.name) object.now.properties.items) }
    requires few_objects { length tables.old.document.objects + 1 < 2 ^ 32 }
    requires few_slots { length (slots tables.old.document) + length object.now.properties.items < 2 ^ 32 }
    ensures { OnOk result (tables.new.document ≡ with_first tables.old.document (object_of object.now)) }
{
    tables.holds_var_sets(); // for the proof
    let name = object.name.copy(alloc)?;
    let label = object.name.to_label(alloc)?;
    let number = tables.add_object(name, label, ObjectKind::VarSet)?;
    for property in &object.properties {
        add_property(alloc, tables, number, property)?;
    }
    Ok(())
}

/// The tables of objects that stand together.
pub(crate) fn tables_of(alloc: Global, objects: &[VarSet]) -> Result<Tables, AllocError>
    requires { IsTrue (stands_together (map object_of objects.now)) }
    ensures { IfOk result (λ tables. tables.document ≡ first_document (map object_of objects.now)) }
{
    let mut tables = Tables::new(alloc);
    for object in objects {
        add_object(alloc, &mut tables, object)?;
    }
    Ok(tables)
}
