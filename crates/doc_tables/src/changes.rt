ghost use Rattle.std.specs.Prelude.{◌≡◌, ◌≢◌, ◌+◌, ◌<◌, ◌^◌, ℕ, List, length, map, nat_eq, slice_get, IfOk, IfSome, IsSome, IsTrue, None, OnErr, OnOk, Some};
ghost use Rattle.std.specs.Cmp.Lexicographic.{pointwise};
ghost use Rattle.indexmap.specs.IndexMap.{get, index_map_len};
ghost use Rattle.property_types.specs.Types.{zero_value};
ghost use Rattle.property_types.specs.declared.prop_type.PropType.TheVariants.{Placement};
ghost use Rattle.document_model.specs.declared.content.Content.TheVariants.{Own};
ghost use Rattle.document_model.specs.declared.kind.ObjectKind.TheVariants.{VarSet};
ghost use Rattle.document_model.specs.Document.{object_named};
ghost use Rattle.document_model.specs.Edited.{new_object, new_property, with_content, with_object, with_property};
ghost use Rattle.document_model.specs.Kinds.{is_dynamic_name};
ghost use Rattle.document_model.specs.Slots.{slots};
ghost use Rattle.document_model.specs.WellFormed.{is_added_type};
ghost use Rattle.object_paths.specs.Slots.{Slot};
ghost use Rattle.doc_tables.specs.Entries.{HasFewReferences};
ghost use Rattle.doc_tables.specs.Held.{entry_at, place_of_key};
ghost use Rattle.doc_tables.specs.Numbered.{LeadsTo, name_at, slot_at};
ghost use Rattle.doc_tables.specs.Primitives.{IsContentAt, lacks_property};
ghost use Rattle.doc_tables.specs.Shown.{change_at, object_with, shown, with_entry};

use crate::entry::{ObjectEntry, PropertyEntry, SlotKey, SlotPlace};
use crate::insertion::{insert_object, insert_property};
use crate::labels::{count_before, insert_number};
use crate::numbers::{first_free, put, thing_at};
use crate::tables::Tables;
use document_model::{Content, ObjectKind};
use fc_base::{Label, Name, ObjectId, SlotId};
use indexmap::IndexMap;
use property_types::PropType;
use std::alloc::{AllocError, Global};

/// Adds a property behind those of the object at a place.
fn push_property(
    objects: &mut IndexMap<Name, ObjectEntry>,
    place: usize,
    name: Name,
    entry: PropertyEntry,
) -> Result<(), AllocError>
    requires within { place < index_map_len objects.old }
    requires new_name { IfSome (slice_get objects.old.entries place) (λ o. get (pointwise nat_eq) o.1.properties name ≡ None) }
    ensures added { OnOk result (map shown objects.new.entries ≡ change_at (with_entry (name, entry)) place (map shown objects.old.entries)) }
    ensures unchanged { OnErr result (map shown objects.new.entries ≡ map shown objects.old.entries) }
{
    let object = &mut objects[place];
    insert_property(&mut object.properties, name, entry)
}

/// An entry with zero in it.
fn new_entry(alloc: Global, slot: SlotId, prop: PropType) -> Result<PropertyEntry, AllocError>
    requires { prop ≢ Placement }
    ensures { IfOk result (λ e. e ≡ record { slot = slot; prop = prop; content = Own (zero_value prop) }) }
{
    let content = Content::Own(prop.zero(alloc)?);
    Ok(PropertyEntry {
        slot,
        prop,
        content,
    })
}

/// The place of the slot of a key.
fn place_of(objects: &IndexMap<Name, ObjectEntry>, key: &SlotKey) -> Option<SlotPlace>
    ensures { result ≡ place_of_key objects.now.entries key.now }
{
    let object = objects.get_index_of(&key.object)?;
    let (_, entry) = objects.get_index(object)?;
    let property = entry.properties.get_index_of(&key.property)?;
    Some(SlotPlace { object, property })
}

/// Puts another content into the property at a place.
fn put_content(objects: &mut IndexMap<Name, ObjectEntry>, place: SlotPlace, content: Content)
    requires { IsSome (entry_at objects.old.entries place) }
    ensures { map shown objects.new.entries ≡ change_at (object_with content place.property) place.object (map shown objects.old.entries) }
{
    let object = &mut objects[place.object];
    let entry = &mut object.properties[place.property];
    entry.content = content;
}

impl Tables {
    /// A free number for one more object: those below are in use.
    fn free_object_number(&self) -> ObjectId
        requires { length self.now.document.objects + 1 < 2 ^ 32 }
        ensures free { name_at self.now result.0 ≡ None }
        ensures used { (n : ℕ) → n < result.0 → IsSome (name_at self.now n) }
        ensures few { result.0 + 1 < 2 ^ 32 }
    {
        let number = first_free(&self.object_names, self.free_object);
        ObjectId(number as u32)
    }

    /// A free number for one more slot: those below are in use.
    fn free_slot_number(&self) -> SlotId
        requires { length (slots self.now.document) + 1 < 2 ^ 32 }
        ensures free { slot_at self.now result.0 ≡ None }
        ensures used { (n : ℕ) → n < result.0 → IsSome (slot_at self.now n) }
        ensures few { result.0 + 1 < 2 ^ 32 }
    {
        let number = first_free(&self.slot_keys, self.free_slot);
        SlotId(number as u32)
    }

    /// The key of a property of an object.
    fn key_for(&self, object: ObjectId, name: &Name) -> Result<SlotKey, AllocError>
        requires { IsSome (name_at self.now object.0) }
        ensures object { IfOk result (λ key. Some key.object ≡ name_at self.now object.0) }
        ensures property { IfOk result (λ key. key.property ≡ name.now) }
    {
        let alloc = *self.objects.allocator();
        let property = name.copy(alloc)?;
        let object = thing_at(&self.object_names, object.0).copy(alloc)?;
        Ok(SlotKey { object, property })
    }

    /// Adds a VarSet behind the objects that are there, and answers its number. In the order of labels the
    /// numbers behind its own move up.
    pub fn add_object(
        &mut self,
        name: Name,
        label: Label,
        kind: ObjectKind,
    ) -> Result<ObjectId, AllocError>
        requires kind { kind ≡ VarSet }
        requires new_name { object_named self.old.document name ≡ None }
        requires few { length self.old.document.objects + 1 < 2 ^ 32 }
        ensures number { IfOk result (λ id. name_at self.new id.0 ≡ Some name) }
        ensures added { OnOk result (LeadsTo self.old self.new (with_object self.old.document (new_object name label VarSet))) }
        ensures unchanged { OnErr result (self.new ≡ self.old) }
    {
        let _ = name.as_str(); // for the proof
        let number = self.free_object_number();
        let place = count_before(
            &self.by_label,
            &self.object_names,
            &self.objects,
            label.as_str(),
            true,
        );
        let own_name = name.copy(*self.objects.allocator())?;
        let properties = IndexMap::new(*self.objects.allocator());
        self.object_names.reserve(1)?;
        self.by_label.reserve(1)?;
        let entry = ObjectEntry {
            number,
            label,
            properties,
        };
        self.reached = None;
        insert_object(&mut self.objects, name, entry)?;
        put(&mut self.object_names, number.0, own_name);
        insert_number(&mut self.by_label, place, number);
        self.free_object = number.0 as usize + 1;
        Ok(number)
    }

    /// Adds a property of one slot, of a name and a type that dynamic properties may have, behind those of
    /// an object, with zero in it.
    pub fn add_property(
        &mut self,
        object: ObjectId,
        name: Name,
        prop: PropType,
    ) -> Result<(), AllocError>
        requires name { IsTrue (is_dynamic_name VarSet name) }
        requires added_type { IsTrue (is_added_type prop) }
        requires one_slot { prop ≢ Placement }
        requires live { IsSome (name_at self.old object.0) }
        requires new_name { IsTrue (lacks_property self.old object.0 name) }
        requires few { length (slots self.old.document) + 1 < 2 ^ 32 }
        ensures added { OnOk result ((o : List ℕ) → name_at self.old object.0 ≡ Some o
            → LeadsTo self.old self.new (with_property self.old.document o (new_property name prop))) }
        ensures unchanged { OnErr result (self.new ≡ self.old) }
    {
        let slot = self.free_slot_number();
        let key = self.key_for(object, &name)?;
        let entry = new_entry(*self.objects.allocator(), slot, prop)?;
        let place = self.objects.get_index_of(&key.object).unwrap();
        self.reached = None;
        self.slot_keys.reserve(1)?;
        push_property(&mut self.objects, place, name, entry)?;
        put(&mut self.slot_keys, slot.0, key);
        self.free_slot = slot.0 as usize + 1;
        Ok(())
    }

    /// Puts another content of its type into a slot.
    pub fn set_rule(&mut self, slot: SlotId, rule: Content) -> Result<(), AllocError>
        requires live { IsSome (slot_at self.old slot.0) }
        requires content { IsContentAt self.old slot.0 rule }
        requires references { HasFewReferences rule }
        ensures set { OnOk result ((s : Slot) → slot_at self.old slot.0 ≡ Some s
            → LeadsTo self.old self.new (with_content self.old.document s rule)) }
        ensures unchanged { OnErr result (self.new ≡ self.old) }
    {
        let key = thing_at(&self.slot_keys, slot.0);
        let place = place_of(&self.objects, key).unwrap();
        put_content(&mut self.objects, place, rule);
        self.reached = None;
        Ok(())
    }
}
