ghost use Rattle.std.specs.Prelude.{◌≡◌, ◌<◌, ℕ, List, map, nat_eq, not, slice_get, vec_len, option_map, IfSome, IsSome, IsTrue, OnErr, OnOk, Some};
ghost use Rattle.std.specs.Cmp.Lexicographic.{pointwise};
ghost use Rattle.indexmap.specs.IndexMap.{get, index_map_len};
ghost use Rattle.document_model.specs.Edited.{without_object, without_property};
ghost use Rattle.doc_tables.specs.Numbered.{LeadsTo, at_number, name_at};
ghost use Rattle.doc_tables.specs.Primitives.{lacks_property};
ghost use Rattle.doc_tables.specs.Shown.{change_at, shown, without_entry};
ghost use Rattle.doc_tables.specs.Table.{freed_at};

use crate::entry::{ObjectEntry, PropertyEntry, SlotKey};
use crate::labels::take_number;
use crate::numbers::{lower, release, thing_at};
use crate::tables::Tables;
use fc_base::{Name, ObjectId, SlotId};
use indexmap::IndexMap;
use std::alloc::AllocError;

/// Takes a property out of the object at a place, and answers the number of its slot.
fn take_property(objects: &mut IndexMap<Name, ObjectEntry>, place: usize, name: &Name) -> SlotId
    requires within { place < index_map_len objects.old }
    requires there { IfSome (slice_get objects.old.entries place) (λ o. IsSome (get (pointwise nat_eq) o.1.properties name.now)) }
    ensures taken { map shown objects.new.entries ≡ change_at (without_entry name.now) place (map shown objects.old.entries) }
    ensures slot { IfSome (slice_get objects.old.entries place) (λ o. Some result ≡ option_map (λ e. e.slot) (get (pointwise nat_eq) o.1.properties name.now)) }
{
    let object = &mut objects[place];
    let entry = object.properties.shift_remove(name).unwrap();
    entry.slot
}

/// Frees the numbers of the slots of properties, and answers a number below which none is free.
fn release_slots(
    keys: &mut Vec<Option<SlotKey>>,
    properties: &IndexMap<Name, PropertyEntry>,
    free: usize,
) -> usize
    requires { (n : ℕ) → n < free → IsSome (at_number keys.old.items n) }
    ensures freed { (n : ℕ) → at_number keys.new.items n ≡ freed_at (map (λ e. e.1.slot.0) properties.now.entries) n (at_number keys.old.items n) }
    ensures used { (n : ℕ) → n < result → IsSome (at_number keys.new.items n) }
    ensures len { vec_len keys.new ≡ vec_len keys.old }
{
    let mut first = free;
    for (_, entry) in properties {
        release(keys, entry.slot.0);
        first = lower(first, entry.slot.0);
    }
    first
}

impl Tables {
    /// Removes a property of an object, whose slot gives its number up.
    pub fn remove_property(&mut self, object: ObjectId, name: &Name) -> Result<(), AllocError>
        requires live { IsSome (name_at self.old object.0) }
        requires there { IsTrue (not (lacks_property self.old object.0 name.now)) }
        ensures removed { OnOk result ((o : List ℕ) → name_at self.old object.0 ≡ Some o
            → LeadsTo self.old self.new (without_property self.old.document o name.now)) }
        ensures unchanged { OnErr result (self.new ≡ self.old) }
    {
        let owner = thing_at(&self.object_names, object.0);
        let place = self.objects.get_index_of(owner).unwrap();
        let slot = take_property(&mut self.objects, place, name);
        release(&mut self.slot_keys, slot.0);
        self.free_slot = lower(self.free_slot, slot.0);
        self.reached = None; // paths may name this slot
        Ok(())
    }

    /// Removes an object: it and its slots give their numbers up. The objects are gone through once.
    pub fn remove_object(&mut self, object: ObjectId) -> Result<(), AllocError>
        requires { IsSome (name_at self.old object.0) }
        ensures removed { OnOk result ((o : List ℕ) → name_at self.old object.0 ≡ Some o
            → LeadsTo self.old self.new (without_object self.old.document o)) }
        ensures unchanged { OnErr result (self.new ≡ self.old) }
    {
        let owner = thing_at(&self.object_names, object.0);
        let entry = self.objects.shift_remove(owner).unwrap();
        let free_slot = self.free_slot;
        self.free_slot = release_slots(&mut self.slot_keys, &entry.properties, free_slot);
        release(&mut self.object_names, object.0);
        self.free_object = lower(self.free_object, object.0);
        take_number(&mut self.by_label, object);
        self.reached = None; // paths may name its slots, by its name or label
        Ok(())
    }
}
