ghost use Rattle.std.specs.Prelude.{◌≡◌, position, slice_get, IsSome, Some, option_map};
ghost use Rattle.std.specs.Option.{option_and_then, option_copied};
ghost use Rattle.object_paths.specs.Slots.{same_text};
ghost use Rattle.document_model.specs.Document.{object_labelled, object_named};
ghost use Rattle.document_model.specs.Resolution.{resolve, slot_in};
ghost use Rattle.doc_tables.specs.Accessors.{IsNumberOf, IsNumberOfObject};
ghost use Rattle.doc_tables.specs.Entries.{IsEntryFor, number_in};
ghost use Rattle.doc_tables.specs.Numbered.{name_at, object_at};

use crate::entry::ObjectEntry;
use crate::labels::first_labelled;
use crate::numbers::thing_at;
use crate::tables::Tables;
use fc_base::{Label, Name, ObjectId, SlotId};
use indexmap::IndexMap;
use object_paths::{Owner, Path, SlotName};

/// The place of the object of that name.
fn place_named(objects: &IndexMap<Name, ObjectEntry>, name: &str) -> Option<usize>
    ensures { result ≡ position (λ o. same_text o.0 name.now) objects.now.entries }
{
    objects.iter().position(|(other, _)| other.as_str() == name)
}

/// The number of an object, where there is one.
fn number_of(entry: Option<&ObjectEntry>) -> Option<ObjectId>
    ensures { result ≡ option_map (λ e. e.number) (option_copied entry.entry) }
{
    let entry = entry?;
    Some(entry.number)
}

/// The number of a slot of an object, where there is one.
fn number_in(entry: Option<&ObjectEntry>, name: &SlotName) -> Option<SlotId>
    ensures { result ≡ option_and_then (λ e. number_in e name.now) (option_copied entry.entry) }
{
    let entry = entry?;
    match name {
        SlotName::Plain(name) => {
            let property = entry.properties.get(name)?;
            Some(property.slot)
        }
        SlotName::Component(_, _) => None,
        SlotName::Marked(_) => None,
    }
}

/// The entry at a place, where there is one.
fn entry_at(objects: &IndexMap<Name, ObjectEntry>, place: Option<usize>) -> Option<&ObjectEntry>
    ensures { option_copied result
        ≡ option_map (λ o. o.1) (option_and_then (slice_get objects.now.entries) place) }
{
    match place {
        None => None,
        Some(place) => {
            let (_, entry) = objects.get_index(place)?;
            Some(entry)
        }
    }
}

impl Tables {
    /// The entry of an object.
    fn entry_of_object(&self, object: ObjectId) -> &ObjectEntry
        requires { IsSome (name_at self.now object.0) }
        ensures { IsEntryFor self.now (object_at self.now object.0) (Some result.now) }
    {
        let name = thing_at(&self.object_names, object.0);
        self.objects.get(name).unwrap()
    }

    /// The entry of the object of that name.
    fn entry_named(&self, name: &Name) -> Option<&ObjectEntry>
        ensures { IsEntryFor self.now (object_named self.now.document name.now) (option_copied result) }
    {
        self.objects.get(name)
    }

    /// The entry of the first object of that label.
    fn entry_labelled(&self, label: &Label) -> Option<&ObjectEntry>
        ensures { IsEntryFor self.now (object_labelled self.now.document label.now) (option_copied result) }
    {
        self.finds_all(); // for the proof
        match self.object_labelled(label.as_str()) {
            Some(object) => Some(self.entry_of_object(object)),
            None => None,
        }
    }

    /// The slot that a path of an object names; none exactly where it names none. An owner is looked up
    /// by its name, or searched for in the order of labels.
    pub fn resolve(&self, owner: ObjectId, path: &Path) -> Option<SlotId>
        requires { IsSome (name_at self.now owner.0) }
        ensures { IsNumberOf self.now result
            (option_and_then (λ o. resolve self.now.document o path.now) (object_at self.now owner.0)) }
    {
        let here = self.entry_of_object(owner);
        match &path.owner {
            Owner::Here => number_in(Some(here), &path.slot),
            Owner::ByName(name) => number_in(self.entry_named(name), &path.slot),
            Owner::ByLabel(label) => number_in(self.entry_labelled(label), &path.slot),
        }
    }

    /// The slot of that name of an object; none exactly where it has none.
    pub fn slot_of(&self, object: ObjectId, name: &SlotName) -> Option<SlotId>
        requires { IsSome (name_at self.now object.0) }
        ensures { IsNumberOf self.now result
            (option_and_then (λ o. slot_in self.now.document o name.now) (object_at self.now object.0)) }
    {
        let owner = thing_at(&self.object_names, object.0);
        let entry = self.objects.get(owner).unwrap();
        number_in(Some(entry), name)
    }

    /// The object at a place of the document, from 0; none exactly past the last.
    pub fn object_at(&self, place: u32) -> Option<ObjectId>
        ensures { IsNumberOfObject self.now result (slice_get self.now.document.objects place) }
    {
        number_of(entry_at(&self.objects, Some(place as usize)))
    }

    /// The object of that name; none exactly where there is none. It is found by one look-up.
    pub fn object_by_name(&self, name: &Name) -> Option<ObjectId>
        ensures { IsNumberOfObject self.now result (object_named self.now.document name.now) }
    {
        number_of(self.objects.get(name))
    }

    /// The first object of that name; none exactly where there is none. The objects are looked through
    /// from the first; for a `Name` there is `object_by_name`.
    pub fn object_named(&self, name: &str) -> Option<ObjectId>
        ensures { IsNumberOfObject self.now result (object_named self.now.document name.now) }
    {
        let place = place_named(&self.objects, name);
        number_of(entry_at(&self.objects, place))
    }

    /// The first object of that label; none exactly where there is none. It is searched for in the order of
    /// labels, by halves: of a million objects some twenty labels are read.
    pub fn object_labelled(&self, label: &str) -> Option<ObjectId>
        ensures { IsNumberOfObject self.now result (object_labelled self.now.document label.now) }
    {
        first_labelled(&self.by_label, &self.object_names, &self.objects, label)
    }

    /// The name of an object.
    pub fn name_of(&self, object: ObjectId) -> &Name
        requires { IsSome (name_at self.now object.0) }
        ensures { Some result.now ≡ name_at self.now object.0 }
    {
        thing_at(&self.object_names, object.0)
    }

    /// The label of an object.
    pub fn label_of(&self, object: ObjectId) -> &Label
        requires { IsSome (name_at self.now object.0) }
        ensures { Some result.now ≡ option_map (λ o. o.label) (object_at self.now object.0) }
    {
        let name = thing_at(&self.object_names, object.0);
        let entry = self.objects.get(name).unwrap();
        &entry.label
    }
}
