ghost use Rattle.std.specs.Prelude.{◌≡◌, [], map, IfOk};
ghost use Rattle.std.specs.List.{IsDistinct};
ghost use Rattle.object_paths.specs.Slots.{same_slot};
ghost use Rattle.document_model.specs.Slots.{slots};
ghost use Rattle.document_model.specs.WellFormed.{IsWellFormed};
ghost use Rattle.doc_tables.specs.Held.{document_held};
ghost use Rattle.doc_tables.specs.Numbered.{IsNumbered};
ghost use Rattle.doc_tables.specs.Shown.{shown};
ghost use Rattle.doc_tables.specs.VarSets.{HoldsVarSets};

use crate::entry::{ObjectEntry, PropertyEntry, SlotKey};
use crate::insertion::{insert_object, insert_property};
use fc_base::{Name, ObjectId, SlotId};
use indexmap::IndexMap;
use object_paths::laws::slot_test_is_exact;
use std::alloc::{AllocError, Global};
use std::marker::Model;

/// A document of VarSets whose properties have one slot each. Objects and slots have numbers, which
/// they keep as long as they are there. It is seen as the document with these numbers.
#[derive(Drop)]
pub struct Tables {
    /// The objects by name, in the order of the document.
    pub(crate) objects: IndexMap<Name, ObjectEntry>,
    /// The name of the object of each number.
    pub(crate) object_names: Vec<Option<Name>>,
    /// The slot of each number.
    pub(crate) slot_keys: Vec<Option<SlotKey>>,
    /// The objects in the order of label, then place in the document.
    pub(crate) by_label: Vec<ObjectId>,
    /// No number of an object below is free.
    pub(crate) free_object: usize,
    /// No number of a slot below is free.
    pub(crate) free_slot: usize,
    /// What the references of each slot's expression lead to, by the slot's number. None until
    /// `resolve_references` works it out, and again after each primitive, also one that finds no memory.
    pub(crate) reached: Option<Vec<Vec<Option<SlotId>>>>,
}

impl Model for Tables {
    ghost use Rattle.std.specs.Coded.{codes};
    ghost use Rattle.expr_tree.specs.contracts.expr.Expr as e;
    ghost use Rattle.doc_tables.specs.Numbered.{Numbered};

    ghost Value = { Numbered };

    ghost coded = { Prim.hlevel (codes, e.the_row.coded) };

    ghost use Rattle.doc_tables.specs.Held.{numbered_held, IsHeld};

    ghost view = { numbered_held };

    ghost invariant = { IsHeld };
}

/// The same properties.
fn copy_properties(
    alloc: Global,
    properties: &IndexMap<Name, PropertyEntry>,
) -> Result<IndexMap<Name, PropertyEntry>, AllocError>
    ensures { IfOk result (λ copies. copies.entries ≡ properties.now.entries) }
{
    let mut copies = IndexMap::new(alloc);
    for (name, entry) in properties {
        let name = name.copy(alloc)?;
        let entry = entry.copy(alloc)?;
        insert_property(&mut copies, name, entry)?;
    }
    Ok(copies)
}

/// The same objects.
fn copy_objects(
    alloc: Global,
    objects: &IndexMap<Name, ObjectEntry>,
) -> Result<IndexMap<Name, ObjectEntry>, AllocError>
    ensures { IfOk result (λ copies. map shown copies.entries ≡ map shown objects.now.entries) }
{
    let mut copies = IndexMap::new(alloc);
    for (name, entry) in objects {
        let name = name.copy(alloc)?;
        let label = entry.label.copy(alloc)?;
        let properties = copy_properties(alloc, &entry.properties)?;
        let number = entry.number;
        let entry = ObjectEntry {
            number,
            label,
            properties,
        };
        insert_object(&mut copies, name, entry)?;
    }
    Ok(copies)
}

/// An equal name, where there is one.
fn copy_name(alloc: Global, name: &Option<Name>) -> Result<Option<Name>, AllocError>
    ensures { IfOk result (λ copy. copy ≡ name.now) }
{
    match name {
        Some(name) => Ok(Some(name.copy(alloc)?)),
        None => Ok(None),
    }
}

/// The same names.
fn copy_names(alloc: Global, names: &Vec<Option<Name>>) -> Result<Vec<Option<Name>>, AllocError>
    ensures { IfOk result (λ copies. copies.items ≡ names.now.items) }
{
    let mut copies = Vec::new(alloc);
    for name in names {
        copies.push(copy_name(alloc, name)?)?;
    }
    Ok(copies)
}

/// An equal key, where there is one.
fn copy_key(alloc: Global, key: &Option<SlotKey>) -> Result<Option<SlotKey>, AllocError>
    ensures { IfOk result (λ copy. copy ≡ key.now) }
{
    match key {
        Some(key) => Ok(Some(key.copy(alloc)?)),
        None => Ok(None),
    }
}

/// The same keys.
fn copy_keys(alloc: Global, keys: &Vec<Option<SlotKey>>) -> Result<Vec<Option<SlotKey>>, AllocError>
    ensures { IfOk result (λ copies. copies.items ≡ keys.now.items) }
{
    let mut copies = Vec::new(alloc);
    for key in keys {
        copies.push(copy_key(alloc, key)?)?;
    }
    Ok(copies)
}

/// The same numbers.
fn copy_numbers(alloc: Global, numbers: &Vec<ObjectId>) -> Result<Vec<ObjectId>, AllocError>
    ensures { IfOk result (λ copies. copies.items ≡ numbers.now.items) }
{
    let mut copies = Vec::new(alloc);
    for number in numbers {
        copies.push(*number)?;
    }
    Ok(copies)
}

impl Tables {
    /// The tables of a document without objects.
    pub fn new(alloc: Global) -> Tables
        ensures { result ≡ record { document = document_held []; objects = []; slots = [] } }
    {
        Tables {
            objects: IndexMap::new(alloc),
            object_names: Vec::new(alloc),
            slot_keys: Vec::new(alloc),
            by_label: Vec::new(alloc),
            free_object: 0,
            free_slot: 0,
            reached: None,
        }
    }

    /// Equal tables, with the same numbers. This costs as much as the document is large. What references
    /// lead to is not copied.
    pub fn copy(&self, alloc: Global) -> Result<Tables, AllocError>
        ensures { IfOk result (λ tables. tables ≡ self.now) }
    {
        let objects = copy_objects(alloc, &self.objects)?;
        let object_names = copy_names(alloc, &self.object_names)?;
        let slot_keys = copy_keys(alloc, &self.slot_keys)?;
        let by_label = copy_numbers(alloc, &self.by_label)?;
        Ok(Tables {
            objects,
            object_names,
            slot_keys,
            by_label,
            free_object: self.free_object,
            free_slot: self.free_slot,
            reached: None,
        })
    }

    /// Nothing to do: the document is one of the product.
    pub fn is_well_formed(&self)
        ensures { IsWellFormed self.now.document }
    {
        let _ = &self.objects; // for the proof
    }

    /// Nothing to do: the objects are VarSets, and the expressions those of their slots.
    pub fn holds_var_sets(&self)
        ensures { HoldsVarSets self.now.document }
    {
        let _ = &self.objects; // for the proof
    }

    /// Nothing to do: numbers in use and slots are one to one, and so are numbers and objects.
    pub fn is_numbered(&self)
        ensures { IsNumbered self.now }
    {
        slot_test_is_exact(); // for the proof
        let _ = &self.objects; // for the proof
    }

    /// Nothing to do: no slot stands twice in the document.
    pub fn has_distinct_slots(&self)
        ensures { IsDistinct same_slot (slots self.now.document) }
    {
        let _ = &self.objects; // for the proof
    }
}
