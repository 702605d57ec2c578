ghost use Rattle.std.specs.Prelude.{◌≡◌, ◌<◌, ◌^◌, ◌++◌, length, map, is_some, IfOk, IfSome, IsSome, IsSomeAnd, IsTrue, OnOk, Some, option_map, slice_get, string_bytes};
ghost use Rattle.std.specs.List.{flat_map};
ghost use Rattle.std.specs.Option.{option_and_then};
ghost use Rattle.fc_base.specs.Texts.{is_text_value};
ghost use Rattle.expr_tree.specs.References.{reference_count};
ghost use Rattle.document_model.specs.Slots.{slots, type_of};
ghost use Rattle.doc_tables.specs.Accessors.{AreNumbersOf, IsNumberOf, IsRule, IsShape, outside_path, own_at, rule_at, tree_at};
ghost use Rattle.doc_tables.specs.Entries.{IsEntryOf, numbers_in};
ghost use Rattle.doc_tables.specs.Held.{slot_of_key};
ghost use Rattle.doc_tables.specs.Numbered.{name_at, slot_at};

use crate::entry::{ObjectEntry, PropertyEntry, SlotKey};
use crate::numbers::{is_used, thing_at};
use crate::rule::Rule;
use crate::tables::Tables;
use document_model::Content;
use expr_tree::Expr;
use fc_base::{Name, ObjectId, SlotId};
use indexmap::IndexMap;
use object_paths::{SlotName, slot_path};
use property_types::{PropType, Value};
use std::alloc::{AllocError, Global};

/// Lists the slots of an object behind those so far.
fn push_slots(
    properties: &IndexMap<Name, PropertyEntry>,
    out: &mut Vec<SlotId>,
) -> Result<(), AllocError>
    ensures { OnOk result (out.new.items ≡ out.old.items ++ map (λ e. e.1.slot) properties.now.entries) }
{
    for (_, entry) in properties {
        out.push(entry.slot)?;
    }
    Ok(())
}

/// The slots of all objects in their order.
fn numbers_in_order(
    alloc: Global,
    objects: &IndexMap<Name, ObjectEntry>,
) -> Result<Vec<SlotId>, AllocError>
    ensures { IfOk result (λ v. v.items ≡ flat_map numbers_in objects.now.entries) }
{
    let mut all = Vec::new(alloc);
    for (_, object) in objects {
        push_slots(&object.properties, &mut all)?;
    }
    Ok(all)
}

/// The slot at a place of the list of all slots.
fn number_at_place(objects: &IndexMap<Name, ObjectEntry>, place: usize) -> Option<SlotId>
    ensures { result ≡ slice_get (flat_map numbers_in objects.now.entries) place }
{
    let mut left = place;
    for (_, object) in objects {
        let count = object.properties.len();
        if left < count {
            let (_, entry) = object.properties.get_index(left).unwrap();
            return Some(entry.slot);
        }
        left -= count;
    }
    None
}

impl Tables {
    /// The names of a slot.
    fn key_of(&self, slot: SlotId) -> &SlotKey
        requires { IsSome (slot_at self.now slot.0) }
        ensures { Some (slot_of_key result.now) ≡ slot_at self.now slot.0 }
    {
        thing_at(&self.slot_keys, slot.0)
    }

    /// What stands in a slot.
    pub(crate) fn entry_of(&self, slot: SlotId) -> &PropertyEntry
        requires { IsSome (slot_at self.now slot.0) }
        ensures { IsEntryOf self.now slot.0 result.now }
    {
        let key = thing_at(&self.slot_keys, slot.0);
        let object = self.objects.get(&key.object).unwrap();
        object.properties.get(&key.property).unwrap()
    }

    /// Whether a number is that of a slot.
    pub(crate) fn is_slot(&self, number: u32) -> bool
        ensures { result ≡ is_some (slot_at self.now number) }
    {
        is_used(&self.slot_keys, number)
    }

    /// One above the greatest number that a slot has had.
    pub fn slot_limit(&self) -> u32
        ensures { result ≡ length self.now.slots }
    {
        self.slot_keys.len() as u32
    }

    /// The type of a slot; none exactly for a cell.
    pub fn type_of(&self, slot: SlotId) -> Option<&PropType>
        requires { IsSome (slot_at self.now slot.0) }
        ensures { option_map (λ p. p.now) result ≡ option_and_then (type_of self.now.document) (slot_at self.now slot.0) }
    {
        let entry = self.entry_of(slot);
        Some(&entry.prop)
    }

    /// The own value of a slot; none exactly where its rule is another.
    pub fn own_value(&self, slot: SlotId) -> Option<&Value>
        requires { IsSome (slot_at self.now slot.0) }
        ensures { option_map (λ v. v.now) result ≡ own_at self.now slot.0 }
    {
        match &self.entry_of(slot).content {
            Content::Own(value) => Some(value),
            Content::Bound(_) => None,
        }
    }

    /// The shape of a slot's expression; none exactly where its rule is another. Which paths and areas
    /// stand in it is not said: `references_of` tells what each of its references leads to, and `bound_of`
    /// answers the expression as it is written.
    pub fn shape_of(&self, slot: SlotId) -> Option<&Expr>
        requires { IsSome (slot_at self.now slot.0) }
        ensures shape { IsShape (tree_at self.now slot.0) (option_map (λ e. e.now) result) }
        ensures references { IfSome result (λ e. reference_count e.now < 2 ^ 32) }
    {
        match &self.entry_of(slot).content {
            Content::Own(_) => None,
            Content::Bound(expression) => Some(expression),
        }
    }

    /// The rule of a slot.
    pub fn rule_of(&self, slot: SlotId) -> Rule
        requires { IsSome (slot_at self.now slot.0) }
        ensures { IsSomeAnd (rule_at self.now slot.0) (IsRule self.now result) }
    {
        match &self.entry_of(slot).content {
            Content::Own(_) => Rule::Own,
            Content::Bound(_) => Rule::Bound,
        }
    }

    /// A copy of the expression of a slot as it is written; none exactly where its rule is another. The
    /// cost grows with its nodes.
    pub fn bound_of(&self, alloc: Global, slot: SlotId) -> Result<Option<Expr>, AllocError>
        requires { IsSome (slot_at self.now slot.0) }
        ensures { IfOk result (λ e. e ≡ tree_at self.now slot.0) }
    {
        match &self.entry_of(slot).content {
            Content::Own(_) => Ok(None),
            Content::Bound(expression) => Ok(Some(expression.copy(alloc)?)),
        }
    }

    /// The object of a slot.
    pub fn owner_of(&self, slot: SlotId) -> ObjectId
        requires { IsSome (slot_at self.now slot.0) }
        ensures { name_at self.now result.0 ≡ option_map (λ s. s.object) (slot_at self.now slot.0) }
    {
        let key = thing_at(&self.slot_keys, slot.0);
        self.objects.get(&key.object).unwrap().number
    }

    /// All slots, in the order of the document. Each is visited.
    pub fn slots_in_order(&self, alloc: Global) -> Result<Vec<SlotId>, AllocError>
        ensures { IfOk result (λ v. AreNumbersOf self.now v.items (slots self.now.document)) }
    {
        numbers_in_order(alloc, &self.objects)
    }

    /// The path of a slot from outside, such as `V.a`. It is short enough, and has no character, that
    /// a text value could not have.
    pub fn path_of(&self, alloc: Global, slot: SlotId) -> Result<String, AllocError>
        requires { IsSome (slot_at self.now slot.0) }
        ensures path { IfOk result (λ text. Some (string_bytes text) ≡ option_map outside_path (slot_at self.now slot.0)) }
        ensures value { IfOk result (λ text. IsTrue (is_text_value (string_bytes text))) }
    {
        let key = self.key_of(slot);
        let path = slot_path(
            alloc,
            &key.object,
            &SlotName::Plain(key.property.copy(alloc)?),
        )?;
        String::from_str(alloc, path.as_str())
    }

    /// The slot at a place of the document, from 0; none exactly past the last. The objects are counted
    /// from the first; for all slots ask `slots_in_order`.
    pub fn slot_at(&self, place: u32) -> Option<SlotId>
        ensures { IsNumberOf self.now result (slice_get (slots self.now.document) place) }
    {
        number_at_place(&self.objects, place as usize)
    }
}
