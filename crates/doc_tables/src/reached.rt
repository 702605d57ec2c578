//! What the references of expressions lead to, worked out for all slots in one pass. Each primitive drops
//! it; until it is worked out again a reference is resolved when it is asked for.
ghost use Rattle.std.specs.Prelude.{◌≡◌, count_by, is_some, min, map, IfOk, IsSome};
ghost use Rattle.expr_tree.specs.ListedReferences.{reference_of};
ghost use Rattle.doc_tables.specs.Accessors.{AreReached, IsNumberOf, reached_at};
ghost use Rattle.doc_tables.specs.DependencyLists.{list_at};
ghost use Rattle.doc_tables.specs.Entries.{reached_by};
ghost use Rattle.doc_tables.specs.Numbered.{name_at, slot_at};
ghost use Rattle.doc_tables.specs.Reached.{AreAllReached, lists_of, dependencies_in_objects, dependencies_in_properties};

use crate::entry::{ObjectEntry, PropertyEntry};
use crate::tables::Tables;
use document_model::Content;
use expr_tree::{Reference, references};
use fc_base::{Name, ObjectId, SlotId};
use indexmap::IndexMap;
use std::alloc::{AllocError, Global};

/// The list of a number; empty past the last.
fn list_at(lists: &Vec<Vec<Option<SlotId>>>, number: u32) -> &[Option<SlotId>]
    ensures { result.now ≡ list_at (lists_of lists.now.items) number }
{
    match lists.get(number as usize) {
        Some(list) => list.as_slice(),
        None => &[],
    }
}

/// An equal list.
fn copy_references(
    alloc: Global,
    list: &[Option<SlotId>],
) -> Result<Vec<Option<SlotId>>, AllocError>
    ensures { IfOk result (λ v. v.items ≡ list.now) }
{
    list.iter().copied().collect(alloc)
}

/// How many lead to a slot.
fn present_count(list: &[Option<SlotId>]) -> u64
    ensures { result ≡ count_by is_some list.now }
{
    list.iter().filter(|slot| slot.is_some()).count() as u64
}

/// How many references of properties lead to a slot, at most `u64::MAX`.
fn dependencies_in_properties(
    properties: &IndexMap<Name, PropertyEntry>,
    lists: &Vec<Vec<Option<SlotId>>>,
) -> u64
    ensures { result ≡ min (dependencies_in_properties (lists_of lists.now.items) properties.now.entries) u64.MAX }
{
    let mut count: u64 = 0;
    for (_, entry) in properties {
        count = count.saturating_add(present_count(list_at(lists, entry.slot.0)));
    }
    count
}

/// How many references of objects lead to a slot, at most `u64::MAX`.
pub(crate) fn dependencies_in_objects(
    objects: &IndexMap<Name, ObjectEntry>,
    lists: &Vec<Vec<Option<SlotId>>>,
) -> u64
    ensures { result ≡ min (dependencies_in_objects (lists_of lists.now.items) objects.now.entries) u64.MAX }
{
    let mut count: u64 = 0;
    for (_, object) in objects {
        count = count.saturating_add(dependencies_in_properties(&object.properties, lists));
    }
    count
}

impl Tables {
    /// The slot that a reference of an object's expression names.
    fn slot_reached(&self, owner: ObjectId, reference: Reference<'_>) -> Option<SlotId>
        requires { IsSome (name_at self.now owner.0) }
        ensures { IsNumberOf self.now result (reached_by self.now owner.0 (reference_of reference.entry)) }
    {
        match reference {
            Reference::ToPath(path) => self.resolve(owner, path),
            Reference::ToArea(_) => None,
        }
    }

    /// The slots that references of an object's expression name.
    fn slots_reached(
        &self,
        alloc: Global,
        owner: ObjectId,
        all: &[Reference<'_>],
    ) -> Result<Vec<Option<SlotId>>, AllocError>
        requires { IsSome (name_at self.now owner.0) }
        ensures { IfOk result (λ v. AreReached self.now v.items
            (map (λ r. reached_by self.now owner.0 (reference_of r)) all.now)) }
    {
        let mut found = Vec::new(alloc);
        for reference in all {
            found.push(self.slot_reached(owner, *reference))?;
        }
        Ok(found)
    }

    /// What the references of a slot's expression name, each resolved.
    fn resolved_of(&self, alloc: Global, slot: SlotId) -> Result<Vec<Option<SlotId>>, AllocError>
        requires { IsSome (slot_at self.now slot.0) }
        ensures { IfOk result (λ v. AreReached self.now v.items (reached_at self.now slot.0)) }
    {
        let owner = self.owner_of(slot);
        match &self.entry_of(slot).content {
            Content::Own(_) => Ok(Vec::new(alloc)),
            Content::Bound(tree) => {
                let all = references(alloc, tree)?;
                self.slots_reached(alloc, owner, &all)
            }
        }
    }

    /// The same of the slot of a number, where there is one.
    fn resolved_at(&self, alloc: Global, number: u32) -> Result<Vec<Option<SlotId>>, AllocError>
        ensures { IfOk result (λ v. IsSome (slot_at self.now number) → AreReached self.now v.items (reached_at self.now number)) }
    {
        if self.is_slot(number) {
            self.resolved_of(alloc, SlotId(number))
        } else {
            Ok(Vec::new(alloc))
        }
    }

    /// By numbers, what the references of all expressions name, each resolved.
    fn all_resolved(&self, alloc: Global) -> Result<Vec<Vec<Option<SlotId>>>, AllocError>
        ensures { IfOk result (λ v. AreAllReached self.now (lists_of v.items)) }
    {
        let mut lists = Vec::new(alloc);
        for number in 0..self.slot_limit() {
            lists.push(self.resolved_at(alloc, number)?)?;
        }
        Ok(lists)
    }

    /// Resolves each reference of the document once and keeps what they lead to, unless that is kept.
    /// Nothing that can be asked for changes. Until the next change, asking for references resolves none.
    pub fn resolve_references(&mut self) -> Result<(), AllocError>
        ensures { self.new ≡ self.old }
    {
        if self.reached.is_none() {
            let lists = self.all_resolved(*self.objects.allocator())?;
            self.reached = Some(lists);
        }
        Ok(())
    }

    /// What the paths of a slot's expression name, from the left: the number of a slot each, or none
    /// where a path names no slot, and for an area. There are none where the rule is no expression.
    /// The list is copied. Unless `resolve_references` was called since the last change, each reference
    /// is resolved for it.
    pub fn references_of(
        &self,
        alloc: Global,
        slot: SlotId,
    ) -> Result<Vec<Option<SlotId>>, AllocError>
        requires { IsSome (slot_at self.now slot.0) }
        ensures { IfOk result (λ v. AreReached self.now v.items (reached_at self.now slot.0)) }
    {
        match &self.reached {
            Some(lists) => copy_references(alloc, list_at(lists, slot.0)),
            None => self.resolved_of(alloc, slot),
        }
    }
}
