ghost use Rattle.std.specs.Prelude.{◌≡◌, ℕ, ◌<◌, map, IfOk, IsSome, Some};
ghost use Rattle.doc_tables.specs.Accessors.{AreNumbersOf, deps_at};
ghost use Rattle.doc_tables.specs.DependencyLists.{AreDependencyLists};
ghost use Rattle.doc_tables.specs.Entries.{present};
ghost use Rattle.doc_tables.specs.Numbered.{slot_at};

use crate::tables::Tables;
use fc_base::SlotId;
use std::alloc::{AllocError, Global};

/// The numbers that are there.
fn present(alloc: Global, found: &[Option<SlotId>]) -> Result<Vec<SlotId>, AllocError>
    ensures { IfOk result (λ v. v.items ≡ present found.now) }
{
    found.iter().filter_map(|slot| *slot).collect(alloc)
}

/// The numbers of slots.
fn numbers(alloc: Global, slots: &[SlotId]) -> Result<Vec<u32>, AllocError>
    ensures { IfOk result (λ v. v.items ≡ map (λ id. id.0) slots.now) }
{
    slots.iter().map(|slot| slot.0).collect(alloc)
}

impl Tables {
    /// The slots on which a slot depends, in their order; one that is named again stands again. It costs
    /// as much as `references_of`.
    pub fn deps_of(&self, alloc: Global, slot: SlotId) -> Result<Vec<SlotId>, AllocError>
        requires { IsSome (slot_at self.now slot.0) }
        ensures { IfOk result (λ v. AreNumbersOf self.now v.items (deps_at self.now slot.0)) }
    {
        let _ = &self.objects; // for the proof
        let found = self.references_of(alloc, slot)?;
        present(alloc, &found)
    }

    /// The numbers of the slots on which the slot of a number depends; none where it is not in use.
    fn dependencies_at(&self, alloc: Global, number: u32) -> Result<Vec<u32>, AllocError>
        ensures { IfOk result (λ v. map (slot_at self.now) v.items ≡ map Some (deps_at self.now number)) }
    {
        if self.is_slot(number) {
            let found = self.deps_of(alloc, SlotId(number))?;
            numbers(alloc, &found)
        } else {
            Ok(Vec::new(alloc))
        }
    }

    /// For each number the numbers of the slots on which its slot depends, in their order and with
    /// repeats; none where a number is not in use.
    pub fn dependency_lists(&self, alloc: Global) -> Result<Vec<Vec<u32>>, AllocError>
        ensures { IfOk result (λ v. AreDependencyLists self.now (map (λ list. list.items) v.items)) }
    {
        let mut lists = Vec::new(alloc);
        for number in 0..self.slot_limit() {
            lists.push(self.dependencies_at(alloc, number)?)?;
        }
        Ok(lists)
    }
}
