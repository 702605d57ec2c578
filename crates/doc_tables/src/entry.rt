ghost use Rattle.std.specs.Prelude.{◌≡◌, IfOk};

use document_model::Content;
use fc_base::{Label, Name, ObjectId, SlotId};
use indexmap::IndexMap;
use property_types::PropType;
use std::alloc::{AllocError, Global};

/// A dynamic property of one slot: the slot's number, the type, and what stands in it.
#[derive(Drop)]
pub struct PropertyEntry {
    pub slot: SlotId,
    pub prop: PropType,
    pub content: Content,
}

/// A VarSet: its number, its label, and its properties in their order.
#[derive(Drop)]
pub struct ObjectEntry {
    pub number: ObjectId,
    pub label: Label,
    pub properties: IndexMap<Name, PropertyEntry>,
}

/// The slot of a property, by the names of its object and of the property.
#[derive(Drop)]
pub struct SlotKey {
    pub object: Name,
    pub property: Name,
}

/// Where a slot stands: the place of its object, and that of its property in the object.
#[derive(Clone, Copy, Debug, PartialEq, Eq)]
pub struct SlotPlace {
    pub object: usize,
    pub property: usize,
}

/// An equal content.
fn copy_content(alloc: Global, content: &Content) -> Result<Content, AllocError>
    ensures { IfOk result (λ copy. copy ≡ content.now) }
{
    match content {
        Content::Own(value) => Ok(Content::Own(value.copy(alloc)?)),
        Content::Bound(expression) => Ok(Content::Bound(expression.copy(alloc)?)),
    }
}

impl PropertyEntry {
    /// An equal entry.
    pub(crate) fn copy(&self, alloc: Global) -> Result<PropertyEntry, AllocError>
        ensures { IfOk result (λ copy. copy ≡ self.now) }
    {
        Ok(PropertyEntry {
            slot: self.slot,
            prop: self.prop.copy(alloc)?,
            content: copy_content(alloc, &self.content)?,
        })
    }
}

impl SlotKey {
    /// An equal key.
    pub(crate) fn copy(&self, alloc: Global) -> Result<SlotKey, AllocError>
        ensures { IfOk result (λ copy. copy ≡ self.now) }
    {
        let object = self.object.copy(alloc)?;
        let property = self.property.copy(alloc)?;
        Ok(SlotKey { object, property })
    }
}
