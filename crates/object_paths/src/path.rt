ghost use Rattle.std.specs.Prelude.{◌≡◌, IfOk};

use crate::slot_name::SlotName;
use fc_base::{Label, Name};
use std::alloc::{AllocError, Global};

/// Whose slot a path names: the object's own, as in `Width`; that of the object of a name, as in
/// `Box.Width`; or that of the object of a label, as in `<<My box>>.Width`.
#[derive(Debug, PartialEq, Eq, Drop)]
pub enum Owner {
    Here,
    ByName(Name),
    ByLabel(Label),
}

/// A path to a slot.
#[derive(Debug, PartialEq, Eq, Drop)]
pub struct Path {
    pub owner: Owner,
    pub slot: SlotName,
}

impl Owner {
    /// An equal owner.
    pub fn copy(&self, alloc: Global) -> Result<Owner, AllocError>
        ensures { IfOk result (λ owner. owner ≡ self.now) }
    {
        match self {
            Owner::Here => Ok(Owner::Here),
            Owner::ByName(name) => Ok(Owner::ByName(name.copy(alloc)?)),
            Owner::ByLabel(label) => Ok(Owner::ByLabel(label.copy(alloc)?)),
        }
    }
}

impl Path {
    /// An equal path.
    pub fn copy(&self, alloc: Global) -> Result<Path, AllocError>
        ensures { IfOk result (λ path. path ≡ self.now) }
    {
        let owner = self.owner.copy(alloc)?;
        let slot = self.slot.copy(alloc)?;
        Ok(Path { owner, slot })
    }
}
