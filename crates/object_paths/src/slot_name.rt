ghost use Rattle.std.specs.Prelude.{◌≡◌, IfOk};
ghost use Rattle.object_paths.specs.PathParts.{component_of};

use fc_base::{Address, Name};
use std::alloc::{AllocError, Global};

/// A part of a placement: a coordinate of its base, `Base.x`, `Base.y` or `Base.z`, or its quarter
/// turn, `Rotation.Turn`.
#[derive(Clone, Copy, Debug, PartialEq, Eq, PartialOrd, Ord)]
pub enum Component {
    X,
    Y,
    Z,
    Turn,
}

impl Component {
    /// The component whose last two names these are: `Base` and `x`, or `Rotation` and `Turn`.
    pub fn named(group: &str, part: &str) -> Option<Component>
        ensures { result ≡ component_of group.now part.now }
    {
        match group {
            "Base" => match part {
                "x" => Some(Component::X),
                "y" => Some(Component::Y),
                "z" => Some(Component::Z),
                _ => None,
            },
            "Rotation" if part == "Turn" => Some(Component::Turn),
            _ => None,
        }
    }
}

/// The name of a slot in its object: a property or an alias, `Width`; a component of a placement,
/// `Placement.Base.x`; or a cell with marks, `$A$1`.
#[derive(Debug, PartialEq, Eq, PartialOrd, Ord, Drop)]
pub enum SlotName {
    Plain(Name),
    Component(Name, Component),
    Marked(Address),
}

impl SlotName {
    /// An equal slot name.
    pub fn copy(&self, alloc: Global) -> Result<SlotName, AllocError>
        ensures { IfOk result (λ slot. slot ≡ self.now) }
    {
        match self {
            SlotName::Plain(name) => Ok(SlotName::Plain(name.copy(alloc)?)),
            SlotName::Component(name, part) => Ok(SlotName::Component(name.copy(alloc)?, *part)),
            SlotName::Marked(address) => Ok(SlotName::Marked(*address)),
        }
    }
}
