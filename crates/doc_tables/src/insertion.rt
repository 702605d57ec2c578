ghost use Rattle.std.specs.Prelude.{◌≡◌, ◌∷◌, ◌++◌, [], nat_eq, None, OnErr, OnOk};
ghost use Rattle.std.specs.Cmp.Lexicographic.{pointwise};
ghost use Rattle.indexmap.specs.IndexMap.{get};

use crate::entry::{ObjectEntry, PropertyEntry};
use fc_base::Name;
use indexmap::IndexMap;
use std::alloc::AllocError;

/// Inserts a property behind those that are there.
pub(crate) fn insert_property(
    properties: &mut IndexMap<Name, PropertyEntry>,
    name: Name,
    entry: PropertyEntry,
) -> Result<(), AllocError>
    requires { get (pointwise nat_eq) properties.old name ≡ None }
    ensures added { OnOk result (properties.new.entries ≡ properties.old.entries ++ (name, entry) ∷ []) }
    ensures unchanged { OnErr result (properties.new.entries ≡ properties.old.entries) }
{
    properties.insert(name, entry)?;
    Ok(())
}

/// Inserts an object behind those that are there.
pub(crate) fn insert_object(
    objects: &mut IndexMap<Name, ObjectEntry>,
    name: Name,
    entry: ObjectEntry,
) -> Result<(), AllocError>
    requires { get (pointwise nat_eq) objects.old name ≡ None }
    ensures added { OnOk result (objects.new.entries ≡ objects.old.entries ++ (name, entry) ∷ []) }
    ensures unchanged { OnErr result (objects.new.entries ≡ objects.old.entries) }
{
    objects.insert(name, entry)?;
    Ok(())
}
