//! Which names the properties of VarSets may have.
ghost use Rattle.std.specs.Prelude.{◌≡◌};
ghost use Rattle.property_types.specs.Reserved.{is_reserved};
ghost use Rattle.property_types.specs.SoundPlans.{is_property_name};

use fc_base::Name;

/// Whether the document keeps the name for itself, so that no property has it.
fn is_reserved(name: &str) -> bool
    ensures { result ≡ is_reserved name.now }
{
    matches!(
        name,
        "Label"
            | "ExpressionEngine"
            | "Placement"
            | "LinkTransform"
            | "LinkedObject"
            | "Links"
            | "Global"
            | "cells"
            | "Overrides"
    )
}

/// Whether a property may have the name.
pub fn is_property_name(name: &Name) -> bool
    ensures { result ≡ is_property_name name.now }
{
    !is_reserved(name.as_str())
}
