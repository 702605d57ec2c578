//! Which objects may stand together in a document of the first form.

ghost use Rattle.std.specs.Prelude.{◌≡◌, nat_le, map, sum_by, length, IfOk};
ghost use Rattle.std.specs.List.{list_all};
ghost use Rattle.property_types.specs.Reserved.{are_distinct};
ghost use Rattle.property_types.specs.SoundPlans.{is_property_name};
ghost use Rattle.fcdoc_file.specs.FirstForm.{has_own_names, is_within_limits, stands_together};
ghost use Rattle.fcdoc_file.specs.Rows.{object_of};

use crate::var_set::{FloatProperty, Named, VarSet};
use doc_tables::is_property_name;
use doc_tables::limits::{MOST_OBJECTS, MOST_SLOTS};
use indexmap::IndexSet;
use std::alloc::{AllocError, Global};

/// Whether each property has a name that properties may have.
fn have_property_names(properties: &[FloatProperty]) -> bool
    ensures { result ≡ list_all (λ p. is_property_name p.name) properties.now }
{
    properties
        .iter()
        .all(|property| is_property_name(&property.name))
}

/// Whether no two have one name.
fn are_distinct<T: Named>(alloc: Global, items: &[T]) -> Result<bool, AllocError>
    ensures { IfOk result (λ answer. answer ≡ are_distinct (map T.name items.now)) }
{
    let mut seen = IndexSet::new(alloc);
    for item in items {
        if !seen.insert(item.name().as_str())? {
            return Ok(false);
        }
    }
    Ok(true)
}

/// Whether the properties of an object have names of their own, which properties may have.
fn has_own_names(alloc: Global, object: &VarSet) -> Result<bool, AllocError>
    ensures { IfOk result (λ answer. answer ≡ has_own_names (object_of object.now)) }
{
    Ok(have_property_names(&object.properties) && are_distinct(alloc, &object.properties)?)
}

/// Whether each object's properties have names of their own.
fn all_have_own_names(alloc: Global, objects: &[VarSet]) -> Result<bool, AllocError>
    ensures { IfOk result (λ answer. answer ≡ list_all has_own_names (map object_of objects.now)) }
{
    for object in objects {
        if !has_own_names(alloc, object)? {
            return Ok(false);
        }
    }
    Ok(true)
}

/// Whether there are no more objects and properties than a document may have.
fn is_within_limits(objects: &[VarSet]) -> bool
    ensures { result ≡ is_within_limits (map object_of objects.now) }
{
    let mut left = MOST_SLOTS as usize;
    for object in objects {
        if object.properties.len() > left {
            return false;
        }
        left -= object.properties.len();
    }
    objects.len() <= MOST_OBJECTS as usize
}

/// Whether the objects may stand together: no name twice, and within the limits.
pub(crate) fn stand_together(alloc: Global, objects: &[VarSet]) -> Result<bool, AllocError>
    ensures { IfOk result (λ answer. answer ≡ stands_together (map object_of objects.now)) }
{
    Ok(
        is_within_limits(objects)
            && are_distinct(alloc, objects)?
            && all_have_own_names(alloc, objects)?,
    )
}
