//! Objects by label: their numbers in the order of label, then place in the document. Labels are read where
//! they stand, in the objects, so the list has no copy of them.
ghost use Rattle.std.specs.Prelude.{◌≡◌, ◌<◌, ◌≤◌, false, nat_eq, not, length, vec_len, vec_capacity, insert, slice_get};
ghost use Rattle.std.specs.List.{filter, position_or_len};
ghost use Rattle.std.specs.List.Sorted.{IsPartitionedBy};
ghost use Rattle.std.specs.Option.{option_copied};
ghost use Rattle.doc_tables.specs.Labels.{text_before, label_at, stands_before, has_label, first_of_label};
ghost use Rattle.object_paths.specs.Slots.{same_text};

use crate::entry::ObjectEntry;
use fc_base::{Label, Name, ObjectId};
use indexmap::IndexMap;
use std::cmp::Ordering;

/// Whether another text is less than a text, or not greater where `equal` is true.
fn text_before(text: &str, other: &str, equal: bool) -> bool
    ensures { result ≡ text_before equal text.now other.now }
{
    match other.cmp(text) {
        Ordering::Less => true,
        Ordering::Equal => equal,
        Ordering::Greater => false,
    }
}

/// The label of the object of a number, where there is one.
fn label_at<'a>(
    names: &Vec<Option<Name>>,
    objects: &'a IndexMap<Name, ObjectEntry>,
    number: u32,
) -> Option<&'a Label>
    ensures { option_copied result ≡ label_at names.now.items objects.now.entries number }
{
    match names.get(number as usize) {
        Some(Some(name)) => match objects.get(name) {
            Some(entry) => Some(&entry.label),
            None => None,
        },
        _ => None,
    }
}

/// Whether an object has a label that is less, or not greater where `equal` is true.
fn stands_before(
    names: &Vec<Option<Name>>,
    objects: &IndexMap<Name, ObjectEntry>,
    number: ObjectId,
    text: &str,
    equal: bool,
) -> bool
    ensures { result ≡ stands_before names.now.items objects.now.entries equal text.now number }
{
    match label_at(names, objects, number.0) {
        Some(label) => text_before(text, label.as_str(), equal),
        None => false,
    }
}

/// Whether an object has that label.
fn has_label(
    names: &Vec<Option<Name>>,
    objects: &IndexMap<Name, ObjectEntry>,
    number: ObjectId,
    text: &str,
) -> bool
    ensures { result ≡ has_label names.now.items objects.now.entries text.now number }
{
    match label_at(names, objects, number.0) {
        Some(label) => label.as_str() == text,
        None => false,
    }
}

/// How many objects have labels that are less, or not greater where `equal` is true. The order is cut in
/// halves.
pub(crate) fn count_before(
    by_label: &Vec<ObjectId>,
    names: &Vec<Option<Name>>,
    objects: &IndexMap<Name, ObjectEntry>,
    text: &str,
    equal: bool,
) -> usize
    ensures bound { result ≤ length by_label.now.items }
    ensures value { IsPartitionedBy (stands_before names.now.items objects.now.entries equal text.now) by_label.now.items
        → result ≡ position_or_len (λ id. not (stands_before names.now.items objects.now.entries equal text.now id)) by_label.now.items }
{
    by_label.as_slice().partition_point(
        |id: &ObjectId| -> bool
            ensures { result ≡ stands_before names.entry.now.items objects.entry.now.entries equal text.entry.now id.now }
        { stands_before(names, objects, *id, text, equal) },
    )
}

/// The number at a place, where there is one.
fn number_at(by_label: &Vec<ObjectId>, place: usize) -> Option<ObjectId>
    ensures { result ≡ slice_get by_label.now.items place }
{
    match by_label.get(place) {
        Some(id) => Some(*id),
        None => None,
    }
}

/// The first object of that label.
pub(crate) fn first_labelled(
    by_label: &Vec<ObjectId>,
    names: &Vec<Option<Name>>,
    objects: &IndexMap<Name, ObjectEntry>,
    text: &str,
) -> Option<ObjectId>
    ensures { IsPartitionedBy (stands_before names.now.items objects.now.entries false text.now) by_label.now.items
        → result ≡ first_of_label names.now.items objects.now.entries text.now by_label.now.items }
{
    let place = count_before(by_label, names, objects, text, false);
    match number_at(by_label, place) {
        Some(id) => {
            if has_label(names, objects, id, text) {
                Some(id)
            } else {
                None
            }
        }
        None => None,
    }
}

/// Inserts a number at a place. There is room for it.
pub(crate) fn insert_number(by_label: &mut Vec<ObjectId>, place: usize, number: ObjectId)
    requires within { place ≤ vec_len by_label.old }
    requires room { vec_len by_label.old < vec_capacity by_label.old }
    ensures { by_label.new.items ≡ insert by_label.old.items place number }
{
    by_label.insert(place, number).unwrap();
}

/// Takes a number out. All are gone through.
pub(crate) fn take_number(by_label: &mut Vec<ObjectId>, number: ObjectId)
    ensures { by_label.new.items ≡ filter (λ id. not (nat_eq id.0 number.0)) by_label.old.items }
{
    by_label.retain(
        |id: &ObjectId| -> bool
            ensures { result ≡ not (nat_eq id.now.0 number.0) }
        { id.0 != number.0 },
    );
}
