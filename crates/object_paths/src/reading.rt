ghost use Rattle.std.specs.Prelude.{◌≡◌, map, Option, None, Some, IfOk, IsErrOf};
ghost use Rattle.fc_base.specs.Places.{address_of};
ghost use Rattle.fc_base.specs.Texts.{is_name, is_label};
ghost use Rattle.object_paths.specs.PathParts.{marked_slot, single_slot, component_slot, slot_of, owned, named_path, fronted_path, plain_path, labelled_slot, labelled_path, opened, path_behind, path_of};
ghost use Rattle.object_paths.specs.Read.{Reads};
ghost use Rattle.object_paths.specs.declared.slot_name.SlotName.{SlotName as Slot};

use crate::blanks::{parts, trimmed};
use crate::marks::{opened, until_closing};
use crate::path::{Owner, Path};
use crate::slot_name::{Component, SlotName};
use crate::writing::is_word;
use fc_base::{Address, Label, LabelFault, Name, NameFault};
use std::alloc::{AllocError, Global};
use thiserror::Error;

/// Why a text was not read as a path.
#[derive(Debug, Drop, Error)]
pub enum PathFault {
    /// It is no path.
    #[error("not a path")]
    BadPath,
    #[error("out of memory")]
    Memory(AllocError),
}

/// One part: a name or a marked address.
fn read_single(alloc: Global, text: &str) -> Result<SlotName, PathFault>
    ensures { Reads result (single_slot text.now) }
{
    match Name::read(alloc, text) {
        Ok(name) => Ok(SlotName::Plain(name)),
        Err(NameFault::Memory(error)) => Err(PathFault::Memory(error)),
        Err(NameFault::BadName) => read_marked(text).ok_or(PathFault::BadPath),
    }
}

/// A marked address.
fn read_marked(text: &str) -> Option<SlotName>
    ensures { result ≡ marked_slot (address_of text.now) }
{
    let address = Address::read(text)?;
    if address.fixed_column || address.fixed_row {
        Some(SlotName::Marked(address))
    } else {
        None
    }
}

/// Three parts: a component of a placement.
fn read_component_slot(
    alloc: Global,
    name: &str,
    group: &str,
    part: &str,
) -> Result<SlotName, PathFault>
    ensures { Reads result (component_slot name.now group.now part.now) }
{
    match Name::read(alloc, name) {
        Err(NameFault::BadName) => Err(PathFault::BadPath),
        Err(NameFault::Memory(error)) => Err(PathFault::Memory(error)),
        Ok(name) => match Component::named(group, part) {
            Some(component) => Ok(SlotName::Component(name, component)),
            None => Err(PathFault::BadPath),
        },
    }
}

/// The slot, of the parts behind the owner.
fn read_slot(alloc: Global, parts: &[&str]) -> Result<SlotName, PathFault>
    ensures { Reads result (slot_of (map (λ x. x.now) parts.now)) }
{
    match parts {
        [text] => read_single(alloc, text),
        [name, group, part] => read_component_slot(alloc, name, group, part),
        _ => Err(PathFault::BadPath),
    }
}

/// A path of that owner to that slot.
fn with_owner(owner: Owner, slot: Result<SlotName, PathFault>) -> Result<Path, PathFault>
    ensures { (expected : Option Slot) → Reads slot expected → Reads result (owned owner expected) }
{
    match slot {
        Ok(slot) => Ok(Path { owner, slot }),
        Err(fault) => Err(fault),
    }
}

/// A path of the object of that name.
fn read_named(alloc: Global, name: &str, parts: &[&str]) -> Result<Path, PathFault>
    ensures { Reads result (named_path name.now (map (λ x. x.now) parts.now)) }
{
    match Name::read(alloc, name) {
        Err(NameFault::BadName) => Err(PathFault::BadPath),
        Err(NameFault::Memory(error)) => Err(PathFault::Memory(error)),
        Ok(name) => with_owner(Owner::ByName(name), read_slot(alloc, parts)),
    }
}

/// A path of the object itself behind a leading dot, or of the object of a name.
fn read_fronted(alloc: Global, front: &str, rest: &[&str]) -> Result<Path, PathFault>
    ensures { Reads result (fronted_path front.now (map (λ x. x.now) rest.now)) }
{
    if front.is_empty() {
        with_owner(Owner::Here, read_slot(alloc, rest))
    } else {
        read_named(alloc, front, rest)
    }
}

/// A path without a label in front, of its parts.
fn read_plain(alloc: Global, parts: &[&str]) -> Result<Path, PathFault>
    ensures { Reads result (plain_path (map (λ x. x.now) parts.now)) }
{
    match parts {
        [] => Err(PathFault::BadPath),
        [text] if is_word(text) && Name::is_name(text) => Err(PathFault::BadPath),
        [text] => with_owner(Owner::Here, read_single(alloc, text)),
        [name, group, part] => {
            with_owner(Owner::Here, read_component_slot(alloc, name, group, part))
        }
        [front, rest @ ..] => read_fronted(alloc, front, rest),
    }
}

/// The slot behind a label: a dot, which leaves an empty part in front, and the slot.
fn read_behind_label(alloc: Global, parts: &[&str]) -> Result<SlotName, PathFault>
    ensures { Reads result (labelled_slot (map (λ x. x.now) parts.now)) }
{
    match parts {
        [front, rest @ ..] if front.is_empty() => read_slot(alloc, rest),
        _ => Err(PathFault::BadPath),
    }
}

/// A path with that label in front.
fn read_labelled(alloc: Global, label: &str, rest: &str) -> Result<Path, PathFault>
    ensures { Reads result (labelled_path (label.now, rest.now)) }
{
    let parts = parts(alloc, rest).map_err(PathFault::Memory)?;
    match Label::read(alloc, label) {
        Err(LabelFault::BadLabel) => Err(PathFault::BadPath),
        Err(LabelFault::Memory(error)) => Err(PathFault::Memory(error)),
        Ok(label) => with_owner(Owner::ByLabel(label), read_behind_label(alloc, &parts)),
    }
}

/// A path of a text without outer blanks.
fn read_trimmed(alloc: Global, text: &str) -> Result<Path, PathFault>
    ensures { Reads result (path_behind (opened text.now) text.now) }
{
    match opened(text) {
        Some(rest) => match until_closing(rest) {
            Some((label, rest)) => read_labelled(alloc, label, rest),
            None => Err(PathFault::BadPath),
        },
        None => {
            let parts = parts(alloc, text).map_err(PathFault::Memory)?;
            read_plain(alloc, &parts)
        }
    }
}

impl Path {
    /// Reads a path: `Width` or `.Width` of the object itself, `Box.Width`, `<<My box>>.Width`,
    /// each also with a component behind the name of a placement, `Placement.Base.x`, or with a
    /// marked address, `$A$1`, as the slot. Spaces and tabs may stand round each part. One
    /// identifier alone that is the name of a unit, `true` or `false` is no path. BadPath comes
    /// exactly where the text spells none.
    pub fn read(alloc: Global, text: &str) -> Result<Path, PathFault>
        ensures found { IfOk result (λ path. path_of text.now ≡ Some path) }
        ensures refused { IsErrOf result PathFault.BadPath → path_of text.now ≡ None }
    {
        read_trimmed(alloc, trimmed(text))
    }
}
