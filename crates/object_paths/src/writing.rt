ghost use Rattle.std.specs.Prelude.{◌≡◌, ◌++◌, IfOk, IsTrue, string_bytes, OnOk, Some};
ghost use Rattle.object_paths.specs.Paths.{HasParts, IsPath};
ghost use Rattle.object_paths.specs.PathParts.{path_of};
ghost use Rattle.object_paths.specs.PathTexts.{component_text, slot_text, is_word, needs_dot, owner_text, path_text};
ghost use Rattle.object_paths.specs.declared.path.Owner.TheVariants.{ByName};

use crate::path::{Owner, Path};
use crate::slot_name::{Component, SlotName};
use arrayvec::ArrayString;
use fc_base::{Name, TextValue};
use std::alloc::{AllocError, Global};
use unit_signatures::unit_named;

/// Whether an identifier alone is the name of a unit, `true` or `false`, and so no name.
pub(crate) fn is_word(text: &str) -> bool
    ensures { result ≡ is_word text.now }
{
    unit_named(text).is_some() || text == "true" || text == "false"
}

/// A component behind its placement's name and a dot.
fn component_text(component: Component) -> &'static str
    ensures { result.now ≡ component_text component }
{
    match component {
        Component::X => "Base.x",
        Component::Y => "Base.y",
        Component::Z => "Base.z",
        Component::Turn => "Rotation.Turn",
    }
}

/// Whether the slot is one identifier, which without a dot would be a unit or a flag.
fn needs_dot(slot: &SlotName) -> bool
    ensures { result ≡ needs_dot slot.now }
{
    match slot {
        SlotName::Plain(name) => is_word(name.as_str()),
        SlotName::Component(..) | SlotName::Marked(_) => false,
    }
}

/// Writes what stands before the slot.
fn push_owner(owner: &Owner, slot: &SlotName, out: &mut String) -> Result<(), AllocError>
    ensures { OnOk result (string_bytes out.new ≡ string_bytes out.old ++ owner_text owner.now slot.now) }
{
    match owner {
        Owner::Here => {
            if needs_dot(slot) {
                out.push_str(".")?;
            }
            Ok(())
        }
        Owner::ByName(name) => {
            out.push_str(name.as_str())?;
            out.push_str(".")
        }
        Owner::ByLabel(label) => {
            out.push_str("<<")?;
            out.push_str(label.as_str())?;
            out.push_str(">>.")
        }
    }
}

/// Writes a slot's own name.
#[tactic(auto, using(crate::proofs::SlotPathLemmas::place_from_reading))]
fn push_slot(slot: &SlotName, out: &mut String) -> Result<(), AllocError>
    ensures text { OnOk result (string_bytes out.new ≡ string_bytes out.old ++ slot_text slot.now) }
    ensures parts { HasParts slot.now }
{
    match slot {
        SlotName::Plain(name) => out.push_str(name.as_str()),
        SlotName::Component(name, component) => {
            out.push_str(name.as_str())?;
            out.push_str(".")?;
            out.push_str(component_text(*component))
        }
        SlotName::Marked(address) => {
            let mut text = ArrayString::new();
            address.write(&mut text);
            out.push_str(text.as_str())
        }
    }
}

/// The path of a slot from outside its object, such as `V.a`, `Box.Placement.Base.x` or `S.A5`.
#[tactic(auto, using(crate::proofs::SlotPathLemmas::slot_path_written, crate::proofs::SlotPathLemmas::slot_path_length, crate::proofs::SlotPathLemmas::slot_path_bytes))]
pub fn slot_path(alloc: Global, object: &Name, slot: &SlotName) -> Result<TextValue, AllocError>
    ensures { IfOk result (λ t. t ≡ path_text (record { owner = ByName object.now; slot = slot.now })) }
{
    let mut text = String::new(alloc);
    text.push_str(object.as_str())?;
    text.push_str(".")?;
    push_slot(slot, &mut text)?;
    Ok(TextValue::of(text))
}

impl Path {
    /// Writes the path in its one spelling: the owner's name, or its label between `<<` and `>>`,
    /// a dot and the slot, as in `Box.Width`, `<<My box>>.Placement.Base.x` and `Width`. A path to
    /// the object itself has no dot in front, but where its slot is one identifier that alone is
    /// the name of a unit, `true` or `false`: `.m`.
    pub fn write(&self, alloc: Global) -> Result<String, AllocError>
        ensures text { IfOk result (λ text. string_bytes text ≡ path_text self.now) }
        ensures reads_back { IsPath self.now → path_of (path_text self.now) ≡ Some self.now }
    {
        let mut text = String::new(alloc);
        push_owner(&self.owner, &self.slot, &mut text)?;
        push_slot(&self.slot, &mut text)?;
        Ok(text)
    }
}
