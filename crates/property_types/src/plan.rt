ghost use Rattle.std.specs.Prelude.{◌≡◌, IfOk};

use crate::prop_type::PropType;
use crate::value::Value;
use fc_base::{Name, TextValue};
use std::alloc::{AllocError, Global};
use std::marker::Model;

/// An input of a feature, with the value that it has in a new object.
#[derive(Debug, Drop)]
pub struct InputPlan {
    pub name: Name,
    pub prop: PropType,
    pub default: Value,
}

/// An output of a feature.
#[derive(Debug, Drop)]
pub struct OutputPlan {
    pub name: Name,
    pub prop: PropType,
}

/// The slots that an object has as a feature of one type. Where `placed` is true, a Placement is a
/// further, last input, and the object has a global placement. Where `members` is true, the object
/// has a list of members.
#[derive(Debug, Drop)]
pub struct SlotPlan {
    pub type_name: TextValue,
    pub inputs: Vec<InputPlan>,
    pub outputs: Vec<OutputPlan>,
    pub placed: bool,
    pub members: bool,
}

impl Model for SlotPlan {
    ghost use Rattle.property_types.specs.Plans.{Slots};

    ghost Value = { Slots };

    ghost view = { λ p. record { type_name = p.type_name; inputs = p.inputs.items; outputs = p.outputs.items; placed = p.placed; members = p.members } };
}

impl InputPlan {
    /// An equal input.
    pub fn copy(&self, alloc: Global) -> Result<InputPlan, AllocError>
        ensures { IfOk result (λ input. input ≡ self.now) }
    {
        let name = self.name.copy(alloc)?;
        let prop = self.prop.copy(alloc)?;
        let default = self.default.copy(alloc)?;
        Ok(InputPlan {
            name,
            prop,
            default,
        })
    }
}

impl OutputPlan {
    /// An equal output.
    pub fn copy(&self, alloc: Global) -> Result<OutputPlan, AllocError>
        ensures { IfOk result (λ output. output ≡ self.now) }
    {
        let name = self.name.copy(alloc)?;
        let prop = self.prop.copy(alloc)?;
        Ok(OutputPlan { name, prop })
    }
}

impl SlotPlan {
    /// An equal plan.
    pub fn copy(&self, alloc: Global) -> Result<SlotPlan, AllocError>
        ensures { IfOk result (λ plan. plan ≡ self.now) }
    {
        let type_name = self.type_name.copy(alloc)?;
        let inputs = copy_inputs(alloc, &self.inputs)?;
        let outputs = copy_outputs(alloc, &self.outputs)?;
        Ok(SlotPlan {
            type_name,
            inputs,
            outputs,
            placed: self.placed,
            members: self.members,
        })
    }
}

/// Equal inputs in the same order.
fn copy_inputs(alloc: Global, inputs: &[InputPlan]) -> Result<Vec<InputPlan>, AllocError>
    ensures { IfOk result (λ copies. copies.items ≡ inputs.now) }
{
    let mut copies = Vec::new(alloc);
    for input in inputs {
        copies.push(input.copy(alloc)?)?;
    }
    Ok(copies)
}

/// Equal outputs in the same order.
fn copy_outputs(alloc: Global, outputs: &[OutputPlan]) -> Result<Vec<OutputPlan>, AllocError>
    ensures { IfOk result (λ copies. copies.items ≡ outputs.now) }
{
    let mut copies = Vec::new(alloc);
    for output in outputs {
        copies.push(output.copy(alloc)?)?;
    }
    Ok(copies)
}
