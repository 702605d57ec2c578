ghost use Rattle.std.specs.Prelude.{IfOk};
ghost use Rattle.dependency_order.specs.Nodes.{AreNodes, IsOrderOf};

use crate::walk::Walk;
use std::alloc::{AllocError, Global};

/// The nodes in an order in which each stands after its inputs; none where a node reaches itself.
/// `inputs` has for each node, by its number, the numbers of the nodes that it reads, perhaps some of
/// them again. The time is linear in the nodes and inputs, and no call goes deep.
pub fn in_order(alloc: Global, inputs: &[Vec<u32>]) -> Result<Option<Vec<u32>>, AllocError>
    requires nodes { AreNodes inputs.now }
    ensures { IfOk result (IsOrderOf inputs.now) }
{
    let mut walk = Walk::new(alloc, inputs.len())?;
    for node in 0..inputs.len() as u32 {
        if walk.visit(inputs, node)? {
            return Ok(None);
        }
    }
    Ok(Some(walk.into_order()))
}
