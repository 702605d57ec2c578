ghost use Rattle.std.specs.Prelude.{◌≡◌, ℕ, ◌∷◌, [], ◌<◌, ◌↔◌, length, replicate, false, IfOk, OnOk, IsTrue, MatchBool};
ghost use Rattle.fc_base.specs.Graph.{IsIn, Reaches};
ghost use Rattle.dependency_order.specs.Nodes.{inputs_of, AreNodes};
ghost use Rattle.dependency_order.specs.Spreads.{TakesIn};

use crate::nodes::inputs_at;
use std::alloc::{AllocError, Global};

/// Which nodes were reached, and whose inputs are still to be looked at.
#[derive(Drop)]
struct Spread {
    reached: Vec<bool>,
    pending: Vec<u32>,
}

impl Spread {
    /// The search that begins at a node, which is not reached yet.
    fn new(alloc: Global, count: usize, start: u32) -> Result<Spread, AllocError>
        ensures reached { IfOk result (λ s. s.reached.items ≡ replicate count false) }
        ensures pending { IfOk result (λ s. s.pending.items ≡ start ∷ []) }
    {
        Ok(Spread {
            reached: vec![in alloc; false; count]?,
            pending: vec![in alloc; start]?,
        })
    }

    fn reach(&mut self, node: u32) -> Result<(), AllocError>
        requires { node < length self.old.reached.items }
        ensures { OnOk result (TakesIn (node ∷ [])
            self.old.reached.items self.old.pending.items
            self.new.reached.items self.new.pending.items) }
    {
        if !self.reached[node as usize] {
            self.reached[node as usize] = true;
            self.pending.push(node)?;
        }
        Ok(())
    }

    /// Reaches the nodes of a list, unless the start is among them. Whether it is.
    fn reach_all(&mut self, nodes: &[u32], start: u32) -> Result<bool, AllocError>
        requires { (n : ℕ) → IsIn n nodes.now → n < length self.old.reached.items }
        ensures { IfOk result (λ found. MatchBool found
            (IsIn start nodes.now)
            ((IsIn start nodes.now → ⊥) × TakesIn nodes.now
            self.old.reached.items self.old.pending.items
            self.new.reached.items self.new.pending.items)) }
    {
        for node in nodes {
            if *node == start {
                return Ok(true);
            }
            self.reach(*node)?;
        }
        Ok(false)
    }
}

/// Whether a node reaches itself, directly or through others. `inputs` has for each node, by its
/// number, the numbers of the nodes that it reads, perhaps some of them again. Each node that it
/// reaches is looked at once, so the time is linear in the nodes and in the inputs of these.
pub fn reaches_itself(alloc: Global, inputs: &[Vec<u32>], node: u32) -> Result<bool, AllocError>
    requires nodes { AreNodes inputs.now }
    requires node { node < length inputs.now }
    ensures { IfOk result (λ found. IsTrue found ↔ Reaches (inputs_of inputs.now) node node) }
{
    let mut spread = Spread::new(alloc, inputs.len(), node)?;
    while let Some(from) = spread.pending.pop() {
        if spread.reach_all(inputs_at(inputs, from), node)? {
            return Ok(true);
        }
    }
    Ok(false)
}
