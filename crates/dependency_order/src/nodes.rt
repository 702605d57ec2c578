ghost use Rattle.std.specs.Prelude.{◌≡◌, ◌<◌, length};
ghost use Rattle.dependency_order.specs.Nodes.{inputs_of};

/// What a node reads.
#[tactic(auto, using(crate::proofs::NodeLemmas::inputs_of_read))]
pub fn inputs_at(inputs: &[Vec<u32>], node: u32) -> &[u32]
    requires { node < length inputs.now }
    ensures { result.now ≡ inputs_of inputs.now node }
{
    inputs[node as usize].as_slice()
}
