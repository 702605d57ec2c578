//! Orders of nodes by what they read, and cycles.
ghost use Rattle.std.specs.Prelude.{◌≡◌, ℕ, ◌<◌, length, IsTrue};
ghost use Rattle.fc_base.specs.Graph.{IsIn};
ghost use Rattle.dependency_order.specs.Nodes.{inputs_of, AreNodes};

use dependency_order::{in_order, reaches_itself};
use std::alloc::{AllocError, Global};

/// What a node reads.
#[tactic(auto, using(dependency_order::proofs::NodeLemmas::inputs_of_read))]
fn inputs_at(inputs: &[Vec<u32>], node: u32) -> &[u32]
    requires { node < length inputs.now }
    ensures { result.now ≡ inputs_of inputs.now node }
{
    inputs[node as usize].as_slice()
}

fn all_below(numbers: &[u32], count: usize) -> bool
    ensures { IsTrue result → (n : ℕ) → IsIn n numbers.now → n < count }
{
    for number in numbers {
        if *number as usize >= count {
            return false;
        }
    }
    true
}

fn are_nodes(inputs: &[Vec<u32>]) -> bool
    ensures { IsTrue result → AreNodes inputs.now }
{
    if inputs.len() > u32::MAX as usize {
        return false;
    }
    for node in 0..inputs.len() as u32 {
        if !all_below(inputs_at(inputs, node), inputs.len()) {
            return false;
        }
    }
    true
}

fn nodes_of(alloc: Global, inputs: &[&[u32]]) -> Result<Vec<Vec<u32>>, AllocError> {
    let mut nodes = Vec::new(alloc);
    for of_one in inputs {
        nodes.push(of_one.to_vec(alloc)?)?;
    }
    Ok(nodes)
}

/// Each node reads the next, and the last reads nothing.
fn chain(alloc: Global, count: u32) -> Result<Vec<Vec<u32>>, AllocError> {
    let mut nodes = Vec::new(alloc);
    for node in 1..count {
        nodes.push(vec![in alloc; node]?)?;
    }
    nodes.push(Vec::new(alloc))?;
    Ok(nodes)
}

/// Whether the order of nodes has so many, and begins with the last.
fn is_ordered_from_its_end(alloc: Global, nodes: &[Vec<u32>], count: u32) -> bool {
    if !are_nodes(nodes) {
        return false;
    }
    match in_order(alloc, nodes) {
        Ok(Some(order)) => order.len() == count as usize
            && order.iter().rev().copied().eq(0..count),
        _ => false,
    }
}

/// Whether it is so that a node reaches itself.
fn is_cyclic(alloc: Global, nodes: &[Vec<u32>], node: usize, want: bool) -> bool {
    if node >= nodes.len() || !are_nodes(nodes) {
        return false;
    }
    matches!(reaches_itself(alloc, nodes, node as u32), Ok(found) if found == want)
}

/// Whether a chain of so many nodes is ordered from its end, and its first node is on no cycle.
fn is_long_chain(alloc: Global, count: u32) -> bool {
    match chain(alloc, count) {
        Ok(nodes) => {
            nodes.len() == count as usize
                && is_ordered_from_its_end(alloc, &nodes, count)
                && is_cyclic(alloc, &nodes, 0, false)
        }
        Err(_) => false,
    }
}

#[test]
fn a_long_chain_is_ordered_from_its_end(rt: HostRuntime) {
    assert!(rt; is_long_chain(rt.alloc(), 70_000));
}

/// What each node reads, and an order of the nodes.
static ORDERS: [(&[&[u32]], &[u32]); 3] = [
    (&[&[2, 1, 2], &[2, 2], &[]], &[2, 1, 0]),
    (&[&[], &[0], &[0, 1]], &[0, 1, 2]),
    (&[], &[]),
];

/// Whether this is the order of nodes, which have none where none is wanted.
fn has_order(alloc: Global, nodes: &[Vec<u32>], want: Option<&[u32]>) -> bool {
    if !are_nodes(nodes) {
        return false;
    }
    match in_order(alloc, nodes) {
        Ok(Some(order)) => want == Some(order.as_slice()),
        Ok(None) => want.is_none(),
        Err(_) => false,
    }
}

/// Whether this is the order of the nodes that read these.
fn is_ordered_so(alloc: Global, inputs: &[&[u32]], want: &[u32]) -> bool {
    match nodes_of(alloc, inputs) {
        Ok(nodes) => has_order(alloc, &nodes, Some(want)),
        Err(_) => false,
    }
}

#[test]
fn inputs_stand_before_what_reads_them(rt: HostRuntime) {
    for (inputs, want) in ORDERS.iter() {
        assert!(rt; is_ordered_so(rt.alloc(), inputs, want));
    }
}

/// What each node reads, and which nodes reach themselves.
static CYCLES: [(&[&[u32]], &[bool]); 4] = [
    (&[&[0]], &[true]),
    (&[&[1], &[0]], &[true, true]),
    (&[&[], &[0, 1]], &[false, true]),
    (&[&[1, 3], &[2], &[1, 3], &[]], &[false, true, true, false]),
];

/// Whether just these nodes are on cycles.
fn are_cyclic(alloc: Global, nodes: &[Vec<u32>], want: &[bool]) -> bool {
    for node in 0..want.len() {
        if !is_cyclic(alloc, nodes, node, want[node]) {
            return false;
        }
    }
    want.len() == nodes.len()
}

/// Whether the nodes that read these have no order, and just these of them are on cycles.
fn has_cycles(alloc: Global, inputs: &[&[u32]], want: &[bool]) -> bool {
    match nodes_of(alloc, inputs) {
        Ok(nodes) => has_order(alloc, &nodes, None) && are_cyclic(alloc, &nodes, want),
        Err(_) => false,
    }
}

#[test]
fn cycles_are_found(rt: HostRuntime) {
    for (inputs, cyclic) in CYCLES.iter() {
        assert!(rt; has_cycles(rt.alloc(), inputs, cyclic));
    }
}
