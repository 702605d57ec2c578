ghost use Rattle.std.specs.Prelude.{◌≡◌, ◌++◌, ◌∷◌, ◌<◌, [], length, replicate, slice_set, slice_get, IfOk, OnOk, OnSome, MatchBool};
ghost use Rattle.dependency_order.specs.Nodes.{inputs_of, AreNodes, HasCycle};
ghost use Rattle.dependency_order.specs.Walks.{mark_of, IsUnderWay, GoesOn, Ends, Visits};

use crate::nodes::inputs_at;
use std::alloc::{AllocError, Global};

#[derive(Clone, Copy, PartialEq, Eq)]
pub enum Mark {
    New,
    Open,
    Done,
}

/// An open node, and how many of its inputs are done.
#[derive(Clone, Copy)]
pub struct Frame {
    node: u32,
    done: usize,
}

/// The input that a node goes on with, if there is one left.
#[tactic(auto, using(std::proofs::lemmas::Option::gets))]
fn next_input(inputs: &[Vec<u32>], frame: Frame) -> Option<u32>
    requires { frame.node < length inputs.now }
    ensures input { result ≡ slice_get (inputs_of inputs.now frame.node) frame.done }
    ensures more { OnSome result (frame.done < usize.MAX) }
{
    inputs_at(inputs, frame.node).get(frame.done).copied()
}

/// A walk into the depth: the path of open nodes, and the done ones in an order.
#[derive(Drop)]
pub struct Walk {
    marks: Vec<Mark>,
    path: Vec<Frame>,
    order: Vec<u32>,
}

impl Walk {
    pub fn new(alloc: Global, count: usize) -> Result<Walk, AllocError>
        ensures marks { IfOk result (λ w. w.marks.items ≡ replicate count Mark.New) }
        ensures path { IfOk result (λ w. w.path.items ≡ []) }
        ensures order { IfOk result (λ w. w.order.items ≡ []) }
    {
        Ok(Walk {
            marks: vec![in alloc; Mark::New; count]?,
            path: Vec::new(alloc),
            order: Vec::new(alloc),
        })
    }

    pub fn mark(&self, node: u32) -> Mark
        requires { node < length self.now.marks.items }
        ensures { result ≡ mark_of self.now.marks.items node }
    {
        self.marks[node as usize]
    }

    /// Puts a node at the end of the path.
    pub fn open(&mut self, node: u32) -> Result<(), AllocError>
        requires { node < length self.old.marks.items }
        ensures marks { self.new.marks.items ≡ slice_set self.old.marks.items node Mark.Open }
        ensures path { OnOk result (self.new.path.items ≡ self.old.path.items ++ (record { node = node; done = 0 }) ∷ []) }
        ensures order { self.new.order.items ≡ self.old.order.items }
    {
        self.marks[node as usize] = Mark::Open;
        self.path.push(Frame { node, done: 0 })?;
        Ok(())
    }

    /// Puts a node that was taken off the path at the end of the order.
    fn close(&mut self, node: u32) -> Result<(), AllocError>
        requires { node < length self.old.marks.items }
        ensures marks { self.new.marks.items ≡ slice_set self.old.marks.items node Mark.Done }
        ensures path { self.new.path.items ≡ self.old.path.items }
        ensures order { OnOk result (self.new.order.items ≡ self.old.order.items ++ node ∷ []) }
    {
        self.marks[node as usize] = Mark::Done;
        self.order.push(node)?;
        Ok(())
    }

    /// Takes the next step from the node at the end of the path, which was taken off it. Whether its
    /// next input closes a cycle.
    fn resume(&mut self, inputs: &[Vec<u32>], frame: Frame) -> Result<bool, AllocError>
        requires nodes { AreNodes inputs.now }
        requires under_way { IsUnderWay inputs.now self.old.marks.items (self.old.path.items ++ frame ∷ []) self.old.order.items }
        ensures { IfOk result (λ found. MatchBool found
            (HasCycle inputs.now)
            (GoesOn inputs.now self.old.marks.items (self.old.path.items ++ frame ∷ []) self.new.marks.items self.new.path.items self.new.order.items)) }
    {
        match next_input(inputs, frame) {
            None => {
                self.close(frame.node)?;
                Ok(false)
            }
            Some(input) => match self.mark(input) {
                Mark::New => {
                    self.path.push(frame)?;
                    self.open(input)?;
                    Ok(false)
                }
                Mark::Open => Ok(true),
                Mark::Done => {
                    let done = frame.done + 1;
                    self.path.push(Frame { done, ..frame })?;
                    Ok(false)
                }
            },
        }
    }

    /// Walks to the end of the path. Whether a cycle was found.
    fn run(&mut self, inputs: &[Vec<u32>]) -> Result<bool, AllocError>
        requires nodes { AreNodes inputs.now }
        requires under_way { IsUnderWay inputs.now self.old.marks.items self.old.path.items self.old.order.items }
        ensures { IfOk result (λ found. MatchBool found
            (HasCycle inputs.now)
            (Ends inputs.now self.old.marks.items self.new.marks.items self.new.path.items self.new.order.items)) }
    {
        while let Some(frame) = self.path.pop() {
            if self.resume(inputs, frame)? {
                return Ok(true);
            }
        }
        Ok(false)
    }

    /// Brings a node and all that it reaches into the order. Whether a cycle was found.
    pub fn visit(&mut self, inputs: &[Vec<u32>], node: u32) -> Result<bool, AllocError>
        requires nodes { AreNodes inputs.now }
        requires node { node < length inputs.now }
        requires under_way { IsUnderWay inputs.now self.old.marks.items self.old.path.items self.old.order.items }
        requires path { self.old.path.items ≡ [] }
        ensures { IfOk result (λ found. MatchBool found
            (HasCycle inputs.now)
            (Visits inputs.now node self.old.marks.items self.new.marks.items self.new.path.items self.new.order.items)) }
    {
        if self.mark(node) != Mark::New {
            return Ok(false);
        }
        self.open(node)?;
        self.run(inputs)
    }

    pub fn into_order(self) -> Vec<u32>
        ensures { result ≡ self.order }
    {
        let Walk { order, .. } = self;
        order
    }
}
