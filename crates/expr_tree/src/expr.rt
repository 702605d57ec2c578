ghost use Rattle.std.specs.Prelude.{◌≡◌, ◌^◌, ◌-◌, min, IfOk};
ghost use Rattle.expr_tree.specs.Tree.{negate};
ghost use Rattle.expr_tree.specs.Nodes.{node_count};

use crate::functions::{AggregateOp, FunctionOp};
use crate::operators::{BinaryOp, CompareOp};
use fc_base::{Area, Name, TextValue};
use object_paths::Path;
use quantities::Amount;
use std::alloc::{AllocError, Global};
use std::marker::Model;

/// A unit in an expression, by its name, with an exponent of -99 to 99: `mm^2`. Where none is
/// written, the exponent is 1.
#[derive(Debug, Drop)]
pub struct UnitPower {
    pub unit: Name,
    pub exponent: i8,
}

/// An expression.
#[cycle(tree)]
#[derive(Drop)]
pub struct Expr {
    pub node: Node,
}

/// What stands at the top of an expression.
#[cycle(tree)]
#[derive(Drop)]
pub enum Node {
    /// `2.5`, `2.5 mm`, `2.5 mm^2`
    Literal(Amount, Option<UnitPower>),
    /// `mm`
    UnitOne(Name),
    /// `true`, `false`
    Flag(bool),
    /// `<<text>>`
    Text(TextValue),
    /// `Width`, `Box.Width`, `<<My box>>.Width`
    Path(Path),
    /// `-x`
    Negate(Box<Expr>),
    /// `x + y`
    Binary(BinaryOp, Box<Expr>, Box<Expr>),
    /// `x^2`, with an exponent of -99 to 99
    Power(Box<Expr>, i8),
    /// `x < y`
    Compare(CompareOp, Box<Expr>, Box<Expr>),
    /// `c ? x : y`
    Conditional(Box<Expr>, Box<Expr>, Box<Expr>),
    /// `floor(x)`
    Function(FunctionOp, Box<Expr>),
    /// `mod(x; y)`
    Modulo(Box<Expr>, Box<Expr>),
    /// `sum(x; A1:B2)`
    Aggregate(AggregateOp, Vec<Argument>),
}

/// An argument of a function of many numbers: an expression, or the filled cells of an area.
#[cycle(tree)]
#[derive(Drop)]
pub enum Argument {
    Tree(Expr),
    Cells(Area),
}

impl Model for Expr {
    ghost use Rattle.std.specs.Coded.{codes};
    ghost use Rattle.expr_tree.specs.Tree.{Tree};
    ghost use Rattle.expr_tree.specs.TreeCode.{coded_tree};

    ghost Value = { Tree };

    ghost coded = { coded_tree (Prim.hlevel codes) };

    ghost use Rattle.expr_tree.specs.NodesAsTrees.{tree_of_node};
    ghost use Rattle.expr_tree.specs.Nodes.{node_count};

    ghost view = { λ e. tree_of_node e.node };

    ghost size = { node_count };

    ghost use Rattle.expr_tree.specs.TreeFalls.{falls};

    ghost size_decreases = { λ a h. falls a.node };
}

impl Expr {
    /// The expression with a minus in front of it.
    pub fn negated(self, alloc: Global) -> Result<Expr, AllocError>
        ensures { IfOk result (λ e. e ≡ negate self) }
    {
        let operand = Box::new(alloc, self)?;
        Ok(Expr {
            node: Node::Negate(operand),
        })
    }

    /// The number of nodes, the arguments that are areas aside; `u32::MAX` where there are more. It
    /// goes over all of them.
    pub fn node_count(&self) -> u32
        ensures { result ≡ min (node_count self.now) u32.MAX }
    {
        match &self.node {
            Node::Literal(_, _)
            | Node::UnitOne(_)
            | Node::Flag(_)
            | Node::Text(_)
            | Node::Path(_) => 1,
            Node::Negate(a) | Node::Power(a, _) | Node::Function(_, a) => {
                a.node_count().saturating_add(1)
            }
            Node::Binary(_, a, b) | Node::Compare(_, a, b) | Node::Modulo(a, b) => a
                .node_count()
                .saturating_add(b.node_count())
                .saturating_add(1),
            Node::Conditional(c, a, b) => {
                let arms = a.node_count().saturating_add(b.node_count());
                c.node_count().saturating_add(arms).saturating_add(1)
            }
            Node::Aggregate(_, all) => {
                let mut count: u32 = 1;
                for argument in all {
                    if let Argument::Tree(tree) = argument {
                        count = count.saturating_add(tree.node_count());
                    }
                }
                count
            }
        }
    }
}
