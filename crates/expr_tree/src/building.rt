ghost use Rattle.std.specs.Prelude.{◌≡◌, IfOk};
ghost use Rattle.expr_tree.specs.NodesAsTrees.{arguments_of};
ghost use Rattle.expr_tree.specs.Tree as t;

use crate::expr::{Argument, Expr, Node};
use crate::functions::{AggregateOp, FunctionOp};
use crate::operators::{BinaryOp, CompareOp};
use object_paths::Path;
use std::alloc::{AllocError, Global};

/// Both expressions, each in a box.
fn boxed_pair(alloc: Global, left: Expr, right: Expr) -> Result<(Box<Expr>, Box<Expr>), AllocError>
    ensures { IfOk result (λ both. (both.0.value ≡ left) × (both.1.value ≡ right)) }
{
    let left = Box::new(alloc, left)?;
    let right = Box::new(alloc, right)?;
    Ok((left, right))
}

impl Expr {
    /// The slot of the path.
    pub fn path(path: Path) -> Expr
        ensures { result ≡ t.path path }
    {
        Expr {
            node: Node::Path(path),
        }
    }

    /// The operation on both expressions.
    pub fn binary(alloc: Global, op: BinaryOp, left: Expr, right: Expr) -> Result<Expr, AllocError>
        ensures { IfOk result (λ e. e ≡ t.binary op left right) }
    {
        let (left, right) = boxed_pair(alloc, left, right)?;
        Ok(Expr {
            node: Node::Binary(op, left, right),
        })
    }

    /// The power of the base.
    pub fn power(alloc: Global, base: Expr, exponent: i8) -> Result<Expr, AllocError>
        ensures { IfOk result (λ e. e ≡ t.power base exponent) }
    {
        let base = Box::new(alloc, base)?;
        Ok(Expr {
            node: Node::Power(base, exponent),
        })
    }

    /// The comparison of both expressions.
    pub fn compare(
        alloc: Global,
        op: CompareOp,
        left: Expr,
        right: Expr,
    ) -> Result<Expr, AllocError>
        ensures { IfOk result (λ e. e ≡ t.compare op left right) }
    {
        let (left, right) = boxed_pair(alloc, left, right)?;
        Ok(Expr {
            node: Node::Compare(op, left, right),
        })
    }

    /// The first arm where the condition holds, else the second.
    pub fn conditional(
        alloc: Global,
        condition: Expr,
        first: Expr,
        second: Expr,
    ) -> Result<Expr, AllocError>
        ensures { IfOk result (λ e. e ≡ t.conditional condition first second) }
    {
        let condition = Box::new(alloc, condition)?;
        let (first, second) = boxed_pair(alloc, first, second)?;
        Ok(Expr {
            node: Node::Conditional(condition, first, second),
        })
    }

    /// The function of the operand.
    pub fn function(alloc: Global, op: FunctionOp, operand: Expr) -> Result<Expr, AllocError>
        ensures { IfOk result (λ e. e ≡ t.function op operand) }
    {
        let operand = Box::new(alloc, operand)?;
        Ok(Expr {
            node: Node::Function(op, operand),
        })
    }

    /// The remainder of the division.
    pub fn modulo(alloc: Global, left: Expr, right: Expr) -> Result<Expr, AllocError>
        ensures { IfOk result (λ e. e ≡ t.modulo left right) }
    {
        let (left, right) = boxed_pair(alloc, left, right)?;
        Ok(Expr {
            node: Node::Modulo(left, right),
        })
    }

    /// The function of the arguments.
    pub fn aggregate(op: AggregateOp, all: Vec<Argument>) -> Expr
        ensures { result ≡ t.aggregate op (arguments_of all.items) }
    {
        Expr {
            node: Node::Aggregate(op, all),
        }
    }
}
