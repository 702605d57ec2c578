ghost use Rattle.std.specs.Prelude.{◌≡◌, IfOk};
ghost use Rattle.expr_tree.specs.Tree.{conditional};

use crate::expr::{Argument, Expr, Node, UnitPower};
use std::alloc::{AllocError, Global};

impl UnitPower {
    /// An equal unit with its exponent.
    pub fn copy(&self, alloc: Global) -> Result<UnitPower, AllocError>
        ensures { IfOk result (λ unit. unit ≡ self.now) }
    {
        Ok(UnitPower {
            unit: self.unit.copy(alloc)?,
            exponent: self.exponent,
        })
    }
}

/// A copy of the unit, where there is one.
fn copied_unit(alloc: Global, unit: &Option<UnitPower>) -> Result<Option<UnitPower>, AllocError>
    ensures { IfOk result (λ u. u ≡ unit.now) }
{
    match unit {
        None => Ok(None),
        Some(power) => Ok(Some(power.copy(alloc)?)),
    }
}

impl Expr {
    /// An equal expression. The cost grows with the number of nodes.
    #[cycle(copy)]
    pub fn copy(&self, alloc: Global) -> Result<Expr, AllocError>
        ensures { IfOk result (λ e. e ≡ self.now) }
    {
        match &self.node {
            Node::Literal(amount, unit) => Ok(Expr {
                node: Node::Literal(*amount, copied_unit(alloc, unit)?),
            }),
            Node::UnitOne(name) => Ok(Expr {
                node: Node::UnitOne(name.copy(alloc)?),
            }),
            Node::Flag(flag) => Ok(Expr {
                node: Node::Flag(*flag),
            }),
            Node::Text(text) => Ok(Expr {
                node: Node::Text(text.copy(alloc)?),
            }),
            Node::Path(path) => Ok(Expr::path(path.copy(alloc)?)),
            Node::Negate(a) => a.copy(alloc)?.negated(alloc),
            Node::Binary(op, a, b) => {
                let (left, right) = Expr::copied_pair(alloc, a, b)?;
                Expr::binary(alloc, *op, left, right)
            }
            Node::Power(a, exponent) => Expr::power(alloc, a.copy(alloc)?, *exponent),
            Node::Compare(op, a, b) => {
                let (left, right) = Expr::copied_pair(alloc, a, b)?;
                Expr::compare(alloc, *op, left, right)
            }
            Node::Conditional(c, a, b) => Expr::copied_conditional(alloc, c, a, b),
            Node::Function(op, a) => Expr::function(alloc, *op, a.copy(alloc)?),
            Node::Modulo(a, b) => {
                let (left, right) = Expr::copied_pair(alloc, a, b)?;
                Expr::modulo(alloc, left, right)
            }
            Node::Aggregate(op, all) => {
                Ok(Expr::aggregate(*op, Expr::copied_arguments(alloc, all)?))
            }
        }
    }

    /// Copies of both expressions.
    #[cycle(copy)]
    fn copied_pair(alloc: Global, a: &Expr, b: &Expr) -> Result<(Expr, Expr), AllocError>
        ensures { IfOk result (λ both. both ≡ (a.now, b.now)) }
    {
        let first = a.copy(alloc)?;
        let second = b.copy(alloc)?;
        Ok((first, second))
    }

    /// A copy of the condition with its arms.
    #[cycle(copy)]
    fn copied_conditional(alloc: Global, c: &Expr, a: &Expr, b: &Expr) -> Result<Expr, AllocError>
        ensures { IfOk result (λ e. e ≡ conditional c.now a.now b.now) }
    {
        let condition = c.copy(alloc)?;
        let (first, second) = Expr::copied_pair(alloc, a, b)?;
        Expr::conditional(alloc, condition, first, second)
    }

    /// Copies of the arguments.
    #[cycle(copy)]
    fn copied_arguments(alloc: Global, arguments: &[Argument]) -> Result<Vec<Argument>, AllocError>
        ensures { IfOk result (λ all. all.items ≡ arguments.now) }
    {
        let mut copies = Vec::new(alloc);
        for argument in arguments {
            match argument {
                Argument::Tree(tree) => copies.push(Argument::Tree(tree.copy(alloc)?))?,
                Argument::Cells(area) => copies.push(Argument::Cells(*area))?,
            }
        }
        Ok(copies)
    }
}
