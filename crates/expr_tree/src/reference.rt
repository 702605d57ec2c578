ghost use Rattle.std.specs.Prelude.{◌≡◌, ◌++◌, ◌+◌, ◌-◌, ◌^◌, map, min, IfOk, OnOk};
ghost use Rattle.expr_tree.specs.ListedReferences.{reference_of};
ghost use Rattle.expr_tree.specs.References.{references, reference_count};

use crate::expr::{Argument, Expr, Node};
use fc_base::Area;
use object_paths::Path;
use std::alloc::{AllocError, Global};

/// What an expression refers to: a slot by a path, or the filled cells of an area.
#[derive(Clone, Copy, Debug)]
pub enum Reference<'a> {
    ToPath(&'a Path),
    ToArea(&'a Area),
}

/// Adds the references of the expression to those so far.
fn push_references<'a>(tree: &'a Expr, out: &mut Vec<Reference<'a>>) -> Result<(), AllocError>
    ensures { OnOk result (map reference_of out.new.items ≡ map reference_of out.old.items ++ references tree.now) }
{
    match &tree.node {
        Node::Literal(_, _) | Node::UnitOne(_) | Node::Flag(_) | Node::Text(_) => Ok(()),
        Node::Path(path) => {
            out.push(Reference::ToPath(path))?;
            Ok(())
        }
        Node::Negate(a) | Node::Power(a, _) | Node::Function(_, a) => push_references(a, out),
        Node::Binary(_, a, b) | Node::Compare(_, a, b) | Node::Modulo(a, b) => {
            push_references(a, out)?;
            push_references(b, out)
        }
        Node::Conditional(c, a, b) => {
            push_references(c, out)?;
            push_references(a, out)?;
            push_references(b, out)
        }
        Node::Aggregate(_, all) => {
            for argument in all {
                match argument {
                    Argument::Tree(tree) => push_references(tree, out)?,
                    Argument::Cells(area) => out.push(Reference::ToArea(area))?,
                }
            }
            Ok(())
        }
    }
}

/// The paths and the areas of an expression together, from the left. The cost grows with the number
/// of nodes.
pub fn references<'a>(alloc: Global, tree: &'a Expr) -> Result<Vec<Reference<'a>>, AllocError>
    ensures { IfOk result (λ v. map reference_of v.items ≡ references tree.now) }
{
    let mut all = Vec::new(alloc);
    push_references(tree, &mut all)?;
    Ok(all)
}

/// How many paths and areas an expression has; `u32::MAX` where there are more. It goes over all
/// nodes.
pub fn reference_count(tree: &Expr) -> u32
    ensures { result ≡ min (reference_count tree.now) u32.MAX }
{
    match &tree.node {
        Node::Literal(_, _) | Node::UnitOne(_) | Node::Flag(_) | Node::Text(_) => 0,
        Node::Path(_) => 1,
        Node::Negate(a) | Node::Power(a, _) | Node::Function(_, a) => reference_count(a),
        Node::Binary(_, a, b) | Node::Compare(_, a, b) | Node::Modulo(a, b) => {
            reference_count(a).saturating_add(reference_count(b))
        }
        Node::Conditional(c, a, b) => {
            let arms = reference_count(a).saturating_add(reference_count(b));
            reference_count(c).saturating_add(arms)
        }
        Node::Aggregate(_, all) => {
            let mut count: u32 = 0;
            for argument in all {
                let more = match argument {
                    Argument::Tree(part) => reference_count(part),
                    Argument::Cells(_) => 1,
                };
                count = count.saturating_add(more);
            }
            count
        }
    }
}
