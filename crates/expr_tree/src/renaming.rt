ghost use Rattle.std.specs.Prelude.{◌≡◌, ◌+◌, ◌≤◌, min, IfOk, OnOk, option_copied};
ghost use Rattle.expr_tree.specs.Numbered.{with_numbered, with_numbered_arguments};
ghost use Rattle.expr_tree.specs.NodesAsTrees.{arguments_of};
ghost use Rattle.expr_tree.specs.Tree.{conditional};
ghost use Rattle.expr_tree.specs.References.{argument_reference_count, reference_count};
ghost use Rattle.expr_tree.specs.Renaming.{IsRenamingOf, new_reference, numbers_end, renamed, renamed_area, renamed_path};

use crate::expr::{Argument, Expr, Node};
use fc_base::Area;
use object_paths::Path;
use std::alloc::{AllocError, Global};

/// What takes the place of a path or of an area.
#[derive(Debug, Drop)]
pub enum NewReference {
    ToPath(Path),
    ToArea(Area),
}

/// Which references of an expression change: numbers of its paths and areas, counted together from
/// the left, from 0, and what takes the place of each.
#[derive(Debug, Drop)]
pub struct Renaming {
    pub pairs: Vec<(u32, NewReference)>,
}

/// What takes the place of the reference with that number.
fn new_reference(pairs: &[(u32, NewReference)], number: u64) -> Option<&NewReference>
    ensures { option_copied result ≡ new_reference pairs.now number }
{
    for pair in pairs {
        if u64::from(pair.0) == number {
            return Some(&pair.1);
        }
    }
    None
}

/// The references that change, and one more than the greatest of their numbers. From there on
/// references need not be told apart.
#[derive(Drop)]
struct Listed<'a> {
    pairs: &'a [(u32, NewReference)],
    end: u64,
    ghost ends: { end ≡ numbers_end pairs.now },
}

impl Listed<'_> {
    /// The references of the pairs.
    fn of(pairs: &[(u32, NewReference)]) -> Listed<'_>
        ensures { result.pairs.now ≡ pairs.now }
    {
        let mut end = 0;
        for pair in pairs {
            end = u64::from(pair.0).saturating_add(1).max(end);
        }
        Listed { pairs, end }
    }

    /// The path with the number behind the change, and the number behind it.
    fn path(&self, alloc: Global, number: &mut u64, path: &Path) -> Result<Path, AllocError>
        ensures path { IfOk result (λ p. p ≡ renamed_path self.now.pairs.now number.old path.now) }
        ensures number { number.new ≡ min (number.old + 1) (numbers_end self.now.pairs.now) }
    {
        let found = new_reference(self.pairs, *number);
        *number = number.saturating_add(1).min(self.end);
        match found {
            Some(NewReference::ToPath(new)) => new.copy(alloc),
            _ => path.copy(alloc),
        }
    }

    /// The area with the number behind the change, and the number behind it.
    fn area(&self, number: &mut u64, area: &Area) -> Area
        ensures area { result ≡ renamed_area self.now.pairs.now number.old area.now }
        ensures number { number.new ≡ min (number.old + 1) (numbers_end self.now.pairs.now) }
    {
        let found = new_reference(self.pairs, *number);
        *number = number.saturating_add(1).min(self.end);
        match found {
            Some(NewReference::ToArea(new)) => *new,
            _ => *area,
        }
    }
}

impl Expr {
    /// The expression behind the change, whose first reference has the number, and the number
    /// behind its last one.
    #[cycle(renamed)]
    fn renamed(
        &self,
        alloc: Global,
        listed: &Listed<'_>,
        number: &mut u64,
    ) -> Result<Expr, AllocError>
        requires { number.old ≤ numbers_end listed.now.pairs.now }
        ensures tree { IfOk result (λ e. e ≡ with_numbered (renamed_path listed.now.pairs.now) (renamed_area listed.now.pairs.now) number.old self.now) }
        ensures number { OnOk result (number.new ≡ min (number.old + reference_count self.now) (numbers_end listed.now.pairs.now)) }
    {
        match &self.node {
            Node::Literal(_, _) | Node::UnitOne(_) | Node::Flag(_) | Node::Text(_) => {
                self.copy(alloc)
            }
            Node::Path(path) => Ok(Expr::path(listed.path(alloc, number, path)?)),
            Node::Negate(a) => a.renamed(alloc, listed, number)?.negated(alloc),
            Node::Binary(op, a, b) => {
                let (left, right) = Expr::renamed_pair(alloc, a, b, listed, number)?;
                Expr::binary(alloc, *op, left, right)
            }
            Node::Power(a, exponent) => {
                let base = a.renamed(alloc, listed, number)?;
                Expr::power(alloc, base, *exponent)
            }
            Node::Compare(op, a, b) => {
                let (left, right) = Expr::renamed_pair(alloc, a, b, listed, number)?;
                Expr::compare(alloc, *op, left, right)
            }
            Node::Conditional(c, a, b) => {
                Expr::renamed_conditional(alloc, c, a, b, listed, number)
            }
            Node::Function(op, a) => {
                let operand = a.renamed(alloc, listed, number)?;
                Expr::function(alloc, *op, operand)
            }
            Node::Modulo(a, b) => {
                let (left, right) = Expr::renamed_pair(alloc, a, b, listed, number)?;
                Expr::modulo(alloc, left, right)
            }
            Node::Aggregate(op, all) => {
                let arguments = Expr::renamed_arguments(alloc, all, listed, number)?;
                Ok(Expr::aggregate(*op, arguments))
            }
        }
    }

    /// Both expressions after the change, where the first reference has the number, and the number
    /// after their last one.
    #[tactic(auto, using(crate::proofs::RenamingLemmas::tree_capped))]
    #[cycle(renamed)]
    fn renamed_pair(
        alloc: Global,
        a: &Expr,
        b: &Expr,
        listed: &Listed<'_>,
        number: &mut u64,
    ) -> Result<(Expr, Expr), AllocError>
        requires { number.old ≤ numbers_end listed.now.pairs.now }
        ensures first { IfOk result (λ both. both.0 ≡ with_numbered (renamed_path listed.now.pairs.now) (renamed_area listed.now.pairs.now) number.old a.now) }
        ensures second { IfOk result (λ both. both.1 ≡ with_numbered (renamed_path listed.now.pairs.now) (renamed_area listed.now.pairs.now) (number.old + reference_count a.now) b.now) }
        ensures number { OnOk result (number.new ≡ min (number.old + (reference_count a.now + reference_count b.now)) (numbers_end listed.now.pairs.now)) }
    {
        let first = a.renamed(alloc, listed, number)?;
        let second = b.renamed(alloc, listed, number)?;
        Ok((first, second))
    }

    /// The condition with its arms after the change, where the first reference has the number, and
    /// the number after their last one.
    #[tactic(auto, using(crate::proofs::RenamingLemmas::tree_capped, crate::proofs::RenamingLemmas::tree_capped_from))]
    #[cycle(renamed)]
    fn renamed_conditional(
        alloc: Global,
        c: &Expr,
        a: &Expr,
        b: &Expr,
        listed: &Listed<'_>,
        number: &mut u64,
    ) -> Result<Expr, AllocError>
        requires { number.old ≤ numbers_end listed.now.pairs.now }
        ensures tree { IfOk result (λ e. e ≡ with_numbered (renamed_path listed.now.pairs.now) (renamed_area listed.now.pairs.now) number.old (conditional c.now a.now b.now)) }
        ensures number { OnOk result (number.new ≡ min (number.old + reference_count (conditional c.now a.now b.now)) (numbers_end listed.now.pairs.now)) }
    {
        let condition = c.renamed(alloc, listed, number)?;
        let (first, second) = Expr::renamed_pair(alloc, a, b, listed, number)?;
        Expr::conditional(alloc, condition, first, second)
    }

    /// The arguments behind the change, whose first reference has the number, and the number behind
    /// their last one.
    #[cycle(renamed)]
    fn renamed_arguments(
        alloc: Global,
        arguments: &[Argument],
        listed: &Listed<'_>,
        number: &mut u64,
    ) -> Result<Vec<Argument>, AllocError>
        requires { number.old ≤ numbers_end listed.now.pairs.now }
        ensures arguments { IfOk result (λ all. arguments_of all.items ≡ with_numbered_arguments (renamed_path listed.now.pairs.now) (renamed_area listed.now.pairs.now) number.old (arguments_of arguments.now)) }
        ensures number { OnOk result (number.new ≡ min (number.old + argument_reference_count (arguments_of arguments.now)) (numbers_end listed.now.pairs.now)) }
    {
        let mut copies = Vec::new(alloc);
        for argument in arguments {
            match argument {
                Argument::Tree(tree) => {
                    copies.push(Argument::Tree(tree.renamed(alloc, listed, number)?))?;
                }
                Argument::Cells(area) => copies.push(Argument::Cells(listed.area(number, area)))?,
            }
        }
        Ok(copies)
    }
}

/// The expression with the listed references replaced, and all else as it was. Each number is that
/// of one of its references and stands once; a path takes the place of a path, and an area that of
/// an area. For each reference the list is searched from its front.
pub fn map_paths(alloc: Global, tree: &Expr, renaming: &Renaming) -> Result<Expr, AllocError>
    requires { IsRenamingOf renaming.now.pairs.items tree.now }
    ensures { IfOk result (λ e. e ≡ renamed renaming.now.pairs.items tree.now) }
{
    let mut number = 0;
    tree.renamed(alloc, &Listed::of(&renaming.pairs), &mut number)
}
