ghost use Rattle.std.specs.Prelude.{◌≡◌, ◌+◌, ◌<◌, ◌^◌, IfOk, OnOk, ◌++◌};
ghost use Rattle.expr_tree.specs.NodesAsTrees.{arguments_of};
ghost use Rattle.expr_tree.specs.References.{argument_reference_count, reference_count};
ghost use Rattle.expr_eval.specs.Firsts.{all_of, on_one};
ghost use Rattle.expr_eval.specs.SortRows.{aggregate_sort};
ghost use Rattle.expr_eval.specs.Sorts.{HasSort, item_sorts, sort_of};

use crate::all_of::all_of;
use crate::env::SortEnv;
use crate::sort_cause::{SortCause, SortFault, SortOutcome};
use crate::sort_rows::{
    aggregate_sort, binary_sort, compare_sort, conditional_sort, literal_sort, number_sort,
    power_sort, unit_sort,
};
use expr_tree::{AggregateOp, Argument, BinaryOp, Expr, Node, reference_count};
use property_types::Sort;
use std::alloc::{AllocError, Global};

/// The sort of an expression with fewer than 2^32 references, or the first cause from the left why
/// it has none. The causes of all operands come before those of the operation on them, and there a
/// wrong kind before a wrong unit. It costs as much as `evaluate`.
pub fn sort_of<E: SortEnv>(alloc: Global, tree: &Expr, env: &E) -> Result<Sort, SortFault>
    requires { reference_count tree.now < 2 ^ 32 }
    ensures { HasSort (sort_of (E.sort_reading env.now) 0 tree.now) result }
{
    let sort = sort_from(alloc, tree, env, 0).map_err(SortFault::Memory)?;
    sort.map_err(SortFault::Cause)
}

/// The sort of a tree whose first reference is the `first` one of the expression.
#[cycle(sorts)]
fn sort_from<E: SortEnv>(
    alloc: Global,
    tree: &Expr,
    env: &E,
    first: u32,
) -> Result<SortOutcome, AllocError>
    requires { first + reference_count tree.now < 2 ^ 32 }
    ensures { IfOk result (λ sort. sort ≡ sort_of (E.sort_reading env.now) first tree.now) }
{
    match &tree.node {
        Node::Literal(_, unit) => Ok(literal_sort(unit)),
        Node::UnitOne(name) => Ok(unit_sort(name)),
        Node::Flag(_) => Ok(Ok(Sort::Flag)),
        Node::Text(_) => Ok(Ok(Sort::Text)),
        Node::Path(_) => Ok(env.path_sort(first)),
        Node::Negate(a) => Ok(number_sort(sort_from(alloc, a, env, first)?)),
        Node::Binary(op, a, b) => {
            let left = sort_from(alloc, a, env, first)?;
            let right = sort_from(alloc, b, env, first + reference_count(a))?;
            Ok(binary_sort(*op, left, right))
        }
        Node::Power(a, exponent) => { Ok(power_sort(*exponent, sort_from(alloc, a, env, first)?)) }
        Node::Compare(op, a, b) => {
            let left = sort_from(alloc, a, env, first)?;
            let right = sort_from(alloc, b, env, first + reference_count(a))?;
            Ok(compare_sort(*op, left, right))
        }
        Node::Conditional(c, a, b) => {
            let condition = sort_from(alloc, c, env, first)?;
            let second = first + reference_count(c);
            let left = sort_from(alloc, a, env, second)?;
            let right = sort_from(alloc, b, env, second + reference_count(a))?;
            Ok(conditional_sort(condition, left, right))
        }
        Node::Function(_, a) => Ok(number_sort(sort_from(alloc, a, env, first)?)),
        Node::Modulo(a, b) => {
            let left = sort_from(alloc, a, env, first)?;
            let right = sort_from(alloc, b, env, first + reference_count(a))?;
            Ok(binary_sort(BinaryOp::Modulo, left, right))
        }
        Node::Aggregate(op, all) => {
            let items = item_sorts(alloc, all, env, first)?;
            aggregated_sort(alloc, *op, &items)
        }
    }
}

/// The sorts of the items of arguments whose first reference is the `first` one of the expression.
#[cycle(sorts)]
fn item_sorts<E: SortEnv>(
    alloc: Global,
    arguments: &[Argument],
    env: &E,
    first: u32,
) -> Result<Vec<SortOutcome>, AllocError>
    requires { first + argument_reference_count (arguments_of arguments.now) < 2 ^ 32 }
    ensures { IfOk result (λ items. items.items ≡ item_sorts (E.sort_reading env.now) first (arguments_of arguments.now)) }
{
    let mut items = Vec::new(alloc);
    let mut next = first;
    for argument in arguments {
        match argument {
            Argument::Tree(part) => {
                items.push(sort_from(alloc, part, env, next)?)?;
                next += reference_count(part);
            }
            Argument::Cells(_) => {
                push_cell_sorts(env, next, &mut items)?;
                next += 1;
            }
        }
    }
    Ok(items)
}

/// Adds the sorts of an area's filled cells.
fn push_cell_sorts<E: SortEnv>(
    env: &E,
    area: u32,
    items: &mut Vec<SortOutcome>,
) -> Result<(), AllocError>
    ensures { OnOk result (items.new.items ≡ items.old.items ++ (E.sort_reading env.now).inside area) }
{
    for cell in env.area_cells(area) {
        items.push(env.cell_sort(*cell))?;
    }
    Ok(())
}

/// The sort of a function of many numbers on these.
fn aggregated_sort(
    alloc: Global,
    op: AggregateOp,
    items: &[SortOutcome],
) -> Result<SortOutcome, AllocError>
    ensures { IfOk result (λ sort. sort ≡ on_one (aggregate_sort op) (all_of items.now)) }
{
    let sorts = all_of(alloc, items)?;
    match &sorts {
        Ok(sorts) => Ok(aggregate_sort(op, sorts)),
        Err(cause) => Ok(Err(*cause)),
    }
}
