ghost use Rattle.std.specs.Prelude.{◌≡◌, ◌+◌, ◌-◌, ◌<◌, ◌≤◌, ◌^◌, ◌++◌, map, min, IfOk, OnOk};
ghost use Rattle.expr_tree.specs.NodesAsTrees.{arguments_of};
ghost use Rattle.expr_tree.specs.Nodes.{argument_nodes, node_count};
ghost use Rattle.expr_tree.specs.References.{argument_reference_count, reference_count};
ghost use Rattle.property_types.specs.declared.value.ValueFault.TheVariants.{OutOfType};
ghost use Rattle.expr_eval.specs.Aggregates.{aggregate_outcome};
ghost use Rattle.expr_eval.specs.Firsts.{all_of, on_one};
ghost use Rattle.expr_eval.specs.Numbers.{number_of};
ghost use Rattle.expr_eval.specs.Outcomes.{items_by, outcome_of};
ghost use Rattle.expr_eval.specs.Visited.{visited, visited_arguments};

use crate::aggregates::aggregate_outcome;
use crate::all_of::all_of;
use crate::comparison::compared;
use crate::env::OutcomeEnv;
use crate::numbers::{
    Numeric, binary_outcome, function_outcome, into_flag, into_number, literal_outcome, negated,
    number_of, power_outcome, unit_outcome,
};
use expr_tree::{AggregateOp, Argument, BinaryOp, Expr, Node, reference_count};
use fc_base::Steps;
use property_types::{Outcome, Value, copy_outcome};
use std::alloc::{AllocError, Global};

/// The outcome of an expression with fewer than 2^32 references, for what stands behind them: the
/// first fault from the left, or the value. Of a conditional only the arm that is chosen counts.
/// Each node that is visited is one step: the root always, and at most all nodes. Without memory the
/// steps so far are counted. At a node with two operands the references of the left one are counted, so
/// a deep tree costs its nodes times its depth.
pub fn evaluate<E: OutcomeEnv, L>(
    alloc: Global,
    tree: &Expr,
    env: &E,
    steps: &mut Steps<L>,
) -> Result<Outcome, AllocError>
    requires { reference_count tree.now < 2 ^ 32 }
    ensures outcome { IfOk result (λ o. o ≡ outcome_of (E.reading env.now) 0 tree.now) }
    ensures steps { OnOk result (steps.new ≡ min (steps.old + visited (E.reading env.now) 0 tree.now) (2 ^ 64 - 1)) }
    ensures at_least { min (steps.old + 1) (2 ^ 64 - 1) ≤ steps.new }
    ensures at_most { steps.new ≤ min (steps.old + node_count tree.now) (2 ^ 64 - 1) }
{
    evaluate_from(alloc, tree, env, 0, steps)
}

/// The outcome of a tree whose first reference is the `first` one of the expression.
#[cycle(evaluation)]
fn evaluate_from<E: OutcomeEnv, L>(
    alloc: Global,
    tree: &Expr,
    env: &E,
    first: u32,
    steps: &mut Steps<L>,
) -> Result<Outcome, AllocError>
    requires { first + reference_count tree.now < 2 ^ 32 }
    ensures outcome { IfOk result (λ o. o ≡ outcome_of (E.reading env.now) first tree.now) }
    ensures steps { OnOk result (steps.new ≡ min (steps.old + visited (E.reading env.now) first tree.now) (2 ^ 64 - 1)) }
    ensures at_least { min (steps.old + 1) (2 ^ 64 - 1) ≤ steps.new }
    ensures at_most { steps.new ≤ min (steps.old + node_count tree.now) (2 ^ 64 - 1) }
{
    steps.tick();
    match &tree.node {
        Node::Literal(amount, unit) => Ok(literal_outcome(*amount, unit)),
        Node::UnitOne(name) => Ok(unit_outcome(name)),
        Node::Flag(flag) => Ok(Ok(Value::Flag(*flag))),
        Node::Text(text) => Ok(Ok(Value::Text(text.copy(alloc)?))),
        Node::Path(_) => copy_outcome(alloc, env.path_outcome(first)),
        Node::Negate(a) => Ok(negated(number(alloc, a, env, first, steps)?)),
        Node::Binary(op, a, b) => {
            let left = number(alloc, a, env, first, steps)?;
            let right = number(alloc, b, env, first + reference_count(a), steps)?;
            Ok(binary_outcome(*op, left, right))
        }
        Node::Power(a, exponent) => {
            let base = number(alloc, a, env, first, steps)?;
            Ok(power_outcome(*exponent, base))
        }
        Node::Compare(op, a, b) => {
            let left = evaluate_from(alloc, a, env, first, steps)?;
            let right = evaluate_from(alloc, b, env, first + reference_count(a), steps)?;
            Ok(compared(*op, &left, &right))
        }
        Node::Conditional(c, a, b) => {
            let condition = evaluate_from(alloc, c, env, first, steps)?;
            let second = first + reference_count(c);
            match into_flag(condition) {
                Ok(true) => evaluate_from(alloc, a, env, second, steps),
                Ok(false) => evaluate_from(alloc, b, env, second + reference_count(a), steps),
                Err(fault) => Ok(Err(fault)),
            }
        }
        Node::Function(op, a) => {
            let operand = number(alloc, a, env, first, steps)?;
            Ok(function_outcome(*op, operand))
        }
        Node::Modulo(a, b) => {
            let left = number(alloc, a, env, first, steps)?;
            let right = number(alloc, b, env, first + reference_count(a), steps)?;
            Ok(binary_outcome(BinaryOp::Modulo, left, right))
        }
        Node::Aggregate(op, all) => {
            let items = item_numbers(alloc, all, env, first, steps)?;
            aggregated(alloc, *op, &items)
        }
    }
}

/// The number that a tree gives whose first reference is the `first` one of the expression.
#[cycle(evaluation)]
fn number<E: OutcomeEnv, L>(
    alloc: Global,
    tree: &Expr,
    env: &E,
    first: u32,
    steps: &mut Steps<L>,
) -> Result<Numeric, AllocError>
    requires { first + reference_count tree.now < 2 ^ 32 }
    ensures number { IfOk result (λ n. n ≡ number_of OutOfType (outcome_of (E.reading env.now) first tree.now)) }
    ensures steps { OnOk result (steps.new ≡ min (steps.old + visited (E.reading env.now) first tree.now) (2 ^ 64 - 1)) }
    ensures at_least { min (steps.old + 1) (2 ^ 64 - 1) ≤ steps.new }
    ensures at_most { steps.new ≤ min (steps.old + node_count tree.now) (2 ^ 64 - 1) }
{
    let outcome = evaluate_from(alloc, tree, env, first, steps)?;
    Ok(into_number(outcome))
}

/// The numbers that the items of arguments give, whose first reference is the `first` one of the
/// expression.
#[cycle(evaluation)]
fn item_numbers<E: OutcomeEnv, L>(
    alloc: Global,
    arguments: &[Argument],
    env: &E,
    first: u32,
    steps: &mut Steps<L>,
) -> Result<Vec<Numeric>, AllocError>
    requires { first + argument_reference_count (arguments_of arguments.now) < 2 ^ 32 }
    ensures items { IfOk result (λ items. items.items ≡ items_by OutOfType (E.reading env.now) first (arguments_of arguments.now)) }
    ensures steps { OnOk result (steps.new ≡ min (steps.old + visited_arguments (E.reading env.now) first (arguments_of arguments.now)) (2 ^ 64 - 1)) }
    ensures never_less { steps.old ≤ steps.new }
    ensures at_most { steps.new ≤ min (steps.old + argument_nodes (arguments_of arguments.now)) (2 ^ 64 - 1) }
{
    steps.is_bounded(); // for the proof
    let mut items = Vec::new(alloc);
    let mut next = first;
    for argument in arguments {
        match argument {
            Argument::Tree(part) => {
                items.push(number(alloc, part, env, next, steps)?)?;
                next += reference_count(part);
            }
            Argument::Cells(_) => {
                push_cells(env, next, &mut items)?;
                next += 1;
            }
        }
    }
    Ok(items)
}

/// Adds the numbers of an area's filled cells.
fn push_cells<E: OutcomeEnv>(env: &E, area: u32, items: &mut Vec<Numeric>) -> Result<(), AllocError>
    ensures { OnOk result (items.new.items ≡ items.old.items ++ map (number_of OutOfType) ((E.reading env.now).inside area)) }
{
    for cell in env.area_cells(area) {
        items.push(number_of(env.cell_outcome(*cell)))?;
    }
    Ok(())
}

/// The outcome of a function of many numbers on these.
fn aggregated(alloc: Global, op: AggregateOp, items: &[Numeric]) -> Result<Outcome, AllocError>
    ensures { IfOk result (λ o. o ≡ on_one (aggregate_outcome op) (all_of items.now)) }
{
    let numbers = all_of(alloc, items)?;
    match &numbers {
        Ok(numbers) => Ok(aggregate_outcome(op, numbers)),
        Err(fault) => Ok(Err(*fault)),
    }
}
