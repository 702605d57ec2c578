ghost use Rattle.std.specs.Prelude.{◌≡◌};
ghost use Rattle.std.specs.List.{list_all};
ghost use Rattle.unit_signatures.specs.Table.{unit_named};
ghost use Rattle.property_types.specs.Sorts.{same_sort};
ghost use Rattle.expr_eval.specs.Firsts.{all_of, on_one, on_three, on_two};
ghost use Rattle.expr_eval.specs.SortRows.{aggregate_sort, binary_sort, compare_sort, conditional_sort, is_number_sort, literal_sort, number_in, number_sort, one_sort, one_unit, one_unit_sort, power_sort, unit_of_two, unit_sort};

use crate::sort_cause::{SortCause, SortOutcome};
use expr_tree::{AggregateOp, BinaryOp, CompareOp, UnitPower};
use fc_base::Name;
use property_types::Sort;
use unit_signatures::{ExponentRange, Unit, unit_named};

/// Numbers of a unit that was calculated.
fn number_in(unit: Result<Unit, ExponentRange>) -> SortOutcome
    ensures { result ≡ number_in unit }
{
    match unit {
        Ok(unit) => Ok(Sort::Number(unit)),
        Err(_) => Err(SortCause::ExponentRange),
    }
}

/// Numbers of one unit.
fn one_unit(left: Unit, right: Unit) -> SortOutcome
    ensures { result ≡ one_unit left right }
{
    if left == right {
        Ok(Sort::Number(left))
    } else {
        Err(SortCause::UnitMismatch)
    }
}

/// Two of one sort.
pub fn one_sort(left: Sort, right: Sort) -> SortOutcome
    ensures { result ≡ one_sort left right }
{
    match left {
        Sort::Number(unit) => match right {
            Sort::Number(other) => one_unit(unit, other),
            _ => Err(SortCause::KindMismatch),
        },
        Sort::Flag => match right {
            Sort::Flag => Ok(Sort::Flag),
            _ => Err(SortCause::KindMismatch),
        },
        Sort::Text => match right {
            Sort::Text => Ok(Sort::Text),
            _ => Err(SortCause::KindMismatch),
        },
    }
}

/// The sort of a literal.
pub fn literal_sort(unit: &Option<UnitPower>) -> SortOutcome
    ensures { result ≡ literal_sort unit.now }
{
    match unit {
        None => Ok(Sort::Number(Unit::pure())),
        Some(power) => match unit_named(power.unit.as_str()) {
            Some((_, unit)) => number_in(unit.power(power.exponent)),
            None => Err(SortCause::KindMismatch),
        },
    }
}

/// The sort of a unit that stands alone.
pub fn unit_sort(name: &Name) -> SortOutcome
    ensures { result ≡ unit_sort (unit_named name.now) }
{
    match unit_named(name.as_str()) {
        Some((_, unit)) => Ok(Sort::Number(unit)),
        None => Err(SortCause::KindMismatch),
    }
}

/// The sort of a function of one number.
pub fn number_sort(operand: SortOutcome) -> SortOutcome
    ensures { result ≡ on_one number_sort operand }
{
    match operand? {
        Sort::Number(unit) => Ok(Sort::Number(unit)),
        _ => Err(SortCause::KindMismatch),
    }
}

/// The sort that an operation gives on two units.
fn unit_of_two(op: BinaryOp, left: Unit, right: Unit) -> SortOutcome
    ensures { result ≡ unit_of_two op left right }
{
    match op {
        BinaryOp::Plus | BinaryOp::Minus | BinaryOp::Modulo => one_unit(left, right),
        BinaryOp::Times => number_in(left.times(&right)),
        BinaryOp::Over => number_in(left.over(&right)),
    }
}

/// The sort of an operation on two numbers.
pub fn binary_sort(op: BinaryOp, left: SortOutcome, right: SortOutcome) -> SortOutcome
    ensures { result ≡ on_two (binary_sort op) left right }
{
    let (left, right) = (left?, right?);
    match left {
        Sort::Number(unit) => match right {
            Sort::Number(other) => unit_of_two(op, unit, other),
            _ => Err(SortCause::KindMismatch),
        },
        _ => Err(SortCause::KindMismatch),
    }
}

/// The sort of a power.
pub fn power_sort(exponent: i8, operand: SortOutcome) -> SortOutcome
    ensures { result ≡ on_one (power_sort exponent) operand }
{
    match operand? {
        Sort::Number(unit) => number_in(unit.power(exponent)),
        _ => Err(SortCause::KindMismatch),
    }
}

/// The sort of a comparison.
pub fn compare_sort(op: CompareOp, left: SortOutcome, right: SortOutcome) -> SortOutcome
    ensures { result ≡ on_two (compare_sort op) left right }
{
    let (left, right) = (left?, right?);
    match op {
        CompareOp::Equal | CompareOp::NotEqual => one_sort(left, right)?,
        _ => binary_sort(BinaryOp::Minus, Ok(left), Ok(right))?,
    };
    Ok(Sort::Flag)
}

/// The sort of a conditional.
pub fn conditional_sort(
    condition: SortOutcome,
    left: SortOutcome,
    right: SortOutcome,
) -> SortOutcome
    ensures { result ≡ on_three conditional_sort condition left right }
{
    let (condition, left, right) = (condition?, left?, right?);
    match condition {
        Sort::Flag => one_sort(left, right),
        _ => Err(SortCause::KindMismatch),
    }
}

/// Whether all are sorts of numbers.
fn are_numbers(sorts: &[Sort]) -> bool
    ensures { result ≡ list_all is_number_sort sorts.now }
{
    sorts.iter().all(|sort| matches!(sort, Sort::Number(_)))
}

/// Whether all are one sort.
fn are_all(sort: Sort, sorts: &[Sort]) -> bool
    ensures { result ≡ list_all (same_sort sort) sorts.now }
{
    sorts.iter().all(|other| sort == *other)
}

/// Numbers of one unit.
fn one_unit_sort(sorts: &[Sort]) -> SortOutcome
    ensures { result ≡ one_unit_sort sorts.now }
{
    if !are_numbers(sorts) {
        return Err(SortCause::KindMismatch);
    }
    match sorts {
        [] => Ok(Sort::Number(Unit::pure())),
        [first, rest @ ..] => {
            if are_all(*first, rest) {
                Ok(*first)
            } else {
                Err(SortCause::UnitMismatch)
            }
        }
    }
}

/// The sort of a function of many numbers.
pub fn aggregate_sort(op: AggregateOp, sorts: &[Sort]) -> SortOutcome
    ensures { result ≡ aggregate_sort op sorts.now }
{
    let sort = one_unit_sort(sorts)?;
    match op {
        AggregateOp::Count => Ok(Sort::Number(Unit::pure())),
        _ => Ok(sort),
    }
}
