ghost use Rattle.std.specs.Prelude.{◌≡◌, length};
ghost use Rattle.std.specs.List.{reduce};
ghost use Rattle.std.specs.Int.{int_max, int_min};
ghost use Rattle.expr_eval.specs.Aggregates.{aggregate_outcome, amounts, average_outcome, best_outcome, count_of, mean, total, unit_of_all};

use crate::numbers::calculated;
use expr_tree::AggregateOp;
use property_types::{Outcome, Value, ValueFault};
use quantities::{Amount, AmountFault, ONE_RAW, Quantity};
use unit_signatures::Unit;

/// The unit of the numbers; of none it is the pure unit.
fn unit_of_all(numbers: &[Quantity]) -> Unit
    ensures { result ≡ unit_of_all numbers.now }
{
    match numbers {
        [] => Unit::pure(),
        [first, ..] => first.unit,
    }
}

/// The amounts added to 0, from the left.
fn total(numbers: &[Quantity]) -> Result<Amount, AmountFault>
    ensures { result ≡ total (amounts numbers.now) }
{
    let mut sum = Amount::zero();
    for number in numbers {
        sum = sum.plus(&number.amount)?;
    }
    Ok(sum)
}

/// How many numbers there are, as an amount.
fn count_of(numbers: &[Quantity]) -> Result<Amount, AmountFault>
    ensures { result ≡ count_of (length numbers.now) }
{
    let count = numbers.len() as i128;
    Amount::of_raw(count * ONE_RAW).map_err(|_| AmountFault::Range)
}

/// The total over the count.
fn mean(numbers: &[Quantity]) -> Result<Amount, AmountFault>
    ensures { result ≡ mean (amounts numbers.now) }
{
    let total = total(numbers)?;
    total.over(&count_of(numbers)?)
}

/// The least amount.
fn least(numbers: &[Quantity]) -> Option<Amount>
    ensures { result ≡ reduce int_min (amounts numbers.now) }
{
    let (first, others) = numbers.split_first()?;
    let mut least = first.amount;
    for number in others {
        if number.amount.raw() < least.raw() {
            least = number.amount;
        }
    }
    Some(least)
}

/// The greatest amount.
fn greatest(numbers: &[Quantity]) -> Option<Amount>
    ensures { result ≡ reduce int_max (amounts numbers.now) }
{
    let (first, others) = numbers.split_first()?;
    let mut greatest = first.amount;
    for number in others {
        if greatest.raw() <= number.amount.raw() {
            greatest = number.amount;
        }
    }
    Some(greatest)
}

/// An amount of a unit, where there is one.
fn best_outcome(unit: Unit, amount: Option<Amount>) -> Outcome
    ensures { result ≡ best_outcome unit amount }
{
    match amount {
        Some(amount) => Ok(Value::Number(Quantity { amount, unit })),
        None => Err(ValueFault::EmptyAggregate),
    }
}

/// The total over the count, of one number at least.
fn average_outcome(numbers: &[Quantity]) -> Outcome
    ensures { result ≡ average_outcome numbers.now }
{
    if numbers.is_empty() {
        return Err(ValueFault::EmptyAggregate);
    }
    calculated(unit_of_all(numbers), mean(numbers))
}

/// The outcome of a function of many numbers.
pub fn aggregate_outcome(op: AggregateOp, numbers: &[Quantity]) -> Outcome
    ensures { result ≡ aggregate_outcome op numbers.now }
{
    match op {
        AggregateOp::Sum => calculated(unit_of_all(numbers), total(numbers)),
        AggregateOp::Average => average_outcome(numbers),
        AggregateOp::Count => calculated(Unit::pure(), count_of(numbers)),
        AggregateOp::Min => best_outcome(unit_of_all(numbers), least(numbers)),
        AggregateOp::Max => best_outcome(unit_of_all(numbers), greatest(numbers)),
    }
}
