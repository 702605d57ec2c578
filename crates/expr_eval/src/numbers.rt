ghost use Rattle.std.specs.Prelude.{◌≡◌, option_map};
ghost use Rattle.quantities.specs.Arithmetic.{bounded};
ghost use Rattle.unit_signatures.specs.Table.{unit_named};
ghost use Rattle.property_types.specs.Values.{same_value};
ghost use Rattle.property_types.specs.declared.value.ValueFault.TheVariants.{OutOfType};
ghost use Rattle.expr_eval.specs.Firsts.{on_one, on_two};
ghost use Rattle.expr_eval.specs.Numbers.{binary_outcome, calculated, combined, flag_of, function_on, function_outcome, literal_outcome, negated, number_of, of_unit, power_outcome, settled, unit_number, unit_outcome};

use expr_tree::{BinaryOp, FunctionOp, UnitPower};
use fc_base::Name;
use property_types::{Outcome, Value, ValueFault};
use quantities::{Amount, AmountFault, Quantity, QuantityFault, Range};
use unit_signatures::{Unit, unit_named};

/// A number, or the fault in its place.
pub type Numeric = Result<Quantity, ValueFault>;

/// Stands for an operation on operands of a kind or a unit that it does not want. An expression
/// that has a sort has none.
const WRONG: ValueFault = ValueFault::OutOfType;

/// The number that an outcome is.
pub fn number_of(outcome: &Outcome) -> Numeric
    ensures { result ≡ number_of OutOfType outcome.now }
{
    match outcome {
        Ok(Value::Number(number)) => Ok(*number),
        Ok(_) => Err(WRONG),
        Err(fault) => Err(*fault),
    }
}

/// The number that an outcome was.
pub fn into_number(outcome: Outcome) -> Numeric
    ensures { result ≡ number_of OutOfType outcome }
{
    number_of(&outcome)
}

/// The flag that an outcome was.
pub fn into_flag(outcome: Outcome) -> Result<bool, ValueFault>
    ensures { result ≡ flag_of OutOfType outcome }
{
    match &outcome {
        Ok(Value::Flag(flag)) => Ok(*flag),
        Ok(_) => Err(WRONG),
        Err(fault) => Err(*fault),
    }
}

/// An amount that was calculated, as a number of a unit.
pub fn calculated(unit: Unit, amount: Result<Amount, AmountFault>) -> Outcome
    ensures { result ≡ calculated unit amount }
{
    match amount {
        Ok(amount) => Ok(Value::Number(Quantity { amount, unit })),
        Err(AmountFault::Range) => Err(ValueFault::Range),
        Err(AmountFault::DivideByZero) => Err(ValueFault::DivideByZero),
    }
}

/// A number that was calculated.
fn settled(number: Result<Quantity, QuantityFault>) -> Outcome
    ensures { result ≡ settled OutOfType number }
{
    match number {
        Ok(number) => Ok(Value::Number(number)),
        Err(QuantityFault::Range) => Err(ValueFault::Range),
        Err(QuantityFault::DivideByZero) => Err(ValueFault::DivideByZero),
        Err(QuantityFault::UnitMismatch) => Err(WRONG),
        Err(QuantityFault::ExponentRange) => Err(WRONG),
    }
}

/// The number that a unit of the table is.
fn unit_number(name: &str) -> Option<Quantity>
    ensures { result ≡ option_map unit_number (unit_named name.now) }
{
    let (factor, unit) = unit_named(name)?;
    match Amount::of_raw(factor) {
        Ok(amount) => Some(Quantity { amount, unit }),
        Err(Range) => None,
    }
}

/// An amount of a unit that is a number: their product.
fn of_unit(amount: Amount, unit: Result<Quantity, QuantityFault>) -> Outcome
    ensures { result ≡ of_unit OutOfType amount unit }
{
    match unit {
        Ok(number) => calculated(number.unit, amount.times(&number.amount)),
        Err(fault) => settled(Err(fault)),
    }
}

/// The outcome of a literal.
pub fn literal_outcome(amount: Amount, unit: &Option<UnitPower>) -> Outcome
    ensures { result ≡ literal_outcome OutOfType amount unit.now }
{
    match unit {
        None => calculated(Unit::pure(), Ok(amount)),
        Some(power) => match unit_number(power.unit.as_str()) {
            Some(number) => of_unit(amount, number.power(power.exponent)),
            None => Err(WRONG),
        },
    }
}

/// The outcome of a unit that stands alone.
pub fn unit_outcome(name: &Name) -> Outcome
    ensures { result ≡ unit_outcome OutOfType (unit_named name.now) }
{
    match unit_number(name.as_str()) {
        Some(number) => Ok(Value::Number(number)),
        None => Err(WRONG),
    }
}

/// The amount of so many billionths, as a calculated one.
fn bounded(raw: i128) -> Result<Amount, AmountFault>
    ensures { result ≡ bounded raw }
{
    Amount::of_raw(raw).map_err(|_| AmountFault::Range)
}

/// The number with the other sign.
pub fn negated(operand: Numeric) -> Outcome
    ensures { result ≡ on_one negated operand }
{
    let number = operand?;
    calculated(number.unit, bounded(-number.amount.raw()))
}

/// An operation on two numbers.
fn combined(op: BinaryOp, left: &Quantity, right: &Quantity) -> Result<Quantity, QuantityFault>
    ensures { result ≡ combined op left.now right.now }
{
    match op {
        BinaryOp::Plus => left.plus(right),
        BinaryOp::Minus => left.minus(right),
        BinaryOp::Times => left.times(right),
        BinaryOp::Over => left.over(right),
        BinaryOp::Modulo => left.modulo(right),
    }
}

/// The outcome of an operation on two numbers.
pub fn binary_outcome(op: BinaryOp, left: Numeric, right: Numeric) -> Outcome
    ensures { result ≡ on_two (binary_outcome OutOfType op) left right }
{
    let left = left?;
    let right = right?;
    settled(combined(op, &left, &right))
}

/// The outcome of a power.
pub fn power_outcome(exponent: i8, operand: Numeric) -> Outcome
    ensures { result ≡ on_one (power_outcome OutOfType exponent) operand }
{
    settled(operand?.power(exponent))
}

/// A function of one number, on its amount.
fn function_on(op: FunctionOp, amount: &Amount) -> Result<Amount, AmountFault>
    ensures { result ≡ function_on op amount.now }
{
    match op {
        FunctionOp::Abs => bounded(amount.raw().abs()),
        FunctionOp::Ceil => amount.ceil(),
        FunctionOp::Floor => amount.floor(),
        FunctionOp::Round => amount.round(),
        FunctionOp::Trunc => amount.trunc(),
    }
}

/// The outcome of a function of one number.
pub fn function_outcome(op: FunctionOp, operand: Numeric) -> Outcome
    ensures { result ≡ on_one (function_outcome op) operand }
{
    let number = operand?;
    calculated(number.unit, function_on(op, &number.amount))
}
