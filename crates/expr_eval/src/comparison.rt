ghost use Rattle.std.specs.Prelude.{◌≡◌, Ok};
ghost use Rattle.property_types.specs.Values.{same_value};
ghost use Rattle.property_types.specs.declared.value.ValueFault.TheVariants.{OutOfType};
ghost use Rattle.expr_eval.specs.Firsts.{on_two};
ghost use Rattle.expr_eval.specs.Numbers.{compared, holds};

use crate::numbers::number_of;
use expr_tree::CompareOp;
use property_types::{Outcome, Value, ValueFault};

/// Whether two values are the same.
fn are_same(left: &Outcome, right: &Outcome) -> Result<bool, ValueFault>
    ensures { result ≡ on_two (λ v w. Ok (same_value v w)) left.now right.now }
{
    match left {
        Err(fault) => Err(*fault),
        Ok(left) => match right {
            Err(fault) => Err(*fault),
            Ok(right) => Ok(*left == *right),
        },
    }
}

/// Whether a comparison holds.
fn holds(op: CompareOp, left: &Outcome, right: &Outcome) -> Result<bool, ValueFault>
    ensures { result ≡ holds OutOfType op left.now right.now }
{
    match op {
        CompareOp::Equal => return are_same(left, right),
        CompareOp::NotEqual => return Ok(!are_same(left, right)?),
        _ => {}
    }
    let left = number_of(left)?.amount.raw();
    let right = number_of(right)?.amount.raw();
    Ok(match op {
        CompareOp::Less => left < right,
        CompareOp::LessOrEqual => left <= right,
        CompareOp::Greater => left > right,
        _ => left >= right,
    })
}

/// The outcome of a comparison.
pub fn compared(op: CompareOp, left: &Outcome, right: &Outcome) -> Outcome
    ensures { result ≡ compared OutOfType op left.now right.now }
{
    Ok(Value::Flag(holds(op, left, right)?))
}
