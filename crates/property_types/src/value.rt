ghost use Rattle.std.specs.Prelude.{◌≡◌, IfOk};

use fc_base::TextValue;
use quantities::Quantity;
use std::alloc::{AllocError, Global};
use thiserror::Error;

/// Why a slot has no value.
#[derive(Clone, Copy, Debug, PartialEq, Eq, Error)]
pub enum ValueFault {
    /// A number would pass the bound of an amount.
    #[error("the number is out of range")]
    Range,
    #[error("a division by zero")]
    DivideByZero,
    /// A number with a fraction where the type wants a whole one.
    #[error("the type wants a whole number")]
    NotWhole,
    /// A number outside the range of the type.
    #[error("the number is outside the range of the type")]
    OutOfType,
    /// The average, the least or the greatest of nothing.
    #[error("an aggregate of nothing")]
    EmptyAggregate,
}

/// What a slot holds: a number with its unit, a flag or a text.
#[derive(Debug, PartialEq, Eq, Drop)]
pub enum Value {
    Number(Quantity),
    Flag(bool),
    Text(TextValue),
}

/// What a rule gives a slot: a value, or why there is none.
pub type Outcome = Result<Value, ValueFault>;

impl Value {
    /// An equal value.
    pub fn copy(&self, alloc: Global) -> Result<Value, AllocError>
        ensures { IfOk result (λ value. value ≡ self.now) }
    {
        match self {
            Value::Number(number) => Ok(Value::Number(*number)),
            Value::Flag(flag) => Ok(Value::Flag(*flag)),
            Value::Text(text) => Ok(Value::Text(text.copy(alloc)?)),
        }
    }
}

/// An equal outcome.
pub fn copy_outcome(alloc: Global, outcome: &Outcome) -> Result<Outcome, AllocError>
    ensures { IfOk result (λ copy. copy ≡ outcome.now) }
{
    match outcome {
        Ok(value) => Ok(Ok(value.copy(alloc)?)),
        Err(fault) => Ok(Err(*fault)),
    }
}
