use thiserror::Error;

/// Why there is no amount.
#[derive(Clone, Copy, Debug, PartialEq, Eq, Error)]
pub enum AmountFault {
    /// The result would pass the bound of an amount.
    #[error("the number is out of range")]
    Range,
    /// The divisor is zero.
    #[error("the divisor is zero")]
    DivideByZero,
}
