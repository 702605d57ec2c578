use thiserror::Error;

/// Why there is no quantity.
#[derive(Clone, Copy, Debug, PartialEq, Eq, Error)]
pub enum QuantityFault {
    /// The units differ.
    #[error("the units differ")]
    UnitMismatch,
    /// The unit of the result would have an exponent outside -8 to 7.
    #[error("an exponent of the unit is out of range")]
    ExponentRange,
    /// The amount would pass its bound.
    #[error("the number is out of range")]
    Range,
    /// The divisor is zero.
    #[error("the divisor is zero")]
    DivideByZero,
}
