use thiserror::Error;

/// Why a text gives no amount.
#[derive(Clone, Copy, Debug, PartialEq, Eq, Error)]
pub enum DecimalFault {
    /// The text is no decimal.
    #[error("the text is no decimal number")]
    NotDecimal,
    /// The rounded number would pass the bound of an amount.
    #[error("the number is out of range")]
    Range,
}
