use property_types::Sort;
use std::alloc::AllocError;
use thiserror::Error;

/// Why an expression has no sort.
#[derive(Clone, Copy, Debug, PartialEq, Eq, Error)]
pub enum SortCause {
    /// Numbers of different units where one unit is wanted.
    #[error("the units differ")]
    UnitMismatch,
    /// A number, a flag or a text where another kind is wanted.
    #[error("not the kind that is wanted")]
    KindMismatch,
    /// A unit with an exponent outside -8 to 7.
    #[error("an exponent of the unit is out of range")]
    ExponentRange,
}

/// What sort an expression has, or why it has none.
pub type SortOutcome = Result<Sort, SortCause>;

/// Why a sort was not found.
#[derive(Debug, Drop, Error)]
pub enum SortFault {
    /// The expression has none.
    #[error("the expression has no sort: {0}")]
    Cause(SortCause),
    #[error("out of memory")]
    Memory(AllocError),
}
