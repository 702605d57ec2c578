//! Laws of the definitions, each as the contract of a function with nothing to do.
ghost use Rattle.recompute.specs.Evaluated.{SameOutcomeIsEquality};

/// The test of outcomes holds exactly between equal outcomes.
pub fn same_outcome_is_equality()
    ensures { SameOutcomeIsEquality }
{}
