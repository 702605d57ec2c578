//! A law of the definitions, as the contract of a function with nothing to do.
ghost use Rattle.quantities.specs.Nearness.{NearIsNearest};

/// The number to which a quotient is rounded is at most half from it, and where two numbers are, it
/// is the one of greater size.
pub fn rounding_gives_the_nearest()
    ensures { NearIsNearest }
{}
