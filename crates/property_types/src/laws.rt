//! Laws of the definitions, each as the contract of a function with nothing to do.
ghost use Rattle.property_types.specs.Examples.{FitsWork};
ghost use Rattle.property_types.specs.Fits.{FittedHasSort, FitsOnce};
ghost use Rattle.property_types.specs.Types.{NamesAreRead};
ghost use Rattle.property_types.specs.Values.{SameValueIsEquality};
ghost use Rattle.property_types.specs.Sorts.{SameSortIsEquality};

/// The test of values holds exactly between equal values.
pub fn value_test_is_exact()
    ensures { SameValueIsEquality }
{}

/// The test of sorts holds exactly between equal sorts.
pub fn sort_test_is_exact()
    ensures { SameSortIsEquality }
{}

/// Values are fitted to types as the table of types says.
pub fn fits_work()
    ensures { FitsWork }
{}

/// Where a value of the type's sort, or a pure number for a type of numbers, is fitted, the result
/// has the type's sort.
pub fn fitted_values_have_the_sort()
    ensures { FittedHasSort }
{}

/// A fitted value fits as it is.
pub fn fitted_values_fit()
    ensures { FitsOnce }
{}

/// Each type of a property is the one that its name names.
pub fn names_are_read()
    ensures { NamesAreRead }
{}
