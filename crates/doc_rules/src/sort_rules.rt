ghost use Rattle.std.specs.Prelude.{◌≡◌};
ghost use Rattle.property_types.specs.Sorts.{sort_of_value};
ghost use Rattle.document_outcomes.specs.Faults.{number_of_cause};
ghost use Rattle.document_outcomes.specs.Sorts.{given_sort, number_given};
ghost use Rattle.doc_rules.specs.SortTables.{given_as, own_as, wanted_as};

use crate::numbers::{EXPONENT_RANGE, KIND_MISMATCH, UNIT_MISMATCH};
use expr_eval::{SortCause, SortOutcome, one_sort};
use property_types::{Sort, Value};
use unit_signatures::Unit;

/// The number of a cause why a slot has no sort.
pub fn number_of_cause(cause: SortCause) -> u8
    ensures { result ≡ number_of_cause cause }
{
    match cause {
        SortCause::UnitMismatch => UNIT_MISMATCH,
        SortCause::KindMismatch => KIND_MISMATCH,
        SortCause::ExponentRange => EXPONENT_RANGE,
    }
}

/// The sort of a value.
fn sort_of_value(value: &Value) -> Sort
    ensures { result ≡ sort_of_value value.now }
{
    match value {
        Value::Number(number) => Sort::Number(number.unit),
        Value::Flag(_) => Sort::Flag,
        Value::Text(_) => Sort::Text,
    }
}

/// The sort of an own value in a slot that wants a sort.
pub fn own_as(wanted: Option<Sort>, value: &Value) -> SortOutcome
    ensures { result ≡ own_as wanted value.now }
{
    match wanted {
        Some(wanted) => one_sort(wanted, sort_of_value(value)),
        None => Ok(sort_of_value(value)),
    }
}

/// A number that is given to a slot with numbers of a unit: it is of the unit, or pure.
fn number_given(wanted: Unit, unit: Unit) -> SortOutcome
    ensures { result ≡ number_given wanted unit }
{
    if wanted == unit || Unit::pure() == unit {
        Ok(Sort::Number(wanted))
    } else {
        Err(SortCause::UnitMismatch)
    }
}

/// What an expression of a sort gives a slot that wants a sort.
fn given_sort(wanted: Sort, given: Sort) -> SortOutcome
    ensures { result ≡ given_sort wanted given }
{
    match wanted {
        Sort::Number(wanted) => match given {
            Sort::Number(unit) => number_given(wanted, unit),
            _ => Err(SortCause::KindMismatch),
        },
        Sort::Flag => match given {
            Sort::Flag => Ok(Sort::Flag),
            _ => Err(SortCause::KindMismatch),
        },
        Sort::Text => match given {
            Sort::Text => Ok(Sort::Text),
            _ => Err(SortCause::KindMismatch),
        },
    }
}

/// The sort of an expression in a slot that wants a sort.
pub fn given_as(wanted: Option<Sort>, found: SortOutcome) -> SortOutcome
    ensures { result ≡ given_as wanted found }
{
    match wanted {
        Some(wanted) => given_sort(wanted, found?),
        None => found,
    }
}

/// The sort of what is inherited or worked out, in a slot that wants a sort.
pub fn wanted_as(wanted: Option<Sort>) -> SortOutcome
    ensures { result ≡ wanted_as wanted }
{
    wanted.ok_or(SortCause::KindMismatch)
}
