ghost use Rattle.std.specs.Prelude.{◌≡◌, IsTrue};
ghost use Rattle.std.specs.List.{list_all};
ghost use Rattle.unit_signatures.specs.Products.{differences, multiples, power_of, product, quotient, sums, within};
ghost use Rattle.unit_signatures.specs.Units.{is_exponent, pure};

use std::marker::Model;
use thiserror::Error;

/// An exponent would leave -8 to 7.
#[derive(Clone, Copy, Debug, PartialEq, Eq, Error)]
#[error("an exponent of the unit is out of range")]
pub struct ExponentRange;

/// A unit: the exponents, each -8 to 7, of mm, kg, s, A, K, mol, cd and deg, in this order. It is
/// seen as the list of these eight numbers.
#[derive(Clone, Copy, Debug, PartialEq, Eq)]
pub struct Unit {
    pub(crate) exponents: [i8; 8],
}

impl Model for Unit {
    ghost use Rattle.std.specs.Prelude.{List, ℤ};
    ghost use Rattle.unit_signatures.specs.Units.{IsUnit};

    ghost Value = { List ℤ };

    ghost view = { λ u. u.exponents };

    ghost invariant = { λ u. IsUnit u.exponents };

    ghost inverse = { λ e. record { exponents = e } };
}

impl Unit {
    /// The unit of a number without unit.
    pub const fn pure() -> Unit
        ensures { result ≡ pure }
    {
        Unit { exponents: [0; 8] }
    }

    /// The unit of these exponents, each -8 to 7.
    pub const fn of(exponents: [i8; 8]) -> Unit
        requires { IsTrue (list_all is_exponent exponents) }
        ensures { result ≡ exponents }
    {
        Unit { exponents }
    }

    /// The unit of a product; `ExponentRange` exactly where an exponent leaves -8 to 7.
    pub fn times(&self, other: &Unit) -> Result<Unit, ExponentRange>
        ensures { result ≡ product self.now other.now }
    {
        within(sums(&self.exponents, &other.exponents))
    }

    /// The unit of a quotient; `ExponentRange` exactly where an exponent leaves -8 to 7.
    pub fn over(&self, other: &Unit) -> Result<Unit, ExponentRange>
        ensures { result ≡ quotient self.now other.now }
    {
        within(differences(&self.exponents, &other.exponents))
    }

    /// The unit of a power; `ExponentRange` exactly where an exponent leaves -8 to 7.
    pub fn power(&self, n: i8) -> Result<Unit, ExponentRange>
        ensures { result ≡ power_of self.now n }
    {
        within(multiples(&self.exponents, n))
    }
}

/// The sums of the exponents of two units.
fn sums(left: &[i8; 8], right: &[i8; 8]) -> [i16; 8]
    ensures { result ≡ sums left.now right.now }
{
    let mut sums = [0; 8];
    for i in 0..8 {
        sums[i] = i16::from(left[i]) + i16::from(right[i]);
    }
    sums
}

/// The differences of the exponents of two units.
fn differences(left: &[i8; 8], right: &[i8; 8]) -> [i16; 8]
    ensures { result ≡ differences left.now right.now }
{
    let mut differences = [0; 8];
    for i in 0..8 {
        differences[i] = i16::from(left[i]) - i16::from(right[i]);
    }
    differences
}

/// The exponents of a unit multiplied by a number.
fn multiples(exponents: &[i8; 8], n: i8) -> [i16; 8]
    ensures { result ≡ multiples exponents.now n }
{
    let mut multiples = [0; 8];
    for i in 0..8 {
        multiples[i] = i16::from(exponents[i]) * i16::from(n);
    }
    multiples
}

/// The unit of these exponents.
fn within(exponents: [i16; 8]) -> Result<Unit, ExponentRange>
    ensures { result ≡ within exponents }
{
    let mut narrow = [0i8; 8];
    for i in 0..8 {
        let exponent = exponents[i];
        if !is_exponent(exponent) {
            return Err(ExponentRange);
        }
        narrow[i] = exponent as i8;
    }
    Ok(Unit { exponents: narrow })
}

/// Whether an exponent is -8 to 7.
fn is_exponent(exponent: i16) -> bool
    ensures { result ≡ is_exponent exponent }
{
    -8 <= exponent && exponent <= 7
}
