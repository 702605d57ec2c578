ghost use Rattle.std.specs.Prelude.{◌≡◌, ◌≢◌, ◌≤◌, ◌<◌, ◌^◌, pos, unsigned_abs};
ghost use Rattle.quantities.specs.Amounts.{greatest, signed};
ghost use Rattle.quantities.specs.Texts.{billion};
ghost use Rattle.quantities.specs.Arithmetic.{bounded, ceil, floor, minus, modulo, near, nearest, over, plus, power, repeated, round, times, trunc, whole_above, whole_below};

use crate::amount::{Amount, GREATEST, ONE_RAW};
use crate::amount_fault::AmountFault;
use crate::texts::{BILLION, with_sign};

impl Amount {
    /// The sum; `Range` exactly where it leaves the bound.
    pub fn plus(&self, other: &Amount) -> Result<Amount, AmountFault>
        ensures { result ≡ plus self.now other.now }
    {
        within_bound(self.raw() + other.raw())
    }

    /// The difference; `Range` exactly where it leaves the bound.
    pub fn minus(&self, other: &Amount) -> Result<Amount, AmountFault>
        ensures { result ≡ minus self.now other.now }
    {
        within_bound(self.raw() - other.raw())
    }

    /// The product, rounded to nine decimals, ties away from zero; `Range` exactly where the
    /// rounded product leaves the bound.
    pub fn times(&self, other: &Amount) -> Result<Amount, AmountFault>
        ensures { result ≡ times self.now other.now }
    {
        match self.raw().checked_mul(other.raw()) {
            Some(product) => rounded(product, ONE_RAW),
            // A product of more than 127 bits is above 10^37, and its amount above 10^28.
            None => Err(AmountFault::Range),
        }
    }

    /// The quotient, rounded to nine decimals, ties away from zero; `DivideByZero` exactly at a zero
    /// divisor, else `Range` exactly where the rounded quotient leaves the bound.
    pub fn over(&self, other: &Amount) -> Result<Amount, AmountFault>
        ensures { result ≡ over self.now other.now }
    {
        if other.raw() == 0 {
            return Err(AmountFault::DivideByZero);
        }
        rounded(self.raw() * ONE_RAW, other.raw())
    }

    /// The remainder of the division, with the sign of the dividend, exactly; `DivideByZero` exactly
    /// at a zero divisor.
    pub fn modulo(&self, other: &Amount) -> Result<Amount, AmountFault>
        ensures { result ≡ modulo self.now other.now }
    {
        if other.raw() == 0 {
            return Err(AmountFault::DivideByZero);
        }
        within_bound(self.raw() % other.raw())
    }

    /// The power with a whole exponent: 1 multiplied by the amount so many times, each product
    /// rounded, and for a negative exponent 1 divided by the power without the sign; `Range` or
    /// `DivideByZero` exactly where the first of these steps that fails has it.
    pub fn power(&self, n: i8) -> Result<Amount, AmountFault>
        ensures { result ≡ power self.now n }
    {
        let power = repeated(self, n.unsigned_abs())?;
        if n < 0 {
            Amount::one().over(&power)
        } else {
            Ok(power)
        }
    }

    /// The greatest whole amount that is not above.
    pub fn floor(&self) -> Result<Amount, AmountFault>
        ensures { result ≡ floor self.now }
    {
        if self.is_negative() {
            with_sign_within_bound(true, whole_above(self.magnitude()))
        } else {
            with_sign_within_bound(false, whole_below(self.magnitude()))
        }
    }

    /// The least whole amount that is not below.
    pub fn ceil(&self) -> Result<Amount, AmountFault>
        ensures { result ≡ ceil self.now }
    {
        if self.is_negative() {
            with_sign_within_bound(true, whole_below(self.magnitude()))
        } else {
            with_sign_within_bound(false, whole_above(self.magnitude()))
        }
    }

    /// The nearest whole amount, ties away from zero.
    pub fn round(&self) -> Result<Amount, AmountFault>
        ensures { result ≡ round self.now }
    {
        with_sign_within_bound(
            self.is_negative(),
            nearest(self.magnitude(), BILLION) * BILLION,
        )
    }

    /// The whole amount without the decimals.
    pub fn trunc(&self) -> Result<Amount, AmountFault>
        ensures { result ≡ trunc self.now }
    {
        with_sign_within_bound(self.is_negative(), whole_below(self.magnitude()))
    }
}

/// 1 multiplied by an amount so many times, each product rounded.
fn repeated(amount: &Amount, times: u8) -> Result<Amount, AmountFault>
    ensures { result ≡ repeated amount.now times }
{
    let mut power = Amount::one();
    for _ in 0..times {
        power = power.times(amount)?;
    }
    Ok(power)
}

/// A number of billionths without the part below one.
fn whole_below(magnitude: u128) -> u128
    ensures { result ≡ whole_below magnitude }
{
    magnitude - magnitude % BILLION
}

/// A number of billionths made whole by what it lacks.
fn whole_above(magnitude: u128) -> u128
    requires { magnitude ≤ greatest }
    ensures { result ≡ whole_above magnitude }
{
    magnitude.div_ceil(BILLION) * BILLION
}

/// The amount of so many billionths.
fn within_bound(raw: i128) -> Result<Amount, AmountFault>
    ensures { result ≡ bounded raw }
{
    Amount::of_raw(raw).map_err(|_| AmountFault::Range)
}

/// The amount of so many billionths and this sign.
fn with_sign_within_bound(negative: bool, magnitude: u128) -> Result<Amount, AmountFault>
    ensures { result ≡ bounded (signed negative magnitude) }
{
    if magnitude > GREATEST {
        return Err(AmountFault::Range);
    }
    within_bound(with_sign(negative, magnitude))
}

/// The amount nearest to a quotient of raw numbers.
fn rounded(dividend: i128, divisor: i128) -> Result<Amount, AmountFault>
    requires { divisor ≢ pos 0 }
    ensures { result ≡ bounded (near dividend divisor) }
{
    let negative = (dividend < 0) != (divisor < 0);
    with_sign_within_bound(
        negative,
        nearest(dividend.unsigned_abs(), divisor.unsigned_abs()),
    )
}

/// The whole number nearest to a quotient, and of two the greater.
fn nearest(dividend: u128, divisor: u128) -> u128
    requires divides { 0 < divisor }
    requires small { dividend ≤ 2 ^ 127 }
    ensures { result ≡ nearest dividend divisor }
{
    let quotient = dividend / divisor;
    let rest = dividend % divisor;
    if rest < divisor - rest {
        quotient
    } else {
        quotient + 1
    }
}
