ghost use Rattle.std.specs.Prelude.{◌≡◌, ◌≤◌, ℤ, pos, [], Some, OkIff, IfSome, unsigned_abs};
ghost use Rattle.std.specs.Int.{is_negative};
ghost use Rattle.quantities.specs.Amounts.{IsAmount, greatest};
ghost use Rattle.quantities.specs.Texts.{billion, decimal_text, nine_text};

use crate::texts::{
    BILLION, begins_with_minus, number_of_digits, push_needed_decimals, push_nine_decimals,
    push_whole, with_sign,
};
use arrayvec::ArrayString;
use std::marker::Model;
use thiserror::Error;

/// The number would pass the bound of an amount.
#[derive(Clone, Copy, Debug, PartialEq, Eq, Error)]
#[error("the number is out of range")]
pub struct Range;

/// The raw number of 1: so many billionths are one.
pub const ONE_RAW: i128 = 1_000_000_000;

/// The greatest raw number of an amount.
pub const GREATEST: u128 = 10_000_000_000_000_000_000_000_000_000;

/// A number with nine decimals: a whole number of billionths, at most 10^28 of them on each side of
/// zero. It is seen as that whole number.
#[derive(Clone, Copy, Debug, PartialEq, Eq, PartialOrd, Ord)]
pub struct Amount {
    raw: i128,
}

impl Model for Amount {
    ghost use Rattle.std.specs.Prelude.{ℤ};
    ghost use Rattle.quantities.specs.Amounts.{IsAmount};

    ghost Value = { ℤ };

    ghost view = { λ a. a.raw };

    ghost invariant = { λ a. IsAmount a.raw };

    ghost inverse = { λ z. record { raw = z } };
}

impl Amount {
    /// 0.
    pub const fn zero() -> Amount
        ensures { result ≡ pos 0 }
    {
        Amount { raw: 0 }
    }

    /// 1.
    pub(crate) const fn one() -> Amount
        ensures { result ≡ pos billion }
    {
        Amount { raw: ONE_RAW }
    }

    /// The amount of so many billionths; `Range` exactly where they are more than 10^28 on one side
    /// of zero.
    pub fn of_raw(raw: i128) -> Result<Amount, Range>
        ensures { OkIff result (IsAmount raw) raw }
    {
        if raw.unsigned_abs() <= GREATEST {
            Ok(Amount { raw })
        } else {
            Err(Range)
        }
    }

    /// The whole number of billionths.
    pub fn raw(&self) -> i128
        ensures value { result ≡ self.now }
        ensures bounded { IsAmount self.now }
    {
        self.raw
    }

    /// The billionths without the sign.
    pub(crate) fn magnitude(&self) -> u128
        ensures value { result ≡ unsigned_abs self.now }
        ensures bounded { result ≤ greatest }
    {
        self.raw.unsigned_abs()
    }

    pub(crate) fn is_negative(&self) -> bool
        ensures { result ≡ is_negative self.now }
    {
        self.raw < 0
    }

    /// Writes the amount with as many decimals as it needs, as in `-0.5`, `12` or `0`, into the
    /// empty `out`.
    pub fn write_decimal(&self, out: &mut ArrayString<32>)
        requires { out.old.bytes ≡ [] }
        ensures { out.new.bytes ≡ decimal_text self.now }
    {
        let magnitude = self.magnitude();
        push_whole(self.is_negative(), magnitude, out);
        if magnitude % BILLION != 0 {
            out.push('.');
            push_needed_decimals(magnitude, out);
        }
    }

    /// Writes the amount with nine decimals, as in `-0.500000000`, into the empty `out`.
    pub fn write_nine(&self, out: &mut ArrayString<32>)
        requires { out.old.bytes ≡ [] }
        ensures { out.new.bytes ≡ nine_text self.now }
    {
        let magnitude = self.magnitude();
        push_whole(self.is_negative(), magnitude, out);
        out.push('.');
        push_nine_decimals(magnitude, out);
    }

    /// The amount whose text with nine decimals this is, as `write_nine` writes it, and none for
    /// every other text.
    pub fn read_nine(text: &[u8]) -> Option<Amount>
        ensures found { IfSome result (λ a. (text.now ≡ nine_text a) × IsAmount a) }
        ensures only { (a : ℤ) → IsAmount a → text.now ≡ nine_text a → result ≡ Some a }
    {
        let amount = Amount::of_digits(text)?;
        let mut written = ArrayString::new();
        amount.write_nine(&mut written);
        if written.as_str().as_bytes() == text {
            Some(amount)
        } else {
            None
        }
    }

    /// The amount that the sign and the digits of a text make; for the text of an amount with nine
    /// decimals, that amount.
    fn of_digits(text: &[u8]) -> Option<Amount>
        ensures { (a : ℤ) → IsAmount a → text.now ≡ nine_text a → result ≡ Some a }
    {
        if text.len() > 31 {
            return None;
        }
        match Amount::of_raw(with_sign(begins_with_minus(text), number_of_digits(text))) {
            Ok(amount) => Some(amount),
            Err(Range) => None,
        }
    }
}
