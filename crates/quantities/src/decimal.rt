ghost use Rattle.std.specs.Prelude.{◌≡◌, ◌≤◌, IsTrue, MatchOption, SomeIff, false, length, true};
ghost use Rattle.std.specs.Char.{is_ascii_digit};
ghost use Rattle.std.specs.List.{list_all};
ghost use Rattle.quantities.specs.Amounts.{greatest, signed};
ghost use Rattle.quantities.specs.Decimals.{are_digits, before, behind, decimal_size, decimal_value, exponent, has, has_exponent, is_decimal, is_mantissa, mantissa, size_of, without_sign};

use crate::amount::Amount;
use crate::decimal_fault::DecimalFault;
use crate::mark::Mark;
use crate::scaling::scaled;
use crate::texts::{begins_with_minus, number_of_digits, with_sign};

/// The amount that a decimal text says, rounded to nine decimals, ties away from zero. A decimal is
/// an optional `+` or `-`, 1 to 40 digits, optionally `.` and 1 to 40 digits, and optionally `e` or
/// `E`, an optional sign and 1 or 2 digits, as in `-12.5e3`. `NotDecimal` exactly for every other
/// text, else `Range` exactly where the rounded number leaves the bound of an amount.
#[tactic(auto, unfolding(crate::specs::Decimals::decimal_value))]
pub fn read_decimal(text: &[u8]) -> Result<Amount, DecimalFault>
    ensures { result ≡ decimal_value text.now }
{
    if !is_decimal(text) {
        return Err(DecimalFault::NotDecimal);
    }
    match size(text) {
        Some(magnitude) => of_size(begins_with_minus(text), magnitude),
        None => Err(DecimalFault::Range),
    }
}

/// The amount of this size and sign.
fn of_size(negative: bool, magnitude: u128) -> Result<Amount, DecimalFault>
    requires { magnitude ≤ greatest }
    ensures { result ≡ Ok (signed negative magnitude) }
{
    Amount::of_raw(with_sign(negative, magnitude)).map_err(|_| DecimalFault::Range)
}

/// Whether a text is a decimal.
#[tactic(auto, unfolding(crate::specs::Decimals::is_decimal))]
fn is_decimal(text: &[u8]) -> bool
    ensures { result ≡ is_decimal text.now }
{
    let (mantissa, exponent) = parts(text);
    match exponent {
        Some(exponent) => is_mantissa(mantissa) && are_digits(2, without_sign(exponent)),
        None => is_mantissa(mantissa),
    }
}

/// Whether a text is digits, and behind a point digits.
fn is_mantissa(text: &[u8]) -> bool
    ensures { result ≡ is_mantissa text.now }
{
    let (whole, fraction) = split(Mark::Point, text);
    match fraction {
        Some(fraction) => are_digits(40, whole) && are_digits(40, fraction),
        None => are_digits(40, whole),
    }
}

/// Whether a text is one digit or more, and at most so many.
fn are_digits(most: usize, text: &[u8]) -> bool
    ensures { result ≡ are_digits most text.now }
{
    1 <= text.len() && text.len() <= most && all_digits(text)
}

/// Whether a text has digits alone.
fn all_digits(text: &[u8]) -> bool
    ensures { result ≡ list_all is_ascii_digit text.now }
{
    text.iter().all(|byte| byte.is_ascii_digit())
}

/// The billionths of a decimal without its sign; none where they pass the greatest amount.
fn size(text: &[u8]) -> Option<u128>
    requires { IsTrue (is_decimal text.now) }
    ensures { SomeIff result (decimal_size text.now ≤ greatest) (decimal_size text.now) }
{
    let (mantissa, exponent) = parts(text);
    match exponent {
        Some(exponent) => size_of(mantissa, exponent),
        None => size_of(mantissa, &[]),
    }
}

/// The billionths of a mantissa and an exponent; none where they pass the greatest amount.
fn size_of(mantissa: &[u8], exponent: &[u8]) -> Option<u128>
    requires mantissa { IsTrue (is_mantissa mantissa.now) }
    requires short { length exponent.now ≤ 3 }
    ensures { let size = size_of mantissa.now exponent.now in SomeIff result (size ≤ greatest) size }
{
    let (whole, _) = split(Mark::Point, mantissa);
    let places = whole.len() as u32 + 9;
    let moved = number_of_digits(exponent) as u32;
    if !begins_with_minus(exponent) {
        scaled(mantissa, places + moved)
    } else if moved <= places {
        scaled(mantissa, places - moved)
    } else {
        // Not even the first digit reaches the tenth decimal.
        Some(0)
    }
}

/// A decimal's mantissa, and its exponent where it has one.
fn parts(text: &[u8]) -> (&[u8], Option<&[u8]>)
    ensures mantissa { result.0.now ≡ mantissa text.now }
    ensures exponent { MatchOption result.1 (has_exponent text.now ≡ false)
        (λ e. (has_exponent text.now ≡ true) × (e.now ≡ exponent text.now)) }
{
    split(Mark::Exponent, without_sign(text))
}

/// The text without a sign in front.
fn without_sign(text: &[u8]) -> &[u8]
    ensures { result.now ≡ without_sign text.now }
{
    match text {
        [b'+' | b'-', rest @ ..] => rest,
        _ => text,
    }
}

/// What stands before the first mark in a text, and what stands behind it.
fn split(mark: Mark, text: &[u8]) -> (&[u8], Option<&[u8]>)
    ensures before { result.0.now ≡ before mark text.now }
    ensures behind { MatchOption result.1 (has mark text.now ≡ false)
        (λ rest. (has mark text.now ≡ true) × (rest.now ≡ behind mark text.now)) }
{
    for (at, byte) in text.iter().enumerate() {
        if mark.is(*byte) {
            return (&text[..at], Some(&text[at + 1..]));
        }
    }
    (text, None)
}
