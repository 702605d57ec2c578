ghost use Rattle.std.specs.Prelude.{◌≤◌, ◌*◌, ◌^◌, ◌≡◌, IsTrue, SomeIff};
ghost use Rattle.std.specs.Char.{is_ascii_digit};
ghost use Rattle.quantities.specs.Amounts.{greatest};
ghost use Rattle.quantities.specs.Scaling.{kept, rounded_by};

use crate::amount::GREATEST;

/// The number of the first digits of a text, so many of them, rounded by the next one; zeros follow
/// where there are fewer. None where it passes the greatest amount.
pub fn scaled(text: &[u8], places: u32) -> Option<u128>
    ensures { SomeIff result (kept places text.now 0 ≤ greatest) (kept places text.now 0) }
{
    let mut left = places;
    let mut number = 0u128;
    for byte in text {
        if !byte.is_ascii_digit() {
            continue;
        }
        if left == 0 {
            return within(rounded_by(*byte, number));
        }
        number = within(number * 10 + u128::from(*byte - b'0'))?;
        left -= 1;
    }
    shifted(number, left)
}

/// One more where the next digit is 5 or above.
fn rounded_by(digit: u8, number: u128) -> u128
    requires is_digit { IsTrue (is_ascii_digit digit) }
    requires bounded { number ≤ greatest }
    ensures { result ≡ rounded_by digit number }
{
    if digit - b'0' < 5 { number } else { number + 1 }
}

/// A number with so many zeros behind it; none where it passes the greatest amount.
fn shifted(number: u128, zeros: u32) -> Option<u128>
    requires { number ≤ greatest }
    ensures { SomeIff result (number * 10 ^ zeros ≤ greatest) (number * 10 ^ zeros) }
{
    let mut shifted = number;
    for _ in 0..zeros {
        shifted = within(shifted * 10)?;
    }
    Some(shifted)
}

/// The number, unless it passes the greatest amount.
fn within(number: u128) -> Option<u128>
    ensures { SomeIff result (number ≤ greatest) number }
{
    if number <= GREATEST {
        Some(number)
    } else {
        None
    }
}
