ghost use Rattle.std.specs.Prelude.{◌≡◌, ◌+◌, ◌/◌, ◌%◌, ◌^◌, ◌<◌, ◌≤◌, [], ◌∷◌, ◌++◌, length, decimal};
ghost use Rattle.std.specs.Fmt.{sign_text};
ghost use Rattle.arrayvec.specs.ArrayString.{array_string_len};
ghost use Rattle.quantities.specs.Amounts.{greatest, signed};
ghost use Rattle.quantities.specs.Texts.{billion, digits_below, without_final_zeros};
ghost use Rattle.quantities.specs.Digits.{number_after, begins_with_minus};

use crate::amount::ONE_RAW;
use arrayvec::ArrayString;
use itoa::Buffer;

/// So many billionths are one.
pub const BILLION: u128 = ONE_RAW as u128;

/// Writes the sign and the whole part of so many billionths.
pub fn push_whole(negative: bool, magnitude: u128, out: &mut ArrayString<32>)
    requires bounded { magnitude ≤ greatest }
    requires empty { out.old.bytes ≡ [] }
    ensures text { out.new.bytes ≡ sign_text negative ++ decimal (magnitude / billion) }
    ensures room { array_string_len out.new ≤ 21 }
{
    push_sign(negative, out);
    let mut buffer = Buffer::new();
    out.push_str(buffer.format(magnitude / BILLION));
}

/// Writes the sign of a negative number.
fn push_sign(negative: bool, out: &mut ArrayString<32>)
    requires { out.old.bytes ≡ [] }
    ensures { out.new.bytes ≡ sign_text negative }
{
    if negative {
        out.push('-');
    }
}

/// Appends the last nine digits of a number.
#[tactic(auto, unfolding(crate::specs::Texts::digits_below))]
pub fn push_nine_decimals(number: u128, out: &mut ArrayString<32>)
    requires { array_string_len out.old ≤ 23 }
    ensures { out.new.bytes ≡ out.old.bytes ++ digits_below 9 number }
{
    for place in (0..9u32).rev() {
        push_digit(number, place, out);
    }
}

/// Appends the last nine digits of a number, without the zeros at their end.
pub fn push_needed_decimals(number: u128, out: &mut ArrayString<32>)
    requires { array_string_len out.old ≤ 23 }
    ensures { out.new.bytes ≡ out.old.bytes ++ without_final_zeros (digits_below 9 number) }
{
    for place in (0..9u32).rev() {
        if number % 10u128.pow(place + 1) == 0 {
            return;
        }
        push_digit(number, place, out);
    }
}

/// Appends the digit of a number at a place.
fn push_digit(number: u128, place: u32, out: &mut ArrayString<32>)
    requires place_fits { place < 9 }
    requires room { array_string_len out.old < 32 }
    ensures { out.new.bytes ≡ out.old.bytes ++ (48 + number / 10 ^ place % 10) ∷ [] }
{
    let digit = number / 10u128.pow(place) % 10;
    out.push(char::from(b'0' + digit as u8));
}

/// The number that the digits of a short text make, whatever stands between them.
pub fn number_of_digits(text: &[u8]) -> u128
    requires { length text.now ≤ 31 }
    ensures value { result ≡ number_after 0 text.now }
    ensures bounded { result < 10 ^ 31 }
    ensures short { result < 10 ^ length text.now }
{
    let mut number = 0u128;
    for byte in text {
        if byte.is_ascii_digit() {
            number = number * 10 + u128::from(*byte - b'0');
        }
    }
    number
}

/// Whether the text begins with `-`.
pub fn begins_with_minus(text: &[u8]) -> bool
    ensures { result ≡ begins_with_minus text.now }
{
    match text {
        [first, ..] => *first == b'-',
        [] => false,
    }
}

/// The number of this size and sign.
pub fn with_sign(negative: bool, magnitude: u128) -> i128
    requires { magnitude < 2 ^ 127 }
    ensures { result ≡ signed negative magnitude }
{
    if negative {
        -(magnitude as i128)
    } else {
        magnitude as i128
    }
}
