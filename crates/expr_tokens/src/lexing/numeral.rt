ghost use Rattle.std.specs.Prelude.{◌≡◌, ◌≤◌, ◌<◌, ◌+◌, ◌==◌, if◌then◌else◌, IsTrue, length, slice_index};
ghost use Rattle.std.specs.Char.{is_ascii_digit};
ghost use Rattle.quantities.specs.Decimals.{are_digits, is_decimal};
ghost use Rattle.expr_tokens.specs.Lexemes.{numeral_at, short_number};
ghost use Rattle.expr_tokens.specs.Longest.{longest};
ghost use Rattle.expr_tokens.specs.NumeralParts.{is_exponent, is_fraction, is_signed};

use crate::token::Lexeme;
use quantities::read_decimal;

/// The most digits before the point of a numeral, and behind it.
const MOST_DIGITS: usize = 40;

/// The most digits of an exponent.
const MOST_EXPONENT_DIGITS: usize = 2;

/// How many digits stand in front, at most so many.
fn digit_count(most: usize, text: &[u8]) -> usize
    ensures longest { result ≡ longest (are_digits most) text.now }
    ensures bound { result ≤ most }
    ensures within { result ≤ length text.now }
{
    text.iter()
        .take(most)
        .take_while(|byte| byte.is_ascii_digit())
        .count()
}

/// The length of a mark and that many bytes behind it: nothing without those.
fn with_mark(bytes: usize) -> usize
    requires { bytes < 1000 }
    ensures { result ≡ (if bytes == 0 then 0 else bytes + 1) }
{
    if bytes == 0 { 0 } else { bytes + 1 }
}

/// How many bytes in front are a point and digits.
fn fraction_length(text: &[u8]) -> usize
    ensures longest { result ≡ longest is_fraction text.now }
    ensures within { result ≤ length text.now }
{
    match text {
        [b'.', rest @ ..] => with_mark(digit_count(MOST_DIGITS, rest)),
        _ => 0,
    }
}

/// How many bytes in front are digits of an exponent, with their sign.
fn signed_length(text: &[u8]) -> usize
    ensures longest { result ≡ longest is_signed text.now }
    ensures bound { result ≤ 3 }
{
    match text {
        [b'+' | b'-', rest @ ..] => with_mark(digit_count(MOST_EXPONENT_DIGITS, rest)),
        _ => digit_count(MOST_EXPONENT_DIGITS, text),
    }
}

/// How many bytes in front are an `e` and what belongs to it.
fn exponent_length(text: &[u8]) -> usize
    ensures longest { result ≡ longest is_exponent text.now }
    ensures bound { result ≤ 4 }
{
    match text {
        [b'e' | b'E', rest @ ..] => with_mark(signed_length(rest)),
        _ => 0,
    }
}

/// How many bytes the numeral has that the text begins with.
fn numeral_length(text: &[u8]) -> usize
    requires { IsTrue (is_ascii_digit (slice_index text.now 0)) }
    ensures longest { result ≡ longest is_decimal text.now }
    ensures within { result ≤ length text.now }
{
    let whole = digit_count(MOST_DIGITS, text);
    let mantissa = whole + fraction_length(&text[whole..]);
    mantissa + exponent_length(&text[mantissa..])
}

/// The number that one or two digits write.
fn short_number(text: &[u8]) -> Option<u8>
    ensures { result ≡ short_number text.now }
{
    match text {
        [units @ b'0'..=b'9'] => Some(*units - b'0'),
        [tens @ b'0'..=b'9', units @ b'0'..=b'9'] => Some((*tens - b'0') * 10 + (*units - b'0')),
        _ => None,
    }
}

/// The numeral that a text with a digit in front begins with, and its number of bytes; none where
/// its amount is out of range.
#[tactic(auto, unfolding(crate::specs::Lexemes::numeral_at))]
pub(super) fn numeral(text: &[u8]) -> Option<(Lexeme, usize)>
    requires { IsTrue (is_ascii_digit (slice_index text.now 0)) }
    ensures { result ≡ numeral_at text.now }
{
    let length = numeral_length(text);
    let digits = &text[..length];
    match read_decimal(digits) {
        Ok(amount) => Some((Lexeme::Numeral(amount, short_number(digits)), length)),
        Err(_) => None,
    }
}
