//! A text that is read from its front.

ghost use Rattle.std.specs.Prelude.{◌≡◌, option_map};
ghost use Rattle.fcxml_profile.specs.Fronts.{after};
ghost use Rattle.fcdoc_file.specs.Cursor.{quoted, numeral};

use itoa::Buffer;

/// What follows the literal, where the text begins with it.
pub(crate) fn after<'a>(literal: &str, text: &'a str) -> Option<&'a str>
    ensures { option_map (λ x. x.now) result ≡ after literal.now text.now }
{
    text.strip_prefix(literal)
}

/// What stands before the first quote, and what follows it.
pub(crate) fn quoted(text: &str) -> Option<(&str, &str)>
    ensures { option_map (λ x. (x.0.now, x.1.now)) result ≡ quoted text.now }
{
    text.split_once('"')
}

/// The number above 0 whose one spelling the digits are, where it is below 2^32.
pub(crate) fn numeral(digits: &str) -> Option<u32>
    ensures { result ≡ numeral digits.now }
{
    let number = digits.parse::<u32>().ok()?;
    let mut buffer = Buffer::new();
    if number > 0 && buffer.format(number) == digits {
        Some(number)
    } else {
        None
    }
}
