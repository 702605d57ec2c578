//! What stands at the front of a text, and what follows it.

ghost use Rattle.std.specs.Prelude.{◌≡◌, ◌≤◌, ◌==◌, length, option_map};
ghost use Rattle.fcxml_profile.specs.Fronts.{is_blank, after_blanks, begins_name, continues_name, name_length, name_at, after, behind, split_at, quoted_at, value_at};
ghost use Rattle.std.specs.List.{list_any, prefix_len};

/// A space, a tab, a line feed or a carriage return.
pub(crate) fn is_blank(byte: u8) -> bool
    ensures { result ≡ is_blank byte }
{
    matches!(byte, b' ' | b'\t' | b'\n' | b'\r')
}

/// How many blanks stand in front.
pub(crate) fn blank_count(bytes: &[u8]) -> usize
    ensures count { result ≡ prefix_len is_blank bytes.now }
    ensures within { result ≤ length bytes.now }
{
    bytes.iter().take_while(|byte| is_blank(**byte)).count()
}

/// What follows the blanks in front.
pub(crate) fn after_blanks(text: &str) -> &str
    ensures { result.now ≡ after_blanks text.now }
{
    &text[blank_count(text.as_bytes())..]
}

/// Whether a name may begin with the byte, which may be the first one of a character past ASCII.
fn begins_name(byte: u8) -> bool
    ensures { result ≡ begins_name byte }
{
    byte.is_ascii_alphabetic() || byte == b'_' || byte == b':' || byte >= 128
}

/// Whether a name may go on with the byte.
fn continues_name(byte: u8) -> bool
    ensures { result ≡ continues_name byte }
{
    begins_name(byte) || byte.is_ascii_digit() || byte == b'.' || byte == b'-'
}

/// How many bytes in front may go on with a name.
fn continuation_length(bytes: &[u8]) -> usize
    ensures count { result ≡ prefix_len continues_name bytes.now }
    ensures within { result ≤ length bytes.now }
{
    bytes
        .iter()
        .take_while(|byte| continues_name(**byte))
        .count()
}

/// How many bytes of a name stand in front.
fn name_length(bytes: &[u8]) -> usize
    ensures count { result ≡ name_length bytes.now }
    ensures within { result ≤ length bytes.now }
{
    match bytes {
        [first, rest @ ..] if begins_name(*first) => 1 + continuation_length(rest),
        _ => 0,
    }
}

/// The name in front, and what follows it.
pub(crate) fn name(text: &str) -> Option<(&str, &str)>
    ensures { option_map (λ x. (x.0.now, x.1.now)) result ≡ name_at text.now }
{
    let length = name_length(text.as_bytes());
    if length == 0 {
        return None;
    }
    Some(text.split_at(length))
}

/// What follows the literal, where the text begins with it.
pub(crate) fn after<'a>(literal: &str, text: &'a str) -> Option<&'a str>
    ensures { option_map (λ x. x.now) result ≡ after literal.now text.now }
{
    text.strip_prefix(literal)
}

/// What follows the first place where the literal stands.
pub(crate) fn behind<'a>(literal: &str, text: &'a str) -> Option<&'a str>
    ensures { option_map (λ x. x.now) result ≡ behind literal.now text.now }
{
    match text.split_once(literal) {
        Some((_, rest)) => Some(rest),
        None => None,
    }
}

/// What stands before the first `"`, and what follows it.
fn split_at_double(text: &str) -> Option<(&str, &str)>
    ensures { option_map (λ x. (x.0.now, x.1.now)) result ≡ split_at 34 text.now }
{
    text.split_once('"')
}

/// What stands before the first `'`, and what follows it.
fn split_at_single(text: &str) -> Option<(&str, &str)>
    ensures { option_map (λ x. (x.0.now, x.1.now)) result ≡ split_at 39 text.now }
{
    text.split_once('\'')
}

/// What stands between quotes of either kind in front, and what follows them.
#[tactic(auto, unfolding(crate::specs::Fronts::quoted_at))]
fn quoted(text: &str) -> Option<(&str, &str)>
    ensures { option_map (λ x. (x.0.now, x.1.now)) result ≡ quoted_at text.now }
{
    if let Some(inner) = after("\"", text) {
        return split_at_double(inner);
    }
    match after("'", text) {
        Some(inner) => split_at_single(inner),
        None => None,
    }
}

/// Whether a `<` stands in the value.
fn has_markup(value: &str) -> bool
    ensures { result ≡ list_any (λ c. c == 60) value.now }
{
    value.as_bytes().contains(&b'<')
}

/// The value between quotes in front, `"1.5"` or `'1.5'` without `<`, and what follows them.
pub(crate) fn value(text: &str) -> Option<(&str, &str)>
    ensures { option_map (λ x. (x.0.now, x.1.now)) result ≡ value_at text.now }
{
    let (value, rest) = quoted(text)?;
    if has_markup(value) {
        None
    } else {
        Some((value, rest))
    }
}
