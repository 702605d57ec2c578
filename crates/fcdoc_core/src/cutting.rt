//! Cuts words and paths off the front of lines.

ghost use Rattle.std.specs.Prelude.{◌≡◌, reverse, option_map};
ghost use Rattle.fcdoc_core.specs.Commands.{after_spaces, cut_path, cut_word, unspaced};

use object_paths::{opened, until_closing};

/// What follows the spaces in front.
fn after_spaces(text: &str) -> &str
    ensures { result.now ≡ after_spaces text.now }
{
    let mut rest = text;
    while let Some(shorter) = rest.strip_prefix(' ') {
        rest = shorter;
    }
    rest
}

/// What stands before the spaces at the end.
fn before_spaces(text: &str) -> &str
    ensures { result.now ≡ reverse (after_spaces (reverse text.now)) }
{
    let mut front = text;
    while let Some(shorter) = front.strip_suffix(' ') {
        front = shorter;
    }
    front
}

/// The text without the spaces at both ends.
pub(crate) fn unspaced(text: &str) -> &str
    ensures { result.now ≡ unspaced text.now }
{
    before_spaces(after_spaces(text))
}

/// The first word of a text without outer spaces, and what stands behind it, without outer spaces.
pub(crate) fn cut_word(text: &str) -> (&str, &str)
    ensures first { result.0.now ≡ (cut_word text.now).first }
    ensures rest { result.1.now ≡ (cut_word text.now).rest }
{
    match text.split_once(' ') {
        Some((word, behind)) => (word, unspaced(behind)),
        None => (text, ""),
    }
}

/// The path in front of a text without outer spaces, and what stands behind it: `<<a b>>.x` and `3`
/// of `<<a b>>.x 3`. Where no label stands in front it is the first word.
pub(crate) fn cut_path(text: &str) -> (&str, &str)
    ensures first { result.0.now ≡ (cut_path text.now).first }
    ensures rest { result.1.now ≡ (cut_path text.now).rest }
{
    let Some(opened) = opened(text) else {
        return cut_word(text);
    };
    let Some((_, behind)) = until_closing(opened) else {
        return cut_word(text);
    };
    let (end, rest) = cut_word(behind);
    let (path, _) = text.split_at(text.len() - behind.len() + end.len());
    (path, rest)
}
