//! Reads an attribute's value: references are replaced, and each tab or line end is a space.

ghost use Rattle.std.specs.Prelude.{◌≡◌, ◌<◌, ◌≤◌, ◌^◌, codes, encode_utf8, option_map};
ghost use Rattle.std.specs.Char.{is_ascii_digit, is_ascii_hexdigit};
ghost use Rattle.std.specs.Option.{SomeIff};
ghost use Rattle.std.specs.Str.Parse.{IsNumeral, digits_value};
ghost use Rattle.fcxml_profile.specs.Fronts.{after, split_at};
ghost use Rattle.fcxml_profile.specs.References.{after_return, character_of, is_xml_character, number_of, numbered, read, reference_at, replacement_of};
ghost use Rattle.fcxml_profile.specs.Meanings.{meaning_of};
ghost use Rattle.fcxml_profile.specs.ValueReading.{GivesRead};
ghost use Rattle.fcxml_profile.specs.declared.references.EntityFault.TheVariants.{Memory};

use crate::fronts::after;
use crate::token::AttributeText;
use std::alloc::{AllocError, Global};
use thiserror::Error;

/// Why a value was not read.
#[derive(Debug, Drop, Error)]
pub enum EntityFault {
    /// The `&` at the place, the number of bytes of the document in front, begins no reference.
    #[error("no reference at {0}")]
    Entity(u64),
    #[error("out of memory")]
    Memory(AllocError),
}

impl From<AllocError> for EntityFault {
    ghost from_gives = { λ cause e. e ≡ Memory cause };

    fn from(cause: AllocError) -> EntityFault {
        EntityFault::Memory(cause)
    }
}

/// Whether XML allows the character of that number.
fn is_xml_character(number: u32) -> bool
    ensures { result ≡ is_xml_character number }
{
    matches!(number, 0x9 | 0xA | 0xD | 0x20..=0xD7FF | 0xE000..=0xFFFD | 0x10000..=0x10FFFF)
}

/// The character of that number, if XML allows it.
fn xml_character(number: u32) -> Option<char>
    ensures { option_map encode_utf8 result ≡ character_of number }
{
    if is_xml_character(number) {
        char::from_u32(number)
    } else {
        None
    }
}

/// The number that the digits write; none without a digit, with anything else, or past 32 bits.
fn number(digits: &str, radix: u32) -> Option<u32>
    requires least { 2 ≤ radix }
    requires most { radix ≤ 36 }
    ensures { SomeIff result
        (IsNumeral radix digits.now × (digits_value radix digits.now < 2 ^ 32))
        (digits_value radix digits.now) }
{
    // A plus is no digit, though `from_str_radix` reads past one.
    if digits.starts_with('+') {
        return None;
    }
    u32::from_str_radix(digits, radix).ok()
}

/// The character of a decimal number: `65`.
fn decimal(digits: &str) -> Option<char>
    ensures { option_map encode_utf8 result ≡ numbered is_ascii_digit 10 digits.now }
{
    xml_character(number(digits, 10)?)
}

/// The character of a hexadecimal number: `41`.
fn hexadecimal(digits: &str) -> Option<char>
    ensures { option_map encode_utf8 result ≡ numbered is_ascii_hexdigit 16 digits.now }
{
    xml_character(number(digits, 16)?)
}

/// The character of what follows `#` in a reference: `65` or `x41`.
fn numbered(text: &str) -> Option<char>
    ensures { option_map encode_utf8 result ≡ number_of (after (codes "x") text.now) text.now }
{
    match after("x", text) {
        Some(digits) => hexadecimal(digits),
        None => decimal(text),
    }
}

/// The character that a reference stands for, by what is written between its `&` and its `;`:
/// `amp`, `#65` or `#x41`.
#[tactic(auto, unfolding(crate::specs::References::replacement_of))]
fn replacement(name: &str) -> Option<char>
    ensures { option_map encode_utf8 result ≡ replacement_of name.now }
{
    match name {
        "amp" => Some('&'),
        "lt" => Some('<'),
        "gt" => Some('>'),
        "quot" => Some('"'),
        "apos" => Some('\''),
        _ => numbered(after("#", name)?),
    }
}

/// What stands before the first `;`, and what follows it.
fn split_at_semicolon(text: &str) -> Option<(&str, &str)>
    ensures { option_map (λ x. (x.0.now, x.1.now)) result ≡ split_at 59 text.now }
{
    text.split_once(';')
}

/// What the reference in front, without its `&`, stands for, and what follows it: of `amp;b` they
/// are `&` and `b`.
#[tactic(auto, unfolding(crate::specs::References::reference_at))]
fn reference(text: &str) -> Option<(char, &str)>
    ensures { option_map (λ x. (encode_utf8 x.0, x.1.now)) result ≡ reference_at text.now }
{
    let (name, rest) = split_at_semicolon(text)?;
    Some((replacement(name)?, rest))
}

/// What follows a carriage return, of the text after it: a line feed there belongs to it.
fn after_return(text: &str) -> &str
    ensures { result.now ≡ after_return text.now }
{
    after("\n", text).unwrap_or(text)
}

/// What a character means before that text, and what follows: a `&` what its reference stands for,
/// a tab or a line end a space, and any other itself. None where a `&` begins no reference.
fn meaning(first: char, text: &str) -> Option<(char, &str)>
    ensures { option_map (λ x. (encode_utf8 x.0, x.1.now)) result ≡ meaning_of first text.now }
{
    match first {
        '&' => reference(text),
        '\r' => Some((' ', after_return(text))),
        '\t' | '\n' => Some((' ', text)),
        _ => Some((first, text)),
    }
}

impl<'a> AttributeText<'a> {
    /// The value that the text means. `&amp;`, `&lt;`, `&gt;`, `&quot;` and `&apos;` are replaced,
    /// and so are `&#65;` and `&#x41;`, of any character that XML allows. A tab or a line end that
    /// stands there is a space. The time grows with the value.
    pub fn read(&self, alloc: Global) -> Result<String, EntityFault>
        ensures { GivesRead result (read self.now) }
    {
        let mut value = String::new(alloc);
        let mut rest = self.text;
        loop {
            let mut characters = rest.chars();
            let Some(first) = characters.next() else {
                return Ok(value);
            };
            let Some((character, after)) = meaning(first, characters.as_str()) else {
                let place = self.text.len() - rest.len();
                return Err(EntityFault::Entity(self.place + place as u64));
            };
            value.push(character)?;
            rest = after;
        }
    }
}
