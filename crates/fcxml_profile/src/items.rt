//! Reads the item that stands at the front of a text.

ghost use Rattle.std.specs.Prelude.{◌≡◌, ◌-◌, ◌≤◌, codes, ℕ, length, option_map, IfOk};
ghost use Rattle.fcxml_profile.specs.Items.{closing_cut, comment, declaration, with_rest, attribute_at, attribute_behind_blanks, attributes_at, tag_end_at, tag_at, end_tag_at, markup_at, item_at, run_length};
ghost use Rattle.fcxml_profile.specs.ToldAttributes.{attribute_told};
ghost use Rattle.fcxml_profile.specs.Fronts.{behind};
ghost use Rattle.fcxml_profile.specs.Told.{tag_told, cut_told};

use crate::fronts::{after, after_blanks, behind, blank_count, name, value};
use crate::token::{Attribute, AttributeText, Attributes, TagName};
use memchr::memchr;
use std::alloc::{AllocError, Global};

/// A start tag or an empty tag, of which the attributes are not read yet.
#[derive(Debug, Drop)]
pub(crate) struct RawTag<'a> {
    pub(crate) place: u64,
    pub(crate) name: &'a str,
    /// All that follows the name.
    pub(crate) behind_name: &'a str,
    pub(crate) empty: bool,
}

/// What a document is made of.
#[derive(Debug, Drop)]
pub(crate) enum Item<'a> {
    /// `<?xml version="1.0"?>`
    Declaration,
    /// `<!-- .. -->`
    Comment,
    /// `<name key="value">` or `<name/>`
    Opening(RawTag<'a>),
    /// `</name>`, with its name.
    Closing(&'a str),
    /// All bytes up to the next `<` or the end.
    Run(&'a str),
}

/// The place at which the rest of a document of that size begins.
pub(crate) fn place(size: usize, rest: &str) -> u64
    ensures { result ≡ size - length rest.now }
{
    size.saturating_sub(rest.len()) as u64
}

/// The place behind the byte that the rest of a document of that size begins with.
fn place_behind(size: usize, rest: &str) -> u64
    ensures { result ≡ size - (length rest.now - 1) }
{
    size.saturating_sub(rest.len().saturating_sub(1)) as u64
}

/// The attribute in front, `key = "value"`, and what follows it.
#[tactic(auto, unfolding(crate::specs::Items::attribute_at))]
fn attribute(size: usize, text: &str) -> Option<(Attribute<'_>, &str)>
    ensures { option_map (λ x. (attribute_told x.0, x.1.now)) result ≡ attribute_at size text.now }
{
    let (key, rest) = name(text)?;
    let sign = after("=", after_blanks(rest))?;
    let quoted = after_blanks(sign);
    let (value, rest) = value(quoted)?;
    let value = AttributeText {
        text: value,
        place: place_behind(size, quoted),
    };
    let attribute = Attribute {
        name: TagName { text: key },
        value,
        place: place(size, text),
        end: place(size, rest),
    };
    Some((attribute, rest))
}

/// The attribute behind one blank at least, and what follows it.
#[tactic(auto, unfolding(crate::specs::Items::attribute_behind_blanks))]
pub(crate) fn attribute_behind_blanks(size: usize, text: &str) -> Option<(Attribute<'_>, &str)>
    ensures { option_map (λ x. (attribute_told x.0, x.1.now)) result ≡ attribute_behind_blanks size text.now }
{
    if blank_count(text.as_bytes()) == 0 {
        return None;
    }
    attribute(size, after_blanks(text))
}

/// The attributes in front.
pub(crate) fn attributes(
    alloc: Global,
    size: usize,
    text: &str,
) -> Result<Attributes<'_>, AllocError>
    ensures { IfOk result (λ attributes. attributes ≡ (attributes_at size text.now).0) }
{
    let mut items = Vec::new(alloc);
    let mut rest = text;
    while let Some((attribute, after)) = attribute_behind_blanks(size, rest) {
        items.push(attribute)?;
        rest = after;
    }
    Ok(Attributes { items })
}

/// What follows the attributes in front.
fn after_attributes(size: usize, text: &str) -> &str
    ensures { result.now ≡ (attributes_at size text.now).1 }
{
    let mut rest = text;
    while let Some((_, after)) = attribute_behind_blanks(size, rest) {
        rest = after;
    }
    rest
}

/// The end of a tag: whether it is that of an empty one, and what follows.
fn tag_end(text: &str) -> Option<(bool, &str)>
    ensures { option_map (λ x. (x.0, x.1.now)) result ≡ tag_end_at text.now }
{
    if let Some(rest) = after(">", text) {
        return Some((false, rest));
    }
    match after("/>", text) {
        Some(rest) => Some((true, rest)),
        None => None,
    }
}

/// The start tag or empty tag in front, and what follows it.
#[tactic(auto, unfolding(crate::specs::Items::tag_at))]
fn tag(size: usize, text: &str) -> Option<(RawTag<'_>, &str)>
    ensures { option_map (λ x. (tag_told size x.0 (size - length x.1.now), x.1.now)) result ≡ tag_at size text.now }
{
    let inner = after("<", text)?;
    let (name, behind_name) = name(inner)?;
    let (empty, rest) = tag_end(after_blanks(after_attributes(size, behind_name)))?;
    let tag = RawTag {
        place: place(size, text),
        name,
        behind_name,
        empty,
    };
    Some((tag, rest))
}

/// What is left of the declaration behind `<?xml`, and what follows it.
fn declaration(inner: &str) -> Option<(Item<'_>, &str)>
    ensures { (n : ℕ) → option_map (cut_told n) result ≡ option_map (with_rest declaration) (behind (codes "?>") inner.now) }
{
    let rest = behind("?>", inner)?;
    Some((Item::Declaration, rest))
}

/// What is left of a comment behind `<!--`, and what follows it.
fn comment(inner: &str) -> Option<(Item<'_>, &str)>
    ensures { (n : ℕ) → option_map (cut_told n) result ≡ option_map (with_rest comment) (behind (codes "-->") inner.now) }
{
    let rest = behind("-->", inner)?;
    Some((Item::Comment, rest))
}

/// The name of the end tag that is left behind `</`, and what follows it.
#[tactic(auto, unfolding(crate::specs::Items::end_tag_at))]
fn end_tag(inner: &str) -> Option<(&str, &str)>
    ensures { option_map (λ x. (x.0.now, x.1.now)) result ≡ end_tag_at inner.now }
{
    let (name, rest) = name(inner)?;
    let rest = after(">", after_blanks(rest))?;
    Some((name, rest))
}

/// What is left of an end tag behind `</`, and what follows it.
fn closing(inner: &str) -> Option<(Item<'_>, &str)>
    ensures { (n : ℕ) → option_map (cut_told n) result ≡ option_map (closing_cut n) (end_tag_at inner.now) }
{
    let (name, rest) = end_tag(inner)?;
    Some((Item::Closing(name), rest))
}

/// The item in front of a text that begins with `<`, and what follows it.
#[tactic(auto, unfolding(crate::specs::Items::markup_at))]
fn markup(size: usize, text: &str) -> Option<(Item<'_>, &str)>
    ensures { option_map (cut_told size) result ≡ markup_at size text.now }
{
    if let Some(inner) = after("<?xml", text) {
        return declaration(inner);
    }
    if let Some(inner) = after("<!--", text) {
        return comment(inner);
    }
    if let Some(inner) = after("</", text) {
        return closing(inner);
    }
    let (tag, rest) = tag(size, text)?;
    Some((Item::Opening(tag), rest))
}

/// How many bytes stand before the next `<`, or the end.
fn run_length(bytes: &[u8]) -> usize
    ensures count { result ≡ run_length bytes.now }
    ensures within { result ≤ length bytes.now }
{
    match memchr(b'<', bytes) {
        Some(place) => place,
        None => bytes.len(),
    }
}

/// The whole item in front, and what follows it.
#[tactic(auto, unfolding(crate::specs::Items::item_at))]
pub(crate) fn front_item(size: usize, text: &str) -> Option<(Item<'_>, &str)>
    ensures { option_map (cut_told size) result ≡ item_at size text.now }
{
    match text.as_bytes() {
        [] => None,
        [b'<', ..] => markup(size, text),
        _ => {
            let (run, rest) = text.split_at(run_length(text.as_bytes()));
            Some((Item::Run(run), rest))
        }
    }
}
