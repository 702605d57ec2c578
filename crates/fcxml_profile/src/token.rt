//! Tags as a scanner gives them.

ghost use Rattle.std.specs.Prelude.{◌≡◌, option_map};
ghost use Rattle.std.specs.List.{slice_get};
ghost use Rattle.fcxml_profile.specs.Items.{value_named};

use std::marker::Model;

/// The name of a tag or of an attribute.
#[derive(Debug, Drop)]
pub struct TagName<'a> {
    pub(crate) text: &'a str,
}

impl<'a> Model for TagName<'a> {
    ghost use Rattle.std.specs.Prelude.{ℕ, List};

    ghost Value = { List ℕ };

    ghost view = { λ name. name.text.now };
}

impl<'a> TagName<'a> {
    pub fn as_str(&self) -> &'a str
        ensures { result.now ≡ self.now }
    {
        self.text
    }
}

/// An attribute's value as it stands between the quotes, and the place of its first byte.
#[derive(Debug, Drop)]
pub struct AttributeText<'a> {
    pub(crate) text: &'a str,
    pub(crate) place: u64,
}

impl<'a> Model for AttributeText<'a> {
    ghost use Rattle.std.specs.Prelude.{ℕ, ◌+◌, ◌<◌, ◌^◌, length};
    ghost use Rattle.fcxml_profile.specs.Items.{Source};

    ghost Value = { Source };

    ghost view = { λ value. record { text = value.text.now; place = value.place } };

    // It lies in a document.
    ghost invariant = { λ value. value.place + length value.text.now < 2 ^ 64 };
}

impl<'a> AttributeText<'a> {
    /// The value as it stands there, without replacements.
    pub fn as_str(&self) -> &'a str
        ensures { result.now ≡ self.now.text }
    {
        self.text
    }
}

/// An attribute: `name="value"`.
#[derive(Debug, Drop)]
pub(crate) struct Attribute<'a> {
    pub(crate) name: TagName<'a>,
    pub(crate) value: AttributeText<'a>,
    /// The place of the first byte of the name.
    pub(crate) place: u64,
    /// The place behind the closing quote.
    pub(crate) end: u64,
}

/// The attributes of a tag, in order.
#[derive(Debug, Drop)]
pub struct Attributes<'a> {
    pub(crate) items: Vec<Attribute<'a>>,
}

impl<'a> Model for Attributes<'a> {
    ghost use Rattle.std.specs.Prelude.{List, map};
    ghost use Rattle.fcxml_profile.specs.Items.{Attribute as SeenAttribute};
    ghost use Rattle.fcxml_profile.specs.ToldAttributes.{attribute_told};

    ghost Value = { List SeenAttribute };

    ghost view = { λ attributes. map attribute_told attributes.items.items };
}

impl<'a> Attributes<'a> {
    /// The value of the attribute of that name; none exactly where the tag has no such attribute.
    pub fn get(&self, name: &str) -> Option<&AttributeText<'a>>
        ensures { option_map (λ value. value.now) result ≡ value_named name.now self.now }
    {
        for attribute in &self.items {
            if attribute.name.text == name {
                return Some(&attribute.value);
            }
        }
        None
    }

    /// The name of the attribute at that place among them, from 0; none exactly past the last.
    pub fn name_at(&self, place: usize) -> Option<&TagName<'a>>
        ensures { option_map (λ name. name.now) result ≡ option_map (λ a. a.name) (slice_get self.now place) }
    {
        Some(&self.items.get(place)?.name)
    }

    /// Where that attribute stands in the document: the place of the first byte of its name, and the
    /// place behind the closing quote; none exactly past the last.
    pub fn source_at(&self, place: usize) -> Option<(u64, u64)>
        ensures { result ≡ option_map (λ a. (a.place, a.end)) (slice_get self.now place) }
    {
        let attribute = self.items.get(place)?;
        Some((attribute.place, attribute.end))
    }
}

/// A tag that opens an element: `<name key="value">` or, where it is empty, `<name key="value"/>`.
#[derive(Debug, Drop)]
pub struct Tag<'a> {
    /// The place of its `<`: how many bytes of the document stand in front of it.
    pub place: u64,
    pub name: TagName<'a>,
    pub attributes: Attributes<'a>,
    /// Whether it ends in `/>`, so that no end tag follows.
    pub empty: bool,
}

/// What a scanner gives.
#[derive(Debug, Drop)]
pub enum Token<'a> {
    /// A tag that opens an element. An empty one has no `Close`.
    Open(Tag<'a>),
    /// The end tag of the innermost open element.
    Close,
    /// The end of the document.
    End,
}
