//! Names, labels, texts and kept bytes.

use fc_base::{Label, LabelFault, Name, NameFault, SourceBytes, TextFault, TextValue};
use std::alloc::{AllocError, Global};
use std::collections::HashMap;
use std::test::Fail;

fn is_copied(alloc: Global, name: &Name, text: &str) -> bool {
    match name.copy(alloc) {
        Ok(copy) => copy.as_str() == text,
        Err(_) => false,
    }
}

fn has_label(alloc: Global, name: &Name, text: &str) -> bool {
    match name.to_label(alloc) {
        Ok(label) => label.as_str() == text,
        Err(_) => false,
    }
}

fn has_value(alloc: Global, name: &Name, text: &str) -> bool {
    match name.to_text_value(alloc) {
        Ok(value) => value.as_str() == text,
        Err(_) => false,
    }
}

/// Whether the copy, the label and the text of a name are this text.
fn is_told(alloc: Global, name: &Name, text: &str) -> bool {
    is_copied(alloc, name, text) && has_label(alloc, name, text) && has_value(alloc, name, text)
}

/// Whether a name keeps its text; nothing where the text is no name.
fn name_keeps(alloc: Global, text: &str) -> Option<bool> {
    match Name::read(alloc, text) {
        Ok(name) => Some(is_told(alloc, &name, text)),
        Err(NameFault::BadName) => None,
        Err(NameFault::Memory(_)) => Some(false),
    }
}

fn is_label_copied(alloc: Global, label: &Label, text: &str) -> bool {
    match label.copy(alloc) {
        Ok(copy) => copy.as_str() == text,
        Err(_) => false,
    }
}

/// Whether the copy of a label keeps its text; nothing where the text is no label.
fn label_keeps(alloc: Global, text: &str) -> Option<bool> {
    match Label::read(alloc, text) {
        Ok(label) => Some(is_label_copied(alloc, &label, text)),
        Err(LabelFault::BadLabel) => None,
        Err(LabelFault::Memory(_)) => Some(false),
    }
}

fn is_value_copied(alloc: Global, value: &TextValue, text: &str) -> bool {
    match value.copy(alloc) {
        Ok(copy) => copy.as_str() == text,
        Err(_) => false,
    }
}

/// Whether the copy of a text value keeps its text; nothing where the text has a bad character.
fn value_keeps(alloc: Global, text: &str) -> Option<bool> {
    match TextValue::read(alloc, text) {
        Ok(value) => Some(is_value_copied(alloc, &value, text)),
        Err(TextFault::BadText) => None,
        Err(_) => Some(false),
    }
}

/// What a text is read as.
enum Kind {
    Name,
    Label,
    Value,
}

/// What texts are read as, the texts, and whether they are kept, where they are not refused.
static READ: [(Kind, &str, Option<bool>); 38] = [
    (Kind::Name, "V", Some(true)),
    (Kind::Name, "_", Some(true)),
    (Kind::Name, "_9", Some(true)),
    (Kind::Name, "Box001", Some(true)),
    (Kind::Name, "größe", Some(true)),
    (Kind::Name, "长度", Some(true)),
    (
        Kind::Name,
        "a23456789b123456789c123456789d123456789e123456789f123456789g1234",
        Some(true),
    ),
    (Kind::Name, "", None),
    (Kind::Name, "9a", None),
    (Kind::Name, "a b", None),
    (Kind::Name, "a.b", None),
    (Kind::Name, "-", None),
    (Kind::Name, "a-b", None),
    (Kind::Name, "é!", None),
    (Kind::Name, "$A", None),
    (
        Kind::Name,
        "a23456789b123456789c123456789d123456789e123456789f123456789g12345",
        None,
    ),
    (Kind::Label, "Body", Some(true)),
    (Kind::Label, "My box", Some(true)),
    (Kind::Label, "<<", Some(true)),
    (Kind::Label, "a>b", Some(true)),
    (Kind::Label, ">a", Some(true)),
    (Kind::Label, "größe", Some(true)),
    (Kind::Label, "a\u{7f}", Some(true)),
    (Kind::Label, "", None),
    (Kind::Label, ">", None),
    (Kind::Label, "a>", None),
    (Kind::Label, "a>>b", None),
    (Kind::Label, ">>a", None),
    (Kind::Label, "a\tb", None),
    (Kind::Label, "a\n", None),
    (Kind::Value, "", Some(true)),
    (Kind::Value, "a>>b", Some(true)),
    (Kind::Value, "tab\tand\r\nlines", Some(true)),
    (Kind::Value, "größe", Some(true)),
    (Kind::Value, "\u{7f}", Some(true)),
    (Kind::Value, "\u{0}", None),
    (Kind::Value, "a\u{1b}b", None),
    (Kind::Value, "\u{b}", None),
];

fn keeps(alloc: Global, kind: &Kind, text: &str) -> Option<bool> {
    match kind {
        Kind::Name => name_keeps(alloc, text),
        Kind::Label => label_keeps(alloc, text),
        Kind::Value => value_keeps(alloc, text),
    }
}

#[test]
fn reads_names_labels_and_values(rt: HostRuntime) {
    for (kind, text, want) in &READ {
        assert!(rt; keeps(rt.alloc(), kind, text) == *want, "{text}");
    }
}

/// What is found under a label, where the label `My box` has 7.
fn found_under(alloc: Global, label: &Label) -> Result<Option<u32>, Fail> {
    let mut numbers = HashMap::new(alloc);
    numbers.insert(Label::read(alloc, "My box")?, 7u32)?;
    Ok(numbers.get(label).copied())
}

/// Whether this is found under the label of a text.
fn finds(alloc: Global, text: &str, want: Option<u32>) -> Result<bool, Fail> {
    let label = Label::read(alloc, text)?;
    Ok(found_under(alloc, &label)? == want)
}

#[test]
fn is_looked_up_by_an_equal_label(rt: HostRuntime) -> Result<(), Fail> {
    let found = finds(rt.alloc(), "My box", Some(7))? && finds(rt.alloc(), "my box", None)?;
    assert!(rt; found);
    Ok(())
}

/// So many letters, and an end.
fn letters(alloc: Global, count: u32, end: &str) -> Result<String, AllocError> {
    let mut text = String::new(alloc);
    for _ in 0..count {
        text.push('x')?;
    }
    text.push_str(end)?;
    Ok(text)
}

/// Whether a text is too long for a text value.
fn is_too_long(alloc: Global, text: &str) -> bool {
    matches!(TextValue::read(alloc, text), Err(TextFault::TooLong))
}

/// Whether so many letters and an end are a label, or are not too long for a text value; nothing
/// where memory ends.
fn is_short(alloc: Global, kind: &Kind, count: u32, end: &str) -> Option<bool> {
    let Ok(text) = letters(alloc, count, end) else {
        return None;
    };
    Some(match kind {
        Kind::Label => Label::is_label(text.as_str()),
        _ => !is_too_long(alloc, text.as_str()),
    })
}

/// What texts are read as, how many letters stand in them, what stands behind these, and whether
/// they are short enough.
static LENGTHS: [(Kind, u32, &str, bool); 5] = [
    (Kind::Label, 1, "", true),
    (Kind::Label, 255, "", true),
    (Kind::Label, 256, "", false),
    (Kind::Value, 1024, "", true),
    (Kind::Value, 1024, "\u{1}", false),
];

#[test]
fn counts_bytes(rt: HostRuntime) {
    for (kind, count, end, want) in &LENGTHS {
        assert!(rt; is_short(rt.alloc(), kind, *count, end) == Some(*want));
    }
}

/// Whether the copy of kept bytes is these bytes.
fn are_bytes_copied(alloc: Global, kept: &SourceBytes, bytes: &[u8]) -> bool {
    match kept.copy(alloc) {
        Ok(copy) => copy.bytes() == bytes,
        Err(_) => false,
    }
}

fn are_bytes_kept(alloc: Global, bytes: &[u8]) -> bool {
    match SourceBytes::of(alloc, bytes) {
        Ok(kept) => are_bytes_copied(alloc, &kept, bytes),
        Err(_) => false,
    }
}

#[test]
fn keeps_bytes(rt: HostRuntime) {
    assert!(rt; are_bytes_kept(rt.alloc(), b"<a b=\"1\"/>"));
}
