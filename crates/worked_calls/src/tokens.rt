//! Tokens of XML, one after another, and what the values of attributes mean.

use fcxml_profile::{EntityFault, Scanner, Token, XmlCause, XmlFault, first_fault};
use std::alloc::Global;
use std::test::Fail;

const DOCUMENT: &[u8] = b"<a b='1 &lt; 2'><c/>text</a>";

/// The value of an attribute of the document's first tag.
fn first_value(alloc: Global, name: &str) -> Result<String, Fail> {
    let Token::Open(tag) = Scanner::new(DOCUMENT).next(alloc)? else {
        return Err(Fail::new("no tag"));
    };
    let value = tag.attributes.get(name).ok_or("no attribute")?;
    Ok(value.read(alloc)?)
}

/// Where the first attribute of the document's first tag stands, if that tag is one of `a`.
fn first_source(alloc: Global) -> Result<Option<(u64, u64)>, Fail> {
    let Token::Open(tag) = Scanner::new(DOCUMENT).next(alloc)? else {
        return Err(Fail::new("no tag"));
    };
    if tag.name.as_str() != "a" {
        return Err(Fail::new("another tag"));
    }
    Ok(tag.attributes.source_at(0))
}

#[test]
fn reads_a_tag(rt: HostRuntime) -> Result<(), Fail> {
    assert!(rt; first_value(rt.alloc(), "b")?.as_str() == "1 < 2");
    assert!(rt; first_source(rt.alloc())? == Some((3, 15)));
    Ok(())
}

#[test]
fn takes_an_element(rt: HostRuntime) -> Result<(), Fail> {
    let mut scanner = Scanner::new(DOCUMENT);
    let Token::Open(_) = scanner.next(rt.alloc())? else {
        return Err(Fail::new("no tag"));
    };
    assert!(rt; scanner.take_foreign() == Ok((0, 28)));
    let ends = matches!(scanner.next(rt.alloc())?, Token::End);
    assert!(rt; ends);
    Ok(())
}

/// Documents, and what is wrong with them.
static FAULTS: [(&[u8], Option<(u64, XmlCause)>); 4] = [
    (DOCUMENT, None),
    (b"<a b='1' c='2' d='3'/>", None),
    (
        b"<a b='1' c='2' b='3'/>",
        Some((15, XmlCause::RepeatedAttribute)),
    ),
    (b"<a><b></a>", Some((6, XmlCause::Unbalanced))),
];

#[test]
fn finds_the_first_fault(rt: HostRuntime) -> Result<(), Fail> {
    for (document, want) in FAULTS.iter() {
        let found = first_fault(rt.alloc(), document)?;
        assert!(rt; found == want.map(|(place, cause)| XmlFault { place, cause }));
    }
    Ok(())
}

/// The document of one element with a value, which begins at place 6.
fn document_of(alloc: Global, value: &str) -> Result<String, Fail> {
    let mut document = String::from_str(alloc, "<a b=\"")?;
    document.push_str(value)?;
    document.push_str("\"/>")?;
    Ok(document)
}

/// Values between their quotes, and what they mean.
static MEANT: [(&str, &str); 38] = [
    ("", ""),
    ("plain > text", "plain > text"),
    // The five names.
    ("&amp;", "&"),
    ("&lt;", "<"),
    ("&gt;", ">"),
    ("&quot;", "\""),
    ("&apos;", "'"),
    // Numbers, with leading zeros and both forms of hexadecimal digits.
    ("&#65;", "A"),
    ("&#0065;", "A"),
    ("&#x41;", "A"),
    ("&#x0041;", "A"),
    ("&#x4a;&#x4A;", "JJ"),
    ("&#233;\u{e9}", "\u{e9}\u{e9}"),
    // The ends of the ranges of characters that XML allows.
    ("&#9;", "\t"),
    ("&#10;", "\n"),
    ("&#13;", "\r"),
    ("&#xD;&#xA;", "\r\n"),
    ("&#32;", " "),
    ("&#127;", "\u{7f}"),
    ("&#xD7FF;", "\u{d7ff}"),
    ("&#55295;", "\u{d7ff}"),
    ("&#xE000;", "\u{e000}"),
    ("&#xFFFD;", "\u{fffd}"),
    ("&#x10000;", "\u{10000}"),
    ("&#x10FFFF;", "\u{10ffff}"),
    ("&#1114111;", "\u{10ffff}"),
    // Tabs and line ends as they stand.
    ("a\tb", "a b"),
    ("a\nb", "a b"),
    ("a\rb", "a b"),
    ("a\r\nb", "a b"),
    ("a\n\rb", "a  b"),
    ("a\r\r\nb", "a  b"),
    ("\r&#10;", " \n"),
    // Several in one value; what was replaced is not replaced again.
    ("1 &lt; 2 &amp;&amp; 3 &gt; 2", "1 < 2 && 3 > 2"),
    ("&amp;lt;", "&lt;"),
    ("&#38;amp;", "&amp;"),
    ("&amp;#65;", "&#65;"),
    ("&#x3C;a b=&quot;&#49;&quot;/&#x3E;", "<a b=\"1\"/>"),
];

/// What such a value means.
fn meaning_of(alloc: Global, text: &str) -> Result<String, Fail> {
    let document = document_of(alloc, text)?;
    let Token::Open(tag) = Scanner::new(document.as_bytes()).next(alloc)? else {
        return Err(Fail::new("no tag"));
    };
    let value = tag.attributes.get("b").ok_or("no attribute")?;
    Ok(value.read(alloc)?)
}

fn means(alloc: Global, text: &str, want: &str) -> Result<bool, Fail> {
    Ok(meaning_of(alloc, text)?.as_str() == want)
}

#[test]
fn reads_values(rt: HostRuntime) -> Result<(), Fail> {
    for (text, want) in MEANT.iter() {
        assert!(rt; means(rt.alloc(), text, want)?, "{text}");
    }
    Ok(())
}

/// Values, and how many bytes of them stand in front of the first `&` that begins no reference.
static REFUSED: [(&str, u64); 26] = [
    ("&", 0),
    ("a & b", 2),
    ("&amp", 0),
    ("&amp;&lt", 5),
    ("&;", 0),
    ("&AMP;", 0),
    ("&nbsp;", 0),
    ("&amp ;", 0),
    ("&#;", 0),
    ("&#x;", 0),
    ("&#X41;", 0),
    ("&#4A;", 0),
    ("&#+65;", 0),
    ("&#x+41;", 0),
    ("&# 65;", 0),
    ("&#0;", 0),
    ("&#8;", 0),
    ("&#11;", 0),
    ("&#x1F;", 0),
    ("&#xD800;", 0),
    ("&#xDFFF;", 0),
    ("&#xFFFE;", 0),
    ("&#x110000;", 0),
    ("&#4294967361;", 0),
    ("\u{e9}&", 2),
    ("a\r\n&#x0;", 3),
];

fn is_refused_at(alloc: Global, text: &str, front: u64) -> Result<bool, Fail> {
    let document = document_of(alloc, text)?;
    let Token::Open(tag) = Scanner::new(document.as_bytes()).next(alloc)? else {
        return Ok(false);
    };
    let value = tag.attributes.get("b").ok_or("no attribute")?;
    Ok(
        matches!(value.read(alloc), Err(EntityFault::Entity(place)) if place.checked_sub(6) == Some(front)),
    )
}

#[test]
fn refuses_what_begins_no_reference(rt: HostRuntime) -> Result<(), Fail> {
    for (text, front) in REFUSED.iter() {
        assert!(rt; is_refused_at(rt.alloc(), text, *front)?, "{text}");
    }
    Ok(())
}
