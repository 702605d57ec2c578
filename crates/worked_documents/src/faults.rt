//! The first faults of documents.
use crate::building::{add_line, add_numbered, objects_of};
use doc_rules::{CheckFault, check};
use doc_tables::Tables;
use std::alloc::Global;
use std::test::Fail;

/// The number and the subject of a document's first fault, if it has one.
type FirstFault = Option<(u8, &'static str)>;

/// A document's first fault, its objects and its slots.
static FAULTS: [(FirstFault, &str, &str); 39] = [
    // A label that an earlier object has.
    (None, "A\nB", ""),
    (Some((6, "B")), "A\nB A", ""),
    (Some((6, "C")), "A B\nB A\nC A\nD A", ""),
    (Some((6, "B")), "A B\nB", "A.a Float = b"),
    // A path that names no slot, or an area.
    (Some((12, "A.a")), "A", "A.a Float = b"),
    (
        Some((12, "B.b")),
        "A\nB",
        "A.a Float = B.b\nB.b Float = B.a",
    ),
    (Some((12, "A.a")), "A", "A.a Float = <<B>>.a"),
    (Some((12, "A.a")), "A", "A.a Float = true ? 1 : b"),
    (Some((12, "A.a")), "A", "A.a Float = sum(A1:B2)"),
    (Some((12, "A.a")), "A", "A.a Float = Placement.Base.x"),
    (
        None,
        "A\nB C",
        "A.a Float = <<C>>.b\nB.b Float = A.c\nA.c Float",
    ),
    // A slot that depends on itself.
    (Some((14, "A.a")), "A", "A.a Float = a"),
    (Some((14, "A.a")), "A", "A.a Float = b\nA.b Float = a"),
    (
        Some((14, "A.b")),
        "A",
        "A.a Float = b\nA.b Float = c\nA.c Float = b",
    ),
    (
        Some((14, "A.b")),
        "A\nB",
        "A.b Float = B.x + 1\nB.x Float = B.y\nB.y Float = <<A>>.b",
    ),
    (
        Some((14, "B.x")),
        "A\nB",
        "B.y Float = x\nB.x Float = x\nA.a Float = B.x",
    ),
    (Some((14, "A.a")), "A", "A.a Float = true ? 1 : a"),
    (
        None,
        "A\nB",
        "A.a Float = B.y\nB.x Float = A.b\nA.b Float\nB.y Float",
    ),
    (
        None,
        "A\nB",
        "A.a Float = B.a\nB.a Float = A.b\nA.b Float = B.b\nB.b Float = 1",
    ),
    (Some((12, "A.b")), "A", "A.a Float = a\nA.b Float = c"),
    (Some((14, "A.b")), "A", "A.a Float = true\nA.b Float = b"),
    // Numbers of another unit.
    (Some((15, "A.a")), "A", "A.a Float = 1 mm"),
    (Some((15, "A.a")), "A", "A.a Length = 1 mm + 2"),
    (Some((15, "A.b")), "A", "A.a Length = 2\nA.b Mass = a"),
    (Some((15, "A.b")), "A", "A.a Length\nA.b Bool = a == 1 s"),
    (
        None,
        "A",
        "A.a Length = 2\nA.b Area = a * (1 mm)\nA.c Length := 2",
    ),
    // Numbers, flags and texts mixed up.
    (Some((16, "A.a")), "A", "A.a Float = true"),
    (Some((16, "A.a")), "A", "A.a Bool = 1"),
    (Some((16, "A.a")), "A", "A.a String = 1"),
    (
        Some((16, "A.a")),
        "A",
        "A.a Float = b + 1\nA.b Float = <<a>>",
    ),
    (None, "A", "A.a Bool = b == <<a>>\nA.b String"),
    // A unit with an exponent that is out of range.
    (Some((17, "A.a")), "A", "A.a Float = 1 mm^8"),
    (
        Some((17, "A.b")),
        "A",
        "A.a Float\nA.b Float = 1 mm^7 * (1 mm)",
    ),
    (
        Some((15, "A.a")),
        "A",
        "A.a Float = 1 mm\nA.b Float = true\nA.c Float = 1 mm^8",
    ),
    (
        Some((16, "A.b")),
        "A",
        "A.a Percent := 101\nA.b Float = true",
    ),
    // An own value outside the type.
    (Some((10, "A.a")), "A", "A.a Percent := 101"),
    (Some((10, "A.a")), "A", "A.a Integer := 1.5"),
    (
        Some((10, "A.b")),
        "A",
        "A.a Distance := -1\nA.b Length := -1",
    ),
    (None, "A", "A.a Percent = 101"),
];

/// Whether this is the first fault of a document.
pub fn has_fault(alloc: Global, tables: &Tables, want: Option<(u8, &str)>) -> Result<bool, Fail> {
    match check(alloc, tables) {
        Ok(()) => Ok(want.is_none()),
        Err(CheckFault::Doc(fault)) => Ok(want == Some((fault.number, fault.subject.as_str()))),
        Err(CheckFault::Memory(error)) => Err(Fail::from(error)),
    }
}

/// The document of these objects and these slots.
pub fn document_of(alloc: Global, objects: &str, slots: &str) -> Result<Tables, Fail> {
    let mut tables = objects_of(alloc, objects)?;
    for line in slots.lines() {
        add_line(alloc, &mut tables, line)?;
    }
    Ok(tables)
}

#[test]
fn finds_first_faults(rt: HostRuntime) -> Result<(), Fail> {
    for (want, objects, slots) in &FAULTS {
        let tables = document_of(rt.alloc(), objects, slots)?;
        assert!(rt;
            has_fault(rt.alloc(), &tables, *want)?,
            "{objects}: {slots}"
        );
    }
    Ok(())
}

/// A document of so many objects.
fn many_objects(alloc: Global, count: u32) -> Result<Tables, Fail> {
    let mut lines = String::new(alloc);
    for number in 0..count {
        write!(lines, "Set{number}\n")?;
    }
    objects_of(alloc, lines.as_str())
}

/// A document with 512 slots of 512 nodes each.
fn many_nodes(alloc: Global) -> Result<Tables, Fail> {
    let mut text = String::new(alloc);
    for _ in 0..511 {
        text.push('-')?;
    }
    text.push('1')?;
    let mut tables = objects_of(alloc, "A")?;
    for number in 0..512 {
        add_numbered(alloc, &mut tables, number, text.as_str())?;
    }
    Ok(tables)
}

#[test]
fn counts_objects(rt: HostRuntime) -> Result<(), Fail> {
    let most = many_objects(rt.alloc(), 4096)?;
    assert!(rt; has_fault(rt.alloc(), &most, None)?);
    let more = many_objects(rt.alloc(), 4097)?;
    assert!(rt; has_fault(rt.alloc(), &more, Some((29, "")))?);
    Ok(())
}

#[test]
fn counts_nodes(rt: HostRuntime) -> Result<(), Fail> {
    let mut tables = many_nodes(rt.alloc())?;
    assert!(rt; has_fault(rt.alloc(), &tables, None)?);
    add_line(rt.alloc(), &mut tables, "A.b Float = 1")?;
    assert!(rt; has_fault(rt.alloc(), &tables, Some((29, "")))?);
    Ok(())
}
