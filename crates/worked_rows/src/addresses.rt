//! Places of cells as texts.

use arrayvec::ArrayString;
use fc_base::{Address, Area};

/// The column, the row, and which of them are fixed.
type Told = (u16, u16, bool, bool);

/// Texts, and the addresses that they are.
static READ: [(&str, Option<Told>); 21] = [
    ("A1", Some((1, 1, false, false))),
    ("Z26", Some((26, 26, false, false))),
    ("AA1", Some((27, 1, false, false))),
    ("AZ10", Some((52, 10, false, false))),
    ("BA1", Some((53, 1, false, false))),
    ("ZZ16384", Some((702, 16384, false, false))),
    ("$A$1", Some((1, 1, true, true))),
    ("$C7", Some((3, 7, true, false))),
    ("C$7", Some((3, 7, false, true))),
    ("", None),
    ("A", None),
    ("7", None),
    ("A0", None),
    ("A01", None),
    ("A16385", None),
    ("AAA1", None),
    ("a1", None),
    ("A1 ", None),
    ("$$A1", None),
    ("A1$", None),
    ("A+1", None),
];

fn told(text: &str) -> Option<Told> {
    let read = Address::read(text)?;
    Some((read.column, read.row, read.fixed_column, read.fixed_row))
}

#[test]
fn reads_addresses(rt: HostRuntime) {
    for (text, want) in &READ {
        assert!(rt; told(text) == *want, "{text}");
    }
}

/// Texts, and whether they look like addresses.
static LOOKS: [(&str, bool); 9] = [
    ("A1", true),
    ("ZZ99999", true),
    ("A0", true),
    ("A", false),
    ("AB", false),
    ("ABC1", false),
    ("a1", false),
    ("A1b", false),
    ("$A1", false),
];

#[test]
fn tells_names_that_look_like_addresses(rt: HostRuntime) {
    for (text, want) in &LOOKS {
        assert!(rt; Address::looks_like(text) == *want, "{text}");
    }
}

fn is_written_as_read(text: &str) -> bool {
    let Some(read) = Address::read(text) else {
        return false;
    };
    let mut written = ArrayString::new();
    read.write(&mut written);
    written.as_str() == text
}

#[test]
fn writes_addresses(rt: HostRuntime) {
    for text in ["A1", "Z26", "AA10", "$AZ$101", "ZZ$16384", "$BA5000"] {
        assert!(rt; is_written_as_read(text), "{text}");
    }
}

/// Whether a cell is in the area between two corners, where these are in order.
fn is_inside(from: &str, to: &str, cell: &str) -> Option<bool> {
    let area = Area::of(Address::read(from)?, Address::read(to)?)?;
    let cell = Address::read(cell)?;
    Some(area.contains(&cell.unmarked()))
}

/// Two corners, a cell, and whether it is in their area, if they are in order.
static INSIDE: [(&str, &str, &str, Option<bool>); 5] = [
    ("A1", "B3", "B2", Some(true)),
    ("A1", "B3", "$A$3", Some(true)),
    ("A1", "B3", "C1", Some(false)),
    ("B1", "A3", "A1", None),
    ("A3", "B1", "A1", None),
];

#[test]
fn keeps_corners_in_order(rt: HostRuntime) {
    for (from, to, cell, want) in &INSIDE {
        assert!(rt; is_inside(from, to, cell) == *want);
    }
}
