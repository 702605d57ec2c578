//! Paths as texts.

use fc_base::{Address, Name};
use object_paths::{Path, PathFault, SlotName, slot_path};
use std::alloc::Global;

/// Texts of paths, and how the paths are written.
static WRITTEN: [(&str, &str); 7] = [
    (".Width", "Width"),
    (" . true", ".true"),
    ("$A$1", "$A$1"),
    ("S.A$1", "S.A$1"),
    (".Placement . Rotation . Turn", "Placement.Rotation.Turn"),
    ("<< b >> . P.Base.y", "<< b >>.P.Base.y"),
    ("<<<>>.Width", "<<<>>.Width"),
];

/// Whether a path is written so.
fn is_path_written(alloc: Global, path: &Path, want: &str) -> bool {
    match path.write(alloc) {
        Ok(text) => text.as_str() == want,
        Err(_) => false,
    }
}

/// Whether the copy of a path is written so.
fn is_copy_written(alloc: Global, path: &Path, want: &str) -> bool {
    match path.copy(alloc) {
        Ok(copy) => is_path_written(alloc, &copy, want),
        Err(_) => false,
    }
}

/// Whether the copy of the path of a text is written so.
fn is_written(alloc: Global, text: &str, want: &str) -> bool {
    match Path::read(alloc, text) {
        Ok(path) => is_copy_written(alloc, &path, want),
        Err(_) => false,
    }
}

#[test]
fn reads_and_writes_paths(rt: HostRuntime) {
    for (text, want) in &WRITTEN {
        assert!(rt; is_written(rt.alloc(), text, want), "{text}");
    }
}

fn is_no_path(alloc: Global, text: &str) -> bool {
    matches!(Path::read(alloc, text), Err(PathFault::BadPath))
}

#[test]
fn refuses_what_is_no_path(rt: HostRuntime) {
    for text in [
        "",
        "m",
        ".a.b",
        "a.Base.w",
        "Base.x.y.z",
        "$A$0",
        "<<a>>>>.b",
        "V.<<a>>",
    ] {
        assert!(rt; is_no_path(rt.alloc(), text), "{text}");
    }
}

/// Whether a slot of an object is written so.
fn is_slot_written(alloc: Global, object: &Name, slot: &SlotName, want: &str) -> bool {
    match slot_path(alloc, object, slot) {
        Ok(text) => text.as_str() == want,
        Err(_) => false,
    }
}

/// Whether a slot of V is written so.
fn is_slot_of_v_written(alloc: Global, slot: &SlotName, want: &str) -> bool {
    match Name::read(alloc, "V") {
        Ok(object) => is_slot_written(alloc, &object, slot, want),
        Err(_) => false,
    }
}

/// Whether the slot of V that a path names is written so.
fn is_written_outside(alloc: Global, text: &str, want: &str) -> bool {
    match Path::read(alloc, text) {
        Ok(path) => is_slot_of_v_written(alloc, &path.slot, want),
        Err(_) => false,
    }
}

/// Whether a cell of V without marks is written so.
fn is_cell_written(alloc: Global, text: &str, want: &str) -> bool {
    match Address::read(text) {
        Some(cell) => is_slot_of_v_written(alloc, &SlotName::Marked(cell), want),
        None => false,
    }
}

/// Paths, and how their slots are written from outside.
static OUTSIDE: [(&str, &str); 2] = [
    ("Placement.Rotation.Turn", "V.Placement.Rotation.Turn"),
    ("$A$5", "V.$A$5"),
];

#[test]
fn writes_paths_from_outside(rt: HostRuntime) {
    for (text, want) in &OUTSIDE {
        assert!(rt; is_written_outside(rt.alloc(), text, want), "{text}");
    }
    assert!(rt; is_cell_written(rt.alloc(), "A5", "V.A5"));
}
