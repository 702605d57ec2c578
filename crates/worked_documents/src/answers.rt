//! What tables answer.
use crate::building::{add_line, slot_named};
use crate::faults::document_of;
use doc_tables::{Rule, Tables};
use fc_base::{Name, SlotId};
use object_paths::SlotName;
use std::alloc::Global;
use std::test::Fail;

/// A document whose second slot reads the first one, one that is none, and a third.
fn three_slots(alloc: Global) -> Result<Tables, Fail> {
    document_of(
        alloc,
        "A\nB",
        "A.a Float\nB.b Float = A.a + X.a + .c\nB.c Float",
    )
}

#[test]
fn answers_what_is_asked(rt: HostRuntime) -> Result<(), Fail> {
    let tables = three_slots(rt.alloc())?;
    let a = slot_named(rt.alloc(), &tables, "A", "a")?;
    let b = slot_named(rt.alloc(), &tables, "B", "b")?;
    assert!(rt; tables.slot_at(0) == Some(a) && tables.slot_at(3).is_none());
    assert!(rt; tables.rule_of(a) == Rule::Own && tables.rule_of(b) == Rule::Bound);
    assert!(rt; tables.node_count() == 5 && tables.dependency_count() == 2);
    assert!(rt; tables.path_of(rt.alloc(), b)?.as_str() == "B.b");
    assert!(rt; tables.bound_of(rt.alloc(), b)?.is_some());
    Ok(())
}

/// What is removed from the three slots, and the paths of the first and the second slot then.
static REMOVALS: [(&str, &str, &str); 5] = [
    ("A.a", "B.b", "B.c"),
    ("A", "B.b", "B.c"),
    ("B.b", "A.a", "B.c"),
    ("B.c", "A.a", "B.b"),
    ("B", "A.a", ""),
];

/// Removes a property.
fn remove_slot(alloc: Global, tables: &mut Tables, object: &str, name: &str) -> Result<(), Fail> {
    let Some(object) = tables.object_named(object) else {
        return Err(Fail::new("no such object"));
    };
    let name = Name::read(alloc, name)?;
    let slot = SlotName::Plain(name.copy(alloc)?);
    tables.holds_var_sets(); // for the proof
    if tables.slot_of(object, &slot).is_some() {
        tables.remove_property(object, &name)?;
        return Ok(());
    }
    Err(Fail::new("no such slot"))
}

/// Removes the property of a path, or the object of a name.
fn remove(alloc: Global, tables: &mut Tables, path: &str) -> Result<(), Fail> {
    if let Some((object, name)) = path.split_once('.') {
        return remove_slot(alloc, tables, object, name);
    }
    let Some(object) = tables.object_named(path) else {
        return Err(Fail::new("no such object"));
    };
    tables.remove_object(object)?;
    Ok(())
}

/// The path of the slot at a place; empty past the last.
fn path_at(alloc: Global, tables: &Tables, place: u32) -> Result<String, Fail> {
    match tables.slot_at(place) {
        Some(slot) => Ok(tables.path_of(alloc, slot)?),
        None => Ok(String::new(alloc)),
    }
}

#[test]
fn removes_what_is_asked(rt: HostRuntime) -> Result<(), Fail> {
    for (path, first, second) in &REMOVALS {
        let mut tables = three_slots(rt.alloc())?;
        remove(rt.alloc(), &mut tables, path)?;
        assert!(rt; path_at(rt.alloc(), &tables, 0)?.as_str() == *first);
        assert!(rt; path_at(rt.alloc(), &tables, 1)?.as_str() == *second);
    }
    Ok(())
}

/// Whether the references of a slot's expression lead to these slots.
fn leads_to(
    alloc: Global,
    tables: &Tables,
    path: (&str, &str),
    want: &[Option<SlotId>],
) -> Result<bool, Fail> {
    let slot = slot_named(alloc, tables, path.0, path.1)?;
    let references = tables.references_of(alloc, slot)?;
    Ok(references.as_slice() == want)
}

/// What references lead to is the same before and after it is worked out, and follows a removal.
#[test]
fn references_follow_a_removal(rt: HostRuntime) -> Result<(), Fail> {
    let mut tables = three_slots(rt.alloc())?;
    let a = slot_named(rt.alloc(), &tables, "A", "a")?;
    let c = slot_named(rt.alloc(), &tables, "B", "c")?;
    assert!(rt; leads_to(rt.alloc(), &tables, ("B", "b"), &[Some(a), None, Some(c)])?);
    tables.resolve_references()?;
    assert!(rt; leads_to(rt.alloc(), &tables, ("B", "b"), &[Some(a), None, Some(c)])?);
    assert!(rt; tables.dependency_count() == 2);
    remove(rt.alloc(), &mut tables, "A.a")?;
    assert!(rt; leads_to(rt.alloc(), &tables, ("B", "b"), &[None, None, Some(c)])?);
    tables.resolve_references()?;
    assert!(rt; leads_to(rt.alloc(), &tables, ("B", "b"), &[None, None, Some(c)])?);
    assert!(rt; tables.dependency_count() == 1);
    Ok(())
}

#[test]
fn free_numbers_are_given_again(rt: HostRuntime) -> Result<(), Fail> {
    let mut tables = three_slots(rt.alloc())?;
    let b = slot_named(rt.alloc(), &tables, "B", "b")?;
    let c = slot_named(rt.alloc(), &tables, "B", "c")?;
    remove(rt.alloc(), &mut tables, "B.b")?;
    add_line(rt.alloc(), &mut tables, "A.d Float")?;
    assert!(rt; slot_named(rt.alloc(), &tables, "B", "c")? == c);
    assert!(rt; slot_named(rt.alloc(), &tables, "A", "d")? == b);
    Ok(())
}
