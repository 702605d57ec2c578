//! The outcomes of documents.
use crate::building::{add_line, add_numbered, objects_of, slot_named};
use crate::faults::has_fault;
use doc_rules::check;
use doc_tables::Tables;
use fc_base::Steps;
use property_types::{Outcomes, Value, ValueFault};
use recompute::Values;
use std::alloc::Global;
use std::test::Fail;

/// A slot, and the billionths of its value, or its fault.
type Row = (&'static str, Result<i128, ValueFault>);

/// A chain through two objects, whose first slot depends on all others.
static CHAIN: [Row; 5] = [
    ("A.c Float = b + A.a", Ok(8_000_000_000)),
    ("A.b Float = a * 3", Ok(6_000_000_000)),
    ("A.a Float = B.x / (1 mm)", Ok(2_000_000_000)),
    ("B.x Length = 2", Ok(2_000_000_000)),
    ("B.y Area = <<B>>.x * (A.c * 1 mm)", Ok(16_000_000_000)),
];

/// Faults spread to what reads them and to nothing else. Of a conditional only the arm that is chosen
/// is read. A slot of the same name in the other object is another slot.
static FAULTS: [Row; 8] = [
    ("A.zero Float = 0", Ok(0)),
    ("A.a Float = 1 / zero", Err(ValueFault::DivideByZero)),
    ("A.b Float = 2 - a", Err(ValueFault::DivideByZero)),
    ("A.c Float = zero + B.a", Ok(7_000_000_000)),
    ("A.d Float = 1 < 2 ? c : b", Ok(7_000_000_000)),
    ("A.whole Integer = c / 2", Err(ValueFault::NotWhole)),
    ("A.share Percent = c * 101", Err(ValueFault::OutOfType)),
    ("B.a Float = 7", Ok(7_000_000_000)),
];

/// The billionths of the value of a slot such as `A.a`, or its fault.
fn told<V: Outcomes>(
    alloc: Global,
    tables: &Tables,
    values: &V,
    path: &str,
) -> Result<Result<i128, ValueFault>, Fail> {
    let (object, name) = path.split_once('.').ok_or("no slot")?;
    let slot = slot_named(alloc, tables, object, name)?;
    match values.outcome(slot) {
        Some(Ok(Value::Number(number))) => Ok(Ok(number.amount.raw())),
        Some(Ok(_)) => Err(Fail::new("no number")),
        Some(Err(fault)) => Ok(Err(*fault)),
        None => Err(Fail::new("no outcome")),
    }
}

/// Checks a document and works its outcomes out. How many are faults, and the steps that it took.
fn worked_out(alloc: Global, tables: &Tables, values: &mut Values) -> Result<(u64, u64), Fail> {
    check(alloc, tables)?;
    let mut steps = Steps::new("no ledger");
    let report = values.recompute(tables, &mut steps)?;
    Ok((report.faults, steps.count()))
}

/// The document of these slots of two VarSets.
fn document_of(alloc: Global, rows: &[Row]) -> Result<Tables, Fail> {
    let mut tables = objects_of(alloc, "A\nB")?;
    for (line, _) in rows {
        add_line(alloc, &mut tables, line)?;
    }
    Ok(tables)
}

/// Whether each slot has the outcome of its row.
fn are_told(alloc: Global, tables: &Tables, values: &Values, rows: &[Row]) -> Result<bool, Fail> {
    for (line, want) in rows {
        let (path, _) = line.split_once(' ').ok_or("no type")?;
        if told(alloc, tables, values, path)? != *want {
            return Ok(false);
        }
    }
    Ok(true)
}

#[test]
fn follows_a_chain(rt: HostRuntime) -> Result<(), Fail> {
    let tables = document_of(rt.alloc(), &CHAIN)?;
    let mut values = Values::new(rt.alloc());
    assert!(rt; worked_out(rt.alloc(), &tables, &mut values)? == (0, 15));
    let copy = values.copy(rt.alloc())?;
    assert!(rt; are_told(rt.alloc(), &tables, &copy, &CHAIN)?);
    Ok(())
}

#[test]
fn faults_spread(rt: HostRuntime) -> Result<(), Fail> {
    let tables = document_of(rt.alloc(), &FAULTS)?;
    let mut values = Values::new(rt.alloc());
    assert!(rt; worked_out(rt.alloc(), &tables, &mut values)? == (4, 22));
    assert!(rt; are_told(rt.alloc(), &tables, &values, &FAULTS)?);
    Ok(())
}

/// A chain whose first slot is its far end, and whose last one of that number.
fn chain_to(alloc: Global, last: u32) -> Result<Tables, Fail> {
    let mut tables = objects_of(alloc, "A")?;
    for number in 0..last {
        let next = format!(in alloc; "a{} + 1", number + 1)?;
        add_numbered(alloc, &mut tables, number, next.as_str())?;
    }
    add_numbered(alloc, &mut tables, last, "0")?;
    Ok(tables)
}

#[test]
fn follows_the_longest_chain(rt: HostRuntime) -> Result<(), Fail> {
    let mut tables = chain_to(rt.alloc(), 65_535)?;
    let mut values = Values::new(rt.alloc());
    assert!(rt; worked_out(rt.alloc(), &tables, &mut values)? == (0, 196_606));
    let far = told(rt.alloc(), &tables, &values, "A.a0")?;
    assert!(rt; far == Ok(65_535_000_000_000));
    add_line(rt.alloc(), &mut tables, "A.more Float")?;
    assert!(rt; has_fault(rt.alloc(), &tables, Some((29, "")))?);
    Ok(())
}
