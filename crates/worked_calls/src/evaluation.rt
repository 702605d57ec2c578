//! Sorts, outcomes and steps of expressions, for what stands behind their references.

use expr_eval::{Env, SortCause, SortFault, SortOutcome, evaluate, reference_count, sort_of};
use expr_grammar::parse;
use fc_base::{SlotId, Steps};
use property_types::{Outcome, Sort, Value, ValueFault};
use quantities::{Amount, Quantity};
use std::alloc::{AllocError, Global};
use std::test::Fail;
use unit_signatures::Unit;

/// What stands behind the references: the k-th path has the k-th outcome and sort, and each area
/// has the same cells, which are numbered likewise.
#[derive(Drop)]
struct Given {
    outcomes: Vec<Outcome>,
    sorts: Vec<SortOutcome>,
    cells: Vec<SlotId>,
    none: Outcome,
}

impl Env for Given {
    ghost use Rattle.std.specs.Prelude.{map, slice_index_or, Err};
    ghost use Rattle.expr_eval.specs.declared.sort_cause.SortCause.TheVariants.{KindMismatch};

    ghost reading = { λ e. record {
      at = λ k. slice_index_or e.outcomes.items k e.none;
      inside = λ k. map (λ c. slice_index_or e.outcomes.items c.0 e.none) e.cells.items;
    } };

    ghost sort_reading = { λ e. record {
      at = λ k. slice_index_or e.sorts.items k (Err KindMismatch);
      inside = λ k. map (λ c. slice_index_or e.sorts.items c.0 (Err KindMismatch)) e.cells.items;
    } };

    ghost cell_outcome = { λ e c. slice_index_or e.outcomes.items c.0 e.none };

    ghost cell_sort = { λ e c. slice_index_or e.sorts.items c.0 (Err KindMismatch) };

    fn sort_at(&self, occurrence: u32) -> Result<Sort, SortCause> {
        let k = occurrence as usize;
        if k < self.sorts.len() {
            self.sorts[k]
        } else {
            Err(SortCause::KindMismatch)
        }
    }

    fn outcome_at(&self, occurrence: u32) -> &Outcome {
        let k = occurrence as usize;
        if k < self.outcomes.len() {
            &self.outcomes[k]
        } else {
            &self.none
        }
    }

    fn area_at(&self, _occurrence: u32) -> &[SlotId] {
        &self.cells
    }

    fn sort_of_cell(&self, cell: SlotId) -> Result<Sort, SortCause> {
        self.sort_at(cell.0)
    }

    fn outcome_of_cell(&self, cell: SlotId) -> &Outcome {
        self.outcome_at(cell.0)
    }
}

/// The sort of an expression, where each area has so many cells.
fn sort_told(alloc: Global, cells: u32, text: &str) -> Result<SortOutcome, Fail> {
    let tree = parse(alloc, text)?;
    let env = three_cells(alloc, cells)?;
    if reference_count(&tree) == u32::MAX {
        return Err(Fail::new("too many references"));
    }
    match sort_of(alloc, &tree, &env) {
        Ok(sort) => Ok(Ok(sort)),
        Err(SortFault::Cause(cause)) => Ok(Err(cause)),
        Err(SortFault::Memory(error)) => Err(Fail::from(error)),
    }
}

/// What an expression gives, and the steps that it took.
#[derive(Drop)]
struct Told {
    outcome: Outcome,
    steps: u64,
}

/// The outcome of an expression, where each area has so many cells.
fn outcome_told(alloc: Global, cells: u32, text: &str) -> Result<Told, Fail> {
    let tree = parse(alloc, text)?;
    let env = three_cells(alloc, cells)?;
    if reference_count(&tree) == u32::MAX {
        return Err(Fail::new("too many references"));
    }
    let mut steps = Steps::new("no ledger");
    let outcome = evaluate(alloc, &tree, &env, &mut steps)?;
    Ok(Told {
        outcome,
        steps: steps.count(),
    })
}

/// The billionths of an expression's value, or its fault.
fn billionths(alloc: Global, cells: u32, text: &str) -> Result<Result<i128, ValueFault>, Fail> {
    let told = outcome_told(alloc, cells, text)?;
    match &told.outcome {
        Ok(Value::Number(number)) if number.unit == Unit::pure() => Ok(Ok(number.amount.raw())),
        Ok(_) => Err(Fail::new("no pure number")),
        Err(fault) => Ok(Err(*fault)),
    }
}

fn number(raw: i128) -> Result<Outcome, Fail> {
    let amount = Amount::of_raw(raw)?;
    Ok(Ok(Value::Number(Quantity {
        amount,
        unit: Unit::pure(),
    })))
}

/// Three pure numbers, 3, 4 and one that is the fault DivideByZero, then a flag; the cells are the
/// first so many of them.
fn three_cells(alloc: Global, cells: u32) -> Result<Given, Fail> {
    let mut outcomes = Vec::new(alloc);
    let mut sorts = Vec::new(alloc);
    for raw in [3_000_000_000, 4_000_000_000] {
        let outcome = number(raw)?;
        push_outcome(&mut outcomes, outcome)?;
        push_sort(&mut sorts, Sort::Number(Unit::pure()))?;
    }
    push_outcome(&mut outcomes, Err(ValueFault::DivideByZero))?;
    push_sort(&mut sorts, Sort::Number(Unit::pure()))?;
    push_outcome(&mut outcomes, Ok(Value::Flag(true)))?;
    push_sort(&mut sorts, Sort::Flag)?;
    let mut numbers = Vec::new(alloc);
    for cell in 0..cells {
        numbers.push(SlotId(cell))?;
    }
    Ok(Given {
        outcomes,
        sorts,
        cells: numbers,
        none: Err(ValueFault::Range),
    })
}

fn push_sort(sorts: &mut Vec<SortOutcome>, sort: Sort) -> Result<(), AllocError> {
    sorts.push(Ok(sort))?;
    Ok(())
}

fn push_outcome(outcomes: &mut Vec<Outcome>, outcome: Outcome) -> Result<(), AllocError> {
    outcomes.push(outcome)?;
    Ok(())
}

/// How many cells an area has, expressions, and the billionths of their values, or their faults.
static OUTCOMES: [(u32, &str, Result<i128, ValueFault>); 12] = [
    (0, "<<a>> == 1 ? 2 : 3", Ok(3_000_000_000)),
    (0, "a + b", Ok(7_000_000_000)),
    (0, "sum(A1:B2)", Ok(0)),
    (0, "count(A1:B2)", Ok(0)),
    (0, "average(A1:B2)", Err(ValueFault::EmptyAggregate)),
    (0, "min(A1:B2)", Err(ValueFault::EmptyAggregate)),
    (0, "max(A1:B2)", Err(ValueFault::EmptyAggregate)),
    (2, "sum(A1:B2)", Ok(7_000_000_000)),
    (2, "count(1; A1:B2; A1:B2)", Ok(5_000_000_000)),
    (2, "average(A1:B2; 10)", Ok(5_666_666_667)),
    (2, "sum(A1:B2; a)", Ok(11_000_000_000)),
    (3, "count(A1:B2)", Err(ValueFault::DivideByZero)),
];

#[test]
fn evaluates(rt: HostRuntime) -> Result<(), Fail> {
    for (cells, text, want) in &OUTCOMES {
        assert!(rt; billionths(rt.alloc(), *cells, text)? == *want, "{text}");
    }
    Ok(())
}

/// Whether an expression has this sort, where each area has so many cells.
fn has_sort(alloc: Global, cells: u32, text: &str, want: SortOutcome) -> Result<bool, Fail> {
    Ok(sort_told(alloc, cells, text)? == want)
}

#[test]
fn finds_sorts(rt: HostRuntime) -> Result<(), Fail> {
    let alloc = rt.alloc();
    let pure = Sort::Number(Unit::pure());
    assert!(rt; has_sort(alloc, 0, "<<a>> == <<b>>", Ok(Sort::Flag))?);
    assert!(rt; has_sort(alloc, 0, "true ? <<a>> : <<b>>", Ok(Sort::Text))?);
    assert!(rt; has_sort(alloc, 0, "min(A1:B2)", Ok(pure))?);
    assert!(rt; has_sort(alloc, 3, "sum(1 mm; A1:B2)", Err(SortCause::UnitMismatch))?);
    assert!(rt; has_sort(alloc, 4, "sum(A1:B2)", Err(SortCause::KindMismatch))?);
    Ok(())
}

/// Expressions, and the steps that they take.
static STEPS: [(&str, u64); 4] = [
    ("true ? 1 : -2", 3),
    ("false ? 1 : -2", 4),
    ("1 / 0 + 2", 5),
    ("sum(A1:B2; 1; -2)", 4),
];

#[test]
fn counts_steps(rt: HostRuntime) -> Result<(), Fail> {
    for (text, want) in &STEPS {
        assert!(rt; outcome_told(rt.alloc(), 2, text)?.steps == *want, "{text}");
    }
    Ok(())
}
