//! How values fit types, the zeros of types, plans and outcomes.

use arrayvec::ArrayString;
use fc_base::{Name, TextValue};
use property_types::{
    FitFault, InputPlan, Outcome, OutputPlan, PropType, SlotPlan, Sort, Value, ValueFault,
    copy_outcome,
};
use quantities::{Amount, Quantity};
use std::alloc::Global;
use std::test::Fail;
use unit_signatures::{Unit, unit_named};

/// Types, the billionths and the unit of a number, and the billionths that are its value, if any.
static FITS: [(&str, i128, &str, Result<i128, ValueFault>); 13] = [
    (
        "App::PropertyInteger",
        -3_000_000_000,
        "",
        Ok(-3_000_000_000),
    ),
    ("App::PropertyInteger", 1, "", Err(ValueFault::NotWhole)),
    (
        "App::PropertyPercent",
        100_000_000_000,
        "",
        Ok(100_000_000_000),
    ),
    (
        "App::PropertyPercent",
        101_000_000_000,
        "",
        Err(ValueFault::OutOfType),
    ),
    ("App::PropertyPercent", -1, "", Err(ValueFault::NotWhole)),
    ("App::PropertyLength", 5, "", Ok(5)),
    ("App::PropertyLength", -1, "mm", Err(ValueFault::OutOfType)),
    ("App::PropertyDistance", -1, "mm", Ok(-1)),
    ("App::PropertyArea", -1, "", Err(ValueFault::OutOfType)),
    ("App::PropertyVolume", -7, "l", Err(ValueFault::OutOfType)),
    ("App::PropertyForce", -2, "N", Ok(-2)),
    ("the turn", 23_000_000_000, "", Ok(23_000_000_000)),
    ("the turn", 24_000_000_000, "", Err(ValueFault::OutOfType)),
];

/// The types of numbers with a unit, and the text of the unit of each.
static UNITS: [(&str, &str); 11] = [
    ("App::PropertyLength", "mm"),
    ("App::PropertyDistance", "mm"),
    ("App::PropertyAngle", "deg"),
    ("App::PropertyArea", "mm^2"),
    ("App::PropertyVolume", "mm^3"),
    ("App::PropertyMass", "kg"),
    ("App::PropertyTime", "s"),
    ("App::PropertySpeed", "mm*s^-1"),
    ("App::PropertyForce", "mm*kg*s^-2"),
    ("App::PropertyPressure", "mm^-1*kg*s^-2"),
    ("App::PropertyDensity", "mm^-3*kg"),
];

fn type_of(name: &str) -> Option<PropType> {
    if name == "the turn" {
        Some(PropType::Turn)
    } else {
        PropType::named(name)
    }
}

fn number(raw: i128, unit: &str) -> Option<Value> {
    let Ok(amount) = Amount::of_raw(raw) else {
        return None;
    };
    let unit = if unit.is_empty() {
        Unit::pure()
    } else {
        unit_named(unit)?.1
    };
    Some(Value::Number(Quantity { amount, unit }))
}

/// The billionths that a number is fitted to, or the fault; the unit has to be the type's.
fn fitted(alloc: Global, prop: &PropType, value: &Value) -> Option<Result<i128, ValueFault>> {
    if *prop == PropType::Placement {
        return None;
    }
    let given = prop.fit(alloc, value);
    match &given {
        Ok(Value::Number(q)) if Sort::Number(q.unit) == prop.sort() => Some(Ok(q.amount.raw())),
        Ok(_) => None,
        Err(FitFault::Fault(fault)) => Some(Err(*fault)),
        Err(FitFault::Memory(_)) => None,
    }
}

/// What a number is fitted to.
fn number_fitted(
    alloc: Global,
    name: &str,
    raw: i128,
    unit: &str,
) -> Option<Result<i128, ValueFault>> {
    let prop = type_of(name)?;
    let value = number(raw, unit)?;
    fitted(alloc, &prop, &value)
}

#[test]
fn fits_numbers(rt: HostRuntime) {
    for (name, raw, unit, want) in &FITS {
        assert!(rt;
            number_fitted(rt.alloc(), name, *raw, unit) == Some(*want),
            "{name} {raw}"
        );
    }
}

/// Whether a type takes a value as it is.
fn is_taken_as_it_is(alloc: Global, prop: &PropType, value: &Value) -> bool {
    if *prop == PropType::Placement {
        return false;
    }
    match prop.fit(alloc, value) {
        Ok(fitted) => fitted == *value,
        Err(_) => false,
    }
}

/// Whether a text is taken as it is.
fn is_text_taken(alloc: Global, text: &str) -> bool {
    match TextValue::read(alloc, text) {
        Ok(text) => is_taken_as_it_is(alloc, &PropType::String, &Value::Text(text)),
        Err(_) => false,
    }
}

#[test]
fn fits_texts_and_flags(rt: HostRuntime) {
    let flag = is_taken_as_it_is(rt.alloc(), &PropType::Bool, &Value::Flag(true));
    assert!(rt; flag && is_text_taken(rt.alloc(), "a text"));
}

/// Whether a type has this name, and numbers of this unit.
fn is_named(name: &str, unit: &str) -> bool {
    let Some(prop) = type_of(name) else {
        return false;
    };
    if prop == PropType::Turn || prop == PropType::Placement {
        return false;
    }
    let Sort::Number(of) = prop.sort() else {
        return false;
    };
    let mut text = ArrayString::new();
    of.write(&mut text);
    text.as_str() == unit && prop.type_name() == name
}

#[test]
fn names_types_and_units(rt: HostRuntime) {
    for (name, unit) in &UNITS {
        assert!(rt; is_named(name, unit), "{name}");
    }
    assert!(rt; PropType::named("PropertyLength").is_none());
}

/// Whether a value is the zero of a type.
fn is_zero(alloc: Global, prop: &PropType, want: &Value) -> bool {
    if *prop == PropType::Placement {
        return false;
    }
    match prop.zero(alloc) {
        Ok(zero) => zero == *want,
        Err(_) => false,
    }
}

/// Whether a text is the zero of texts.
fn is_zero_text(alloc: Global, text: &str) -> bool {
    match TextValue::read(alloc, text) {
        Ok(text) => is_zero(alloc, &PropType::String, &Value::Text(text)),
        Err(_) => false,
    }
}

/// Whether a number is the zero of a type.
fn is_zero_number(alloc: Global, prop: &PropType, raw: i128, unit: &str) -> bool {
    match number(raw, unit) {
        Some(value) => is_zero(alloc, prop, &value),
        None => false,
    }
}

#[test]
fn gives_zeros(rt: HostRuntime) {
    let flag = is_zero(rt.alloc(), &PropType::Bool, &Value::Flag(false));
    assert!(rt; flag && is_zero_text(rt.alloc(), ""));
    assert!(rt; is_zero_number(rt.alloc(), &PropType::Length, 0, "mm"));
}

/// The input Width, a Length that is 100 mm.
fn width(alloc: Global) -> Result<InputPlan, Fail> {
    let default = number(100_000_000_000, "mm").ok_or("no number")?;
    Ok(InputPlan {
        name: Name::read(alloc, "Width")?,
        prop: PropType::Length,
        default,
    })
}

/// The output Opening, an Area.
fn opening(alloc: Global) -> Result<OutputPlan, Fail> {
    Ok(OutputPlan {
        name: Name::read(alloc, "Opening")?,
        prop: PropType::Area,
    })
}

/// A plan with a Length that is 100 mm and gives an Area.
fn frame(alloc: Global) -> Result<SlotPlan, Fail> {
    let inputs = vec![in alloc; width(alloc)?]?;
    let outputs = vec![in alloc; opening(alloc)?]?;
    Ok(SlotPlan {
        type_name: TextValue::read(alloc, "Fc::Frame")?,
        inputs,
        outputs,
        placed: false,
        members: false,
    })
}

/// Whether the copy of a plan has this name, an input and an output.
fn is_plan_copied(alloc: Global, plan: &SlotPlan, name: &str) -> bool {
    match plan.copy(alloc) {
        Ok(copy) => {
            copy.type_name.as_str() == name && copy.inputs.len() == 1 && copy.outputs.len() == 1
        }
        Err(_) => false,
    }
}

#[test]
fn copies_plans(rt: HostRuntime) -> Result<(), Fail> {
    let plan = frame(rt.alloc())?;
    assert!(rt; is_plan_copied(rt.alloc(), &plan, "Fc::Frame"));
    Ok(())
}

fn is_outcome_copied(alloc: Global, outcome: &Outcome) -> bool {
    match copy_outcome(alloc, outcome) {
        Ok(copy) => copy == *outcome,
        Err(_) => false,
    }
}

fn is_text_copied(alloc: Global, text: &str) -> bool {
    match TextValue::read(alloc, text) {
        Ok(text) => is_outcome_copied(alloc, &Ok(Value::Text(text))),
        Err(_) => false,
    }
}

#[test]
fn copies_texts(rt: HostRuntime) {
    assert!(rt; is_text_copied(rt.alloc(), "a text"));
}
