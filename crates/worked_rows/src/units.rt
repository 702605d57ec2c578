//! Named units, their products, quotients and powers, and their texts.

use arrayvec::ArrayString;
use unit_signatures::{ExponentRange, Unit, unit_named};

/// Names, factors in billionths of a base unit, and units.
static NAMED: [(&str, i128, &str); 42] = [
    ("nm", 1_000, "mm"),
    ("um", 1_000_000, "mm"),
    ("mm", 1_000_000_000, "mm"),
    ("cm", 10_000_000_000, "mm"),
    ("dm", 100_000_000_000, "mm"),
    ("m", 1_000_000_000_000, "mm"),
    ("km", 1_000_000_000_000_000, "mm"),
    ("in", 25_400_000_000, "mm"),
    ("ft", 304_800_000_000, "mm"),
    ("yd", 914_400_000_000, "mm"),
    ("thou", 25_400_000, "mm"),
    ("mg", 1_000, "kg"),
    ("g", 1_000_000, "kg"),
    ("kg", 1_000_000_000, "kg"),
    ("t", 1_000_000_000_000, "kg"),
    ("s", 1_000_000_000, "s"),
    ("min", 60_000_000_000, "s"),
    ("h", 3_600_000_000_000, "s"),
    ("A", 1_000_000_000, "A"),
    ("mA", 1_000_000, "A"),
    ("kA", 1_000_000_000_000, "A"),
    ("K", 1_000_000_000, "K"),
    ("mK", 1_000_000, "K"),
    ("mol", 1_000_000_000, "mol"),
    ("mmol", 1_000_000, "mol"),
    ("cd", 1_000_000_000, "cd"),
    ("deg", 1_000_000_000, "deg"),
    ("gon", 900_000_000, "deg"),
    ("l", 1_000_000_000_000_000, "mm^3"),
    ("ml", 1_000_000_000_000, "mm^3"),
    ("mN", 1_000_000_000, "mm*kg*s^-2"),
    ("N", 1_000_000_000_000, "mm*kg*s^-2"),
    ("kN", 1_000_000_000_000_000, "mm*kg*s^-2"),
    ("Pa", 1_000_000, "mm^-1*kg*s^-2"),
    ("kPa", 1_000_000_000, "mm^-1*kg*s^-2"),
    ("MPa", 1_000_000_000_000, "mm^-1*kg*s^-2"),
    ("GPa", 1_000_000_000_000_000, "mm^-1*kg*s^-2"),
    ("J", 1_000_000_000_000_000, "mm^2*kg*s^-2"),
    ("W", 1_000_000_000_000_000, "mm^2*kg*s^-3"),
    ("Hz", 1_000_000_000, "s^-1"),
    ("kHz", 1_000_000_000_000, "s^-1"),
    ("MHz", 1_000_000_000_000_000, "s^-1"),
];

fn is_written_as(unit: &Unit, text: &str) -> bool {
    let mut written = ArrayString::new();
    unit.write(&mut written);
    written.as_str() == text
}

fn is_named(name: &str, factor: i128, text: &str) -> bool {
    match unit_named(name) {
        Some((found, unit)) => found == factor && is_written_as(&unit, text),
        None => false,
    }
}

#[test]
fn units_are_named(rt: HostRuntime) {
    for (name, factor, text) in NAMED.iter() {
        assert!(rt; is_named(name, *factor, text));
    }
    assert!(rt; unit_named("lb").is_none());
}

/// Two units, and the text of their quotient.
static QUOTIENTS: [(&str, &str, &str); 7] = [
    ("m", "s", "mm*s^-1"),
    ("kg", "l", "mm^-3*kg"),
    ("N", "kN", ""),
    ("l", "m", "mm^2"),
    ("J", "m", "mm*kg*s^-2"),
    ("J", "l", "mm^-1*kg*s^-2"),
    ("W", "J", "s^-1"),
];

fn quotient_is(left: &str, right: &str, text: &str) -> bool {
    let (Some((_, left)), Some((_, right))) = (unit_named(left), unit_named(right)) else {
        return false;
    };
    match left.over(&right) {
        Ok(unit) => is_written_as(&unit, text),
        Err(ExponentRange) => false,
    }
}

/// Units, exponents of powers, and the texts of these, if they have one.
static POWERS: [(&str, i8, Option<&str>); 2] = [("l", 2, Some("mm^6")), ("l", -3, None)];

fn power_is(name: &str, exponent: i8, want: Option<&str>) -> bool {
    let Some((_, unit)) = unit_named(name) else {
        return false;
    };
    match (unit.power(exponent), want) {
        (Ok(power), Some(text)) => is_written_as(&power, text),
        (Err(ExponentRange), None) => true,
        _ => false,
    }
}

/// Whether a unit can be multiplied by itself once and not twice.
fn has_square_alone(name: &str) -> bool {
    let Some((_, unit)) = unit_named(name) else {
        return false;
    };
    match unit.times(&unit) {
        Ok(square) => square.times(&unit).is_err(),
        Err(ExponentRange) => false,
    }
}

#[test]
fn units_are_multiplied(rt: HostRuntime) {
    for (left, right, text) in QUOTIENTS.iter() {
        assert!(rt; quotient_is(left, right, text));
    }
    for (name, exponent, want) in POWERS.iter() {
        assert!(rt; power_is(name, *exponent, *want));
    }
    assert!(rt; has_square_alone("l"));
}

/// Two units, and the text of their product.
static PRODUCTS: [(&str, &str, &str); 5] = [
    ("mm", "cm", "mm^2"),
    ("Hz", "m", "mm*s^-1"),
    ("N", "m", "mm^2*kg*s^-2"),
    ("Pa", "l", "mm^2*kg*s^-2"),
    ("Hz", "min", ""),
];

fn product_is(left: &str, right: &str, text: &str) -> bool {
    let (Some((_, left)), Some((_, right))) = (unit_named(left), unit_named(right)) else {
        return false;
    };
    match left.times(&right) {
        Ok(unit) => is_written_as(&unit, text),
        Err(_) => false,
    }
}

#[test]
fn products_of_units(rt: HostRuntime) {
    for (left, right, text) in PRODUCTS.iter() {
        assert!(rt; product_is(left, right, text));
    }
}
