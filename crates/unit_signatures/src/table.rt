ghost use Rattle.std.specs.Prelude.{◌≡◌, IsTrue, map};
ghost use Rattle.std.specs.List.{list_all};
ghost use Rattle.unit_signatures.specs.Rows.{has_unit, row_of};
ghost use Rattle.unit_signatures.specs.Table.{look_up, unit_named};

use crate::unit::Unit;

/// mm
const LENGTH: [i8; 8] = [1, 0, 0, 0, 0, 0, 0, 0];
/// kg
const MASS: [i8; 8] = [0, 1, 0, 0, 0, 0, 0, 0];
/// s
const TIME: [i8; 8] = [0, 0, 1, 0, 0, 0, 0, 0];
/// A
const CURRENT: [i8; 8] = [0, 0, 0, 1, 0, 0, 0, 0];
/// K
const TEMPERATURE: [i8; 8] = [0, 0, 0, 0, 1, 0, 0, 0];
/// mol
const AMOUNT_OF_SUBSTANCE: [i8; 8] = [0, 0, 0, 0, 0, 1, 0, 0];
/// cd
const LUMINOUS_INTENSITY: [i8; 8] = [0, 0, 0, 0, 0, 0, 1, 0];
/// deg
const ANGLE: [i8; 8] = [0, 0, 0, 0, 0, 0, 0, 1];
/// mm^3
const VOLUME: [i8; 8] = [3, 0, 0, 0, 0, 0, 0, 0];
/// mm*kg*s^-2
const FORCE: [i8; 8] = [1, 1, -2, 0, 0, 0, 0, 0];
/// mm^-1*kg*s^-2
const PRESSURE: [i8; 8] = [-1, 1, -2, 0, 0, 0, 0, 0];
/// mm^2*kg*s^-2
const ENERGY: [i8; 8] = [2, 1, -2, 0, 0, 0, 0, 0];
/// mm^2*kg*s^-3
const POWER: [i8; 8] = [2, 1, -3, 0, 0, 0, 0, 0];
/// s^-1
const FREQUENCY: [i8; 8] = [0, 0, -1, 0, 0, 0, 0, 0];

/// A named unit: its name, how many billionths of a base unit it is, and the exponents of that.
type NamedUnit = (&'static str, i128, [i8; 8]);

static UNITS: [NamedUnit; 42] = [
    ("nm", 1_000, LENGTH),
    ("um", 1_000_000, LENGTH),
    ("mm", 1_000_000_000, LENGTH),
    ("cm", 10_000_000_000, LENGTH),
    ("dm", 100_000_000_000, LENGTH),
    ("m", 1_000_000_000_000, LENGTH),
    ("km", 1_000_000_000_000_000, LENGTH),
    ("in", 25_400_000_000, LENGTH),
    ("ft", 304_800_000_000, LENGTH),
    ("yd", 914_400_000_000, LENGTH),
    ("thou", 25_400_000, LENGTH),
    ("mg", 1_000, MASS),
    ("g", 1_000_000, MASS),
    ("kg", 1_000_000_000, MASS),
    ("t", 1_000_000_000_000, MASS),
    ("s", 1_000_000_000, TIME),
    ("min", 60_000_000_000, TIME),
    ("h", 3_600_000_000_000, TIME),
    ("A", 1_000_000_000, CURRENT),
    ("mA", 1_000_000, CURRENT),
    ("kA", 1_000_000_000_000, CURRENT),
    ("K", 1_000_000_000, TEMPERATURE),
    ("mK", 1_000_000, TEMPERATURE),
    ("mol", 1_000_000_000, AMOUNT_OF_SUBSTANCE),
    ("mmol", 1_000_000, AMOUNT_OF_SUBSTANCE),
    ("cd", 1_000_000_000, LUMINOUS_INTENSITY),
    ("deg", 1_000_000_000, ANGLE),
    ("gon", 900_000_000, ANGLE),
    ("l", 1_000_000_000_000_000, VOLUME),
    ("ml", 1_000_000_000_000, VOLUME),
    ("mN", 1_000_000_000, FORCE),
    ("N", 1_000_000_000_000, FORCE),
    ("kN", 1_000_000_000_000_000, FORCE),
    ("Pa", 1_000_000, PRESSURE),
    ("kPa", 1_000_000_000, PRESSURE),
    ("MPa", 1_000_000_000_000, PRESSURE),
    ("GPa", 1_000_000_000_000_000, PRESSURE),
    ("J", 1_000_000_000_000_000, ENERGY),
    ("W", 1_000_000_000_000_000, POWER),
    ("Hz", 1_000_000_000, FREQUENCY),
    ("kHz", 1_000_000_000_000, FREQUENCY),
    ("MHz", 1_000_000_000_000_000, FREQUENCY),
];

/// The factor of a named unit, in billionths of a base unit, and its unit; none exactly where the
/// table has no such name.
pub fn unit_named(name: &str) -> Option<(i128, Unit)>
    ensures { result ≡ unit_named name.now }
{
    look_up(&UNITS, name)
}

/// The first row with this name.
fn look_up(units: &[NamedUnit], name: &str) -> Option<(i128, Unit)>
    requires { IsTrue (list_all has_unit units.now) }
    ensures { result ≡ look_up name.now (map row_of units.now) }
{
    for (named, factor, exponents) in units {
        if *named == name {
            let exponents = *exponents;
            return Some((*factor, Unit { exponents }));
        }
    }
    None
}
