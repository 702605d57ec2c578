ghost use Rattle.std.specs.Prelude.{◌≡◌, ◌≢◌, IfOk, IsTrue};
ghost use Rattle.std.specs.List.{list_all};
ghost use Rattle.unit_signatures.specs.Units.{is_exponent};
ghost use Rattle.property_types.specs.declared.prop_type.PropType.TheVariants.{Turn, Placement};
ghost use Rattle.property_types.specs.declared.prop_type.Sort.TheVariants.{Number};
ghost use Rattle.property_types.specs.Types.{sort_of_type, type_name_of, type_named, unit_of, zero_value};

use crate::value::Value;
use fc_base::TextValue;
use quantities::{Amount, Quantity};
use std::alloc::{AllocError, Global};
use unit_signatures::Unit;

/// The type of a property. `Turn` is the type of a placement's quarter turn, and of no property.
#[derive(Clone, Copy, Debug, PartialEq, Eq)]
pub enum PropType {
    Float,
    Integer,
    Percent,
    Bool,
    String,
    Length,
    Distance,
    Angle,
    Area,
    Volume,
    Mass,
    Time,
    Speed,
    Force,
    Pressure,
    Density,
    Placement,
    Turn,
}

/// What values a slot or an expression has: numbers of one unit, flags or texts.
#[derive(Clone, Copy, Debug, PartialEq, Eq)]
pub enum Sort {
    Number(Unit),
    Flag,
    Text,
}

impl PropType {
    /// The type of this name, such as `App::PropertyLength`; none exactly where no type of a
    /// property has the name.
    pub fn named(name: &str) -> Option<PropType>
        ensures { result ≡ type_named name.now }
    {
        match name {
            "App::PropertyFloat" => Some(PropType::Float),
            "App::PropertyInteger" => Some(PropType::Integer),
            "App::PropertyPercent" => Some(PropType::Percent),
            "App::PropertyBool" => Some(PropType::Bool),
            "App::PropertyString" => Some(PropType::String),
            "App::PropertyLength" => Some(PropType::Length),
            "App::PropertyDistance" => Some(PropType::Distance),
            "App::PropertyAngle" => Some(PropType::Angle),
            "App::PropertyArea" => Some(PropType::Area),
            "App::PropertyVolume" => Some(PropType::Volume),
            "App::PropertyMass" => Some(PropType::Mass),
            "App::PropertyTime" => Some(PropType::Time),
            "App::PropertySpeed" => Some(PropType::Speed),
            "App::PropertyForce" => Some(PropType::Force),
            "App::PropertyPressure" => Some(PropType::Pressure),
            "App::PropertyDensity" => Some(PropType::Density),
            "App::PropertyPlacement" => Some(PropType::Placement),
            _ => None,
        }
    }

    /// The name of a property's type, such as `App::PropertyLength`.
    pub fn type_name(&self) -> &'static str
        requires { self.now ≢ Turn }
        ensures { result.now ≡ type_name_of self.now }
    {
        match self {
            PropType::Float => "App::PropertyFloat",
            PropType::Integer => "App::PropertyInteger",
            PropType::Percent => "App::PropertyPercent",
            PropType::Bool => "App::PropertyBool",
            PropType::String => "App::PropertyString",
            PropType::Length => "App::PropertyLength",
            PropType::Distance => "App::PropertyDistance",
            PropType::Angle => "App::PropertyAngle",
            PropType::Area => "App::PropertyArea",
            PropType::Volume => "App::PropertyVolume",
            PropType::Mass => "App::PropertyMass",
            PropType::Time => "App::PropertyTime",
            PropType::Speed => "App::PropertySpeed",
            PropType::Force => "App::PropertyForce",
            PropType::Pressure => "App::PropertyPressure",
            PropType::Density => "App::PropertyDensity",
            PropType::Placement => "App::PropertyPlacement",
            PropType::Turn => unreachable!(),
        }
    }

    /// What values a slot of the type has. A placement has none of its own: its components are
    /// asked.
    pub fn sort(&self) -> Sort
        requires { self.now ≢ Placement }
        ensures { result ≡ sort_of_type self.now }
    {
        match self {
            PropType::Float | PropType::Integer | PropType::Percent | PropType::Turn => {
                Sort::Number(Unit::pure())
            }
            PropType::Bool => Sort::Flag,
            PropType::String => Sort::Text,
            PropType::Length | PropType::Distance => number_in(1, 0, 0, 0),
            PropType::Angle => number_in(0, 0, 0, 1),
            PropType::Area => number_in(2, 0, 0, 0),
            PropType::Volume => number_in(3, 0, 0, 0),
            PropType::Mass => number_in(0, 1, 0, 0),
            PropType::Time => number_in(0, 0, 1, 0),
            PropType::Speed => number_in(1, 0, -1, 0),
            PropType::Force => number_in(1, 1, -2, 0),
            PropType::Pressure => number_in(-1, 1, -2, 0),
            PropType::Density => number_in(-3, 1, 0, 0),
            PropType::Placement => unreachable!(),
        }
    }

    /// The value of a new slot of the type: 0 in the type's unit, false or the empty text.
    pub fn zero(&self, alloc: Global) -> Result<Value, AllocError>
        requires { self.now ≢ Placement }
        ensures { IfOk result (λ value. value ≡ zero_value self.now) }
    {
        Ok(match self.sort() {
            Sort::Number(unit) => Value::Number(Quantity {
                amount: Amount::zero(),
                unit,
            }),
            Sort::Flag => Value::Flag(false),
            Sort::Text => Value::Text(TextValue::of(String::new(alloc))),
        })
    }

    /// An equal type.
    pub fn copy(&self, _alloc: Global) -> Result<PropType, AllocError>
        ensures { IfOk result (λ prop. prop ≡ self.now) }
    {
        Ok(*self)
    }
}

/// Numbers in a unit, by its exponents of mm, kg, s and deg.
fn number_in(mm: i8, kg: i8, s: i8, deg: i8) -> Sort
    requires { IsTrue (list_all is_exponent (unit_of mm kg s deg)) }
    ensures { result ≡ Number (unit_of mm kg s deg) }
{
    Sort::Number(Unit::of([mm, kg, s, 0, 0, 0, 0, deg]))
}
