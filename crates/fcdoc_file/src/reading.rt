//! Reads the text of a document of the first form from its front.

ghost use Rattle.std.specs.Prelude.{◌≡◌, ◌-◌, ◌≤◌, option_map, map};
ghost use Rattle.fcdoc_file.specs.Answers.{Gives};
ghost use Rattle.fcdoc_file.specs.Cursor.{each, numbers};
ghost use Rattle.fcdoc_file.specs.Reading.{name_at, count_at, amount_of, quoted_at, known_at, property_at, fixed_at, start_at, object_at, declared_at, names_at, content_at};
ghost use Rattle.fcdoc_file.specs.Rows.{property_of, object_of};

use crate::cursor::{after, numeral, quoted};
use crate::fault::FormFault;
use crate::var_set::{FloatProperty, VarSet};
use fc_base::Name;
use itoa::Buffer;
use quantities::Amount;
use std::alloc::Global;

/// What stands before the count of the objects.
const DOCUMENT_START: &str =
    "<?xml version='1.0' encoding='utf-8'?>\n<Document SchemaVersion=\"4\">\n<Objects Count=\"";

/// What stands between a Float property's name and its number.
const FLOAT_START: &str =
    " type=\"App::PropertyFloat\" group=\"Base\" doc=\"\" ro=\"0\" hide=\"0\">\n<Float value=\"";

#[tactic(auto, unfolding(crate::specs::Reading::quoted_at))]
fn read_quoted<'a>(literal: &str, text: &'a str) -> Option<(&'a str, &'a str)>
    ensures { option_map (λ x. (x.0.now, x.1.now)) result ≡ quoted_at literal.now text.now }
{
    quoted(after(literal, text)?)
}

#[tactic(auto, unfolding(crate::specs::Reading::name_at))]
fn read_name<'a>(alloc: Global, literal: &str, text: &'a str) -> Result<(Name, &'a str), FormFault>
    ensures { Gives (λ x. (x.0, x.1.now)) result (name_at literal.now text.now) }
{
    let (name, rest) = read_quoted(literal, text).ok_or(FormFault::NotBuilt)?;
    Ok((Name::read(alloc, name)?, rest))
}

#[tactic(auto, unfolding(crate::specs::Reading::count_at))]
fn read_count<'a>(literal: &str, text: &'a str) -> Option<(u32, &'a str)>
    ensures { option_map (λ x. (x.0, x.1.now)) result ≡ count_at literal.now text.now }
{
    let (digits, rest) = read_quoted(literal, text)?;
    Some((numeral(digits)?, rest))
}

#[tactic(auto, unfolding(crate::specs::Reading::known_at))]
fn skip_known<'a>(literal: &str, known: &str, text: &'a str) -> Option<&'a str>
    ensures { option_map (λ x. x.now) result ≡ known_at literal.now known.now text.now }
{
    after("\"", after(known, after(literal, text)?)?)
}

/// The amount whose text with nine decimals this is.
fn amount_of(text: &str) -> Option<Amount>
    ensures { result ≡ amount_of text.now }
{
    Amount::read_nine(text.as_bytes())
}

#[tactic(auto, unfolding(crate::specs::Reading::property_at))]
fn read_property(alloc: Global, text: &str) -> Result<(FloatProperty, &str), FormFault>
    ensures { Gives (λ x. (property_of x.0, x.1.now)) result (property_at text.now) }
{
    let (name, text) = read_name(alloc, "<Property name=\"", text)?;
    let (number, text) = read_quoted(FLOAT_START, text).ok_or(FormFault::NotBuilt)?;
    let value = amount_of(number).ok_or(FormFault::NotBuilt)?;
    let text = after("/>\n</Property>\n", text).ok_or(FormFault::NotBuilt)?;
    Ok((FloatProperty { name, value }, text))
}

fn read_properties(
    alloc: Global,
    count: u32,
    text: &str,
) -> Result<(Vec<FloatProperty>, &str), FormFault>
    ensures { Gives (λ x. (map property_of x.0.items, x.1.now)) result (each (λ _. property_at) (numbers 1 count) text.now) }
{
    let mut properties = Vec::new(alloc);
    let mut rest = text;
    for _ in 0..count {
        let (property, after) = read_property(alloc, rest)?;
        properties.push(property)?;
        rest = after;
    }
    Ok((properties, rest))
}

#[tactic(auto, unfolding(crate::specs::Reading::fixed_at))]
fn skip_fixed<'a>(name: &str, text: &'a str) -> Option<&'a str>
    ensures { option_map (λ x. x.now) result ≡ fixed_at name.now text.now }
{
    let text = skip_known(
        ">\n<Property name=\"Label\" type=\"App::PropertyString\">\n<String value=\"",
        name,
        text,
    )?;
    after(
        "/>\n</Property>\n<Property name=\"ExpressionEngine\" type=\"App::PropertyExpressionEngine\">\n<ExpressionEngine count=\"0\"/>\n</Property>\n",
        text,
    )
}

#[tactic(auto, unfolding(crate::specs::Reading::start_at))]
fn read_start<'a>(name: &str, text: &'a str) -> Option<(u32, &'a str)>
    ensures { option_map (λ x. (x.0, x.1.now)) result ≡ start_at name.now text.now }
{
    let text = skip_known("<Object name=\"", name, text)?;
    let (count, text) = read_count(">\n<Properties Count=\"", text)?;
    let text = skip_fixed(name, text)?;
    if count < 2 {
        return None;
    }
    Some((count - 2, text))
}

#[tactic(auto, unfolding(crate::specs::Reading::object_at))]
fn read_object(alloc: Global, name: Name, text: &str) -> Result<(VarSet, &str), FormFault>
    ensures { Gives (λ x. (object_of x.0, x.1.now)) result (object_at name text.now) }
{
    let (count, text) = read_start(name.as_str(), text).ok_or(FormFault::NotBuilt)?;
    let (properties, text) = read_properties(alloc, count, text)?;
    let text = after("</Properties>\n</Object>\n", text).ok_or(FormFault::NotBuilt)?;
    Ok((VarSet { name, properties }, text))
}

fn read_objects<'a>(
    alloc: Global,
    names: &[Name],
    text: &'a str,
) -> Result<(Vec<VarSet>, &'a str), FormFault>
    ensures { Gives (λ x. (map object_of x.0.items, x.1.now)) result (each object_at names.now text.now) }
{
    let mut objects = Vec::new(alloc);
    let mut rest = text;
    for name in names {
        let (object, after) = read_object(alloc, name.copy(alloc)?, rest)?;
        objects.push(object)?;
        rest = after;
    }
    Ok((objects, rest))
}

#[tactic(auto, unfolding(crate::specs::Reading::declared_at))]
fn read_declared(alloc: Global, number: u32, text: &str) -> Result<(Name, &str), FormFault>
    ensures { Gives (λ x. (x.0, x.1.now)) result (declared_at number text.now) }
{
    let (name, text) = read_name(alloc, "<Object type=\"App::VarSet\" name=\"", text)?;
    let mut buffer = Buffer::new();
    let text = skip_known(" id=\"", buffer.format(number), text).ok_or(FormFault::NotBuilt)?;
    let text = after("/>\n", text).ok_or(FormFault::NotBuilt)?;
    Ok((name, text))
}

fn read_list(alloc: Global, count: u32, text: &str) -> Result<(Vec<Name>, &str), FormFault>
    ensures { Gives (λ x. (x.0.items, x.1.now)) result (each declared_at (numbers 1 count) text.now) }
{
    let mut names = Vec::new(alloc);
    let mut rest = text;
    for place in 0..count {
        let (name, after) = read_declared(alloc, 1 + place, rest)?;
        names.push(name)?;
        rest = after;
    }
    Ok((names, rest))
}

#[tactic(auto, unfolding(crate::specs::Reading::names_at))]
fn read_names(alloc: Global, text: &str) -> Result<(Vec<Name>, &str), FormFault>
    ensures { Gives (λ x. (x.0.items, x.1.now)) result (names_at text.now) }
{
    let (count, text) = read_count(DOCUMENT_START, text).ok_or(FormFault::NotBuilt)?;
    let text = after(">\n", text).ok_or(FormFault::NotBuilt)?;
    let (names, text) = read_list(alloc, count, text)?;
    let mut buffer = Buffer::new();
    let text = skip_known(
        "</Objects>\n<ObjectData Count=\"",
        buffer.format(count),
        text,
    )
    .ok_or(FormFault::NotBuilt)?;
    let text = after(">\n", text).ok_or(FormFault::NotBuilt)?;
    Ok((names, text))
}

#[tactic(auto, unfolding(crate::specs::Reading::content_at))]
pub(crate) fn read_content(alloc: Global, text: &str) -> Result<Vec<VarSet>, FormFault>
    ensures { Gives (λ v. map object_of v.items) result (content_at text.now) }
{
    let (names, text) = read_names(alloc, text)?;
    let (objects, text) = read_objects(alloc, &names, text)?;
    let rest = after("</ObjectData>\n</Document>\n", text).ok_or(FormFault::NotBuilt)?;
    if !rest.is_empty() {
        return Err(FormFault::NotBuilt);
    }
    Ok(objects)
}
