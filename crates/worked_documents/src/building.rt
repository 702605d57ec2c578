//! Documents of VarSets, built from lines of text.
ghost use Rattle.std.specs.Prelude.{◌≡◌, ◌+◌, ◌<◌, length, IfOk, IsSome, OnOk};
ghost use Rattle.object_paths.specs.declared.path.Owner.TheVariants.{Here};
ghost use Rattle.object_paths.specs.declared.slot_name.SlotName.TheVariants.{Plain};
ghost use Rattle.document_model.specs.declared.content.Content.TheVariants.{Own};
ghost use Rattle.document_model.specs.Contents.{IsContentOf};
ghost use Rattle.doc_tables.specs.Numbered.{slot_at};

use doc_tables::{Tables, is_property_name};
use document_model::{Content, ObjectKind};
use expr_grammar::parse;
use fc_base::{Label, Name, SlotId};
use object_paths::{Owner, Path, SlotName};
use property_types::{PropType, Value};
use quantities::{Quantity, read_decimal};
use std::alloc::{AllocError, Global};
use std::test::Fail;

/// Adds a VarSet.
fn add_object(alloc: Global, tables: &mut Tables, name: &str, label: &str) -> Result<(), Fail>
    requires { length tables.old.document.objects < 10000 }
    ensures { OnOk result (length tables.new.document.objects ≡ length tables.old.document.objects + 1) }
{
    if tables.object_named(name).is_some() {
        return Err(Fail::new("the name is taken"));
    }
    let label = Label::read(alloc, label)?;
    let name = Name::read(alloc, name)?;
    tables.add_object(name, label, ObjectKind::VarSet)?;
    Ok(())
}

/// VarSets without properties. A line is the name of one, and its label where that is another.
pub fn objects_of(alloc: Global, lines: &str) -> Result<Tables, Fail> {
    let mut tables = Tables::new(alloc);
    let mut count: u32 = 0;
    for line in lines.lines() {
        if count == 5000 {
            return Err(Fail::new("too many objects"));
        }
        let (name, label) = line.split_once(' ').unwrap_or((line, line));
        add_object(alloc, &mut tables, name, label)?;
        count += 1;
    }
    Ok(tables)
}

/// The path of an object's own slot.
fn own_path(alloc: Global, name: &Name) -> Result<Path, AllocError>
    ensures { IfOk result (λ p. p ≡ record { owner = Here; slot = Plain name.now }) }
{
    Ok(Path {
        owner: Owner::Here,
        slot: SlotName::Plain(name.copy(alloc)?),
    })
}

/// Adds a property of one slot.
fn add_slot(
    alloc: Global,
    tables: &mut Tables,
    object: &str,
    name: &str,
    prop: PropType,
) -> Result<(), Fail> {
    if matches!(prop, PropType::Placement | PropType::Turn) {
        return Err(Fail::new("no type of a slot"));
    }
    let Some(object) = tables.object_named(object) else {
        return Err(Fail::new("no such object"));
    };
    let name = Name::read(alloc, name)?;
    if !is_property_name(&name) {
        return Err(Fail::new("the name is reserved"));
    }
    let path = own_path(alloc, &name)?;
    if tables.resolve(object, &path).is_some() {
        return Err(Fail::new("the name is taken"));
    }
    if tables.slot_count() == u32::MAX {
        return Err(Fail::new("too many slots"));
    }
    tables.holds_var_sets(); // for the proof
    tables.add_property(object, name, prop)?;
    Ok(())
}

/// The slot of an object's property.
pub fn slot_named(alloc: Global, tables: &Tables, object: &str, name: &str) -> Result<SlotId, Fail>
    ensures { IfOk result (λ id. IsSome (slot_at tables.now id.0)) }
{
    let Some(object) = tables.object_named(object) else {
        return Err(Fail::new("no such object"));
    };
    let name = Name::read(alloc, name)?;
    let path = own_path(alloc, &name)?;
    match tables.resolve(object, &path) {
        Some(slot) => Ok(slot),
        None => Err(Fail::new("no such slot")),
    }
}

/// Binds a slot to an expression.
fn bind(
    alloc: Global,
    tables: &mut Tables,
    object: &str,
    name: &str,
    text: &str,
) -> Result<(), Fail> {
    let slot = slot_named(alloc, tables, object, name)?;
    let tree = parse(alloc, text)?;
    tables.set_rule(slot, Content::Bound(tree))?;
    Ok(())
}

/// A number in the unit of a type, such as `2.5`.
fn number_of(alloc: Global, prop: PropType, text: &str) -> Result<Value, Fail>
    ensures { IfOk result (λ value. IsContentOf prop (Own value)) }
{
    if let PropType::Placement = prop {
        return Err(Fail::new("it has four slots"));
    }
    let amount = read_decimal(text.as_bytes())?;
    let _ = amount.raw(); // for the proof
    let Value::Number(zero) = prop.zero(alloc)? else {
        return Err(Fail::new("no number"));
    };
    let unit = zero.unit;
    Ok(Value::Number(Quantity { amount, unit }))
}

/// Puts a number into a slot.
fn put_number(
    alloc: Global,
    tables: &mut Tables,
    object: &str,
    name: &str,
    text: &str,
) -> Result<(), Fail> {
    let slot = slot_named(alloc, tables, object, name)?;
    let prop = tables.type_of(slot).ok_or("it has no type")?;
    let value = number_of(alloc, *prop, text)?;
    tables.set_rule(slot, Content::Own(value))?;
    Ok(())
}

/// Adds a slot of a type, such as `Length`.
fn add_typed(
    alloc: Global,
    tables: &mut Tables,
    object: &str,
    name: &str,
    prop: &str,
) -> Result<(), Fail> {
    let prop = format!(in alloc; "App::Property{prop}")?;
    let prop = PropType::named(prop.as_str()).ok_or("no such type")?;
    add_slot(alloc, tables, object, name, prop)
}

/// Adds the slot of a line: `A.a Float` with zero in it, `A.a Float = b + 1` with an expression, or
/// `A.a Length := 2.5` with a number of its own, in the unit of its type.
pub fn add_line(alloc: Global, tables: &mut Tables, line: &str) -> Result<(), Fail> {
    let (path, told) = line.split_once(' ').ok_or("no type")?;
    let (object, name) = path.split_once('.').ok_or("no slot")?;
    if let Some((prop, number)) = told.split_once(" := ") {
        add_typed(alloc, tables, object, name, prop)?;
        return put_number(alloc, tables, object, name, number);
    }
    if let Some((prop, expression)) = told.split_once(" = ") {
        add_typed(alloc, tables, object, name, prop)?;
        return bind(alloc, tables, object, name, expression);
    }
    add_typed(alloc, tables, object, name, told)
}

/// Adds the Float of A whose name is `a` and a number, bound to an expression.
pub fn add_numbered(
    alloc: Global,
    tables: &mut Tables,
    number: u32,
    expression: &str,
) -> Result<(), Fail> {
    let line = format!(in alloc; "A.a{number} Float = {expression}")?;
    add_line(alloc, tables, line.as_str())
}
