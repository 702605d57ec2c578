//! Writes the lines of replies.

ghost use Rattle.std.specs.Prelude.{◌≡◌, ◌++◌, ◌∷◌, [], IfOk, OnOk, decimal};
ghost use Rattle.std.specs.List.{flat_map};
ghost use Rattle.quantities.specs.Texts.{decimal_text};
ghost use Rattle.unit_signatures.specs.UnitTexts.{unit_text};
ghost use Rattle.fcdoc_core.specs.Replies.{behind_number, escaped_byte, expression_line, fault_name, outcome_line, recomputed_line, value_text};

use crate::reply::ExprText;
use arrayvec::ArrayString;
use fc_base::TextValue;
use itoa::Buffer;
use property_types::{Outcome, Value, ValueFault};
use quantities::Quantity;
use recompute::Report;
use std::alloc::{AllocError, Global};

/// Adds a number with its unit.
fn push_number(number: &Quantity, text: &mut Vec<u8>) -> Result<(), AllocError>
    ensures { OnOk result (text.new.items ≡ text.old.items ++ (decimal_text number.now.amount ++ behind_number (unit_text number.now.unit))) }
{
    let mut amount = ArrayString::new();
    number.amount.write_decimal(&mut amount);
    text.extend_from_slice(amount.as_str().as_bytes())?;
    let mut unit = ArrayString::new();
    number.unit.write(&mut unit);
    let unit = unit.as_str().as_bytes();
    if !unit.is_empty() {
        text.push(b' ')?;
        text.extend_from_slice(unit)?;
    }
    Ok(())
}

/// Adds a byte of a text in quotes.
fn push_escaped(byte: u8, text: &mut Vec<u8>) -> Result<(), AllocError>
    ensures { OnOk result (text.new.items ≡ text.old.items ++ escaped_byte byte) }
{
    match byte {
        b'"' => text.extend_from_slice(b"\\\""),
        b'\\' => text.extend_from_slice(b"\\\\"),
        b'\n' => text.extend_from_slice(b"\\n"),
        b'\r' => text.extend_from_slice(b"\\r"),
        b'\t' => text.extend_from_slice(b"\\t"),
        _ => {
            text.push(byte)?;
            Ok(())
        }
    }
}

/// Adds a text in quotes.
fn push_quoted(value: &TextValue, text: &mut Vec<u8>) -> Result<(), AllocError>
    ensures { OnOk result (text.new.items ≡ text.old.items ++ 34 ∷ (flat_map escaped_byte value.now ++ 34 ∷ [])) }
{
    text.push(b'"')?;
    for byte in value.as_str().as_bytes() {
        push_escaped(*byte, text)?;
    }
    text.push(b'"')?;
    Ok(())
}

/// Adds a value.
fn push_value(value: &Value, text: &mut Vec<u8>) -> Result<(), AllocError>
    ensures { OnOk result (text.new.items ≡ text.old.items ++ value_text value.now) }
{
    match value {
        Value::Number(number) => push_number(number, text),
        Value::Flag(true) => text.extend_from_slice(b"true"),
        Value::Flag(false) => text.extend_from_slice(b"false"),
        Value::Text(value) => push_quoted(value, text),
    }
}

fn fault_name(fault: ValueFault) -> &'static str
    ensures { result.now ≡ fault_name fault }
{
    match fault {
        ValueFault::Range => "Range",
        ValueFault::DivideByZero => "DivideByZero",
        ValueFault::NotWhole => "NotWhole",
        ValueFault::OutOfType => "OutOfType",
        ValueFault::EmptyAggregate => "EmptyAggregate",
    }
}

/// The line of an outcome.
pub(crate) fn outcome_line(alloc: Global, outcome: &Outcome) -> Result<Vec<u8>, AllocError>
    ensures { IfOk result (λ text. text.items ≡ outcome_line outcome.now) }
{
    let mut text = Vec::new(alloc);
    match outcome {
        Ok(value) => {
            text.extend_from_slice(b"= ")?;
            push_value(value, &mut text)?;
        }
        Err(fault) => {
            text.extend_from_slice(b"! ")?;
            text.extend_from_slice(fault_name(*fault).as_bytes())?;
        }
    }
    text.push(b'\n')?;
    Ok(text)
}

/// The line of an expression, or of none.
pub(crate) fn expression_line(
    alloc: Global,
    expression: &Option<ExprText>,
) -> Result<Vec<u8>, AllocError>
    ensures { IfOk result (λ text. text.items ≡ expression_line expression.now) }
{
    let Some(expression) = expression else {
        return Vec::from_slice(alloc, b": none\n");
    };
    let mut text = Vec::from_slice(alloc, b": ")?;
    text.extend_from_slice(expression.bytes())?;
    text.push(b'\n')?;
    Ok(text)
}

/// Adds a number in decimal.
fn push_count(count: u64, text: &mut Vec<u8>) -> Result<(), AllocError>
    ensures { OnOk result (text.new.items ≡ text.old.items ++ decimal count) }
{
    let mut buffer = Buffer::new();
    text.extend_from_slice(buffer.format(count).as_bytes())
}

/// The line of a recompute.
pub(crate) fn recomputed_line(alloc: Global, report: &Report) -> Result<Vec<u8>, AllocError>
    ensures { IfOk result (λ text. text.items ≡ recomputed_line report.now) }
{
    let mut text = Vec::from_slice(alloc, b"recomputed ")?;
    push_count(report.calls, &mut text)?;
    text.extend_from_slice(b" calls ")?;
    push_count(report.faults, &mut text)?;
    text.extend_from_slice(b" faults\n")?;
    Ok(text)
}
