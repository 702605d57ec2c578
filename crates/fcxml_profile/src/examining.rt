//! Looks over a whole text: how many of its items stand where they may, and what is wrong behind them.

ghost use Rattle.std.specs.Prelude.{◌≡◌, ◌<◌, ◌^◌, option_map, IfOk};
ghost use Rattle.fcxml_profile.specs.Faults.{is_cut_off, is_truncated, is_declaration, fault_at, fault_behind};
ghost use Rattle.fcxml_profile.specs.Items.{item_at};
ghost use Rattle.fcxml_profile.specs.Standing.{at_start, standing_item};
ghost use Rattle.fcxml_profile.specs.Scanning.{examined};
ghost use Rattle.fcxml_profile.specs.Told.{cut_told};

use crate::elements::Elements;
use crate::fault::{XmlCause, XmlFault};
use crate::fronts::{after, behind};
use crate::items::{Item, front_item, place};
use std::alloc::{AllocError, Global};

/// What a text has: so many items that each stand where they may, and the fault behind them.
#[derive(Drop)]
pub(crate) struct Examined {
    pub(crate) count: usize,
    pub(crate) fault: Option<XmlFault>,
}

/// Whether nothing is left, or something that begins with `<` and holds no `>`.
fn is_cut_off(bytes: &[u8]) -> bool
    ensures { result ≡ is_cut_off bytes.now }
{
    match bytes {
        [] => true,
        [first, ..] => *first == b'<' && !bytes.contains(&b'>'),
    }
}

/// Whether nothing is left, or the front of an item of which the end is missing.
fn is_truncated(text: &str) -> bool
    ensures { result ≡ is_truncated text.now }
{
    if let Some(inner) = after("<!--", text) {
        return behind("-->", inner).is_none();
    }
    if let Some(inner) = after("<?xml", text) {
        return behind("?>", inner).is_none();
    }
    is_cut_off(text.as_bytes())
}

fn is_declaration(text: &str) -> bool
    ensures { result ≡ is_declaration text.now }
{
    after("<!", text).is_some() || after("<?", text).is_some()
}

/// What is wrong with the rest of a document of that size, behind those elements.
fn fault_at(
    alloc: Global,
    elements: &Elements<'_>,
    size: usize,
    rest: &str,
) -> Result<XmlFault, AllocError>
    ensures { IfOk result (λ fault. fault ≡ fault_at elements.now size rest.now) }
{
    if is_truncated(rest) {
        return Ok(XmlFault::at(size as u64, XmlCause::Truncated));
    }
    let place = place(size, rest);
    if is_declaration(rest) {
        return Ok(XmlFault::at(place, XmlCause::Declaration));
    }
    match front_item(size, rest) {
        Some((item, _)) => elements.misplaced(alloc, size, place, &item),
        None => Ok(XmlFault::at(place, XmlCause::Syntax)),
    }
}

/// What is wrong with the rest of a document, if anything is.
fn fault_behind(
    alloc: Global,
    elements: &Elements<'_>,
    size: usize,
    rest: &str,
) -> Result<Option<XmlFault>, AllocError>
    ensures { IfOk result (λ fault. fault ≡ fault_behind elements.now size rest.now) }
{
    if rest.is_empty() && elements.is_closed() {
        return Ok(None);
    }
    Ok(Some(fault_at(alloc, elements, size, rest)?))
}

/// The item in front, where it may stand, and what follows it.
fn standing_item<'a>(
    alloc: Global,
    elements: &Elements<'_>,
    size: usize,
    text: &'a str,
) -> Result<Option<(Item<'a>, &'a str)>, AllocError>
    ensures { IfOk result (λ found. option_map (cut_told size) found ≡ standing_item elements.now (item_at size text.now)) }
{
    match front_item(size, text) {
        Some((item, rest)) => {
            if elements.may_stand(alloc, size, &item)? {
                Ok(Some((item, rest)))
            } else {
                Ok(None)
            }
        }
        None => Ok(None),
    }
}

/// Looks over the text of a document of that size, without its byte order mark.
pub(crate) fn examine(alloc: Global, size: usize, text: &str) -> Result<Examined, AllocError>
    ensures exact { IfOk result (λ e. (e.count, e.fault) ≡ examined at_start size text.now) }
    ensures fits { IfOk result (λ e. e.count < 2 ^ 64) }
{
    let mut elements = Elements::new(alloc);
    let mut rest = text;
    let mut count = 0;
    while let Some((item, after)) = standing_item(alloc, &elements, size, rest)? {
        elements.pass(item)?;
        rest = after;
        count += 1;
    }
    let fault = fault_behind(alloc, &elements, size, rest)?;
    Ok(Examined { count, fault })
}
