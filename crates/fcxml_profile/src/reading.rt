//! Goes on reading a document that was looked over.

ghost use Rattle.std.specs.Prelude.{◌≡◌, ◌<◌, ◌≤◌, ◌+◌, ◌-◌, ◌^◌, ℕ, Some, length, option_map, None, true, IfOk, IsSome};
ghost use Rattle.fcxml_profile.specs.Items.{item_at, items_at};
ghost use Rattle.fcxml_profile.specs.Told.{cut_told, item_told};
ghost use Rattle.fcxml_profile.specs.Reading.{scan_of_reading, IsReading, last_told};
ghost use Rattle.fcxml_profile.specs.Scanning.{depth_behind, last_of, token_of};
ghost use Rattle.fcxml_profile.specs.Answers.{Fails, GivesToken, NextGives, ForeignGives, CanTake};

use crate::fault::XmlFault;
use crate::items::{Item, attributes, front_item, place};
use crate::scanner::ScanFault;
use crate::token::{Tag, TagName, Token};
use std::alloc::{AllocError, Global};

/// The tag that was given last: its place, the place behind it, and whether it is empty.
#[derive(Clone, Copy, Debug, Drop)]
pub(crate) struct LastTag {
    pub(crate) place: u64,
    pub(crate) end: u64,
    pub(crate) empty: bool,
}

/// What is left of a document.
#[derive(Debug, Drop)]
pub(crate) struct Reading<'a> {
    pub(crate) rest: &'a str,
    /// How many items of it stand where they may.
    pub(crate) left: usize,
    /// The tag that the last call gave, if it gave one.
    pub(crate) last: Option<LastTag>,
    /// The fault behind those items.
    pub(crate) fault: Option<XmlFault>,
    /// Whether a call has answered it.
    pub(crate) failed: bool,
}

/// The token that the item gives, if it gives one.
fn token_of<'a>(alloc: Global, size: usize, item: Item<'a>) -> Result<Option<Token<'a>>, AllocError>
    ensures { IfOk result (λ token. (end : ℕ) → GivesToken token (token_of (item_told size item.entry end))) }
{
    match item {
        Item::Declaration | Item::Comment | Item::Run(_) => Ok(None),
        Item::Opening(tag) => {
            let attributes = attributes(alloc, size, tag.behind_name)?;
            let name = TagName { text: tag.name };
            Ok(Some(Token::Open(Tag {
                place: tag.place,
                name,
                attributes,
                empty: tag.empty,
            })))
        }
        Item::Closing(_) => Ok(Some(Token::Close)),
    }
}

/// What is kept of an item that is a tag, of which the rest follows.
fn last_of(size: usize, item: &Item<'_>, rest: &str) -> Option<LastTag>
    ensures { option_map last_told result ≡ last_of (item_told size item.now (size - length rest.now)) }
{
    match item {
        Item::Opening(tag) => Some(LastTag {
            place: tag.place,
            end: place(size, rest),
            empty: tag.empty,
        }),
        _ => None,
    }
}

/// How many elements inside one are open behind the item, of so many before it. None where the item
/// ends that element itself.
fn depth_behind(depth: usize, item: &Item<'_>) -> Option<usize>
    requires { depth + 1 < 2 ^ 64 }
    ensures { (n end : ℕ) → result ≡ depth_behind depth (item_told n item.now end) }
{
    match item {
        Item::Declaration | Item::Comment | Item::Run(_) => Some(depth),
        Item::Opening(tag) if tag.empty => Some(depth),
        Item::Opening(_) => Some(depth + 1),
        Item::Closing(_) => depth.checked_sub(1),
    }
}

impl<'a> Reading<'a> {
    /// The item in front, which stands where it may, and what follows it.
    fn front(&self, size: usize) -> (Item<'a>, &'a str)
        requires some { 0 < self.now.left }
        requires whole { self.now.left ≤ length (items_at size self.now.rest.now) }
        ensures { item_at size self.now.rest.now ≡ Some (cut_told size result) }
    {
        match front_item(size, self.rest) {
            Some(found) => found,
            None => unreachable!(),
        }
    }

    /// The next token, or the fault behind the last one.
    pub(crate) fn next(&mut self, alloc: Global, size: usize) -> Result<Token<'a>, ScanFault>
        requires { IsReading size self.old }
        ensures gives { NextGives (scan_of_reading size self.old) result (scan_of_reading size self.new) }
        ensures sound { IsReading size self.new }
    {
        while self.left > 0 {
            let (item, rest) = self.front(size);
            let last = last_of(size, &item, rest);
            let token = token_of(alloc, size, item)?;
            self.rest = rest;
            self.left -= 1;
            if let Some(token) = token {
                self.last = last;
                return Ok(token);
            }
        }
        self.last = None;
        self.failed = self.fault.is_some();
        match self.fault {
            Some(fault) => Err(ScanFault::Xml(fault)),
            None => Ok(Token::End),
        }
    }

    /// The place of the element that was opened last, and the place behind its end.
    pub(crate) fn take_foreign(&mut self, size: usize) -> Result<(u64, u64), XmlFault>
        requires sound { IsReading size self.old }
        requires can { CanTake (scan_of_reading size self.old) }
        ensures gives { ForeignGives (scan_of_reading size self.old) result (scan_of_reading size self.new) }
        ensures sound { IsReading size self.new }
    {
        let Some(last) = self.last else {
            return self.fail();
        };
        self.last = None;
        if last.empty {
            return Ok((last.place, last.end));
        }
        let mut depth: usize = 0;
        while self.left > 0 {
            let (item, rest) = self.front(size);
            self.rest = rest;
            self.left -= 1;
            match depth_behind(depth, &item) {
                Some(inside) => depth = inside,
                None => return Ok((last.place, place(size, rest))),
            }
        }
        self.fail()
    }

    /// Answers the fault behind the last token.
    fn fail(&mut self) -> Result<(u64, u64), XmlFault>
        requires none { self.old.left ≡ 0 }
        requires some { IsSome self.old.fault }
        ensures fails { Fails self.old.fault result (scan_of_reading 0 self.new) }
        ensures left { self.new.left ≡ 0 }
        ensures fault { self.new.fault ≡ self.old.fault }
        ensures failed { self.new.failed ≡ true }
        ensures last { self.new.last ≡ None }
    {
        self.last = None;
        self.failed = true;
        match self.fault {
            Some(fault) => Err(fault),
            None => unreachable!(),
        }
    }
}
