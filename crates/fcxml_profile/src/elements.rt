//! What the items in front have left, and which item may stand behind them.

ghost use Rattle.std.specs.Prelude.{◌≡◌, ◌≤◌, ◌<◌, ℕ, ◌&&◌, ◌||◌, ◌==◌, not, nat_lt, true, length, map, IfOk, OnOk, is_none};
ghost use Rattle.std.specs.List.{list_all};
ghost use Rattle.fcxml_profile.specs.Fronts.{is_blank};
ghost use Rattle.fcxml_profile.specs.Standing.{at_start, has_open, is_innermost, may_stand, behind_item, most_open};
ghost use Rattle.fcxml_profile.specs.Faults.{misplaced};
ghost use Rattle.fcxml_profile.specs.Told.{item_told};

use crate::fault::{XmlCause, XmlFault};
use crate::fronts::is_blank;
use crate::items::Item;
use crate::repeated::repeated;
use std::alloc::{AllocError, Global};
use std::marker::Model;

/// The most elements that are open at once.
const MOST_OPEN: usize = 64;

/// Whether items stood in front, whether the root element has begun, and which elements are open.
#[derive(Drop)]
pub(crate) struct Elements<'a> {
    begun: bool,
    rooted: bool,
    /// The names of the open elements, the innermost one last.
    names: Vec<&'a str>,
}

impl<'a> Model for Elements<'a> {
    ghost use Rattle.std.specs.Prelude.{map};
    ghost use Rattle.fcxml_profile.specs.Standing.{Standing};

    ghost Value = { Standing };

    ghost view = { λ e. record { begun = e.begun; rooted = e.rooted; elements = map (λ name. name.now) e.names.items } };
}

fn is_all_blank(text: &str) -> bool
    ensures { result ≡ list_all is_blank text.now }
{
    text.as_bytes().iter().all(|byte| is_blank(*byte))
}

impl<'a> Elements<'a> {
    /// Nothing in front.
    pub(crate) fn new(alloc: Global) -> Elements<'a>
        ensures { result ≡ at_start }
    {
        Elements {
            begun: false,
            rooted: false,
            names: Vec::new(alloc),
        }
    }

    fn has_open(&self) -> bool
        ensures { result ≡ has_open self.now.elements }
    {
        !self.names.is_empty()
    }

    /// Whether the root element has begun and is closed.
    pub(crate) fn is_closed(&self) -> bool
        ensures { result ≡ (self.now.rooted && not (has_open self.now.elements)) }
    {
        self.rooted && !self.has_open()
    }

    fn is_innermost(&self, name: &str) -> bool
        ensures { result ≡ is_innermost name.now self.now.elements }
    {
        match self.names.last() {
            Some(inner) => *inner == name,
            None => false,
        }
    }

    /// Whether the item, of a document of that size, may stand here.
    pub(crate) fn may_stand(
        &self,
        alloc: Global,
        size: usize,
        item: &Item<'_>,
    ) -> Result<bool, AllocError>
        ensures { IfOk result (λ answer. answer ≡ may_stand self.now (item_told size item.now 0)) }
    {
        match item {
            Item::Declaration => Ok(!self.begun),
            Item::Comment => Ok(true),
            Item::Opening(tag) => {
                if self.rooted && !self.has_open() || self.names.len() >= MOST_OPEN {
                    return Ok(false);
                }
                Ok(repeated(alloc, size, tag.behind_name)?.is_none())
            }
            Item::Closing(name) => Ok(self.is_innermost(name)),
            Item::Run(text) => Ok(self.has_open() || is_all_blank(text)),
        }
    }

    /// What is wrong with an item at that place of a document of that size, which may not stand here.
    pub(crate) fn misplaced(
        &self,
        alloc: Global,
        size: usize,
        place: u64,
        item: &Item<'_>,
    ) -> Result<XmlFault, AllocError>
        ensures { IfOk result (λ fault. fault ≡ misplaced self.now place (item_told size item.now 0)) }
    {
        let syntax = XmlFault::at(place, XmlCause::Syntax);
        match item {
            Item::Declaration | Item::Comment | Item::Run(_) => Ok(syntax),
            Item::Opening(_) if self.names.len() >= MOST_OPEN => {
                Ok(XmlFault::at(place, XmlCause::Deep))
            }
            Item::Opening(tag) => match repeated(alloc, size, tag.behind_name)? {
                Some(second) => Ok(XmlFault::at(second, XmlCause::RepeatedAttribute)),
                None => Ok(syntax),
            },
            Item::Closing(_) if self.has_open() => Ok(XmlFault::at(place, XmlCause::Unbalanced)),
            Item::Closing(_) => Ok(syntax),
        }
    }

    /// Goes behind an item that may stand here.
    pub(crate) fn pass(&mut self, item: Item<'a>) -> Result<(), AllocError>
        ensures { OnOk result ((n : ℕ) → self.new ≡ behind_item self.old (item_told n item.entry 0)) }
    {
        self.begun = true;
        match item {
            Item::Declaration | Item::Comment | Item::Run(_) => {}
            Item::Opening(tag) => {
                self.rooted = true;
                if !tag.empty {
                    self.names.push(tag.name)?;
                }
            }
            Item::Closing(_) => {
                self.names.pop();
            }
        }
        Ok(())
    }
}
