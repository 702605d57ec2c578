//! Gives the tokens of a document one after another.

ghost use Rattle.std.specs.Prelude.{◌≡◌, length, Some, None, IfOk, MatchResult};
ghost use Rattle.fcxml_profile.specs.Faults.{is_forbidden, character_fault};
ghost use Rattle.std.specs.List.{position_or_len};
ghost use Rattle.fcxml_profile.specs.Scanning.{without_mark, scan_of};
ghost use Rattle.fcxml_profile.specs.Reading.{scan_of_reading, IsReading};
ghost use Rattle.fcxml_profile.specs.Answers.{NextGives, ForeignGives, CanTake};

use crate::examining::examine;
use crate::fault::{XmlCause, XmlFault};
use crate::fronts::after;
use crate::reading::Reading;
use crate::token::Token;
use std::alloc::{AllocError, Global};
use std::marker::Model;
use std::str;
use thiserror::Error;

/// Why a scanner gives no token.
#[derive(Debug, Drop, Error)]
pub enum ScanFault {
    #[error("not well-formed: {0}")]
    Xml(XmlFault),
    #[error("out of memory")]
    Memory(AllocError),
}

impl From<AllocError> for ScanFault {
    ghost use Rattle.fcxml_profile.specs.declared.scanner.ScanFault.TheVariants.{Memory};

    ghost from_gives = { λ cause e. e ≡ Memory cause };

    fn from(cause: AllocError) -> ScanFault {
        ScanFault::Memory(cause)
    }
}

/// A control character other than a tab, a line feed and a carriage return.
fn is_forbidden(byte: u8) -> bool
    ensures { result ≡ is_forbidden byte }
{
    byte < 32 && !matches!(byte, b'\t' | b'\n' | b'\r')
}

/// How many bytes stand before the first such character.
fn allowed_count(bytes: &[u8]) -> usize
    ensures { result ≡ position_or_len is_forbidden bytes.now }
{
    bytes
        .iter()
        .take_while(|byte| !is_forbidden(**byte))
        .count()
}

/// The text of the bytes, or the first fault of a character.
fn text_of(bytes: &[u8]) -> Result<&str, XmlFault>
    ensures { MatchResult result (λ text. (text.now ≡ bytes.now) × (character_fault bytes.now ≡ None)) (λ fault. character_fault bytes.now ≡ Some fault) }
{
    let allowed = allowed_count(bytes);
    match str::from_utf8(bytes) {
        Ok(_) if allowed < bytes.len() => Err(XmlFault::at(allowed as u64, XmlCause::Character)),
        Ok(text) => Ok(text),
        Err(error) if allowed < error.valid_up_to() => {
            Err(XmlFault::at(allowed as u64, XmlCause::Character))
        }
        Err(error) => Err(XmlFault::at(error.valid_up_to() as u64, XmlCause::NotUtf8)),
    }
}

/// The text without the byte order mark, if there is one in front.
fn without_mark(text: &str) -> &str
    ensures { result.now ≡ without_mark text.now }
{
    match after("\u{feff}", text) {
        Some(rest) => rest,
        None => text,
    }
}

/// Looks over a whole document.
fn begin(alloc: Global, bytes: &[u8]) -> Result<Reading<'_>, AllocError>
    ensures gives { IfOk result (λ reading. scan_of_reading (length bytes.now) reading ≡ scan_of bytes.now) }
    ensures sound { IfOk result (λ reading. IsReading (length bytes.now) reading) }
{
    match text_of(bytes) {
        Ok(text) => {
            let rest = without_mark(text);
            let examined = examine(alloc, bytes.len(), rest)?;
            Ok(Reading {
                rest,
                left: examined.count,
                last: None,
                fault: examined.fault,
                failed: false,
            })
        }
        Err(fault) => Ok(Reading {
            rest: "",
            left: 0,
            last: None,
            fault: Some(fault),
            failed: false,
        }),
    }
}

/// What is wrong with the bytes, if they are not well-formed. The place of a fault is the number of
/// bytes in front of it. The time is linear in the bytes, but for the names of n attributes of one
/// tag, which cost n log n comparisons.
pub fn first_fault(alloc: Global, bytes: &[u8]) -> Result<Option<XmlFault>, AllocError>
    ensures { IfOk result (λ fault. fault ≡ (scan_of bytes.now).fault) }
{
    let reading = begin(alloc, bytes)?;
    Ok(reading.fault)
}

/// Gives the tokens of a document, and after them its fault or the end. Contracts see a scanner as
/// what is still to come.
#[derive(Debug, Drop)]
pub struct Scanner<'a> {
    bytes: &'a [u8],
    /// What is left, once the document was looked over.
    reading: Option<Reading<'a>>,
}

impl<'a> Model for Scanner<'a> {
    ghost use Rattle.std.specs.Prelude.{length};
    ghost use Rattle.fcxml_profile.specs.Scanning.{Scan};
    ghost use Rattle.fcxml_profile.specs.Reading.{scan_of_scanner, IsScanner};

    ghost Value = { Scan };

    ghost view = { λ s. scan_of_scanner s.bytes.now s.reading };

    ghost invariant = { λ s. IsScanner s.bytes.now s.reading };
}

impl<'a> Scanner<'a> {
    /// A scanner of the bytes of a document.
    pub fn new(bytes: &'a [u8]) -> Scanner<'a>
        ensures { result ≡ scan_of bytes.now }
    {
        Scanner {
            bytes,
            reading: None,
        }
    }

    /// The next token; after the last one the fault of the document, or its end, at each call. A
    /// character that XML forbids, or bytes that are no UTF-8, are the fault of the first call. The
    /// place of a fault is the number of bytes in front of it. Without memory the scanner stays as it
    /// was. The first call looks over the whole document, so its time grows with that; each other one
    /// takes the time of what it passes. Source of the rules: XML 1.0, without document type
    /// declarations.
    pub fn next(&mut self, alloc: Global) -> Result<Token<'a>, ScanFault>
        ensures { NextGives self.old result self.new }
    {
        if self.reading.is_none() {
            self.reading = Some(begin(alloc, self.bytes)?);
        }
        match &mut self.reading {
            Some(reading) => reading.next(alloc, self.bytes.len()),
            None => unreachable!(),
        }
    }

    /// The place of the element that the last token opened, and the place after its end: that of its
    /// end tag, or of the tag itself where it is empty. The next token is the one after it. Once a
    /// call has answered a fault, this answers it again. The time grows with the element.
    pub fn take_foreign(&mut self) -> Result<(u64, u64), XmlFault>
        requires { CanTake self.old }
        ensures { ForeignGives self.old result self.new }
    {
        match &mut self.reading {
            Some(reading) => reading.take_foreign(self.bytes.len()),
            None => unreachable!(),
        }
    }
}
