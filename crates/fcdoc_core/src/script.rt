//! The lines of a script.

ghost use Rattle.std.specs.Prelude.{◌≡◌, ◌==◌, ◌∷◌, [], ◌<◌, length, map, IfSome, MatchResult, None, slice_get, string_bytes};
ghost use Rattle.std.specs.List.{list_all, position};
ghost use Rattle.std.specs.Option.{option_copied, option_map_or};
ghost use Rattle.std.specs.Str.Lines.{lines, strip_carriage_return};
ghost use Rattle.fcdoc_core.specs.Scripts.{is_comment, is_skipped, line_fault, script_of};
ghost use Rattle.fcdoc_core.specs.ScriptFaults.{ReadsScript, cause_told};

use crate::script_fault::ScriptFault;
use std::alloc::Global;
use std::marker::Model;
use std::str;

/// The most lines that a script has.
const MOST_LINES: u64 = 100_000;

/// The most bytes that a line has, without its end.
const MOST_LINE_BYTES: usize = 4096;

/// The lines of a script, skipped ones among them: what stands before each LF, without one CR right
/// before it, and what stands behind the last LF, if anything does. It is seen as the list of them.
#[derive(Debug, Drop)]
pub struct Script {
    lines: Vec<String>,
}

impl Model for Script {
    ghost use Rattle.std.specs.Prelude.{List, ℕ, map, string_bytes};

    ghost Value = { List (List ℕ) };

    ghost view = { λ s. map string_bytes s.lines.items };
}

/// A line that gives no reply: an empty one, one of spaces, or a comment.
pub(crate) fn is_skipped(line: &str) -> bool
    ensures { result ≡ is_skipped line.now }
{
    let bytes = line.as_bytes();
    is_blank(bytes) || is_comment(bytes)
}

fn is_blank(bytes: &[u8]) -> bool
    ensures { result ≡ list_all (λ c. c == 32) bytes.now }
{
    bytes.iter().all(|byte| *byte == b' ')
}

fn is_comment(bytes: &[u8]) -> bool
    ensures { result ≡ is_comment bytes.now }
{
    match bytes {
        [first, ..] => *first == b'#',
        [] => false,
    }
}

/// What stands before the CR at the end, or all where there is none.
fn before_carriage_return(line: &[u8]) -> &[u8]
    ensures { result.now ≡ strip_carriage_return line.now }
{
    line.strip_suffix(b"\r").unwrap_or(line)
}

/// The place of the first LF.
fn first_line_feed(bytes: &[u8]) -> Option<usize>
    ensures { result ≡ position (λ c. c == 10) bytes.now }
{
    bytes.iter().position(|byte| *byte == b'\n')
}

/// The first line, without its end, and what follows it.
fn first_line(bytes: &[u8]) -> Option<(&[u8], &[u8])>
    ensures cut { lines bytes.now ≡ option_map_or (λ x. x.0.now ∷ lines x.1.now) result [] }
    ensures shorter { IfSome result (λ x. length x.1.now < length bytes.now) }
{
    if bytes.is_empty() {
        return None;
    }
    match first_line_feed(bytes) {
        Some(end) => Some((before_carriage_return(&bytes[..end]), &bytes[end + 1..])),
        None => Some((bytes, &[])),
    }
}

/// The line with this number as text.
fn text_of(line: &[u8], number: u64) -> Result<&str, ScriptFault>
    ensures { MatchResult result (λ text. (text.now ≡ line.now) × (line_fault number line.now ≡ None)) (λ fault. line_fault number line.now ≡ cause_told fault) }
{
    let Ok(text) = str::from_utf8(line) else {
        return Err(ScriptFault::NotUtf8(number));
    };
    if line.len() > MOST_LINE_BYTES {
        return Err(ScriptFault::LineTooLong(number));
    }
    Ok(text)
}

impl Script {
    /// Reads the text of a script, of any size. NotUtf8 and LineTooLong have the number, counted from
    /// 1, of the first line that is not UTF-8 or has more than 4,096 bytes without its end; on one
    /// line NotUtf8 comes first. TooManyLines comes where no line is so, and there are more than
    /// 100,000. The lines are copied, so time and memory grow with the bytes.
    pub fn read(alloc: Global, bytes: &[u8]) -> Result<Script, ScriptFault>
        ensures { ReadsScript (script_of bytes.now) result }
    {
        let mut lines = Vec::new(alloc);
        let mut number = 0;
        let mut rest = bytes;
        while let Some((line, behind)) = first_line(rest) {
            number += 1;
            let text = text_of(line, number)?;
            if number <= MOST_LINES {
                lines.push(String::from_str(alloc, text)?)?;
            }
            rest = behind;
        }
        if number > MOST_LINES {
            return Err(ScriptFault::TooManyLines);
        }
        Ok(Script { lines })
    }

    /// The line at that place, counted from 0 with the skipped ones, without its end. There is none
    /// exactly past the last.
    pub fn line_at(&self, place: u64) -> Option<&str>
        ensures { option_copied result ≡ slice_get self.now place }
    {
        self.lines.get(place as usize).map(|line| line.as_str())
    }

    /// All lines.
    pub(crate) fn lines(&self) -> &[String]
        ensures { map string_bytes result.now ≡ self.now }
    {
        &self.lines
    }
}
