//! Reads the lines of a script as commands.

ghost use Rattle.std.specs.Prelude.{◌≡◌, IfOk, IsErrOf};
ghost use Rattle.std.specs.List.{list_any};
ghost use Rattle.fcdoc_core.specs.Commands.{Reads, bind_of, command_of, command_of_cut, cut_path, cut_word, expression_of, get_of, is_by_name, is_control, is_plain, path_alone, path_and_text, property_of, recompute_of, set_of};
ghost use Rattle.fcdoc_core.specs.Spelling.{IsLineOf};

use crate::command::{Command, CommandFault};
use crate::cutting::{cut_path, cut_word, unspaced};
use doc_rules::{Edit, EditText};
use object_paths::{Owner, Path, PathFault, SlotName};
use std::alloc::Global;

fn is_by_name(owner: &Owner) -> bool
    ensures { result ≡ is_by_name owner.now }
{
    matches!(owner, Owner::ByName(_))
}

fn is_plain(slot: &SlotName) -> bool
    ensures { result ≡ is_plain slot.now }
{
    matches!(slot, SlotName::Plain(_))
}

/// The path of the form NAME.PROP that a word spells.
fn property_of(alloc: Global, word: &str) -> Result<Path, CommandFault>
    ensures { Reads (property_of word.now) result }
{
    match Path::read(alloc, word) {
        Ok(path) => {
            if is_by_name(&path.owner) && is_plain(&path.slot) {
                Ok(path)
            } else {
                Err(CommandFault::NotBuilt)
            }
        }
        Err(PathFault::BadPath) => Err(CommandFault::NotBuilt),
        Err(PathFault::Memory(error)) => Err(CommandFault::Memory(error)),
    }
}

/// A path, with nothing behind it.
fn path_alone(alloc: Global, behind: &str) -> Result<Path, CommandFault>
    ensures { Reads (path_alone (cut_path behind.now)) result }
{
    let (path, rest) = cut_path(behind);
    if rest.is_empty() {
        property_of(alloc, path)
    } else {
        Err(CommandFault::NotBuilt)
    }
}

/// A path, with a text behind it that is not empty.
fn path_and_text(alloc: Global, behind: &str) -> Result<(Path, EditText), CommandFault>
    ensures { Reads (path_and_text (cut_path behind.now)) result }
{
    let (path, rest) = cut_path(behind);
    if rest.is_empty() {
        return Err(CommandFault::NotBuilt);
    }
    let path = property_of(alloc, path)?;
    let text = EditText::of(alloc, rest)?;
    Ok((path, text))
}

/// `get`, of what stands behind it.
fn get_of(alloc: Global, behind: &str) -> Result<Command, CommandFault>
    ensures { Reads (get_of behind.now) result }
{
    Ok(Command::Get(path_alone(alloc, behind)?))
}

/// `expr`, of what stands behind it.
fn expression_of(alloc: Global, behind: &str) -> Result<Command, CommandFault>
    ensures { Reads (expression_of behind.now) result }
{
    Ok(Command::Expression(path_alone(alloc, behind)?))
}

/// `set`, of what stands behind it.
fn set_of(alloc: Global, behind: &str) -> Result<Command, CommandFault>
    ensures { Reads (set_of behind.now) result }
{
    let (path, expr) = path_and_text(alloc, behind)?;
    Ok(Command::Edit(Edit::SetValue { path, expr }))
}

/// `bind`, of what stands behind it.
fn bind_of(alloc: Global, behind: &str) -> Result<Command, CommandFault>
    ensures { Reads (bind_of behind.now) result }
{
    let (path, expr) = path_and_text(alloc, behind)?;
    Ok(Command::Edit(Edit::Bind { path, expr }))
}

/// `recompute`, of what stands behind it.
fn recompute_of(behind: &str) -> Result<Command, CommandFault>
    ensures { Reads (recompute_of behind.now) result }
{
    if behind.is_empty() {
        Ok(Command::Recompute)
    } else {
        Err(CommandFault::NotBuilt)
    }
}

/// The command of a line without outer spaces.
fn command_of_line(alloc: Global, line: &str) -> Result<Command, CommandFault>
    ensures { Reads (command_of_cut (cut_word line.now)) result }
{
    let (verb, behind) = cut_word(line);
    match verb {
        "get" => get_of(alloc, behind),
        "expr" => expression_of(alloc, behind),
        "set" => set_of(alloc, behind),
        "bind" => bind_of(alloc, behind),
        "recompute" => recompute_of(behind),
        _ => Err(CommandFault::NotBuilt),
    }
}

/// Whether a control character other than tab stands in the line.
fn has_control(line: &str) -> bool
    ensures { result ≡ list_any is_control line.now }
{
    line.as_bytes()
        .iter()
        .any(|byte| *byte < b' ' && *byte != b'\t')
}

impl Command {
    /// Reads a line of a script: `get V.a`, `expr V.a`, `set V.a 2 mm`, `bind V.a 2 * V.b` or
    /// `recompute`. NotBuilt comes exactly where it is none of these, or has a control character
    /// other than tab.
    pub fn read(alloc: Global, line: &str) -> Result<Command, CommandFault>
        ensures exact { Reads (command_of line.now) result }
        ensures spelled { IfOk result (λ c. IsLineOf line.now c) }
        ensures not_built { IsErrOf result CommandFault.NotBuilt → (c : Command) → IsLineOf line.now c → ⊥ }
    {
        if has_control(line) {
            return Err(CommandFault::NotBuilt);
        }
        command_of_line(alloc, unspaced(line))
    }
}
