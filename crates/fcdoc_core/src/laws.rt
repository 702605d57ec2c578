//! Laws on definitions, as contracts of functions that do nothing.

ghost use Rattle.std.specs.Prelude.{◌≡◌, ℕ, List, Some};
ghost use Rattle.fcdoc_core.specs.declared.command.Command.{Command};
ghost use Rattle.fcdoc_core.specs.Commands.{command_of};
ghost use Rattle.fcdoc_core.specs.Delivery.{FrontsAreOfTheText};
ghost use Rattle.fcdoc_core.specs.Spelling.{IsLineOf};
ghost use Rattle.fcdoc_core.specs.WorkedLines.{LinesWork};
ghost use Rattle.fcdoc_core.specs.WorkedRuns.{RunsWork};
ghost use Rattle.fcdoc_core.specs.WorkedSession.{SessionWorks};
ghost use Rattle.fc_base.specs.Devices.{Held};

/// A line has a command exactly where it spells that one, and has no control character other than
/// tab.
pub fn lines_spell_commands()
    ensures read { (line : List ℕ) (c : Command) → IsLineOf line c → command_of line ≡ Some c }
    ensures spelled { (line : List ℕ) (c : Command) → command_of line ≡ Some c → IsLineOf line c }
{}

/// Paths and words that are cut off the front of texts, and the commands of lines.
pub fn lines_work()
    ensures { LinesWork }
{}

/// A session over a box and a link to it: what is answered, which features are called, and the state
/// behind a recompute, behind an edit, and behind all lines.
pub fn session_works()
    ensures { SessionWorks }
{}

/// Some pieces and a part of the next are a front of the whole text. Where that part is not all of the
/// piece, something of the text remains, and no other such front has the same text.
pub fn fronts_are_of_the_text()
    ensures { FrontsAreOfTheText }
{}

/// Runs of features and of a document that is put, for each way in which a run ends, and what none
/// leaves.
pub fn runs_work()
    ensures { (held : Held) → RunsWork held }
{}
