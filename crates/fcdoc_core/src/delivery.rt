//! Writes what a run is to write, piece by piece.

ghost use Rattle.std.specs.Prelude.{◌≡◌, [], map, string_bytes, IsTrue, IfOk};
ghost use Rattle.document_outcomes.specs.Typed.{no_features};
ghost use Rattle.fcdoc_core.specs.Machine.{is_refused, moved_to, step_line, stepped};
ghost use Rattle.fcdoc_core.specs.Replies.{answer_text};
ghost use Rattle.fcdoc_core.specs.Plans.{Delivers, Speaks, Tells, is_end, top_of_plan};
ghost use Rattle.fcdoc_core.specs.Scripts.{with_replies};
ghost use Rattle.fcdoc_core.specs.Top.{one_piece, missing, replies_of};

use crate::answering::answer_to;
use crate::plan::Plan;
use crate::script::is_skipped;
use crate::session::Session;
use crate::status::Status;
use crate::stop::Stop;
use fc_base::{DeviceFault, Sink, Steps};
use std::alloc::Global;

/// The line for words that have none of the forms of a run.
const USAGE: &str = "usage: fcdoc run DOC SCRIPT [--save NAME] | check DOC | make N\n";

/// Offers a piece until all of it is taken.
fn offer<K: Sink>(out: &mut K, piece: &[u8]) -> Result<(), DeviceFault>
    ensures { Delivers piece.now result (K.written out.old) (K.written out.new) (K.faults out.old) (K.faults out.new) }
{
    let mut rest = piece;
    while !rest.is_empty() {
        let taken = out.write(rest)?;
        let (_, left) = rest.split_at(taken);
        rest = left;
    }
    Ok(())
}

/// Writes a text.
fn say<K: Sink>(out: &mut K, text: &[u8]) -> Result<(), Stop>
    ensures { Tells text.now (λ _. Unit {0}) result (K.written out.old) (K.written out.new) (K.faults out.old) (K.faults out.new) }
{
    match offer(out, text) {
        Ok(()) => Ok(()),
        Err(DeviceFault::Failed) => Err(Stop::Sink),
        Err(DeviceFault::Memory(_)) => Err(Stop::Memory),
    }
}

/// Runs a line and writes the reply, and answers whether it is a refusal.
fn reply_to<K: Sink>(
    alloc: Global,
    session: &mut Session,
    line: &str,
    out: &mut K,
) -> Result<bool, Stop>
    ensures told { let step = step_line session.old.plans no_features session.old.state line.now in
        Tells (answer_text step.answer) (λ refused. refused ≡ is_refused step) result (K.written out.old) (K.written out.new) (K.faults out.old) (K.faults out.new) }
    ensures state { IfOk result (λ _. session.new ≡ moved_to session.old (step_line session.old.plans no_features session.old.state line.now).state) }
{
    let answer = answer_to(alloc, session, line, &mut Steps::new(()))?;
    say(out, answer.text.as_slice())?;
    Ok(answer.is_refusal)
}

/// Runs the lines that are not skipped and writes the replies, and answers the status: SomeRefused
/// where a reply is a refusal.
fn reply_to_all<K: Sink>(
    alloc: Global,
    session: &mut Session,
    lines: &[String],
    out: &mut K,
) -> Result<Status, Stop>
    ensures { Speaks (replies_of (stepped session.old.plans no_features session.old.state (with_replies (map string_bytes lines.now)))) result (K.written out.old) (K.written out.new) (K.faults out.old) (K.faults out.new) }
{
    let mut refused = false;
    for line in lines {
        let line = line.as_str();
        if is_skipped(line) {
            continue;
        }
        match reply_to(alloc, session, line, out) {
            Ok(is_refusal) => refused |= is_refusal,
            Err(stop) => return Err(stop),
        }
    }
    Ok(if refused {
        Status::SomeRefused
    } else {
        Status::Done
    })
}

/// Writes one line, and answers the status that goes with it.
fn say_line<K: Sink>(out: &mut K, text: &[u8], status: Status) -> Result<Status, Stop>
    ensures { Speaks (one_piece status text.now) result (K.written out.old) (K.written out.new) (K.faults out.old) (K.faults out.new) }
{
    say(out, text)?;
    Ok(status)
}

fn say_missing<K: Sink>(alloc: Global, out: &mut K, name: &str) -> Result<Status, Stop>
    ensures { Speaks (missing name.now) result (K.written out.old) (K.written out.new) (K.faults out.old) (K.faults out.new) }
{
    let text = format!(in alloc; "missing {name}\n")?;
    say_line(out, text.as_bytes(), Status::Missing)
}

/// Writes what a plan says, and answers its status.
pub(crate) fn deliver<K: Sink>(alloc: Global, plan: Plan, out: &mut K) -> Result<Status, Stop>
    ensures spoken { Speaks (top_of_plan plan) result (K.written out.old) (K.written out.new) (K.faults out.old) (K.faults out.new) }
    ensures ended { IfOk result (λ status. IsTrue (is_end status)) }
{
    match plan {
        Plan::Usage => say_line(out, USAGE.as_bytes(), Status::Usage),
        Plan::Missing(name) => say_missing(alloc, out, name.as_str()),
        Plan::DocumentTooLong => {
            say_line(out, b"document refused TooLong\n", Status::DocumentRefused)
        }
        Plan::DocumentRefused(line) => say_line(out, line.as_slice(), Status::DocumentRefused),
        Plan::ScriptTooLong => say_line(out, b"script refused TooLong\n", Status::ScriptRefused),
        Plan::ScriptRefused(line) => say_line(out, line.as_bytes(), Status::ScriptRefused),
        Plan::Replies(mut session, script) => {
            reply_to_all(alloc, &mut session, script.lines(), out)
        }
    }
}
