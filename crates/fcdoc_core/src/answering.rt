//! Answers the lines of a script.

ghost use Rattle.std.specs.Prelude.{◌≡◌, [], IfOk, Ok, Err, true, false};
ghost use Rattle.document_outcomes.specs.Typed.{no_features};
ghost use Rattle.doc_rules.specs.Edits.{IsNamed};
ghost use Rattle.fcdoc_core.specs.Machine.{is_refused, moved_to, step, step_line};
ghost use Rattle.fcdoc_core.specs.Replies.{answer_text};

use crate::command::{Command, CommandFault};
use crate::reply::Reply;
use crate::session::Session;
use crate::step_fault::StepFault;
use doc_rules::Refusal;
use doc_rules::numbers::NOT_BUILT;
use fc_base::Steps;
use std::alloc::{AllocError, Global};

/// The line of an answer, with the LF, and whether it is a refusal.
#[derive(Drop)]
pub(crate) struct Answer {
    pub(crate) text: Vec<u8>,
    pub(crate) is_refusal: bool,
}

fn refused(alloc: Global, refusal: &Refusal) -> Result<Answer, AllocError>
    requires { IsNamed refusal.now }
    ensures text { IfOk result (λ a. a.text.items ≡ answer_text (Err refusal.now)) }
    ensures refused { IfOk result (λ a. a.is_refusal ≡ true) }
{
    let mut text = refusal.write(alloc)?;
    text.push(b'\n')?;
    Ok(Answer {
        text,
        is_refusal: true,
    })
}

fn told(alloc: Global, reply: &Reply) -> Result<Answer, AllocError>
    ensures text { IfOk result (λ a. a.text.items ≡ answer_text (Ok reply.now)) }
    ensures refused { IfOk result (λ a. a.is_refusal ≡ false) }
{
    Ok(Answer {
        text: reply.write(alloc)?,
        is_refusal: false,
    })
}

/// The answer to a command.
fn answer_to_command<L>(
    alloc: Global,
    session: &mut Session,
    command: &Command,
    steps: &mut Steps<L>,
) -> Result<Answer, AllocError>
    ensures text { IfOk result (λ a. a.text.items ≡ answer_text (step session.old.plans no_features session.old.state command.now).answer) }
    ensures refused { IfOk result (λ a. a.is_refusal ≡ is_refused (step session.old.plans no_features session.old.state command.now)) }
    ensures state { IfOk result (λ _. session.new ≡ moved_to session.old (step session.old.plans no_features session.old.state command.now).state) }
{
    match session.step(command, steps) {
        Ok(reply) => told(alloc, &reply),
        Err(StepFault::Refused(refusal)) => refused(alloc, &refusal),
        Err(StepFault::Memory(error)) => Err(error),
    }
}

/// The answer to a line of a script.
pub(crate) fn answer_to<L>(
    alloc: Global,
    session: &mut Session,
    line: &str,
    steps: &mut Steps<L>,
) -> Result<Answer, AllocError>
    ensures text { IfOk result (λ a. a.text.items ≡ answer_text (step_line session.old.plans no_features session.old.state line.now).answer) }
    ensures refused { IfOk result (λ a. a.is_refusal ≡ is_refused (step_line session.old.plans no_features session.old.state line.now)) }
    ensures state { IfOk result (λ _. session.new ≡ moved_to session.old (step_line session.old.plans no_features session.old.state line.now).state) }
{
    match Command::read(alloc, line) {
        Ok(command) => answer_to_command(alloc, session, &command, steps),
        Err(CommandFault::NotBuilt) => refused(alloc, &Refusal::of(NOT_BUILT)),
        Err(CommandFault::Memory(error)) => Err(error),
    }
}
