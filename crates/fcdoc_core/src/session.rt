ghost use Rattle.std.specs.Prelude.{◌≡◌, ◌+◌, ◌-◌, ◌^◌, ◌≤◌, [], Err, IsTrue, min};
ghost use Rattle.document_model.specs.Counts.{nodes_of_document};
ghost use Rattle.document_outcomes.specs.Typed.{no_features};
ghost use Rattle.doc_rules.specs.declared.fault.DocFault.{DocFault};
ghost use Rattle.doc_rules.specs.declared.refusal.Refusal.{Refusal};
ghost use Rattle.doc_rules.specs.Edits.{IsNamed, edited};
ghost use Rattle.doc_rules.specs.Refusals.{is_refusal_number};
ghost use Rattle.fcdoc_core.specs.declared.open_fault.OpenFault.TheVariants.{Doc};
ghost use Rattle.fcdoc_core.specs.declared.step_fault.StepFault.TheVariants.{Refused};
ghost use Rattle.fcdoc_core.specs.Machine.{edited_to, most_steps, recomputed, reply_of_edit, step};
ghost use Rattle.fcdoc_core.specs.Opening.{Opens, opened_of};
ghost use Rattle.fcdoc_core.specs.Stepping.{MeetsStep};

use crate::asking::{expression_reply, value_reply};
use crate::command::Command;
use crate::open_fault::OpenFault;
use crate::reply::Reply;
use crate::step_fault::StepFault;
use doc_rules::laws::faults_are_named;
use doc_rules::{CheckFault, Edit, apply_edit, check};
use doc_tables::Tables;
use fc_base::Steps;
use fcdoc_file::{LoadError, load};
use recompute::Values;
use std::alloc::Global;
use std::marker::Model;

/// A document that is edited, asked and recomputed, command by command. It is seen as the plans of the
/// features at hand, none yet, and the state of a machine that keeps the whole document and works
/// everything out from it alone.
#[derive(Drop)]
pub struct Session {
    alloc: Global,
    tables: Tables,
    /// The outcomes of the last recompute.
    values: Values,
    /// Whether there was no edit since the last recompute.
    clean: bool,
}

impl Model for Session {
    ghost use Rattle.std.specs.Coded.{codes};
    ghost use Rattle.expr_tree.specs.contracts.expr.Expr as e;
    ghost use Rattle.fcdoc_core.specs.Machine.{SessionView};

    ghost Value = { SessionView };

    ghost coded = { Prim.hlevel (codes, e.the_row.coded) };

    ghost use Rattle.fcdoc_core.specs.Sessions.{IsSession, view_held};

    ghost view = { view_held };

    ghost invariant = { IsSession };
}

/// The reply to an edit that was made, by how many references were written anew.
fn reply_of_edit(_edit: &Edit, _references: u64) -> Reply
    ensures { result ≡ reply_of_edit _edit.now _references }
{
    Reply::Ok
}

impl Session {
    /// Opens the document that the bytes are the text of. Of bytes that are not well-formed Load tells
    /// what is wrong first; NotBuilt comes exactly for others that are the text of none, and Doc exactly
    /// where the document has a fault, which is its first.
    ///
    /// The whole document is checked, so the time grows with it.
    pub fn open(alloc: Global, bytes: &[u8]) -> Result<Session, OpenFault>
        ensures exact { Opens (opened_of bytes.now) result }
        ensures named { (fault : DocFault) → result ≡ Err (Doc fault) → IsTrue (is_refusal_number fault.number) }
    {
        faults_are_named(); // for the proof
        let tables = match load(alloc, bytes) {
            Ok(tables) => tables,
            Err(LoadError::Load(fault)) => return Err(OpenFault::Load(fault)),
            Err(LoadError::NotBuilt) => return Err(OpenFault::NotBuilt),
            Err(LoadError::Memory(error)) => return Err(OpenFault::Memory(error)),
        };
        match check(alloc, &tables) {
            Ok(()) => Ok(Session {
                alloc,
                tables,
                values: Values::new(alloc),
                clean: false,
            }),
            Err(CheckFault::Doc(fault)) => Err(OpenFault::Doc(fault)),
            Err(CheckFault::Memory(error)) => Err(OpenFault::Memory(error)),
        }
    }

    /// Does a command, and answers its reply. A command that is refused, or that finds no memory,
    /// changes nothing. A recompute counts a step for each node that it evaluates.
    ///
    /// An edit copies and checks the whole document, and a recompute evaluates all its expressions, so
    /// both take time that grows with it.
    pub fn step<L>(&mut self, command: &Command, steps: &mut Steps<L>) -> Result<Reply, StepFault>
        ensures exact { MeetsStep self.old self.new (step self.old.plans no_features self.old.state command.now) result }
        ensures featureless { self.old.plans ≡ [] }
        ensures named { (r : Refusal) → result ≡ Err (Refused r) → IsNamed r }
        ensures never_less { steps.old ≤ steps.new }
        ensures at_most { steps.new ≤ min (steps.old + most_steps self.old.state command.now) (2 ^ 64 - 1) }
    {
        steps.is_bounded(); // for the proof
        match command {
            Command::Edit(edit) => self.edit(edit),
            Command::Get(path) => value_reply(
                self.alloc,
                &self.tables,
                &self.values,
                self.clean,
                path,
            ),
            Command::Expression(path) => expression_reply(self.alloc, &self.tables, path),
            Command::Recompute => self.recompute(steps),
        }
    }

    /// Makes an edit.
    fn edit(&mut self, edit: &Edit) -> Result<Reply, StepFault>
        ensures exact { MeetsStep self.old self.new (edited_to self.old.state edit.now (edited self.old.plans no_features self.old.state.clean self.old.state.now edit.now)) result }
        ensures featureless { self.old.plans ≡ [] }
        ensures named { (r : Refusal) → result ≡ Err (Refused r) → IsNamed r }
    {
        let clean = self.clean.then_some(&self.values);
        let references = apply_edit(self.alloc, &mut self.tables, edit, clean)?;
        self.clean = false;
        Ok(reply_of_edit(edit, references))
    }

    /// Works the outcomes of all slots out.
    fn recompute<L>(&mut self, steps: &mut Steps<L>) -> Result<Reply, StepFault>
        ensures exact { MeetsStep self.old self.new (recomputed no_features self.old.state) result }
        ensures featureless { self.old.plans ≡ [] }
        ensures named { (r : Refusal) → result ≡ Err (Refused r) → IsNamed r }
        ensures never_less { steps.old ≤ steps.new }
        ensures at_most { steps.new ≤ min (steps.old + nodes_of_document self.old.state.now) (2 ^ 64 - 1) }
    {
        self.tables.holds_var_sets(); // for the proof
        let report = self.values.recompute(&self.tables, steps)?;
        self.clean = true;
        Ok(Reply::Recomputed(report))
    }
}
