//! Finds out what a run is to write: the words, the document and the script.

ghost use Rattle.std.specs.Prelude.{◌≡◌, ◌++◌, [], map, codes, Option, None, Some, IfOk, IfSome, IsNone, IsSome, OnErr, string_bytes, Ok, Err};
ghost use Rattle.fc_base.specs.Devices.{Fetches};
ghost use Rattle.fcdoc_core.specs.Plans.{MeansForm, MeansScript, CountsStop, IsFound, IsWithin, top_of_plan};
ghost use Rattle.fcdoc_core.specs.ScriptFaults.{cause_told};
ghost use Rattle.fcdoc_core.specs.Scripts.{script_of};
ghost use Rattle.document_outcomes.specs.Typed.{no_features};
ghost use Rattle.fcdoc_core.specs.OpenFaults.{HasLine, open_fault_text};
ghost use Rattle.fcdoc_core.specs.declared.status.Status.TheVariants.{DocumentRefused};
ghost use Rattle.fcdoc_core.specs.Opening.{opened_of};
ghost use Rattle.fcdoc_core.specs.Top.{missing, one_piece, script_refused, top_of_lines};
ghost use Rattle.std.specs.Option.{option_map};
ghost use Rattle.fcdoc_core.specs.Words.{form_of, run};

use crate::open_fault::OpenFault;
use crate::script::Script;
use crate::script_fault::ScriptFault;
use crate::session::Session;
use crate::stop::Stop;
use fc_base::{FetchFault, Store};
use std::alloc::{AllocError, Global};

/// The most bytes that a document or a script of a run has: 16 MiB.
const MOST_BYTES: usize = 16_777_216;

/// What a run is to write.
#[derive(Drop)]
pub(crate) enum Plan {
    Usage,
    /// The store holds no such name.
    Missing(String),
    DocumentTooLong,
    /// The document is refused, with this line.
    DocumentRefused(Vec<u8>),
    ScriptTooLong,
    /// The script is refused, with this line.
    ScriptRefused(String),
    /// The replies of a session to the lines of a script.
    Replies(Session, Script),
}

/// What stands under a name of the store.
#[derive(Drop)]
pub(crate) enum Found {
    Bytes(Vec<u8>),
    TooLong,
    Nothing,
}

/// What stands under a name, up to 16 MiB.
fn find<S: Store>(alloc: Global, store: &mut S, name: &str) -> Result<Found, Stop>
    ensures told { IfOk result (λ found. IfSome (S.holds store.old) (λ held. IsFound held name.now found)) }
    ensures within { IfOk result (λ found. IsWithin found) }
    ensures holds { S.holds store.new ≡ S.holds store.old }
    ensures count { CountsStop result (S.faults store.old) (S.faults store.new) }
{
    match store.fetch(alloc, name, MOST_BYTES as u64) {
        Ok(bytes) if bytes.len() <= MOST_BYTES => Ok(Found::Bytes(bytes)),
        Ok(_) => Ok(Found::TooLong),
        Err(FetchFault::TooLong) => Ok(Found::TooLong),
        Err(FetchFault::Missing) => Ok(Found::Nothing),
        Err(FetchFault::Failed) => Err(Stop::Store),
        Err(FetchFault::Memory(_)) => Err(Stop::Memory),
    }
}

fn missing(alloc: Global, name: &str) -> Result<Plan, Stop>
    ensures plan { IfOk result (λ plan. top_of_plan plan ≡ missing name.now) }
    ensures stop { OnErr result (result ≡ Err Stop.Memory) }
{
    Ok(Plan::Missing(String::from_str(alloc, name)?))
}

/// The line of a document that is not opened.
fn document_refused(alloc: Global, fault: &OpenFault) -> Result<Plan, Stop>
    requires { HasLine fault.now }
    ensures line { HasLine fault.now }
    ensures plan { IfOk result (λ plan. top_of_plan plan ≡ one_piece DocumentRefused (open_fault_text fault.now)) }
    ensures stop { OnErr result (result ≡ Err Stop.Memory) }
{
    Ok(Plan::DocumentRefused(fault.write(alloc)?))
}

/// The line of a script that is not read.
fn script_refused(alloc: Global, fault: &ScriptFault) -> Result<Plan, Stop>
    requires { IsSome (cause_told fault.now) }
    ensures plan { IfOk result (λ plan. IfSome (cause_told fault.now) (λ cause. top_of_plan plan ≡ script_refused cause)) }
    ensures stop { OnErr result (result ≡ Err Stop.Memory) }
{
    Ok(Plan::ScriptRefused(fault.write(alloc)?))
}

/// What follows for a session and the bytes of a script, within the limit.
fn plan_of_script(alloc: Global, session: Session, bytes: &[u8]) -> Result<Plan, Stop>
    ensures plan { IfOk result (λ plan. top_of_plan plan ≡ top_of_lines session.plans no_features session.state (script_of bytes.now)) }
    ensures stop { OnErr result (result ≡ Err Stop.Memory) }
{
    match Script::read(alloc, bytes) {
        Ok(script) => Ok(Plan::Replies(session, script)),
        Err(ScriptFault::Memory(_)) => Err(Stop::Memory),
        Err(fault) => script_refused(alloc, &fault),
    }
}

/// What follows for a session and a script of that name.
fn plan_of_session<S: Store>(
    alloc: Global,
    store: &mut S,
    session: Session,
    script: &str,
) -> Result<Plan, Stop>
    ensures means { IfOk result (MeansScript session.plans (S.holds store.old) script.now (Ok session.state)) }
    ensures holds { S.holds store.new ≡ S.holds store.old }
    ensures count { CountsStop result (S.faults store.old) (S.faults store.new) }
{
    match find(alloc, store, script) {
        Ok(Found::Bytes(bytes)) => plan_of_script(alloc, session, &bytes),
        Ok(Found::TooLong) => Ok(Plan::ScriptTooLong),
        Ok(Found::Nothing) => missing(alloc, script),
        Err(stop) => Err(stop),
    }
}

/// What follows for the bytes of a document, within the limit, and a script of that name.
fn plan_of_document<S: Store>(
    alloc: Global,
    store: &mut S,
    document: &[u8],
    script: &str,
) -> Result<Plan, Stop>
    ensures means { IfOk result (MeansScript [] (S.holds store.old) script.now (opened_of document.now)) }
    ensures holds { S.holds store.new ≡ S.holds store.old }
    ensures count { CountsStop result (S.faults store.old) (S.faults store.new) }
{
    match Session::open(alloc, document) {
        Ok(session) => plan_of_session(alloc, store, session, script),
        Err(OpenFault::Memory(_)) => Err(Stop::Memory),
        Err(fault) => document_refused(alloc, &fault),
    }
}

/// What follows for a document and a script of these names.
fn plan_of_names<S: Store>(
    alloc: Global,
    store: &mut S,
    document: &str,
    script: &str,
) -> Result<Plan, Stop>
    ensures means { IfOk result (MeansForm (S.holds store.old) (Some (run (record { document = document.now; script = script.now })))) }
    ensures holds { S.holds store.new ≡ S.holds store.old }
    ensures count { CountsStop result (S.faults store.old) (S.faults store.new) }
{
    match find(alloc, store, document) {
        Ok(Found::Bytes(bytes)) => plan_of_document(alloc, store, &bytes, script),
        Ok(Found::TooLong) => Ok(Plan::DocumentTooLong),
        Ok(Found::Nothing) => missing(alloc, document),
        Err(stop) => Err(stop),
    }
}

/// The names of the document and of the script in the words `run DOC SCRIPT`.
fn names_in(words: &[String]) -> Option<(&str, &str)>
    ensures { form_of (map string_bytes words.now) ≡ option_map (λ names. run (record { document = names.0.now; script = names.1.now })) result }
{
    if words.len() == 3 && words[0].as_str() == "run" {
        Some((words[1].as_str(), words[2].as_str()))
    } else {
        None
    }
}

/// What a run of these words is to write.
pub(crate) fn plan_of_words<S: Store>(
    alloc: Global,
    words: &[String],
    store: &mut S,
) -> Result<Plan, Stop>
    ensures means { IfOk result (MeansForm (S.holds store.old) (form_of (map string_bytes words.now))) }
    ensures usage { IsNone (form_of (map string_bytes words.now)) → result ≡ Ok Plan.Usage }
    ensures holds { S.holds store.new ≡ S.holds store.old }
    ensures count { CountsStop result (S.faults store.old) (S.faults store.new) }
{
    match names_in(words) {
        Some((document, script)) => plan_of_names(alloc, store, document, script),
        None => Ok(Plan::Usage),
    }
}
