ghost use Rattle.std.specs.Prelude.{◌≡◌, map, string_bytes, IsNone};
ghost use Rattle.fcdoc_core.specs.Causes.{EndsAsUsage, HasCauses, counts};
ghost use Rattle.fcdoc_core.specs.Headline.{Complete, ForFiles, Headline, run_of};
ghost use Rattle.fcdoc_core.specs.Plans.{Ends};
ghost use Rattle.fcdoc_core.specs.Words.{form_of};

use crate::status::Status;
use crate::stop::Stop;
use crate::{delivery, plan};
use fc_base::{Sink, Store};
use std::alloc::Global;

/// Runs the script that the words name on the document that they name, and writes the replies: the
/// words are `run DOC SCRIPT`, names of the store.
///
/// Where the store tells what it holds, the run leaves what `top` says by the way in which it ended
/// (`Leaves`): `top` is a machine that keeps whole documents and works everything out from them at each
/// recompute. Of every store there are two files for which it does. A device is blamed only where its
/// count of faults rose.
pub fn run<S: Store, K: Sink>(alloc: Global, words: &[String], store: &mut S, out: &mut K) -> Status
    ensures headline { Headline (map string_bytes words.now) (run_of result (S.holds store.old) (S.holds store.new) (K.written out.old) (K.written out.new) (S.faults store.old) (S.faults store.new) (K.faults out.old) (K.faults out.new)) }
    ensures for_files { ForFiles (map string_bytes words.now) (run_of result (S.holds store.old) (S.holds store.new) (K.written out.old) (K.written out.new) (S.faults store.old) (S.faults store.new) (K.faults out.old) (K.faults out.new)) }
    ensures store { S.holds store.new ≡ S.holds store.old }
    ensures usage { IsNone (form_of (map string_bytes words.now)) → EndsAsUsage result (counts (S.faults store.old) (S.faults store.new) (K.faults out.old) (K.faults out.new)) }
    ensures causes { HasCauses result (counts (S.faults store.old) (S.faults store.new) (K.faults out.old) (K.faults out.new)) }
    ensures complete { Complete (map string_bytes words.now) (run_of result (S.holds store.old) (S.holds store.new) (K.written out.old) (K.written out.new) (S.faults store.old) (S.faults store.new) (K.faults out.old) (K.faults out.new)) }
{
    plan_and_deliver(alloc, words, store, out)
}

/// Plans a run and writes what the plan says.
fn plan_and_deliver<S: Store, K: Sink>(
    alloc: Global,
    words: &[String],
    store: &mut S,
    out: &mut K,
) -> Status
    ensures ends { Ends (form_of (map string_bytes words.now)) (run_of result (S.holds store.old) (S.holds store.new) (K.written out.old) (K.written out.new) (S.faults store.old) (S.faults store.new) (K.faults out.old) (K.faults out.new)) }
    ensures store { S.holds store.new ≡ S.holds store.old }
    ensures usage { IsNone (form_of (map string_bytes words.now)) → EndsAsUsage result (counts (S.faults store.old) (S.faults store.new) (K.faults out.old) (K.faults out.new)) }
{
    let plan = match plan::plan_of_words(alloc, words, store) {
        Ok(plan) => plan,
        Err(Stop::Store) => return Status::StoreFault,
        Err(Stop::Sink) => return Status::SinkFault,
        Err(Stop::Memory) => return Status::Memory,
    };
    match delivery::deliver(alloc, plan, out) {
        Ok(status) => status,
        Err(Stop::Sink) => Status::SinkFault,
        Err(_) => Status::Memory,
    }
}
