//! Runs over the devices in memory.

ghost use Rattle.std.specs.Prelude.{◌≤◌};

use doc_rules::DocFault;
use fc_base::{MemorySink, MemoryStore, TextValue};
use fcdoc_core::{OpenFault, Reply, Script, Status, run};
use property_types::Value;
use quantities::{Amount, Quantity};
use std::alloc::{AllocError, Global};
use std::test::Fail;
use unit_signatures::unit_named;

/// The VarSet V with the Float a, which is 2.
const ONE_VARSET: &str =
    "<?xml version='1.0' encoding='utf-8'?>\n<Document SchemaVersion=\"4\">\n<Objects Count=\"1\">\n<Object type=\"App::VarSet\" name=\"V\" id=\"1\"/>\n</Objects>\n<ObjectData Count=\"1\">\n<Object name=\"V\">\n<Properties Count=\"3\">\n<Property name=\"Label\" type=\"App::PropertyString\">\n<String value=\"V\"/>\n</Property>\n<Property name=\"ExpressionEngine\" type=\"App::PropertyExpressionEngine\">\n<ExpressionEngine count=\"0\"/>\n</Property>\n<Property name=\"a\" type=\"App::PropertyFloat\" group=\"Base\" doc=\"\" ro=\"0\" hide=\"0\">\n<Float value=\"2.000000000\"/>\n</Property>\n</Properties>\n</Object>\n</ObjectData>\n</Document>\n";

const FOUR_GETS: &str = "get V.a\nget V.a\nget V.a\nget V.a\n";

const USAGE: &str = "usage: fcdoc run DOC SCRIPT [--save NAME] | check DOC | make N\n";

/// The words `run D`, which have no form.
fn two_words(alloc: Global, document: &str) -> Result<Vec<String>, AllocError> {
    let mut words = Vec::new(alloc);
    words.push(String::from_str(alloc, "run")?)?;
    words.push(String::from_str(alloc, document)?)?;
    Ok(words)
}

/// The words `run D S`.
fn words(alloc: Global, document: &str) -> Result<Vec<String>, AllocError> {
    let mut words = two_words(alloc, document)?;
    words.push(String::from_str(alloc, "S")?)?;
    Ok(words)
}

/// No failing call for 0, and else the call of that number.
fn failing(alloc: Global, call: u64) -> Result<Vec<u64>, AllocError> {
    let mut calls = Vec::new(alloc);
    if call > 0 {
        calls.push(call)?;
    }
    Ok(calls)
}

/// A store that holds the document D, the text X that is none, and the script S.
fn store(alloc: Global, script: &str, fails: u64) -> Result<MemoryStore, AllocError> {
    let mut store = MemoryStore::new(alloc, failing(alloc, fails)?);
    store.place("D", ONE_VARSET.as_bytes())?;
    store.place("X", b"<Document/>")?;
    store.place("S", script.as_bytes())?;
    Ok(store)
}

/// Whether a run ends with this status and writes this.
fn ends(
    alloc: Global,
    store: &mut MemoryStore,
    words: &[String],
    sink: &mut MemorySink,
    wanted: (Status, &str),
) -> bool {
    let status = run(alloc, words, store, sink);
    status == wanted.0 && sink.bytes() == wanted.1.as_bytes()
}

fn sink_gives(
    alloc: Global,
    fails: u64,
    most: usize,
    status: Status,
    text: &str,
) -> Result<bool, AllocError>
    requires { 1 ≤ most }
{
    let mut store = store(alloc, FOUR_GETS, 0)?;
    let mut sink = MemorySink::new(alloc, failing(alloc, fails)?, most);
    let words = words(alloc, "D")?;
    Ok(ends(alloc, &mut store, &words, &mut sink, (status, text)))
}

#[test]
fn sink_takes_one_byte(rt: HostRuntime) -> Result<(), Fail> {
    assert!(rt; sink_gives(rt.alloc(), 3, 1, Status::SinkFault, "= ")?);
    assert!(rt; sink_gives(rt.alloc(), 17, 1, Status::Done, "= 2\n= 2\n= 2\n= 2\n")?);
    assert!(rt; sink_gives(rt.alloc(), 16, 1, Status::SinkFault, "= 2\n= 2\n= 2\n= 2")?);
    assert!(rt; sink_gives(rt.alloc(), 3, 2, Status::SinkFault, "= 2\n")?);
    assert!(rt; sink_gives(rt.alloc(), 4, 3, Status::SinkFault, "= 2\n= 2")?);
    assert!(rt; sink_gives(rt.alloc(), 1, 9, Status::SinkFault, "")?);
    assert!(rt; sink_gives(rt.alloc(), 3, 9, Status::SinkFault, "= 2\n= 2\n")?);
    assert!(rt; sink_gives(rt.alloc(), 5, 9, Status::Done, "= 2\n= 2\n= 2\n= 2\n")?);
    Ok(())
}

fn store_gives(
    alloc: Global,
    fails: u64,
    document: &str,
    status: Status,
    text: &str,
) -> Result<bool, AllocError> {
    let mut store = store(alloc, "get V.a\n", fails)?;
    let mut sink = MemorySink::new(alloc, Vec::new(alloc), 1000);
    let words = words(alloc, document)?;
    Ok(ends(alloc, &mut store, &words, &mut sink, (status, text)))
}

/// Whether a run of two words ends with the usage line.
fn ends_as_usage(
    alloc: Global,
    store: &mut MemoryStore,
    sink: &mut MemorySink,
) -> Result<bool, AllocError> {
    let words = two_words(alloc, "D")?;
    Ok(ends(alloc, store, &words, sink, (Status::Usage, USAGE)))
}

/// Whether a run of `run D S` ends with a fault of the store, after what was written so far.
fn ends_as_store_fault(
    alloc: Global,
    store: &mut MemoryStore,
    sink: &mut MemorySink,
) -> Result<bool, AllocError> {
    let words = words(alloc, "D")?;
    Ok(ends(alloc, store, &words, sink, (Status::StoreFault, USAGE)))
}

/// Whether words without a form end with the usage line and fetch nothing: the first fetch of the
/// store, which fails, is that of the run after.
fn usage_fetches_nothing(alloc: Global) -> Result<bool, AllocError> {
    let mut store = store(alloc, "get V.a\n", 1)?;
    let mut sink = MemorySink::new(alloc, Vec::new(alloc), 1000);
    if ends_as_usage(alloc, &mut store, &mut sink)? {
        ends_as_store_fault(alloc, &mut store, &mut sink)
    } else {
        Ok(false)
    }
}

#[test]
fn store_fails(rt: HostRuntime) -> Result<(), Fail> {
    assert!(rt; usage_fetches_nothing(rt.alloc())?);
    assert!(rt; store_gives(rt.alloc(), 1, "D", Status::StoreFault, "")?);
    assert!(rt; store_gives(rt.alloc(), 2, "D", Status::StoreFault, "")?);
    assert!(rt; store_gives(rt.alloc(), 3, "D", Status::Done, "= 2\n")?);
    assert!(rt; store_gives(rt.alloc(), 1, "N", Status::StoreFault, "")?);
    assert!(rt; store_gives(rt.alloc(), 2, "N", Status::Missing, "missing N\n")?);
    assert!(rt;
        store_gives(
            rt.alloc(),
            2,
            "X",
            Status::DocumentRefused,
            "document refused NotBuilt\n"
        )?
    );
    Ok(())
}

/// The first two lines of a script, and whether there is a third.
fn is_read(alloc: Global, bytes: &[u8], lines: [Option<&str>; 3]) -> Result<bool, Fail> {
    let script = Script::read(alloc, bytes)?;
    Ok([script.line_at(0), script.line_at(1), script.line_at(2)] == lines)
}

#[test]
fn reads_script(rt: HostRuntime) -> Result<(), Fail> {
    assert!(rt;
        is_read(
            rt.alloc(),
            b"# a\r\nget V.a\r",
            [Some("# a"), Some("get V.a\r"), None]
        )?
    );
    Ok(())
}

fn is_line_of(alloc: Global, value: Value, want: &[u8]) -> Result<bool, AllocError> {
    let line = Reply::Value(Ok(value)).write(alloc)?;
    Ok(line.as_slice() == want)
}

#[test]
fn writes_values(rt: HostRuntime) -> Result<(), Fail> {
    let (_, unit) = unit_named("N").ok_or("no unit")?;
    let amount = Amount::of_raw(-1_500_000_000)?;
    let force = Value::Number(Quantity { amount, unit });
    assert!(rt; is_line_of(rt.alloc(), force, b"= -1.5 mm*kg*s^-2\n")?);
    assert!(rt; is_line_of(rt.alloc(), Value::Flag(true), b"= true\n")?);
    let text = TextValue::read(rt.alloc(), "a \"b\" \\ c\n\r\t")?;
    let line = b"= \"a \\\"b\\\" \\\\ c\\n\\r\\t\"\n";
    assert!(rt; is_line_of(rt.alloc(), Value::Text(text), line)?);
    Ok(())
}

/// Whether a label that another object has is told so.
fn is_line_of_label(alloc: Global, label: &str, want: &[u8]) -> Result<bool, Fail> {
    let subject = TextValue::read(alloc, label)?;
    let fault = OpenFault::Doc(DocFault { number: 6, subject });
    Ok(fault.write(alloc)?.as_slice() == want)
}

#[test]
fn writes_faults_of_documents(rt: HostRuntime) -> Result<(), Fail> {
    assert!(rt; is_line_of_label(rt.alloc(), "V", b"document refused 6 LabelTaken V\n")?);
    assert!(rt; is_line_of_label(rt.alloc(), "", b"document refused 6 LabelTaken\n")?);
    Ok(())
}
