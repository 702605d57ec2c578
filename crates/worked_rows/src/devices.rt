//! Devices that fail at a call, files, and writers that take their time.

use fc_base::{FetchFault, FileStore, MemorySink, MemoryStore, Sink, StdSink, Store};
use std::alloc::{AllocError, Global};
use std::io::{ErrorKind, Write};
use std::test::Fail;
use std::{fs, io};

/// A name, what is put under it or else the limit of a fetch, and what the call gives, which is a word
/// after a put and where it is a fault.
type Call = (&'static str, Option<&'static str>, u64, &'static str);

/// Whether a fetch gives this.
fn gives<S: Store>(alloc: Global, store: &mut S, name: &str, limit: u64, want: &str) -> bool {
    match store.fetch(alloc, name, limit) {
        Ok(bytes) => bytes.as_slice() == want.as_bytes(),
        Err(FetchFault::Missing) => want == "missing",
        Err(FetchFault::TooLong) => want == "too long",
        Err(FetchFault::Failed) => want == "failed",
        Err(FetchFault::Memory(_)) => want == "memory",
    }
}

/// Whether a call gives what is wanted.
fn answers<S: Store>(alloc: Global, store: &mut S, call: &Call) -> bool {
    let (name, put, limit, want) = call;
    match put {
        Some(bytes) => store.put(name, bytes.as_bytes()).is_ok() == (*want == "put"),
        None => gives(alloc, store, name, *limit, want),
    }
}

/// How many calls give what is wanted, up to the first that does not.
fn answered<S: Store>(alloc: Global, store: &mut S, calls: &[Call]) -> usize {
    for place in 0..calls.len() {
        if !answers(alloc, store, &calls[place]) {
            return place;
        }
    }
    calls.len()
}

/// Calls of a store that holds `abc` as `a`, and fails at its second, fifth and ninth call.
static MEMORY_CALLS: [Call; 10] = [
    ("a", None, 3, "abc"),
    ("a", None, 3, "failed"),
    ("a", None, 2, "too long"),
    ("b", None, 9, "missing"),
    ("b", None, 9, "failed"),
    ("", None, 0, "missing"),
    ("b", Some("new"), 0, "put"),
    ("b", None, 3, "new"),
    ("a", Some("lost"), 0, "failed"),
    ("a", None, 3, "abc"),
];

fn failing_store(alloc: Global) -> Result<MemoryStore, AllocError> {
    let mut store = MemoryStore::new(alloc, vec![in alloc; 2, 5, 9]?);
    store.place("a", b"abc")?;
    Ok(store)
}

fn answered_by_memory(alloc: Global) -> usize {
    match failing_store(alloc) {
        Ok(mut store) => answered(alloc, &mut store, &MEMORY_CALLS),
        Err(_) => 0,
    }
}

#[test]
fn memory_store_fails_at_its_calls(rt: HostRuntime) {
    assert!(rt; answered_by_memory(rt.alloc()) == 10);
}

/// Bytes, and how many of them a sink takes that takes two at once and fails at its third call.
static PIECES: [(&[u8], Option<usize>); 4] = [
    (b"abc", Some(2)),
    (b"c", Some(1)),
    (b"d", None),
    (b"def", Some(2)),
];

/// Whether of each piece so many bytes are taken.
fn takes_pieces(sink: &mut MemorySink) -> bool {
    for (piece, want) in &PIECES {
        if piece.is_empty() || sink.write(piece).ok() != *want {
            return false;
        }
    }
    true
}

#[test]
fn memory_sink_fails_at_its_calls(rt: HostRuntime) -> Result<(), Fail> {
    let mut sink = MemorySink::new(rt.alloc(), vec![in rt.alloc(); 3]?, 2);
    let taken = takes_pieces(&mut sink);
    assert!(rt; taken && sink.bytes() == b"abcde".as_slice());
    Ok(())
}

/// The file that is written.
const FILE: &str = "device_tests_put.txt";

/// Calls of files.
static FILE_CALLS: [Call; 8] = [
    (FILE, Some("four"), 0, "put"),
    (FILE, None, 4, "four"),
    (FILE, None, u64::MAX, "four"),
    (FILE, None, 3, "too long"),
    ("device_tests_missing.txt", None, 4, "missing"),
    (".", None, 4, "failed"),
    (FILE, Some(""), 0, "put"),
    (FILE, None, 0, ""),
];

#[test]
fn files_give_back_what_was_put(rt: HostRuntime) -> Result<(), Fail> {
    let mut store = FileStore::new(&rt);
    assert!(rt; answered(rt.alloc(), &mut store, &FILE_CALLS) == 8);
    fs::remove_file(&rt, FILE)?;
    Ok(())
}

/// Takes two bytes at a time, is interrupted at each second call, and takes nothing behind `room`.
#[derive(Drop)]
struct SlowWriter {
    taken: Vec<u8>,
    calls: u8,
    room: usize,
}

impl Write for SlowWriter {
    fn write(&mut self, buf: &[u8]) -> io::Result<usize> {
        self.calls = self.calls.wrapping_add(1);
        if self.calls % 2 == 0 {
            return Err(io::Error::from(ErrorKind::Interrupted));
        }
        let count = buf.len().min(2).min(self.room);
        self.taken.extend_from_slice(&buf[..count])?;
        self.room -= count;
        Ok(count)
    }

    fn flush(&mut self) -> io::Result<()> {
        Ok(())
    }
}

/// How much room a writer has, what it answers for `piece`, and what it takes.
static ROOMS: [(usize, Option<usize>, &str); 3] = [
    (9, Some(5), "piece"),
    (5, Some(5), "piece"),
    (3, None, "pie"),
];

/// Whether a writer with that room answers so, and takes this.
fn takes(alloc: Global, room: usize, want: Option<usize>, taken: &str) -> bool {
    let mut writer = SlowWriter {
        taken: Vec::new(alloc),
        calls: 0,
        room,
    };
    let answer = StdSink::new(&mut writer).write(b"piece").ok();
    answer == want && writer.taken.as_slice() == taken.as_bytes()
}

#[test]
fn a_slow_writer_gets_all_or_fails(rt: HostRuntime) {
    for (room, want, taken) in &ROOMS {
        assert!(rt; takes(rt.alloc(), *room, *want, taken));
    }
}
