//! fcdoc: runs a script on a document.
//!
//! It knows the words, the files and the standard output that a run has, and the exit code in which
//! it ends. All rules are those of `fcdoc_core`, whose `run` does the rest over a `FileStore` and a
//! `StdSink`. Words that are no text end as no words do; where memory runs out before the words are
//! read, the exit code is that of Memory. `main` has no contract.
//!
//! The forms, statuses and replies are on the page `docs/commands.md`, and what is not promised of
//! `main` on `docs/promises.md`. Whole runs are the cases of `tests/conformance`; the rows of `run`
//! are in `worked_calls/src/runs.rt`.
#![tactic(auto)]

use fc_base::{FileStore, StdSink};
use fcdoc_core::{Status, run};
use std::process::ExitCode;
use std::rt::Env;
use std::{env, io};

/// The words after the program's name.
fn words_of(rt: &(impl Env + AllocGlobal)) -> io::Result<Vec<String>> {
    let mut words = Vec::new(rt.alloc());
    for word in env::args(rt)?.skip(1) {
        words.push(word)?;
    }
    Ok(words)
}

fn main(rt: HostRuntime) -> ExitCode {
    let alloc = rt.alloc();
    let words = match words_of(&rt) {
        Ok(words) => words,
        Err(error) => {
            if error.kind() == io::ErrorKind::OutOfMemory {
                return ExitCode::from(Status::Memory.exit_code());
            }
            // A word that is no text makes none of the forms of a run, as no words do.
            Vec::new(alloc)
        }
    };
    let mut out = StdSink::new(io::writer(&rt));
    let mut store = FileStore::new(&rt);
    let status = run(alloc, &words, &mut store, &mut out);
    ExitCode::from(status.exit_code())
}
