//! A document that is edited, asked and recomputed, and scripts that are run on documents.
//!
//! A library's caller opens the bytes of a document, reads commands from lines, steps, and writes the
//! replies:
//!
//! ```
//! let mut session = Session::open(alloc, bytes)?;
//! let mut steps = Steps::new(());
//! let command = Command::read(alloc, "set V.a 2 mm")?;
//! match session.step(&command, &mut steps) {
//!     Ok(reply) => out.extend_from_slice(&reply.write(alloc)?)?,
//!     Err(StepFault::Refused(refusal)) => out.extend_from_slice(&refusal.write(alloc)?)?,
//!     Err(StepFault::Memory(error)) => return Err(error.into()),
//! }
//! ```
//!
//! What `Session::step` answers is that of a machine which keeps the whole document and works
//! everything out from it: `specs/Machine.antt`. `run` is all that the program does, over a store
//! and a sink, and `specs/Top.antt` has its meaning.
//!
//! The commands, replies and statuses are on the page `docs/commands.md`, what is promised of `run`
//! on `docs/promises.md`. The rows are in `worked_calls/src/runs.rt` and, as whole runs, in
//! `tests/conformance`.
#![tactic(auto)]

mod answering;
mod asking;
mod command;
mod cutting;
mod delivery;
pub mod laws;
mod open_fault;
mod plan;
mod reading;
mod reply;
mod script;
mod script_fault;
mod session;
mod status;
mod step_fault;
mod stop;
mod top;
mod writing;

pub use command::{Command, CommandFault};
pub use open_fault::OpenFault;
pub use reply::{ExprText, Reply};
pub use script::Script;
pub use script_fault::ScriptFault;
pub use session::Session;
pub use status::Status;
pub use step_fault::StepFault;
pub use top::run;
