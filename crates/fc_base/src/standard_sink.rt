//! A sink over a writer, such as standard output.
ghost use Rattle.std.specs.Prelude.{◌≡◌, ◌<◌, ◌≤◌, None, OnOk, OnErr, IfOk, if◌then◌else◌, length};
ghost use Rattle.std.specs.Io.KnownBytes.{Appends, WriteAppends};
ghost use Rattle.fc_base.specs.Devices.{HasCause, device_failed};
ghost use Rattle.fc_base.specs.Calls.{next_count};
ghost use Rattle.fc_base.specs.Readings.{AppendsFront};

use crate::devices::Sink;
use crate::faults::DeviceFault;
use crate::readings::{device_fault_of, write_whole};
use std::io::Write;

/// A writer as a sink, such as standard output. It takes each piece whole, and tells nothing of
/// what was written.
///
/// A writer that takes nothing counts as failed. The count of faults goes on by one where it
/// answers `Failed`, and stops at its last value.
#[derive(Drop)]
pub struct StdSink<W: Write> {
    writer: W,
    faults: u64,
}

impl<W: Write> StdSink<W> {
    ghost use Rattle.fc_base.specs.Adapters.{sink_faults};

    /// A sink over this writer, which has not failed yet.
    pub fn new(writer: W) -> StdSink<W>
        ensures { sink_faults result ≡ 0 }
    {
        StdSink { writer, faults: 0 }
    }
}

impl<W: Write> Sink for StdSink<W> {
    ghost use Rattle.fc_base.specs.Adapters.{sink_faults};

    ghost written = { λ _. None };

    ghost faults = { sink_faults };

    fn write(&mut self, bytes: &[u8]) -> Result<usize, DeviceFault>
        requires { 0 < length bytes.now }
        ensures taken { IfOk result (λ n. (0 < n) × (n ≤ length bytes.now)) }
        ensures whole { IfOk result (λ n. n ≡ length bytes.now) }
        ensures written { WriteAppends None None result bytes.now }
        ensures cause { HasCause (sink_faults self.old) (sink_faults self.new) (device_failed result) }
        ensures count { sink_faults self.new ≡ (if device_failed result then next_count (sink_faults self.old) else sink_faults self.old) }
    {
        match write_through(&mut self.writer, bytes) {
            Ok(()) => Ok(bytes.len()),
            Err(fault) => {
                if matches!(&fault, DeviceFault::Failed) {
                    self.faults = self.faults.saturating_add(1);
                }
                Err(fault)
            }
        }
    }
}

/// Writes all bytes, and flushes the writer.
fn write_through<W: Write>(writer: &mut W, bytes: &[u8]) -> Result<(), DeviceFault>
    ensures ok { OnOk result (Appends (W.contents writer.old) (W.contents writer.new) bytes.now) }
    ensures err { OnErr result (AppendsFront (W.contents writer.old) (W.contents writer.new) bytes.now) }
{
    write_whole(writer, bytes)?;
    writer.flush().map_err(|error| device_fault_of(&error))
}
