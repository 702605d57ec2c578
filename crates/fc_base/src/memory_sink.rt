//! A sink in memory, for tests and for callers that write to no file.
ghost use Rattle.std.specs.Prelude.{◌≡◌, ◌<◌, ◌≤◌, [], Some, IfOk, length, min};
ghost use Rattle.std.specs.Io.KnownBytes.{WriteAppends};
ghost use Rattle.fc_base.specs.Devices.{HasCause, device_failed};
ghost use Rattle.fc_base.specs.Calls.{CountsCall};

use crate::call_counter::CallCounter;
use crate::devices::Sink;
use crate::faults::DeviceFault;
use std::alloc::Global;

/// A sink in memory. It tells what was written to it, takes at most a given count of bytes at a
/// time, and fails exactly at the calls that it was given.
///
/// The calls of `write` are counted from 1. The count stops at its last value, 2^64 - 1, and so
/// does the count of faults.
#[derive(Drop)]
pub struct MemorySink {
    bytes: Vec<u8>,
    most: usize,
    calls: CallCounter,
    ghost takes_some: { 1 ≤ most },
}

impl MemorySink {
    ghost use Rattle.fc_base.specs.MemorySinks.{written_to, most_of, calls_of};

    /// An empty sink that fails at the calls with these numbers. One write takes at most `most`
    /// bytes.
    pub fn new(alloc: Global, fails: Vec<u64>, most: usize) -> MemorySink
        requires { 1 ≤ most }
        ensures empty { written_to result ≡ [] }
        ensures most { most_of result ≡ most }
        ensures calls { calls_of result ≡ record { failing = fails.items; made = 0; failed = 0 } }
    {
        MemorySink {
            bytes: Vec::new(alloc),
            most,
            calls: CallCounter::new(fails),
        }
    }

    /// All that was written to it.
    pub fn bytes(&self) -> &[u8]
        ensures { result.now ≡ written_to self.now }
    {
        &self.bytes
    }
}

impl Sink for MemorySink {
    ghost use Rattle.fc_base.specs.MemorySinks.{written_to, most_of, calls_of};

    ghost written = { λ s. Some (written_to s) };

    ghost faults = { λ s. (calls_of s).failed };

    fn write(&mut self, bytes: &[u8]) -> Result<usize, DeviceFault>
        requires { 0 < length bytes.now }
        ensures taken { IfOk result (λ n. (0 < n) × (n ≤ length bytes.now)) }
        ensures count { IfOk result (λ n. n ≡ min (most_of self.old) (length bytes.now)) }
        ensures written { WriteAppends (Some (written_to self.old)) (Some (written_to self.new)) result bytes.now }
        ensures most { most_of self.new ≡ most_of self.old }
        ensures cause { HasCause (calls_of self.old).failed (calls_of self.new).failed (device_failed result) }
        ensures call { CountsCall (calls_of self.old) (calls_of self.new) (device_failed result) }
    {
        if self.calls.begin_call() {
            return Err(DeviceFault::Failed);
        }
        let count = self.most.min(bytes.len());
        self.bytes
            .extend_from_slice(&bytes[..count])
            .map_err(DeviceFault::Memory)?;
        Ok(count)
    }
}
