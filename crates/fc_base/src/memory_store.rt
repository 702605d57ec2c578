//! A store in memory, for tests and for callers that keep no files.
ghost use Rattle.std.specs.Prelude.{◌≡◌, Some, OnOk, OnErr};
ghost use Rattle.std.specs.FinMap as map;
ghost use Rattle.fc_base.specs.Devices.{HasCause, Fetches, PutLeaves, fetch_failed, device_failed};
ghost use Rattle.fc_base.specs.Calls.{CountsCall};

use crate::call_counter::CallCounter;
use crate::devices::Store;
use crate::faults::{DeviceFault, FetchFault};
use std::alloc::{AllocError, Global};
use std::collections::BTreeMap;

/// A store in memory. It tells what it holds, and fails exactly at the calls that it was given.
///
/// The calls of `fetch` and `put` are counted together, from 1. The count stops at its last value,
/// 2^64 - 1, and so does the count of faults.
#[derive(Drop)]
pub struct MemoryStore {
    alloc: Global,
    held: BTreeMap<String, Vec<u8>>,
    calls: CallCounter,
}

impl MemoryStore {
    ghost use Rattle.fc_base.specs.MemoryStores.{held_of, calls_of};

    /// An empty store that fails at the calls with these numbers.
    pub fn new(alloc: Global, fails: Vec<u64>) -> MemoryStore
        ensures empty { held_of result ≡ map.empty }
        ensures calls { calls_of result ≡ record { failing = fails.items; made = 0; failed = 0 } }
    {
        MemoryStore {
            alloc,
            held: BTreeMap::new(alloc),
            calls: CallCounter::new(fails),
        }
    }

    /// Sets the bytes under a name. This counts as no call.
    pub fn place(&mut self, name: &str, bytes: &[u8]) -> Result<(), AllocError>
        ensures ok { OnOk result (held_of self.new ≡ map.insert (held_of self.old) name.now bytes.now) }
        ensures err { OnErr result (held_of self.new ≡ held_of self.old) }
        ensures calls { calls_of self.new ≡ calls_of self.old }
    {
        let key = String::from_str(self.alloc, name)?;
        let value = bytes.to_vec(self.alloc)?;
        self.held.insert(key, value)?;
        Ok(())
    }
}

impl Store for MemoryStore {
    ghost use Rattle.fc_base.specs.MemoryStores.{held_of, calls_of};

    ghost holds = { λ s. Some (held_of s) };

    ghost faults = { λ s. (calls_of s).failed };

    /// `Failed` comes first, then `Missing` and `TooLong`.
    fn fetch(&mut self, alloc: Global, name: &str, limit: u64) -> Result<Vec<u8>, FetchFault>
        ensures fetched { Fetches (held_of self.old) name.now limit result }
        ensures holds { held_of self.new ≡ held_of self.old }
        ensures cause { HasCause (calls_of self.old).failed (calls_of self.new).failed (fetch_failed result) }
        ensures call { CountsCall (calls_of self.old) (calls_of self.new) (fetch_failed result) }
    {
        if self.calls.begin_call() {
            return Err(FetchFault::Failed);
        }
        match self.held.get(name) {
            None => Err(FetchFault::Missing),
            Some(bytes) => {
                if bytes.len() as u64 > limit {
                    return Err(FetchFault::TooLong);
                }
                let copy = bytes.to_vec(alloc).map_err(FetchFault::Memory)?;
                Ok(copy)
            }
        }
    }

    /// `Failed` leaves the name as it was, too.
    fn put(&mut self, name: &str, bytes: &[u8]) -> Result<(), DeviceFault>
        ensures stored { PutLeaves (held_of self.old) name.now bytes.now result (held_of self.new) }
        ensures err { OnErr result (held_of self.new ≡ held_of self.old) }
        ensures cause { HasCause (calls_of self.old).failed (calls_of self.new).failed (device_failed result) }
        ensures call { CountsCall (calls_of self.old) (calls_of self.new) (device_failed result) }
    {
        if self.calls.begin_call() {
            return Err(DeviceFault::Failed);
        }
        self.place(name, bytes).map_err(DeviceFault::Memory)
    }
}
