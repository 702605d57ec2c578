//! A store over the files of the system.
ghost use Rattle.std.specs.Prelude.{◌≡◌, ◌≤◌, None, IfOk, if◌then◌else◌, vec_len};
ghost use Rattle.fc_base.specs.Devices.{HasCause, fetch_failed, device_failed};
ghost use Rattle.fc_base.specs.Calls.{next_count};

use crate::devices::Store;
use crate::faults::{DeviceFault, FetchFault};
use crate::readings::{device_fault_of, open_fault_of, read_up_to, write_whole};
use std::alloc::Global;
use std::fs::File;
use std::rt::Files;

/// The files of the system as a store: a name is a path. It tells nothing of what it holds.
///
/// A name that is no readable file for another cause than that it is not there counts as failed.
/// The count of faults goes on by one where it answers `Failed`, and stops at its last value.
#[derive(Drop)]
pub struct FileStore<R: Files> {
    rt: R,
    faults: u64,
}

impl<R: Files> FileStore<R> {
    ghost use Rattle.fc_base.specs.Adapters.{store_faults};

    /// A store over these files, which has not failed yet.
    pub fn new(rt: R) -> FileStore<R>
        ensures { store_faults result ≡ 0 }
    {
        FileStore { rt, faults: 0 }
    }
}

impl<R: Files> Store for FileStore<R> {
    ghost use Rattle.fc_base.specs.Adapters.{store_faults};

    ghost holds = { λ _. None };

    ghost faults = { store_faults };

    fn fetch(&mut self, alloc: Global, name: &str, limit: u64) -> Result<Vec<u8>, FetchFault>
        ensures within { IfOk result (λ bytes. vec_len bytes ≤ limit) }
        ensures cause { HasCause (store_faults self.old) (store_faults self.new) (fetch_failed result) }
        ensures count { store_faults self.new ≡ (if fetch_failed result then next_count (store_faults self.old) else store_faults self.old) }
    {
        let fetched = read_file(&self.rt, alloc, name, limit);
        if matches!(&fetched, Err(FetchFault::Failed)) {
            self.faults = self.faults.saturating_add(1);
        }
        fetched
    }

    fn put(&mut self, name: &str, bytes: &[u8]) -> Result<(), DeviceFault>
        ensures cause { HasCause (store_faults self.old) (store_faults self.new) (device_failed result) }
        ensures count { store_faults self.new ≡ (if device_failed result then next_count (store_faults self.old) else store_faults self.old) }
    {
        let stored = write_file(&self.rt, name, bytes);
        if matches!(&stored, Err(DeviceFault::Failed)) {
            self.faults = self.faults.saturating_add(1);
        }
        stored
    }
}

/// The bytes of a file, if they are at most `limit`.
fn read_file<R: Files>(rt: &R, alloc: Global, name: &str, limit: u64) -> Result<Vec<u8>, FetchFault>
    ensures { IfOk result (λ bytes. vec_len bytes ≤ limit) }
{
    match File::open(rt, name) {
        Ok(mut file) => read_up_to(alloc, &mut file, limit),
        Err(error) => Err(open_fault_of(&error)),
    }
}

/// Makes a file, or empties it, and writes the bytes to it.
fn write_file<R: Files>(rt: &R, name: &str, bytes: &[u8]) -> Result<(), DeviceFault> {
    match File::create(rt, name) {
        Ok(mut file) => write_whole(&mut file, bytes),
        Err(error) => Err(device_fault_of(&error)),
    }
}
