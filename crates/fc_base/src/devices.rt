//! The outside: a store of named bytes, and a sink that bytes are written to.
ghost use Rattle.std.specs.Prelude.{◌≡◌, ℕ, ◌<◌, ◌≤◌, List, Option, length, IfOk, IfSome};
ghost use Rattle.std.specs.Io.KnownBytes.{WriteAppends};
ghost use Rattle.fc_base.specs.Devices.{Held, HasCause, Fetches, Puts, fetch_failed, device_failed};

use crate::faults::{DeviceFault, FetchFault};
use std::alloc::Global;

/// Holds bytes under names.
///
/// A call answers `Failed` only where its count of faults rose in that call or stands at its last
/// value, 2^64 - 1. Any other answer leaves the count.
pub trait Store {
    /// What the store holds, where it tells.
    ghost holds: { Self → Option Held };

    /// How often it failed.
    ghost faults: { Self → ℕ };

    /// The bytes under a name. `Missing` where it holds no such name, `TooLong` where they are more
    /// than `limit`.
    fn fetch(&mut self, alloc: Global, name: &str, limit: u64) -> Result<Vec<u8>, FetchFault>
        ensures fetched { IfSome (holds self.old) (λ held. Fetches held name.now limit result) }
        ensures holds { holds self.new ≡ holds self.old }
        ensures cause { HasCause (faults self.old) (faults self.new) (fetch_failed result) };

    /// Sets the bytes under a name. The other names stay in each case. After `Failed` nothing is
    /// known of this name, and `Memory` leaves it as it was.
    fn put(&mut self, name: &str, bytes: &[u8]) -> Result<(), DeviceFault>
        ensures stored { Puts (holds self.old) name.now bytes.now result (holds self.new) }
        ensures cause { HasCause (faults self.old) (faults self.new) (device_failed result) };
}

/// Takes bytes in order.
///
/// It answers `Failed` only where its count of faults rose in that call or stands at its last
/// value, 2^64 - 1. Any other answer leaves the count.
pub trait Sink {
    /// All that was written to it, where it tells.
    ghost written: { Self → Option (List ℕ) };

    /// How often it failed.
    ghost faults: { Self → ℕ };

    /// Offers bytes, and answers how many from the front were taken, at least one. After an error
    /// none were.
    fn write(&mut self, bytes: &[u8]) -> Result<usize, DeviceFault>
        requires { 0 < length bytes.now }
        ensures taken { IfOk result (λ n. (0 < n) × (n ≤ length bytes.now)) }
        ensures written { WriteAppends (written self.old) (written self.new) result bytes.now }
        ensures cause { HasCause (faults self.old) (faults self.new) (device_failed result) };
}
