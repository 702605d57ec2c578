use std::alloc::AllocError;
use thiserror::Error;

/// Why a store gives no bytes.
#[derive(Debug, Drop, Error)]
pub enum FetchFault {
    /// The store has nothing under the name.
    #[error("no such name")]
    Missing,
    /// It has more bytes than the limit.
    #[error("too long")]
    TooLong,
    /// The store failed, and its count of faults says so.
    #[error("the store failed")]
    Failed,
    #[error("out of memory")]
    Memory(AllocError),
}

/// Why a device does not take bytes.
#[derive(Debug, Drop, Error)]
pub enum DeviceFault {
    /// The device failed, and its count of faults says so.
    #[error("the device failed")]
    Failed,
    #[error("out of memory")]
    Memory(AllocError),
}
