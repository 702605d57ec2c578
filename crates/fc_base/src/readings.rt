//! Reading up to a limit and writing whole, over any reader and any writer.
ghost use Rattle.std.specs.Prelude.{◌≡◌, ◌+◌, ◌<◌, ◌≤◌, IsTrue, OnOk, OnErr, IfOk, IsErrOf, length};
ghost use Rattle.std.specs.IoError.{error_kind};
ghost use Rattle.std.specs.Io.KnownBytes.{Appends, IsAtEnd};
ghost use Rattle.fc_base.specs.Readings.{ReadsUpTo, ConsumesAtMost, MovesSome, AppendsFront, fetch_fault, read_fault, device_fault};

use crate::faults::{DeviceFault, FetchFault};
use std::alloc::{AllocError, Global};
use std::io;
use std::io::{ErrorKind, Read, Write};

/// The most bytes that one read asks for.
const CHUNK: usize = 8192;

/// Which fault it is that a file cannot be opened for reading.
pub(crate) fn open_fault_of(error: &io::Error) -> FetchFault
    ensures { result ≡ fetch_fault (error_kind error.now) }
{
    match error.kind() {
        ErrorKind::NotFound => FetchFault::Missing,
        ErrorKind::OutOfMemory => FetchFault::Memory(AllocError),
        _ => FetchFault::Failed,
    }
}

/// Which fault an error of an open reader is.
fn read_fault_of(error: &io::Error) -> FetchFault
    ensures { result ≡ read_fault (error_kind error.now) }
{
    match error.kind() {
        ErrorKind::OutOfMemory => FetchFault::Memory(AllocError),
        _ => FetchFault::Failed,
    }
}

/// Which fault an error of a writer is.
pub(crate) fn device_fault_of(error: &io::Error) -> DeviceFault
    ensures { result ≡ device_fault (error_kind error.now) }
{
    match error.kind() {
        ErrorKind::OutOfMemory => DeviceFault::Memory(AllocError),
        _ => DeviceFault::Failed,
    }
}

/// All that a reader has left, if it is at most `limit` bytes. It takes no more than one byte past
/// the limit.
pub(crate) fn read_up_to<R: Read>(
    alloc: Global,
    reader: &mut R,
    limit: u64,
) -> Result<Vec<u8>, FetchFault>
    ensures read { ReadsUpTo (R.remaining reader.old) limit result }
    ensures consumed { ConsumesAtMost (R.remaining reader.old) (R.remaining reader.new) (limit + 1) }
{
    let mut bytes = Vec::new(alloc);
    let mut chunk = [0u8; CHUNK];
    for _ in 0..u64::MAX {
        let room = room_left(limit, bytes.len());
        if read_some(reader, &mut chunk[..room], &mut bytes)? {
            return Ok(bytes);
        }
        if bytes.len() as u64 > limit {
            return Err(FetchFault::TooLong);
        }
    }
    Err(FetchFault::Failed)
}

/// How many bytes to ask for, where `len` have come: one past the limit at most.
fn room_left(limit: u64, len: usize) -> usize
    requires { len ≤ limit }
    ensures some { 0 < result }
    ensures within { len + result ≤ limit + 1 }
    ensures in_chunk { result ≤ CHUNK }
{
    let left = (limit - len as u64).min(CHUNK as u64 - 1);
    left as usize + 1
}

/// Reads once, and appends what came. Answers whether the reader is at its end.
fn read_some<R: Read>(
    reader: &mut R,
    chunk: &mut [u8],
    bytes: &mut Vec<u8>,
) -> Result<bool, FetchFault>
    requires { 0 < length chunk.old }
    ensures moves { OnOk result (MovesSome (R.remaining reader.old) (R.remaining reader.new) bytes.old.items bytes.new.items (length chunk.old)) }
    ensures end { IfOk result (λ ended. IsTrue ended → IsAtEnd (R.remaining reader.new) × (bytes.new.items ≡ bytes.old.items)) }
    ensures err { OnErr result (ConsumesAtMost (R.remaining reader.old) (R.remaining reader.new) (length chunk.old)) }
    ensures never_missing { ¬ IsErrOf result FetchFault.Missing }
    ensures never_long { ¬ IsErrOf result FetchFault.TooLong }
{
    match reader.read(chunk) {
        Ok(count) => {
            bytes
                .extend_from_slice(&chunk[..count])
                .map_err(FetchFault::Memory)?;
            Ok(count == 0)
        }
        Err(error) => {
            if error.kind() == ErrorKind::Interrupted {
                return Ok(false);
            }
            Err(read_fault_of(&error))
        }
    }
}

/// Writes all bytes, in as many calls as it takes. After an error the writer has taken a front of
/// them. A writer that takes nothing counts as failed.
pub(crate) fn write_whole<W: Write>(writer: &mut W, bytes: &[u8]) -> Result<(), DeviceFault>
    ensures ok { OnOk result (Appends (W.contents writer.old) (W.contents writer.new) bytes.now) }
    ensures err { OnErr result (AppendsFront (W.contents writer.old) (W.contents writer.new) bytes.now) }
{
    let mut rest = bytes;
    for _ in 0..u64::MAX {
        if rest.is_empty() {
            return Ok(());
        }
        match writer.write(rest) {
            Ok(0) => return Err(DeviceFault::Failed),
            Ok(count) => rest = &rest[count..],
            Err(error) => {
                if error.kind() != ErrorKind::Interrupted {
                    return Err(device_fault_of(&error));
                }
            }
        }
    }
    Err(DeviceFault::Failed)
}
