//! A whole text from a source.

ghost use Rattle.std.specs.Prelude.{◌≡◌, ◌≢◌, ◌+◌, ◌<◌, ◌≤◌, ◌^◌, Some, [], length, vec_len, IfErr, IfOk, IfSome, IsErrOf, OnErr, OnOk};
ghost use Rattle.std.specs.Io.KnownBytes.{Consumes, IsAtEnd, Keeps};
ghost use Rattle.pls_streams.specs.Streams.{HasCause, LosesAtMost, LosesFirst, Rose};
ghost use Rattle.pls_streams.specs.declared.reading.ReadError.TheVariants.{Fault as ReadFault, NoMemory as OutOfMemory};

use crate::streams::{Source, StreamFailure};
use std::alloc::{AllocError, AllocFailed, Global};
use thiserror::Error;

/// Why a text was not read whole.
#[derive(Clone, Copy, Debug, PartialEq, Eq, Error)]
pub enum ReadError {
    /// A read failed.
    #[error("a read failed")]
    Fault,
    /// There are more bytes than the limit.
    #[error("there are too many bytes")]
    TooLong,
    /// There was no memory.
    #[error("out of memory")]
    NoMemory,
}

impl From<StreamFailure> for ReadError {
    ghost from_gives = { λ _ error. error ≡ ReadFault };

    fn from(_: StreamFailure) -> Self {
        ReadError::Fault
    }
}

impl From<AllocError> for ReadError {
    ghost from_gives = { λ _ error. error ≡ OutOfMemory };

    fn from(_: AllocError) -> Self {
        ReadError::NoMemory
    }
}

impl<T: Drop> From<AllocFailed<T>> for ReadError {
    ghost from_gives = { λ _ error. error ≡ OutOfMemory };

    fn from(_: AllocFailed<T>) -> Self {
        ReadError::NoMemory
    }
}

// The most bytes that one read asks for: 64 KiB.
const PIECE: usize = 65536;

/// Reads all that the source has left, up to its end: at most `limit` bytes.
///
/// `Fault` says that the source counted a fault in this call, and `TooLong` that there were more
/// than `limit` bytes, of which one past the limit was read. What a refused call has read is lost
/// to the source, and nothing else is.
pub fn read_all<S: Source>(alloc: Global, source: &mut S, limit: u64) -> Result<Vec<u8>, ReadError>
    requires { limit < 2 ^ 32 }

    // What is read is all that was left.
    ensures all { IfOk result (λ read. IfSome (S.left source.old) (λ bytes. read.items ≡ bytes)) }
    ensures end { OnOk result (IfSome (S.left source.old) (λ _. S.left source.new ≡ Some [])) }
    ensures within { IfOk result (λ read. vec_len read ≤ limit) }

    // When it is refused, and what the source has lost then.
    ensures fault { IsErrOf result ReadError.Fault
        → Rose (S.faults source.old) (S.faults source.new) }
    ensures too_long { IsErrOf result ReadError.TooLong
        → LosesFirst (S.left source.old) (S.left source.new) (limit + 1) }
    ensures else_within { IfErr result (λ error. error ≢ ReadError.TooLong
        → LosesAtMost (S.left source.old) (S.left source.new) limit) }

    ensures never_falls { S.faults source.old ≤ S.faults source.new }
{
    let most = limit as usize;
    let mut buffer = vec![in alloc; 0u8; PIECE.min(most + 1)]?;
    let mut bytes = Vec::new(alloc);
    loop {
        let piece = read_piece(source, &mut buffer, most + 1 - bytes.len())?;
        if piece.is_empty() {
            return Ok(bytes);
        }
        if piece.len() > most - bytes.len() {
            return Err(ReadError::TooLong);
        }
        bytes.extend_from_slice(piece)?;
    }
}

fn read_piece<'a, S: Source>(
    source: &mut S,
    buffer: &'a mut [u8],
    most: usize,
) -> Result<&'a [u8], StreamFailure>
    ensures short { IfOk result (λ piece. length piece.now ≤ most) }
    ensures bytes { IfOk result (λ piece.
        Consumes (S.left source.old) (S.left source.new) piece.now) }
    ensures end { IfOk result (λ piece. length piece.now ≡ 0 → 0 < most
        → 0 < length buffer.old → IsAtEnd (S.left source.new)) }
    ensures unmoved { OnErr result (Keeps (S.left source.old) (S.left source.new)) }
    ensures cause { HasCause (S.faults source.old) (S.faults source.new) result }
{
    let room = most.min(buffer.len());
    let count = source.read(&mut buffer[..room])?;
    Ok(&buffer[..count])
}
