//! A whole text into a sink.

ghost use Rattle.std.specs.Prelude.{◌≤◌, ◌-◌, ℕ, length, OnErr, OnOk, MatchResult};
ghost use Rattle.std.specs.Io.KnownBytes.{Appends};
ghost use Rattle.pls_streams.specs.Streams.{AppendsPart, Rose, StaysSure};

use crate::streams::{Sink, StreamFailure};
use thiserror::Error;

/// A run of writing met a write that failed.
#[derive(Clone, Copy, Debug, PartialEq, Eq, Error)]
#[error("a write failed")]
pub struct Fault;

/// Writes all the bytes in order. It takes no memory.
///
/// `Fault` comes only where the sink's count of faults rose in this call; the sink has then taken a
/// front of the bytes, but not all. A sink that is sure of so many bytes takes all.
pub fn write_all<K: Sink>(sink: &mut K, bytes: &[u8]) -> Result<(), Fault>
    ensures all { OnOk result (Appends (K.taken sink.old) (K.taken sink.new) bytes.now) }
    ensures part { OnErr result (AppendsPart (K.taken sink.old) (K.taken sink.new) bytes.now) }
    ensures fault { OnErr result (Rose (K.faults sink.old) (K.faults sink.new)) }
    ensures never_falls { K.faults sink.old ≤ K.faults sink.new }
    ensures sure { (most : ℕ) → K.IsSureOf sink.old most → length bytes.now ≤ most
        → MatchResult result (λ _. StaysSure (K.IsSureOf sink.new) (most - length bytes.now)
        (K.faults sink.old) (K.faults sink.new)) (λ _. ⊥) }
{
    let mut sent = 0;
    while sent < bytes.len() {
        match sink.write(&bytes[sent..]) {
            Ok(count) => sent += count,
            Err(StreamFailure) => return Err(Fault),
        }
    }
    Ok(())
}
