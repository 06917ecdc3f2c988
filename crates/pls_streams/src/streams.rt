//! What gives bytes and what takes them.

ghost use Rattle.std.specs.Prelude.{ℕ, ◌<◌, ◌≤◌, ◌-◌, List, length, Option, IfOk, MatchResult};
ghost use Rattle.std.specs.Io.{ReadsAtMost, WritesAtMost};
ghost use Rattle.std.specs.Io.KnownBytes.{ReadConsumes, WriteAppends};
ghost use Rattle.pls_streams.specs.Streams.{HasCause, StaysSure};

use thiserror::Error;

/// One call on a source or a sink failed, and no byte was moved.
#[derive(Clone, Copy, Debug, PartialEq, Eq, Error)]
#[error("a read or a write failed")]
pub struct StreamFailure;

/// Gives bytes.
pub trait Source {
    // The bytes that it has left, where it tells them.
    ghost left: { Self → Option (List ℕ) };

    // How many of its calls failed, counted up to 2^64 - 1.
    ghost faults: { Self → ℕ };

    /// Puts the next bytes into the front of `into` and answers how many: at most its length, and 0
    /// for room that is not empty only at the end. `StreamFailure` comes only where the count of
    /// faults rose in this call.
    fn read(&mut self, into: &mut [u8]) -> Result<usize, StreamFailure>
        ensures bound { ReadsAtMost result into.new }
        ensures bytes { ReadConsumes (left self.old) (left self.new) result into.new }
        ensures cause { HasCause (faults self.old) (faults self.new) result };
}

/// Takes bytes.
pub trait Sink {
    // The bytes that it has taken, where it tells them.
    ghost taken: { Self → Option (List ℕ) };

    // How many of its calls failed, counted up to 2^64 - 1.
    ghost faults: { Self → ℕ };

    // It takes so many bytes more with no call failing.
    ghost IsSureOf: { Self → ℕ → Type 0 };

    /// Takes the first bytes of `piece` and answers how many: at least one of a piece that is not
    /// empty. `StreamFailure` comes only where the count of faults rose in this call, and never for
    /// a piece that the sink is sure of.
    fn write(&mut self, piece: &[u8]) -> Result<usize, StreamFailure>
        ensures bound { WritesAtMost result piece.now }
        ensures some { IfOk result (λ n. 0 < length piece.now → 0 < n) }
        ensures bytes { WriteAppends (taken self.old) (taken self.new) result piece.now }
        ensures cause { HasCause (faults self.old) (faults self.new) result }
        ensures sure { (most : ℕ) → IsSureOf self.old most → length piece.now ≤ most
            → MatchResult result (λ n. StaysSure (IsSureOf self.new) (most - n) (faults self.old)
            (faults self.new)) (λ _. ⊥) };
}
