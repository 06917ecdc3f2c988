//! A sink that takes everything and keeps nothing.

ghost use Rattle.std.specs.Prelude.{◌≡◌, ◌<◌, ◌≤◌, ◌-◌, ℕ, length, None, IfOk, IsOk, MatchResult};
ghost use Rattle.std.specs.Io.{WritesAtMost};
ghost use Rattle.std.specs.Io.KnownBytes.{WriteAppends};
ghost use Rattle.pls_streams.specs.Streams.{HasCause, StaysSure};

use crate::streams::{Sink, StreamFailure};

/// Takes every piece whole and never fails. It tells no bytes.
#[derive(Clone, Copy, Debug)]
pub struct CountSink;

impl CountSink {
    /// A sink that takes everything.
    pub fn new() -> CountSink {
        CountSink
    }
}

impl Sink for CountSink {
    ghost use Rattle.std.specs.Prelude.{⊤};

    ghost taken = { λ _. None };

    ghost faults = { λ _. 0 };

    ghost IsSureOf = { λ _ _. ⊤ };

    fn write(&mut self, piece: &[u8]) -> Result<usize, StreamFailure>
        ensures bound { WritesAtMost result piece.now }
        ensures some { IfOk result (λ n. 0 < length piece.now → 0 < n) }
        ensures bytes { WriteAppends None None result piece.now }
        ensures cause { HasCause 0 0 result }
        ensures sure { (most : ℕ) → ⊤ → length piece.now ≤ most
            → MatchResult result (λ n. StaysSure (λ _. ⊤) (most - n) 0 0) (λ _. ⊥) }

        // It is never refused, and takes all.
        ensures taken { IsOk result }
        ensures count { IfOk result (λ n. n ≡ length piece.now) }
    {
        Ok(piece.len())
    }
}
