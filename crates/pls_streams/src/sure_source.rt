//! A source of bytes in memory that never fails.

ghost use Rattle.std.specs.Prelude.{◌≡◌, ◌<◌, ◌++◌, [], min, length, take, IfOk, IsOk, Some};
ghost use Rattle.std.specs.Io.{ReadsAtMost};
ghost use Rattle.std.specs.Io.KnownBytes.{ReadConsumes};
ghost use Rattle.pls_streams.specs.Streams.{HasCause};

use crate::pieces::copy_front;
use crate::streams::{Source, StreamFailure};
use std::marker::Model;

/// Gives the bytes of a vector, as many in a call as there is room for, and never fails. It is
/// seen as the bytes that are left.
#[derive(Drop)]
pub struct SureSource {
    bytes: Vec<u8>,
    at: usize,
}

impl Model for SureSource {
    ghost use Rattle.std.specs.Prelude.{ℕ, ◌≤◌, List, drop, vec_len};

    ghost Value = { List ℕ };

    ghost view = { λ s. drop s.at s.bytes.items };

    ghost invariant = { λ s. s.at ≤ vec_len s.bytes };
}

impl SureSource {
    /// A source of all the bytes.
    pub fn new(bytes: Vec<u8>) -> SureSource
        ensures { result ≡ bytes.items }
    {
        SureSource { bytes, at: 0 }
    }

    // Moves as many bytes as there are and fit, at most `most`.
    pub(crate) fn give(&mut self, into: &mut [u8], most: usize) -> usize
        ensures count { result ≡ min (min most (length into.new)) (length self.old) }
        ensures given { self.old ≡ take result into.new ++ self.new }
        ensures end { result < most → result < length into.new → self.new ≡ [] }
    {
        let count = copy_front(&self.bytes[self.at..], into, most);
        self.at += count;
        count
    }
}

impl Source for SureSource {
    ghost left = { λ s. Some s };

    ghost faults = { λ _. 0 };

    fn read(&mut self, into: &mut [u8]) -> Result<usize, StreamFailure>
        ensures bound { ReadsAtMost result into.new }
        ensures bytes { ReadConsumes (Some self.old) (Some self.new) result into.new }
        ensures cause { HasCause 0 0 result }

        // It is never refused, and gives all that there is room for.
        ensures sure { IsOk result }
        ensures count { IfOk result (λ n. n ≡ min (length into.new) (length self.old)) }
    {
        let most = into.len();
        Ok(self.give(into, most))
    }
}
