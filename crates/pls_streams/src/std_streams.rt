//! Sources and sinks over std's readers and writers.

ghost use Rattle.std.specs.Prelude.{◌≡◌, ◌<◌, ◌≤◌, ◌-◌, ℕ, length, IfOk, MatchResult};
ghost use Rattle.std.specs.Io.{ReadsAtMost, WritesAtMost};
ghost use Rattle.std.specs.Io.KnownBytes.{ReadConsumes, WriteAppends};
ghost use Rattle.pls_streams.specs.Steps.{up_by};
ghost use Rattle.pls_streams.specs.Streams.{HasCause, StaysSure};

use crate::counter::Steps;
use crate::streams::{Sink, Source, StreamFailure};
use std::io::{Read, Write};
use std::marker::Model;

/// Gives what a std reader gives. It tells the bytes that its reader tells; std's reader of
/// standard input tells none. It is seen as the reader and the number of its errors, an interrupted
/// read among them.
#[derive(Drop)]
pub struct StdSource<R> {
    reader: R,
    faults: Steps,
}

impl<R> Model for StdSource<R> {
    ghost use Rattle.pls_streams.specs.OverStd.{OverStd};

    ghost Value = { OverStd R };

    ghost view = { λ s. record { over = s.reader; faults = s.faults } };
}

impl<R: Read> StdSource<R> {
    /// A source over a reader, with no error yet.
    pub fn new(reader: R) -> StdSource<R>
        ensures over { result.over ≡ reader }
        ensures faults { result.faults ≡ 0 }
    {
        StdSource {
            reader,
            faults: Steps::new(),
        }
    }
}

impl<R: Read> Source for StdSource<R> {
    ghost left = { λ s. R.remaining s.over };

    ghost faults = { λ s. s.faults };

    fn read(&mut self, into: &mut [u8]) -> Result<usize, StreamFailure>
        ensures bound { ReadsAtMost result into.new }
        ensures bytes { ReadConsumes (R.remaining self.old.over) (R.remaining self.new.over) result
            into.new }
        ensures cause { HasCause self.old.faults self.new.faults result }
        ensures raised { MatchResult result (λ _. self.new.faults ≡ self.old.faults)
            (λ _. self.new.faults ≡ up_by 1 self.old.faults) }
    {
        match self.reader.read(into) {
            Ok(count) => Ok(count),
            Err(_) => {
                self.faults.tick();
                Err(StreamFailure)
            }
        }
    }
}

/// Hands what it takes to a std writer. It tells the bytes that its writer tells; std's writer of
/// standard output tells none. It is seen as the writer and the number of its errors; a write that
/// takes no byte of a piece that is not empty is one of them.
#[derive(Drop)]
pub struct StdSink<W> {
    writer: W,
    faults: Steps,
}

impl<W> Model for StdSink<W> {
    ghost use Rattle.pls_streams.specs.OverStd.{OverStd};

    ghost Value = { OverStd W };

    ghost view = { λ s. record { over = s.writer; faults = s.faults } };
}

impl<W: Write> StdSink<W> {
    /// A sink over a writer, with no error yet.
    pub fn new(writer: W) -> StdSink<W>
        ensures over { result.over ≡ writer }
        ensures faults { result.faults ≡ 0 }
    {
        StdSink {
            writer,
            faults: Steps::new(),
        }
    }

    /// The writer, with what it has taken.
    pub fn into_writer(self) -> W
        ensures { result ≡ self.over }
    {
        self.writer
    }
}

impl<W: Write> Sink for StdSink<W> {
    ghost taken = { λ s. W.contents s.over };

    ghost faults = { λ s. s.faults };

    // No std writer promises that a call succeeds.
    ghost IsSureOf = { λ _ _. ⊥ };

    fn write(&mut self, piece: &[u8]) -> Result<usize, StreamFailure>
        ensures bound { WritesAtMost result piece.now }
        ensures some { IfOk result (λ n. 0 < length piece.now → 0 < n) }
        ensures bytes { WriteAppends (W.contents self.old.over) (W.contents self.new.over) result
            piece.now }
        ensures cause { HasCause self.old.faults self.new.faults result }
        ensures sure { (most : ℕ) → ⊥ → length piece.now ≤ most → MatchResult result
            (λ n. StaysSure (λ _. ⊥) (most - n) self.old.faults self.new.faults) (λ _. ⊥) }
        ensures raised { MatchResult result (λ _. self.new.faults ≡ self.old.faults)
            (λ _. self.new.faults ≡ up_by 1 self.old.faults) }
    {
        match self.writer.write(piece) {
            Ok(count) if count > 0 || piece.is_empty() => Ok(count),
            _ => {
                self.faults.tick();
                Err(StreamFailure)
            }
        }
    }
}
