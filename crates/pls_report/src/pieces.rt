//! Numbers behind words, as several kinds of lines have them.

ghost use Rattle.std.specs.Prelude.{◌++◌};
ghost use Rattle.pls_streams.specs.Gathered.{Writes};
ghost use Rattle.pls_report.specs.inner.Pieces.{spaced, waiting_tail};

use pls_streams::{Fault, Gathered, Sink};

/// Writes a word and numbers, each behind a space.
pub(crate) fn put_listed<K: Sink>(
    sink: &mut K,
    gathered: &mut Gathered,
    word: &[u8],
    numbers: &[u32],
) -> Result<(), Fault>
    ensures { Writes gathered.old gathered.new (K.taken sink.old) (K.taken sink.new)
        (K.faults sink.old) (K.faults sink.new) (K.IsSureOf sink.old) (K.IsSureOf sink.new)
        result (word.now ++ spaced numbers.now) }
{
    gathered.put(sink, word)?;
    put_spaced(sink, gathered, numbers)
}

// Writes each number behind a space.
fn put_spaced<K: Sink>(sink: &mut K, gathered: &mut Gathered, numbers: &[u32]) -> Result<(), Fault>
    ensures { Writes gathered.old gathered.new (K.taken sink.old) (K.taken sink.new)
        (K.faults sink.old) (K.faults sink.new) (K.IsSureOf sink.old) (K.IsSureOf sink.new)
        result (spaced numbers.now) }
{
    for number in numbers {
        gathered.put_numbered(sink, b" ", *number as u64)?;
    }
    Ok(())
}

/// Writes how many nodes wait, where the round was played (`simulated`).
pub(crate) fn put_waiting<K: Sink>(
    sink: &mut K,
    gathered: &mut Gathered,
    simulated: bool,
    count: u64,
) -> Result<(), Fault>
    ensures { Writes gathered.old gathered.new (K.taken sink.old) (K.taken sink.new)
        (K.faults sink.old) (K.faults sink.new) (K.IsSureOf sink.old) (K.IsSureOf sink.new)
        result (waiting_tail simulated count) }
{
    if !simulated {
        return Ok(());
    }
    gathered.put_numbered(sink, b" waiting ", count)
}
