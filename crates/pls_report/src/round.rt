//! The text of a round's report, line by line.

ghost use Rattle.std.specs.Prelude.{◌≡◌, ℕ, ◌≤◌, ◌-◌, ◌++◌, codes, decimal, length, MatchResult, OnErr, OnOk};
ghost use Rattle.std.specs.Io.KnownBytes.{Appends};
ghost use Rattle.pls_streams.specs.Gathered.{Writes};
ghost use Rattle.pls_streams.specs.Streams.{AppendsPart, Rose, StaysSure};
ghost use Rattle.pls_report.specs.Report.{round_text};
ghost use Rattle.pls_report.specs.inner.Pieces.{connected_tail};

use crate::counting::rejecting_verdicts;
use crate::decided::put_decided;
use pls_configuration::Verdict;
use pls_streams::{Fault, Gathered, Sink};

/// Writes the report of a round in which touched nodes were judged again: a line for each node,
/// with its identity and its verdict, and then the number of the round, how many nodes were
/// checked, whether the edges join all nodes, and how many reject. It takes no memory.
///
/// `Fault` comes only where the sink's count of faults rose in this call; the sink has then taken a
/// front of the text, but not all. A sink that is sure of as many bytes as the text has takes all.
pub fn write_round<K: Sink>(
    number: u32,
    checked: u32,
    connected: bool,
    rows: &[(u32, Verdict)],
    sink: &mut K,
) -> Result<(), Fault>
    ensures all { OnOk result (Appends (K.taken sink.old) (K.taken sink.new)
        (round_text number checked connected rows.now)) }
    ensures part { OnErr result (AppendsPart (K.taken sink.old) (K.taken sink.new)
        (round_text number checked connected rows.now)) }
    ensures fault { OnErr result (Rose (K.faults sink.old) (K.faults sink.new)) }
    ensures never_falls { K.faults sink.old ≤ K.faults sink.new }
    ensures sure { (most : ℕ) → K.IsSureOf sink.old most
        → length (round_text number checked connected rows.now) ≤ most
        → MatchResult result (λ _. StaysSure (K.IsSureOf sink.new)
        (most - length (round_text number checked connected rows.now)) (K.faults sink.old)
        (K.faults sink.new)) (λ _. ⊥) }
{
    let mut gathered = Gathered::new();
    write_decided(rows, number, checked, connected, sink, &mut gathered)?;
    gathered.flush(sink)
}

fn write_decided<K: Sink>(
    rows: &[(u32, Verdict)],
    number: u32,
    checked: u32,
    connected: bool,
    sink: &mut K,
    gathered: &mut Gathered,
) -> Result<(), Fault>
    ensures { Writes gathered.old gathered.new (K.taken sink.old) (K.taken sink.new)
        (K.faults sink.old) (K.faults sink.new) (K.IsSureOf sink.old) (K.IsSureOf sink.new)
        result (round_text number checked connected rows.now) }
{
    for (id, verdict) in rows {
        put_decided(sink, gathered, *id, *verdict)?;
    }
    let rejecting = rejecting_verdicts(rows);
    write_numbers(number, checked, connected, rejecting as u64, sink, gathered)
}

fn write_numbers<K: Sink>(
    number: u32,
    checked: u32,
    connected: bool,
    rejecting: u64,
    sink: &mut K,
    gathered: &mut Gathered,
) -> Result<(), Fault>
    ensures { Writes gathered.old gathered.new (K.taken sink.old) (K.taken sink.new)
        (K.faults sink.old) (K.faults sink.new) (K.IsSureOf sink.old) (K.IsSureOf sink.new)
        result (((codes "round " ++ decimal number) ++ ((codes " checked " ++ decimal checked)
        ++ (connected_tail connected ++ decimal rejecting))) ++ codes "\n") }
{
    gathered.put_numbered(sink, b"round ", number as u64)?;
    gathered.put_numbered(sink, b" checked ", checked as u64)?;
    gathered.put_numbered(sink, connected_words(connected), rejecting)?;
    gathered.put(sink, b"\n")
}

// The words of the round's line that say whether the network is connected.
fn connected_words(connected: bool) -> &'static [u8]
    ensures { result.now ≡ connected_tail connected }
{
    if connected {
        b" connected yes rejecting "
    } else {
        b" connected no rejecting "
    }
}
