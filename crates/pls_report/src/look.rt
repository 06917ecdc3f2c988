//! The text of a look: the lines of all nodes, and the line that closes it.

ghost use Rattle.std.specs.Prelude.{ℕ, ◌≤◌, ◌≢◌, ◌-◌, [], length, MatchResult, OnErr, OnOk};
ghost use Rattle.std.specs.List.{flat_map};
ghost use Rattle.std.specs.Io.KnownBytes.{Appends};
ghost use Rattle.pls_streams.specs.Gathered.{Writes};
ghost use Rattle.pls_streams.specs.Streams.{AppendsPart, Rose, StaysSure};
ghost use Rattle.pls_sim.specs.declared.outcome.Outcome.TheVariants.{Decided};
ghost use Rattle.pls_report.specs.Look.{look_text};
ghost use Rattle.pls_report.specs.inner.Kept.{counts_text, row_line};

use crate::decided::line_in;
use crate::line_kind::LookCounts;
use crate::look_row::LookRow;
use crate::look_rows::LookRows;
use crate::pieces::put_listed;
use crate::report::write_node;
use pls_configuration::Verdict;
use pls_sim::Outcome;
use pls_streams::{Fault, Gathered, Sink};

/// Writes what is seen at a look at a round in which labels change: a line for each node, with its
/// identity, its outcome and, where it has decided, its stale ports, those whose label is not the
/// neighbour's newest; and then the number of the look (`number`, from 1), how many nodes reject,
/// how many wait, and how many have a line with stale ports. It takes no memory.
///
/// `Fault` comes only where the sink's count of faults rose in this call; the sink has then taken a
/// front of the text, but not all. A sink that is sure of as many bytes as the text has takes all.
pub fn write_look<K: Sink>(number: u32, look: &LookRows, sink: &mut K) -> Result<(), Fault>
    ensures all { OnOk result (Appends (K.taken sink.old) (K.taken sink.new)
        (look_text number look.now.rows)) }
    ensures part { OnErr result (AppendsPart (K.taken sink.old) (K.taken sink.new)
        (look_text number look.now.rows)) }
    ensures fault { OnErr result (Rose (K.faults sink.old) (K.faults sink.new)) }
    ensures never_falls { K.faults sink.old ≤ K.faults sink.new }
    ensures sure { (most : ℕ) → K.IsSureOf sink.old most
        → length (look_text number look.now.rows) ≤ most
        → MatchResult result (λ _. StaysSure (K.IsSureOf sink.new)
        (most - length (look_text number look.now.rows)) (K.faults sink.old)
        (K.faults sink.new)) (λ _. ⊥) }
{
    let mut gathered = Gathered::new();
    write_rows(number, look, sink, &mut gathered)?;
    gathered.flush(sink)
}

/// Writes the texts of the looks that were kept ([`LookRows::keep_look`]), one behind another. It
/// takes no memory, and no row is told anew: a line that several looks have was made once.
///
/// `Fault` comes only where the sink's count of faults rose in this call; the sink has then taken a
/// front of the text, but not all. A sink that is sure of as many bytes as the text has takes all.
pub fn write_kept<K: Sink>(look: LookRows, sink: &mut K) -> Result<(), Fault>
    ensures all { OnOk result (Appends (K.taken sink.old) (K.taken sink.new)
        (flat_map (λ text. text) look.kept)) }
    ensures part { OnErr result (AppendsPart (K.taken sink.old) (K.taken sink.new)
        (flat_map (λ text. text) look.kept)) }
    ensures fault { OnErr result (Rose (K.faults sink.old) (K.faults sink.new)) }
    ensures never_falls { K.faults sink.old ≤ K.faults sink.new }
    ensures sure { (most : ℕ) → K.IsSureOf sink.old most
        → length (flat_map (λ text. text) look.kept) ≤ most
        → MatchResult result (λ _. StaysSure (K.IsSureOf sink.new)
        (most - length (flat_map (λ text. text) look.kept)) (K.faults sink.old)
        (K.faults sink.new)) (λ _. ⊥) }
{
    let mut gathered = Gathered::new();
    write_texts(look, sink, &mut gathered)?;
    gathered.flush(sink)
}

fn write_texts<K: Sink>(look: LookRows, sink: &mut K, gathered: &mut Gathered) -> Result<(), Fault>
    ensures { Writes gathered.old gathered.new (K.taken sink.old) (K.taken sink.new)
        (K.faults sink.old) (K.faults sink.new) (K.IsSureOf sink.old) (K.IsSureOf sink.new)
        result (flat_map (λ text. text) look.kept) }
{
    look.into_kept().write(sink, gathered)
}

fn write_rows<K: Sink>(
    number: u32,
    look: &LookRows,
    sink: &mut K,
    gathered: &mut Gathered,
) -> Result<(), Fault>
    ensures { Writes gathered.old gathered.new (K.taken sink.old) (K.taken sink.new)
        (K.faults sink.old) (K.faults sink.new) (K.IsSureOf sink.old) (K.IsSureOf sink.new)
        result (look_text number look.now.rows) }
{
    for row in look.rows() {
        write_row(sink, gathered, row)?;
    }
    write_counts(sink, gathered, number as u64, look.counts())
}

fn write_row<K: Sink>(sink: &mut K, gathered: &mut Gathered, row: &LookRow) -> Result<(), Fault>
    ensures { Writes gathered.old gathered.new (K.taken sink.old) (K.taken sink.new)
        (K.faults sink.old) (K.faults sink.new) (K.IsSureOf sink.old) (K.IsSureOf sink.new)
        result (row_line row.now) }
{
    match row.outcome() {
        Outcome::Decided(verdict) if !row.stale().is_empty() => {
            write_stale_node(sink, gathered, row.id(), *verdict, row.stale())
        }
        outcome => write_node(sink, gathered, row.id(), outcome),
    }
}

// `ports` are those of a node that has decided, and not empty.
fn write_stale_node<K: Sink>(
    sink: &mut K,
    gathered: &mut Gathered,
    id: u32,
    verdict: Verdict,
    ports: &[u32],
) -> Result<(), Fault>
    requires { ports.now ≢ [] }
    ensures { Writes gathered.old gathered.new (K.taken sink.old) (K.taken sink.new)
        (K.faults sink.old) (K.faults sink.new) (K.IsSureOf sink.old) (K.IsSureOf sink.new)
        result (row_line (id, Decided verdict, ports.now)) }
{
    let mut line = [0; 80];
    let count = line_in(&mut line, id, verdict);
    gathered.put_front(sink, &line, count)?;
    put_listed(sink, gathered, b" stale", ports)?;
    gathered.put(sink, b"\n")
}

/// Writes the line that closes a look.
pub(crate) fn write_counts<K: Sink>(
    sink: &mut K,
    gathered: &mut Gathered,
    number: u64,
    counts: LookCounts,
) -> Result<(), Fault>
    ensures { Writes gathered.old gathered.new (K.taken sink.old) (K.taken sink.new)
        (K.faults sink.old) (K.faults sink.new) (K.IsSureOf sink.old) (K.IsSureOf sink.new)
        result (counts_text number counts) }
{
    gathered.put_numbered(sink, b"look ", number)?;
    gathered.put_numbered(sink, b" rejecting ", counts.rejecting as u64)?;
    gathered.put_numbered(sink, b" waiting ", counts.waiting as u64)?;
    gathered.put_numbered(sink, b" stale ", counts.stale as u64)?;
    gathered.put(sink, b"\n")
}
