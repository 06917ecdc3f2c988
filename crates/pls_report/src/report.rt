//! The text of a report, line by line.

ghost use Rattle.std.specs.Prelude.{ℕ, ◌≤◌, ◌-◌, ◌++◌, ◌∷◌, [], length, map, MatchResult, OnErr, OnOk};
ghost use Rattle.std.specs.Io.KnownBytes.{Appends};
ghost use Rattle.pls_streams.specs.Gathered.{Writes};
ghost use Rattle.pls_streams.specs.Streams.{AppendsPart, Rose, StaysSure};
ghost use Rattle.pls_lines.specs.Text.{text_of};
ghost use Rattle.pls_sim.specs.declared.outcome.Outcome.TheVariants.{Waiting};
ghost use Rattle.pls_report.specs.ComponentLines.{if_several, component_line};
ghost use Rattle.pls_report.specs.Report.{closing_line, outcome_line, report_text};

use crate::component_lines::write_components;
use crate::component_row::ComponentRow;
use crate::counting;
use crate::decided::put_decided;
use crate::pieces::{put_listed, put_waiting};
use pls_sim::Outcome;
use pls_streams::{Fault, Gathered, Sink};

/// Writes the report of nodes, each with its identity and its outcome: a line for each, in their
/// order; where there are two components or more, a line for each of `parts`, in their order; and
/// then how many nodes reject. Of a round that was played (`simulated`) the last lines also say how
/// many wait. It takes no memory.
///
/// `Fault` comes only where the sink's count of faults rose in this call; the sink has then taken a
/// front of the text, but not all. A sink that is sure of as many bytes as the text has takes all.
pub fn write_report<K: Sink>(
    rows: &[(u32, Outcome)],
    simulated: bool,
    parts: &[ComponentRow],
    sink: &mut K,
) -> Result<(), Fault>
    ensures all { OnOk result (Appends (K.taken sink.old) (K.taken sink.new)
        (report_text simulated parts.now rows.now)) }
    ensures part { OnErr result (AppendsPart (K.taken sink.old) (K.taken sink.new)
        (report_text simulated parts.now rows.now)) }
    ensures fault { OnErr result (Rose (K.faults sink.old) (K.faults sink.new)) }
    ensures never_falls { K.faults sink.old ≤ K.faults sink.new }
    ensures sure { (most : ℕ) → K.IsSureOf sink.old most
        → length (report_text simulated parts.now rows.now) ≤ most
        → MatchResult result (λ _. StaysSure (K.IsSureOf sink.new)
        (most - length (report_text simulated parts.now rows.now)) (K.faults sink.old)
        (K.faults sink.new)) (λ _. ⊥) }
{
    let mut gathered = Gathered::new();
    write_lines(rows, simulated, parts, sink, &mut gathered)?;
    gathered.flush(sink)
}

fn write_lines<K: Sink>(
    rows: &[(u32, Outcome)],
    simulated: bool,
    parts: &[ComponentRow],
    sink: &mut K,
    gathered: &mut Gathered,
) -> Result<(), Fault>
    ensures { Writes gathered.old gathered.new (K.taken sink.old) (K.taken sink.new)
        (K.faults sink.old) (K.faults sink.new) (K.IsSureOf sink.old) (K.IsSureOf sink.new)
        result (report_text simulated parts.now rows.now) }
{
    for (id, outcome) in rows {
        write_node(sink, gathered, *id, outcome)?;
    }
    write_last(rows, simulated, parts, sink, gathered)
}

// Writes the lines that follow those of the nodes.
fn write_last<K: Sink>(
    rows: &[(u32, Outcome)],
    simulated: bool,
    parts: &[ComponentRow],
    sink: &mut K,
    gathered: &mut Gathered,
) -> Result<(), Fault>
    ensures { Writes gathered.old gathered.new (K.taken sink.old) (K.taken sink.new)
        (K.faults sink.old) (K.faults sink.new) (K.IsSureOf sink.old) (K.IsSureOf sink.new)
        result (text_of (if_several parts.now (map (component_line simulated) parts.now)
        ++ closing_line simulated rows.now ∷ [])) }
{
    write_components(parts, simulated, sink, gathered)?;
    write_closing(rows, simulated, sink, gathered)
}

/// Writes the line of a node of a report.
pub(crate) fn write_node<K: Sink>(
    sink: &mut K,
    gathered: &mut Gathered,
    id: u32,
    outcome: &Outcome,
) -> Result<(), Fault>
    ensures { Writes gathered.old gathered.new (K.taken sink.old) (K.taken sink.new)
        (K.faults sink.old) (K.faults sink.new) (K.IsSureOf sink.old) (K.IsSureOf sink.new)
        result (outcome_line (id, outcome.now) ++ 10 ∷ []) }
{
    match outcome {
        Outcome::Decided(verdict) => put_decided(sink, gathered, id, *verdict),
        Outcome::Waiting(ports) => write_waiting_node(sink, gathered, id, ports.as_slice()),
    }
}

fn write_waiting_node<K: Sink>(
    sink: &mut K,
    gathered: &mut Gathered,
    id: u32,
    ports: &[u32],
) -> Result<(), Fault>
    ensures { Writes gathered.old gathered.new (K.taken sink.old) (K.taken sink.new)
        (K.faults sink.old) (K.faults sink.new) (K.IsSureOf sink.old) (K.IsSureOf sink.new)
        result (outcome_line (id, Waiting ports.now) ++ 10 ∷ []) }
{
    gathered.put_numbered(sink, b"node ", id as u64)?;
    put_listed(sink, gathered, b" waiting", ports)?;
    gathered.put(sink, b"\n")
}

fn write_closing<K: Sink>(
    rows: &[(u32, Outcome)],
    simulated: bool,
    sink: &mut K,
    gathered: &mut Gathered,
) -> Result<(), Fault>
    ensures { Writes gathered.old gathered.new (K.taken sink.old) (K.taken sink.new)
        (K.faults sink.old) (K.faults sink.new) (K.IsSureOf sink.old) (K.IsSureOf sink.new)
        result (closing_line simulated rows.now ++ 10 ∷ []) }
{
    gathered.put_numbered(sink, b"rejecting ", counting::rejecting(rows) as u64)?;
    put_waiting(sink, gathered, simulated, counting::waiting(rows) as u64)?;
    gathered.put(sink, b"\n")
}
