//! The lines of components.

ghost use Rattle.std.specs.Prelude.{◌++◌, ◌∷◌, [], map};
ghost use Rattle.pls_streams.specs.Gathered.{Writes};
ghost use Rattle.pls_lines.specs.Text.{text_of};
ghost use Rattle.pls_report.specs.ComponentLines.{if_several, component_line};

use crate::component_row::ComponentRow;
use crate::pieces::put_waiting;
use pls_streams::{Fault, Gathered, Sink};

/// Writes a line for each component, where there are two or more.
pub(crate) fn write_components<K: Sink>(
    parts: &[ComponentRow],
    simulated: bool,
    sink: &mut K,
    gathered: &mut Gathered,
) -> Result<(), Fault>
    ensures { Writes gathered.old gathered.new (K.taken sink.old) (K.taken sink.new)
        (K.faults sink.old) (K.faults sink.new) (K.IsSureOf sink.old) (K.IsSureOf sink.new)
        result (text_of (if_several parts.now (map (component_line simulated) parts.now))) }
{
    if parts.len() < 2 {
        return Ok(());
    }
    write_each(parts, simulated, sink, gathered)
}

fn write_each<K: Sink>(
    parts: &[ComponentRow],
    simulated: bool,
    sink: &mut K,
    gathered: &mut Gathered,
) -> Result<(), Fault>
    ensures { Writes gathered.old gathered.new (K.taken sink.old) (K.taken sink.new)
        (K.faults sink.old) (K.faults sink.new) (K.IsSureOf sink.old) (K.IsSureOf sink.new)
        result (text_of (map (component_line simulated) parts.now)) }
{
    for part in parts {
        write_component(*part, simulated, sink, gathered)?;
    }
    Ok(())
}

fn write_component<K: Sink>(
    part: ComponentRow,
    simulated: bool,
    sink: &mut K,
    gathered: &mut Gathered,
) -> Result<(), Fault>
    ensures { Writes gathered.old gathered.new (K.taken sink.old) (K.taken sink.new)
        (K.faults sink.old) (K.faults sink.new) (K.IsSureOf sink.old) (K.IsSureOf sink.new)
        result (component_line simulated part ++ 10 ∷ []) }
{
    gathered.put_numbered(sink, b"component ", part.id as u64)?;
    gathered.put_numbered(sink, b" nodes ", part.nodes as u64)?;
    gathered.put_numbered(sink, b" rejecting ", part.rejecting as u64)?;
    put_waiting(sink, gathered, simulated, part.waiting as u64)?;
    gathered.put(sink, b"\n")
}
