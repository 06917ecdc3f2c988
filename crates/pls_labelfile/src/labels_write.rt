//! The text of labels, written.

ghost use Rattle.std.specs.Prelude.{◌≡◌, ◌≤◌, ◌<◌, ◌^◌, ◌-◌, ℕ, [], ◌∷◌, length, All, IfOk, MatchResult, OnErr, OnOk};
ghost use Rattle.std.specs.Io.KnownBytes.{Appends};
ghost use Rattle.pls_streams.specs.Gathered.{Writes};
ghost use Rattle.pls_streams.specs.Streams.{AppendsPart, Rose, StaysSure};
ghost use Rattle.pls_configuration.specs.Configuration.{ids_of};
ghost use Rattle.pls_bits.specs.Hex.{hex_digits};
ghost use Rattle.pls_lines.specs.Text.{text_of};
ghost use Rattle.pls_labelfile.specs.LabelsText.{FitsLabel, hex_word, label_line, labelling_of, labels_text, named};
ghost use Rattle.pls_configuration.specs.declared.limits.TheConstants.{MAX_BITS};
ghost use Rattle.pls_labels.specs.Labels.{bits_together};

use crate::labels_heading::heading_line;
use pls_bits::{Bits, CodeName};
use pls_graph::Network;
use pls_labels::LabelStore;
use pls_streams::{Fault, Gathered, NoMemory, Sink, StdSink};
use std::alloc::Global;

/// The text of a labels part with these labels of the nodes of a network, in their order, under a
/// heading that names their code. The one error is want of memory.
pub fn write_labels(
    alloc: Global,
    net: &Network,
    labels: &LabelStore,
    code: CodeName,
) -> Result<Vec<u8>, NoMemory>
    requires { length labels.now ≡ length net.now }
    ensures text { IfOk result (λ text.
        text.items ≡ labels_text (labelling_of code (named (ids_of net.now) labels.now))) }
    ensures fits { OnOk result (bits_together labels.now ≤ MAX_BITS
        → All FitsLabel (named (ids_of net.now) labels.now)) }
{
    of_32_bits(net);
    let mut sink = StdSink::new(Vec::new(alloc));
    match stream_labels(net, labels, code, &mut sink) {
        Ok(()) => Ok(sink.into_writer()),
        Err(Fault) => Err(NoMemory),
    }
}

// The identities of nodes are below 2^32.
fn of_32_bits(net: &Network)
    ensures { All (λ id. id < 2 ^ 32) (ids_of net.now) }
{
    for place in 0..net.len() {
        is_small(net.node(place).0);
    }
}

fn is_small(number: u32)
    ensures { number < 2 ^ 32 }
{}

/// Writes the text of a labels part with these labels of the nodes of a network, in their order, up
/// to the last node or the last label, under a heading that names their code. It takes no memory.
///
/// `Fault` comes only where the sink's count of faults rose in this call; the sink has then taken a
/// front of the text, but not all. A sink that is sure of so many bytes takes all.
pub fn stream_labels<K: Sink>(
    net: &Network,
    labels: &LabelStore,
    code: CodeName,
    sink: &mut K,
) -> Result<(), Fault>
    ensures all { OnOk result (Appends (K.taken sink.old) (K.taken sink.new)
        (labels_text (labelling_of code (named (ids_of net.now) labels.now)))) }
    ensures part { OnErr result (AppendsPart (K.taken sink.old) (K.taken sink.new)
        (labels_text (labelling_of code (named (ids_of net.now) labels.now)))) }
    ensures fault { OnErr result (Rose (K.faults sink.old) (K.faults sink.new)) }
    ensures never_falls { K.faults sink.old ≤ K.faults sink.new }
    ensures sure { (most : ℕ) → K.IsSureOf sink.old most
        → length (labels_text (labelling_of code (named (ids_of net.now) labels.now))) ≤ most
        → MatchResult result (λ _. StaysSure (K.IsSureOf sink.new)
        (most - length (labels_text (labelling_of code (named (ids_of net.now) labels.now))))
        (K.faults sink.old) (K.faults sink.new)) (λ _. ⊥) }
{
    let mut gathered = Gathered::new();
    put_lines(net, labels, code, sink, &mut gathered)?;
    gathered.flush(sink)
}

fn put_lines<K: Sink>(
    net: &Network,
    labels: &LabelStore,
    code: CodeName,
    sink: &mut K,
    gathered: &mut Gathered,
) -> Result<(), Fault>
    ensures { Writes gathered.old gathered.new (K.taken sink.old) (K.taken sink.new)
        (K.faults sink.old) (K.faults sink.new) (K.IsSureOf sink.old) (K.IsSureOf sink.new)
        result (labels_text (labelling_of code (named (ids_of net.now) labels.now))) }
{
    gathered.put(sink, heading_line(code))?;
    let count = net.len().min(labels.len());
    for place in 0..count {
        put_label(sink, gathered, net.node(place).0, &labels.bits(place))?;
    }
    gathered.put(sink, b"end\n")
}

fn put_label<K: Sink>(
    sink: &mut K,
    gathered: &mut Gathered,
    id: u32,
    bits: &Bits<'_>,
) -> Result<(), Fault>
    ensures { Writes gathered.old gathered.new (K.taken sink.old) (K.taken sink.new)
        (K.faults sink.old) (K.faults sink.new) (K.IsSureOf sink.old) (K.IsSureOf sink.new)
        result (text_of (label_line (record { id = id; bits = bits.now }) ∷ [])) }
{
    gathered.put_numbered(sink, b"label ", id as u64)?;
    gathered.put_numbered(sink, b" ", bits.len() as u64)?;
    gathered.put(sink, b" ")?;
    put_word(sink, gathered, bits)?;
    gathered.put(sink, b"\n")
}

fn put_word<K: Sink>(sink: &mut K, gathered: &mut Gathered, bits: &Bits<'_>) -> Result<(), Fault>
    ensures { Writes gathered.old gathered.new (K.taken sink.old) (K.taken sink.new)
        (K.faults sink.old) (K.faults sink.new) (K.IsSureOf sink.old) (K.IsSureOf sink.new)
        result (hex_word bits.now) }
{
    if bits.is_empty() {
        return gathered.put(sink, b"-");
    }
    put_digits(sink, gathered, bits)
}

fn put_digits<K: Sink>(sink: &mut K, gathered: &mut Gathered, bits: &Bits<'_>) -> Result<(), Fault>
    ensures { Writes gathered.old gathered.new (K.taken sink.old) (K.taken sink.new)
        (K.faults sink.old) (K.faults sink.new) (K.IsSureOf sink.old) (K.IsSureOf sink.new)
        result (hex_digits bits.now) }
{
    for k in 0..bits.len().div_ceil(64) {
        let (digits, count) = bits.hex_word(k);
        gathered.put_front(sink, &digits, count)?;
    }
    Ok(())
}
