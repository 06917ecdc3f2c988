//! Texts of labels for a network of three nodes: what is read, and why others are refused.

use super::{line_of, network};
use pls_graph::Network;
use pls_labelfile::{
    MAX_BITS, read_labels, scan_labels, stream_labels, write_labels, written_is_read,
};
use pls_lines::Lines;
use pls_streams::{Fault, MemSink, Sink, TextError};
use std::alloc::Global;
use std::process::Abort;
use std::test::Fail;

// The nodes 1, 20 and 21, without edges.
const THREE: &str = "network\nnode 1 - 0 0\nnode 20 - 0 0\nnode 21 - 0 0\nend\n";

// Reads labels from `text` and writes them out again.
fn labels_text(alloc: Global, net: &Network, text: &[u8]) -> Result<Vec<u8>, Fail> {
    let (code, labels) = read_labels(alloc, text, net)?;
    Ok(write_labels(alloc, net, &labels, code)?)
}

// How many labels are read back from the written text, and their bits together.
fn read_again(alloc: Global, net: &Network, text: &[u8]) -> Result<(usize, u64), Fail> {
    let (code, labels) = read_labels(alloc, text, net)?;
    if labels.total() > MAX_BITS {
        return Err(Fail::from("too many bits"));
    }
    let (_, again) = written_is_read(alloc, net, &labels, code)?;
    Ok((again.len(), again.total()))
}

// Texts of three labels, with 18 bits together.
const TEXTS: &[&str] = &[
    "labels\nlabel 1 17 318d80\nlabel 20 0 -\nlabel 21 1 00\nend\n",
    "labels delta\nlabel 1 17 318d80\nlabel 20 0 -\nlabel 21 1 00\nend\n",
];

// Asserts that `text` is written back unchanged, with 3 labels of 18 bits together.
fn assert_written(rt: &impl Abort, alloc: Global, net: &Network, text: &str) -> Result<(), Fail> {
    let bytes = text.as_bytes();
    assert!(rt;
        labels_text(alloc, net, bytes)?.as_slice() == bytes,
        "the text {text}"
    );
    assert!(rt;
        read_again(alloc, net, bytes)? == (3, 18),
        "read again: {text}"
    );
    Ok(())
}

#[test]
fn the_text_that_was_read_is_written(rt: HostRuntime) -> Result<(), Fail> {
    let net = network(rt.alloc(), THREE)?;
    for text in TEXTS {
        assert_written(&rt, rt.alloc(), &net, text)?;
    }
    Ok(())
}

// Labels of the three nodes, the first of 20,000 bits.
fn long_text(alloc: Global) -> Result<String, Fail> {
    let mut text = String::new(alloc);
    text.push_str("labels\nlabel 1 20000 ")?;
    for _ in 0..500 {
        text.push_str("0123456789")?;
    }
    text.push_str("\nlabel 20 0 -\nlabel 21 0 -\nend\n")?;
    Ok(text)
}

// Reads labels from `text` and streams them; the inner result is the sink's.
fn stream<K: Sink>(
    alloc: Global,
    net: &Network,
    text: &[u8],
    sink: &mut K,
) -> Result<Result<(), Fault>, Fail> {
    let (code, labels) = read_labels(alloc, text, net)?;
    Ok(stream_labels(net, &labels, code, sink))
}

// `fails` numbers the failing writes from 1; the length written is `None` if it is no front of
// `text`.
fn stream_with_faults(
    alloc: Global,
    net: &Network,
    text: &[u8],
    fails: Vec<u64>,
) -> Result<(Result<(), Fault>, Option<usize>), Fail> {
    let mut sink = MemSink::new(alloc, 5100, 4096, fails)?;
    let end = stream(alloc, net, text, &mut sink)?;
    let bytes = sink.bytes();
    Ok((end, text.starts_with(bytes).then_some(bytes.len())))
}

// Asserts that `text` is streamed whole, or cut where the second write fails.
fn assert_pieces(rt: &impl Abort, alloc: Global, net: &Network, text: &[u8]) -> Result<(), Fail> {
    let (whole, length) = stream_with_faults(alloc, net, text, Vec::new(alloc))?;
    assert!(rt; whole.is_ok(), "all is taken");
    assert!(rt; length == Some(text.len()), "the text");
    let (torn, length) = stream_with_faults(alloc, net, text, vec![in alloc; 2]?)?;
    assert!(rt; torn == Err(Fault), "the second write fails");
    assert!(rt;
        length == Some(4085),
        "a front of the text, which is all that the first write had"
    );
    Ok(())
}

#[test]
fn a_long_text_is_written_in_pieces(rt: HostRuntime) -> Result<(), Fail> {
    let net = network(rt.alloc(), THREE)?;
    let text = long_text(rt.alloc())?;
    assert_pieces(&rt, rt.alloc(), &net, text.as_bytes())
}

// Texts that are no labels', and the first faulty line of each.
const FAULTY: &[(&str, u64)] = &[
    ("", 1),
    ("labels", 1),
    ("label 1 0 -\n", 1),
    ("labels \nend\n", 1),
    ("labels gamma\nend\n", 1),
    ("labels delta \nend\n", 1),
    ("labels delta", 1),
    ("labels delta\nlabel 1 0\nend\n", 2),
    ("labels\n", 2),
    ("labels\nend", 2),
    ("labels\n\nend\n", 2),
    ("labels\nlabel 1 0\nend\n", 2),
    ("labels\nlabel 1 0 \nend\n", 2),
    ("labels\nlabel 1 0 - \nend\n", 2),
    ("labels\nlabel  1 0 -\nend\n", 2),
    ("labels\nlabel 01 0 -\nend\n", 2),
    ("labels\nlabel 4294967296 0 -\nend\n", 2),
    ("labels\nlabel 1 268435457 00\nend\n", 2),
    ("labels\nlabel 1 0 00\nend\n", 2),
    ("labels\nlabel 1 1 -\nend\n", 2),
    ("labels\nlabel 1 1 8\nend\n", 2),
    ("labels\nlabel 1 1 8000\nend\n", 2),
    ("labels\nlabel 1 1 40\nend\n", 2),
    ("labels\nlabel 1 4 F0\nend\n", 2),
    ("labels\nlabel 1 0 -\nlabel 20 0 -", 3),
    ("labels\nlabel 20 0 -\nlabel 1 0 x\nend\n", 3),
    (
        "labels\nlabel 1 0 -\nlabel 20 0 -\nlabel 21 0 -\nend\n\n",
        6,
    ),
    (
        "labels\nlabel 1 0 -\nlabel 20 0 -\nlabel 21 0 -\nend\nend\n",
        6,
    ),
];

// Parts, and the first faulty line of each where only the gamma code may be named, 0 where there is
// none.
const GAMMA_ALONE: &[(&str, u64)] = &[
    ("labels\nlabel 1 0 -\nend\n", 0),
    ("labels\nlabel 1 0\nend\n", 2),
    ("labels delta\nlabel 1 0 -\nend\n", 1),
    ("labels delta\nlabel 1 0\nend\n", 1),
    ("labels delta", 1),
];

#[test]
fn the_delta_code_is_named_where_it_may_be(rt: HostRuntime) {
    for (text, line) in GAMMA_ALONE {
        let read = scan_labels(&mut Lines::new(text.as_bytes()), false);
        assert!(rt; line_of(&read) == *line, "line {line} of {text}");
    }
}

// The first label that is not that of a node of the three: a text, and its line.
const OTHER: &[(&str, u64)] = &[
    ("labels\nend\n", 2),
    ("labels\nlabel 20 0 -\nlabel 1 0 -\nlabel 21 0 -\nend\n", 2),
    ("labels\nlabel 1 0 -\nlabel 1 0 -\nend\n", 3),
    ("labels\nlabel 1 0 -\nlabel 20 0 -\nend\n", 4),
    (
        "labels\nlabel 1 0 -\nlabel 20 0 -\nlabel 21 0 -\nlabel 22 0 -\nend\n",
        5,
    ),
];

#[test]
fn the_first_faulty_line_is_named(rt: HostRuntime) -> Result<(), Fail> {
    let net = network(rt.alloc(), THREE)?;
    for (text, line) in FAULTY {
        let read = read_labels(rt.alloc(), text.as_bytes(), &net);
        assert!(rt; line_of(&read) == *line, "line {line} of {text}");
    }
    Ok(())
}

#[test]
fn the_first_label_of_another_node_is_named(rt: HostRuntime) -> Result<(), Fail> {
    let net = network(rt.alloc(), THREE)?;
    for (text, place) in OTHER {
        let (number, place) = (20, *place);
        let read = read_labels(rt.alloc(), text.as_bytes(), &net);
        let due = TextError::Sense { number, place };
        assert!(rt; read.err() == Some(due), "line {place} of {text}");
    }
    Ok(())
}
