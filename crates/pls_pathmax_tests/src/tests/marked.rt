//! Labels of the scheme `pathmax` of small networks, worked out by hand, and labels that lie.

use super::connected_network;
use pls_bits::{BitBuf, Gamma, from_hex};
use pls_graph::Network;
use pls_labels::LabelStore;
use pls_pathmax::PathMax;
use pls_scheme::{Checker, Scheme, Verdict, certifies};
use pls_streams::{NoMemory, Steps};
use std::alloc::Global;
use std::test::Fail;

// A node alone.
const ALONE: &str = "network\nnode 5 - 0 0\nend\n";

// Each of three nodes joined to the others; the last points at the second.
const TRIANGLE: &str = "network\nnode 1 - 0 0\nport 2 7\nport 3 7\nnode 2 0 0 0\nport 1 7\n\
                        port 3 7\nnode 3 1 0 0\nport 1 7\nport 2 7\nend\n";

// Three nodes, each joined to the others, where the edge between the first and the third is lighter
// than the two that are pointed along.
const HEAVY: &str = "network\nnode 1 - 0 0\nport 2 2\nport 3 1\nnode 2 0 0 0\nport 1 2\nport 3 2\n\
                     node 3 1 0 0\nport 1 1\nport 2 2\nend\n";

// Two nodes without an edge of the tree between them.
const ROOTS: &str = "network\nnode 1 - 0 0\nport 2 1\nnode 2 - 0 0\nport 1 1\nend\n";

// The length and hex digits of each label, then a bar.
fn text_of(alloc: Global, labels: &LabelStore) -> Result<String, NoMemory> {
    let mut text = String::new(alloc);
    for i in 0..labels.len() {
        let bits = labels.bits(i);
        let digits = bits.to_hex(alloc)?;
        let part = format!(in alloc; "{} {}|", bits.len(), digits.as_str())?;
        text.push_str(&part)?;
    }
    Ok(text)
}

// `no` where the network is not marked; fails where a node rejects its label.
fn marked_labels(alloc: Global, text: &str) -> Result<String, Fail> {
    let scheme = PathMax::<Gamma>::new();
    let net = connected_network(alloc, text)?;
    let Some(labels) = scheme.mark(alloc, &net)? else {
        return Ok(format!(in alloc; "no")?);
    };
    if !certifies(alloc, &scheme, &net, &labels, &mut Steps::new())? {
        return Err(Fail::from("rejected"));
    }
    Ok(text_of(alloc, &labels)?)
}

// Networks, and their labels.
const MARKED: &[(&str, &str)] = &[
    (ALONE, "26 318d46c0|"),
    (TRIANGLE, "31 495b4216|20 4d24f0|37 446db42098|"),
    (HEAVY, "no"),
    (ROOTS, "no"),
];

#[test]
fn marked_labels_are_those_of_small_networks(rt: HostRuntime) -> Result<(), Fail> {
    for (text, due) in MARKED {
        assert!(rt;
            marked_labels(rt.alloc(), text)?.as_str() == *due,
            "labels of {text}"
        );
    }
    Ok(())
}

fn label(alloc: Global, len: usize, digits: &str) -> Result<BitBuf, Fail> {
    match from_hex(alloc, len, digits.as_bytes()) {
        Ok(bits) => Ok(bits),
        Err(_) => Err(Fail::from("other digits")),
    }
}

// `-` for a node that accepts, else the number of the rule.
fn verdicts_text(alloc: Global, net: &Network, digits: &[(usize, &str)]) -> Result<String, Fail> {
    let mut labels = LabelStore::blank(alloc, net.len())?;
    for (i, (len, text)) in digits.iter().enumerate() {
        if i < labels.len() {
            labels.replace(i, &label(alloc, *len, text)?)?;
        }
    }
    if labels.len() != net.len() {
        return Err(Fail::from("other labels"));
    }
    let scheme = PathMax::<Gamma>::new();
    let mut text = String::new(alloc);
    for verdict in &scheme.round(alloc, net, &labels, &mut Steps::new())? {
        let part = match verdict {
            Verdict::Accept => format!(in alloc; "-")?,
            Verdict::Reject { leaf: _, rule } => format!(in alloc; "{rule}")?,
        };
        text.push_str(&part)?;
    }
    Ok(text)
}

// Labels of three nodes, and the verdicts: marked ones; ones in which each greatest weight is at
// most 1; ones of which one cannot be read; and ones of another root.
const JUDGED: &[(&str, &[(usize, &str)], &str)] = &[
    (
        TRIANGLE,
        &[(31, "495b4216"), (20, "4d24f0"), (37, "446db42098")],
        "---",
    ),
    (
        HEAVY,
        &[(27, "495b4960"), (20, "4d24f0"), (33, "446db48980")],
        "5-5",
    ),
    (
        TRIANGLE,
        &[(31, "495b4216"), (20, "4d24f0"), (36, "446db42090")],
        "221",
    ),
    (
        TRIANGLE,
        &[(31, "495b4216"), (20, "4d24f0"), (37, "646db42098")],
        "444",
    ),
];

#[test]
fn labels_that_lie_are_rejected(rt: HostRuntime) -> Result<(), Fail> {
    for (text, labels, due) in JUDGED {
        let net = connected_network(rt.alloc(), text)?;
        let found = verdicts_text(rt.alloc(), &net, labels)?;
        assert!(rt; found.as_str() == *due, "verdicts on {text}: {found}");
    }
    Ok(())
}
