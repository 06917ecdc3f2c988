//! Labels with more levels than one pass over the ports asks for.

use super::connected_network;
use pls_bits::{BitBuf, Gamma};
use pls_graph::Network;
use pls_labels::{LabelStore, View};
use pls_numbers::append_numbers;
use pls_pathmax::PathMax;
use pls_scheme::{Checker, Verdict};
use pls_streams::Steps;
use std::alloc::Global;
use std::test::Fail;

// Two nodes, the second of which points at the first.
const PAIR: &str = "network\nnode 1 - 0 0\nport 2 1\nnode 2 0 0 0\nport 1 1\nend\n";

// The first node's own level, 150 times.
fn first_label(alloc: Global) -> Result<BitBuf, Fail> {
    let mut bits = BitBuf::new(alloc);
    append_numbers::<Gamma>(&mut bits, &[1, 1, 1, 0, 150])?;
    for _ in 0..150 {
        append_numbers::<Gamma>(&mut bits, &[1, 0, 0])?;
    }
    Ok(bits)
}

// On 150 levels the first node is the centroid, one hop away over weight 1; level `lie` says two
// hops.
fn second_label(alloc: Global, lie: Option<u32>) -> Result<BitBuf, Fail> {
    let mut bits = BitBuf::new(alloc);
    append_numbers::<Gamma>(&mut bits, &[1, 2, 1, 1, 150])?;
    for level in 0..150 {
        if lie == Some(level) {
            append_numbers::<Gamma>(&mut bits, &[1, 2, 1])?;
        } else {
            append_numbers::<Gamma>(&mut bits, &[1, 1, 1])?;
        }
    }
    Ok(bits)
}

// Judges a view, not a round; `None` where there is no such node.
fn verdict_at(
    alloc: Global,
    net: &Network,
    labels: &LabelStore,
    i: usize,
) -> Result<Option<Verdict>, Fail> {
    if i >= net.len() || labels.len() != net.len() {
        return Ok(None);
    }
    let view = View::of(alloc, net, labels, i)?;
    let scheme = PathMax::<Gamma>::new();
    Ok(Some(scheme.verify(alloc, &view, &mut Steps::new())?))
}

// Whether the first node accepts and the second gives this verdict, in a round and by views.
fn are_given(alloc: Global, lie: Option<u32>, second: Verdict) -> Result<bool, Fail> {
    let net = connected_network(alloc, PAIR)?;
    let mut labels = LabelStore::blank(alloc, net.len())?;
    if net.len() != 2 {
        return Err(Fail::from("other nodes"));
    }
    labels.replace(0, &first_label(alloc)?)?;
    labels.replace(1, &second_label(alloc, lie)?)?;
    if labels.len() != net.len() {
        return Err(Fail::from("other labels"));
    }
    let scheme = PathMax::<Gamma>::new();
    let verdicts = scheme.round(alloc, &net, &labels, &mut Steps::new())?;
    for (i, verdict) in verdicts.iter().enumerate() {
        if verdict_at(alloc, &net, &labels, i)? != Some(*verdict) {
            return Err(Fail::from("two verdicts"));
        }
    }
    Ok(verdicts.get(0) == Some(&Verdict::Accept) && verdicts.get(1) == Some(&second))
}

#[test]
fn each_level_is_asked(rt: HostRuntime) -> Result<(), Fail> {
    assert!(rt; are_given(rt.alloc(), None, Verdict::Accept)?, "no lie");
    let fails = Verdict::Reject { leaf: 1, rule: 5 };
    for level in [0, 63, 64, 127, 128, 149] {
        assert!(rt;
            are_given(rt.alloc(), Some(level), fails)?,
            "a lie on level {level}"
        );
    }
    Ok(())
}
