//! How two edges are found that may be crossed.

ghost use Rattle.std.specs.Prelude.{◌≡◌, ◌+◌, ◌≤◌, ◌<◌, ◌^◌, IfOk, IfNone, IfSome, length};
ghost use Rattle.pls_splice.specs.Crossing.{HasNoPair, IsFirstPair};
ghost use Rattle.pls_splice.specs.Ring.{IsRingOrder};
ghost use Rattle.pls_splice.specs.inner.Finding.{AreKeys, with_edge};
ghost use Rattle.pls_splice.specs.inner.Keys.{edge_key};

use crate::edge_key::edge_key;
use crate::ring::Ring;
use pls_facts::is_valid;
use pls_graph::Network;
use pls_labels::LabelStore;
use pls_streams::NoMemory;
use std::alloc::Global;
use std::collections::HashMap;

/// Two edges of a ring, by their numbers.
#[derive(Clone, Copy, Debug, PartialEq, Eq)]
pub struct Pair {
    /// The edge with the smaller number.
    pub first: u32,
    /// The other edge.
    pub second: u32,
}

/// The first two edges that may be crossed: no smaller first edge goes with any other, and no
/// smaller second edge with this first one. `None` where no two may be crossed. Edges that agree in
/// weight and labels are found by a hash of these, so the expected time is linear in the bits of
/// all labels. The one error is want of memory.
pub fn find_pair(
    alloc: Global,
    ring: &Ring,
    net: &Network,
    labels: &LabelStore,
) -> Result<Option<Pair>, NoMemory>
    requires read { IsRingOrder net.now ring.now }
    requires each { length labels.now ≡ length net.now }
    ensures none { IfOk result (λ found. IfNone found (HasNoPair net.now labels.now ring.now)) }
    ensures pair { IfOk result (λ found. IfSome found
        (λ pair. IsFirstPair net.now labels.now ring.now pair.first pair.second)) }
{
    is_valid(net);
    let count = ring.order().len();
    let tails = count.saturating_sub(3);
    // For each key the first edge that has it, of those at least 3 behind the edge at hand.
    let mut later = HashMap::new(alloc);
    let mut found = None;
    let mut keys = edge_keys(alloc, ring, net, labels)?;
    for turn in 0..tails {
        let i = tails - 1 - turn;
        // The last key that is left is that of edge `i + 3`.
        match keys.pop() {
            Some(far) => later.insert(far, (i + 3) as u32)?,
            None => unreachable!(),
        };
        found = with_edge(found, i, later.get(&keys[i]).copied(), count);
    }
    Ok(found)
}

fn edge_keys(
    alloc: Global,
    ring: &Ring,
    net: &Network,
    labels: &LabelStore,
) -> Result<Vec<Vec<u64>>, NoMemory>
    requires read { IsRingOrder net.now ring.now }
    requires each { length labels.now ≡ length net.now }
    ensures many { IfOk result (λ keys. length keys.items ≡ length ring.now) }
    ensures keys { IfOk result (λ keys. AreKeys (λ words. words.items) keys.items
        (edge_key net.now labels.now ring.now)) }
{
    let mut keys = Vec::new(alloc);
    for i in 0..ring.order().len() {
        keys.push(edge_key(alloc, ring, net, labels, i)?)?;
    }
    Ok(keys)
}

// `found` is the first pair behind edge `i`, and `j` the nearest equal edge far enough behind `i`.
// If `j` is too far, so is each later one.
fn with_edge(found: Option<Pair>, i: usize, j: Option<u32>, count: usize) -> Option<Pair>
    requires within { i + 3 ≤ count }
    requires small { count < 2 ^ 32 }
    ensures { result ≡ with_edge found i j count }
{
    match j {
        Some(second) if second as usize + 3 <= count + i => Some(Pair {
            first: i as u32,
            second,
        }),
        _ => found,
    }
}
