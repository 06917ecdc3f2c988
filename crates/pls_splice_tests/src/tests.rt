//! Tests of rings, of pairs of edges that may be crossed, and of crossing them.

ghost use Rattle.pls_splice.specs.Ring.{IsRingOrder};

mod crossing;
mod large;
mod rings;
mod small;

use pls_bits::BitBuf;
use pls_graph::Network;
use pls_labels::LabelStore;
use pls_netfile::read_network;
use pls_splice::{Pair, Ring, cross, find_pair, leaderless, two_rings, views_stay};
use std::alloc::{AllocError, Global};
use std::test::Fail;

fn network(alloc: Global, text: &str) -> Result<Network, Fail> {
    match read_network(alloc, text.as_bytes()) {
        Ok(net) => Ok(net),
        Err(_) => Err(Fail::from("refused")),
    }
}

// Nodes 1 to `count`, the first one marked. Port 0 leads to the node before, but to node 2 from
// node 1; weights are 1.
fn plain_ring(alloc: Global, count: u32) -> Result<Network, Fail> {
    let mut text = String::new(alloc);
    write_plain_ring(&mut text, count)?;
    network(alloc, text.as_str())
}

fn write_plain_ring(text: &mut String, count: u32) -> Result<(), AllocError> {
    write!(text, "network\nnode 1 - 1 0\nport 2 1\nport {count} 1\n")?;
    for id in 2..count {
        let before = id - 1;
        let behind = id + 1;
        write!(text, "node {id} - 0 0\nport {before} 1\nport {behind} 1\n")?;
    }
    let before = count.wrapping_sub(1);
    write!(text, "node {count} - 0 0\nport {before} 1\nport 1 1\nend\n")
}

// Label `i` has the lowest `width` bits of word `i`, the lowest first.
fn labels_of(alloc: Global, words: &[u32], width: u32) -> Result<LabelStore, Fail> {
    let mut labels = LabelStore::blank(alloc, words.len())?;
    put_words(alloc, &mut labels, words, width)?;
    Ok(labels)
}

fn put_words(
    alloc: Global,
    labels: &mut LabelStore,
    words: &[u32],
    width: u32,
) -> Result<(), Fail> {
    for (i, word) in words.iter().enumerate() {
        if i < labels.len() {
            labels.replace(i, &bits_of(alloc, *word, width)?)?;
        }
    }
    Ok(())
}

// The lowest `width` bits, the lowest first.
fn bits_of(alloc: Global, word: u32, width: u32) -> Result<BitBuf, Fail> {
    let mut bits = BitBuf::new(alloc);
    let mut rest = word;
    for _ in 0..width {
        bits.push(rest % 2 == 1)?;
        rest /= 2;
    }
    Ok(bits)
}

// The first two edges that may be crossed, with the crossed network; `None` where there are none.
fn first_crossing(
    alloc: Global,
    ring: &Ring,
    net: &Network,
    labels: &LabelStore,
) -> Result<Option<(Pair, Network)>, Fail>
    requires { IsRingOrder net.now ring.now }
{
    if labels.len() != net.len() {
        return Err(Fail::from("not as many labels"));
    }
    let Some(pair) = find_pair(alloc, ring, net, labels)? else {
        return Ok(None);
    };
    views_stay(ring, net, labels, pair);
    leaderless(ring, net, labels, pair);
    two_rings(ring, net, labels, pair);
    Ok(Some((pair, cross(alloc, ring, net, labels, pair)?)))
}

fn crossing_in(
    alloc: Global,
    net: &Network,
    labels: &LabelStore,
) -> Result<Option<(Pair, Network)>, Fail> {
    match Ring::read(alloc, net) {
        Ok(ring) => first_crossing(alloc, &ring, net, labels),
        Err(_) => Err(Fail::from("no ring")),
    }
}

fn plain_crossing(
    alloc: Global,
    count: u32,
    words: &[u32],
    width: u32,
) -> Result<Option<(Pair, Network)>, Fail> {
    let net = plain_ring(alloc, count)?;
    crossing_in(alloc, &net, &labels_of(alloc, words, width)?)
}
