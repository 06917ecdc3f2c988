//! Least weights of walks, and shortest-path trees, by worked examples.

use super::{APART, CHAIN, CIRCLE, RING, connected_network, network};
use pls_bits::Gamma;
use pls_distance::{Spt, SptLabel};
use pls_labels::LabelStore;
use pls_scheme::Scheme;
use pls_search::distances;
use pls_streams::NoMemory;
use std::alloc::Global;
use std::test::Fail;

// The least weights of walks from the first node, `None` where none leads.
fn least(alloc: Global, text: &str) -> Result<Vec<Option<u64>>, Fail> {
    Ok(distances(alloc, &network(alloc, text)?, 0)?)
}

#[test]
fn least_weights_of_walks(rt: HostRuntime) -> Result<(), Fail> {
    // Round the ring by 4 it is 5 to node 3 as it is by 2, and 6 by the heavy edge of 2.
    let due = [Some(0), Some(1), Some(6), Some(5)];
    assert!(rt;
        least(rt.alloc(), RING)?.as_slice() == due.as_slice(),
        "ring"
    );
    let due = [Some(0), None];
    assert!(rt;
        least(rt.alloc(), APART)?.as_slice() == due.as_slice(),
        "apart"
    );
    Ok(())
}

fn marked_labels(alloc: Global, text: &str) -> Result<Option<LabelStore>, Fail> {
    Ok(Spt::<Gamma>::new().mark(alloc, &connected_network(alloc, text)?)?)
}

#[test]
fn chains_that_are_no_lightest_walks_are_not_marked(rt: HostRuntime) -> Result<(), Fail> {
    // In the ring the edge of nodes 1 and 4 is lighter than the chain; in the circle each of two
    // nodes points at the other, along an edge of weight 0.
    assert!(rt; marked_labels(rt.alloc(), RING)?.is_none(), "ring");
    assert!(rt; marked_labels(rt.alloc(), CIRCLE)?.is_none(), "circle");
    Ok(())
}

// Whether the label says root 1, this depth and this distance.
fn says(
    alloc: Global,
    labels: &LabelStore,
    place: usize,
    depth: u64,
    dist: u64,
) -> Result<bool, NoMemory> {
    if place >= labels.len() {
        return Ok(false);
    }
    let label = Spt::<Gamma>::new().read_label(alloc, labels.bits(place))?;
    let root = 1;
    Ok(label == Some(SptLabel { root, depth, dist }))
}

fn chain_says(alloc: Global, place: usize, depth: u64, dist: u64) -> Result<bool, Fail> {
    match marked_labels(alloc, CHAIN)? {
        Some(labels) => Ok(says(alloc, &labels, place, depth, dist)?),
        None => Err(Fail::from("not marked")),
    }
}

fn bound(alloc: Global, text: &str) -> Result<u64, Fail> {
    let net = network(alloc, text)?;
    Ok(Spt::<Gamma>::new().bound(&net.size()))
}

// The depths of the nodes of the chain, and their distances.
const DISTANCES: &[(u64, u64)] = &[(0, 0), (1, 1), (2, 3)];

#[test]
fn a_chain_is_marked_with_its_weights(rt: HostRuntime) -> Result<(), Fail> {
    for (place, (depth, dist)) in DISTANCES.iter().enumerate() {
        assert!(rt;
            chain_says(rt.alloc(), place, *depth, *dist)?,
            "place {place}"
        );
    }
    // The codes of the greatest identity 3, of 3 nodes, and of 3 times the greatest weight 2.
    assert!(rt; bound(rt.alloc(), CHAIN)? == 5 + 5 + 5, "bound");
    Ok(())
}
