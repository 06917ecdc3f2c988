//! Networks of several components: the components by themselves, and what is marked of them.

use super::network;
use pls_bits::Gamma;
use pls_colour::{Acyclic, Bipartite};
use pls_components::{
    Components, IdList, MarkResult, bound_parts, components, mark_parts, room_parts,
};
use pls_graph::{Network, node_apart};
use pls_labels::LabelStore;
use pls_scheme::Scheme;
use pls_streams::NoMemory;
use std::alloc::Global;
use std::process::Abort;
use std::test::Fail;

// Two nodes with an edge, and one alone.
const PAIR_AND_ONE: &str = "network\nnode 1 - 0 0\nport 2 1\nnode 2 - 0 0\nport 1 1\n\
                            node 3 - 1 0\nend\n";

// The triangles 1, 4, 6 and 2, 5, 8, and the pair 3, 7.
const EIGHT: &str = "network\nnode 1 - 0 0\nport 4 1\nport 6 1\nnode 2 - 0 0\nport 5 1\nport 8 1\n\
                     node 3 - 0 0\nport 7 1\nnode 4 - 0 0\nport 1 1\nport 6 1\n\
                     node 5 - 0 0\nport 2 1\nport 8 1\nnode 6 - 0 0\nport 1 1\nport 4 1\n\
                     node 7 - 0 0\nport 3 1\nnode 8 - 0 0\nport 2 1\nport 5 1\nend\n";

// A network that is one component, in which no node is 0 or 1.
const TRIANGLE: &str =
    "network\nnode 2 - 0 0\nport 5 1\nport 8 1\nnode 5 - 0 0\nport 2 1\nport 8 1\n\
                        node 8 - 0 0\nport 2 1\nport 5 1\nend\n";

fn has_places(parts: &Components, k: usize, places: &[u32]) -> bool {
    k < parts.len() && parts.members(k) == places
}

// Networks, and at which places their components have their nodes.
const PLACES: &[(&str, &[&[u32]])] = &[
    (PAIR_AND_ONE, &[&[0, 1], &[2]]),
    (EIGHT, &[&[0, 3, 5], &[1, 4, 7], &[2, 6]]),
    (TRIANGLE, &[&[0, 1, 2]]),
];

fn assert_places(rt: &impl Abort, parts: &Components, due: &[&[u32]]) {
    assert!(rt; parts.len() == due.len(), "{} components", due.len());
    for (k, places) in due.iter().enumerate() {
        assert!(rt;
            has_places(parts, k, places),
            "component {k} of {}",
            due.len()
        );
    }
}

#[test]
fn components_come_by_their_smallest_identities(rt: HostRuntime) -> Result<(), Fail> {
    for (text, due) in PLACES {
        let parts = components(rt.alloc(), &network(rt.alloc(), text)?)?;
        assert_places(&rt, &parts, due);
    }
    Ok(())
}

fn second_part(alloc: Global, net: &Network) -> Result<Network, Fail> {
    let three = components(alloc, net)?;
    if three.len() != 3 {
        return Err(Fail::from("not three components"));
    }
    Ok(three.part(alloc, net, 1)?)
}

#[test]
fn a_component_is_a_connected_network(rt: HostRuntime) -> Result<(), Fail> {
    let part = second_part(rt.alloc(), &network(rt.alloc(), EIGHT)?)?;
    assert!(rt;
        part.len() == 3 && part.place_of(8) == Some(2),
        "2, 5 and 8"
    );
    assert!(rt;
        node_apart(rt.alloc(), &part) == Ok(None),
        "it is connected"
    );
    Ok(())
}

fn colouring(alloc: Global, text: &str) -> Result<MarkResult, Fail> {
    let net = network(alloc, text)?;
    let parts = components(alloc, &net)?;
    Ok(mark_parts(alloc, &Bipartite::<Gamma>::new(), &net, &parts)?)
}

fn assert_labels(
    rt: &impl Abort,
    alloc: Global,
    labels: &LabelStore,
    due: &[&str],
) -> Result<(), Fail> {
    assert!(rt; labels.len() == due.len(), "{} labels", due.len());
    for (place, due) in due.iter().enumerate() {
        let hex = labels.bits(place).to_hex(alloc)?;
        assert!(rt;
            hex.as_bytes() == due.as_bytes(),
            "the label at place {place}"
        );
    }
    Ok(())
}

#[test]
fn each_component_is_marked_by_itself(rt: HostRuntime) -> Result<(), Fail> {
    match colouring(rt.alloc(), PAIR_AND_ONE)? {
        MarkResult::Labels(labels) => assert_labels(&rt, rt.alloc(), &labels, &["00", "80", "00"]),
        MarkResult::Lacking(_) => Err(Fail::from("not marked")),
    }
}

// The smallest identity of each component without a colouring.
fn not_coloured(alloc: Global, text: &str) -> Result<IdList, Fail> {
    match colouring(alloc, text)? {
        MarkResult::Labels(_) => Err(Fail::from("marked")),
        MarkResult::Lacking(ids) => Ok(ids),
    }
}

#[test]
fn all_components_that_lack_the_property_are_named(rt: HostRuntime) -> Result<(), Fail> {
    let ids = not_coloured(rt.alloc(), EIGHT)?;
    assert!(rt; ids.as_slice() == [1, 2].as_slice(), "the two triangles");
    Ok(())
}

// The greatest number of bits of one label, with each component marked by itself.
fn bound<S: Scheme>(alloc: Global, scheme: &S, net: &Network) -> Result<u64, NoMemory> {
    let parts = components(alloc, net)?;
    Ok(bound_parts(scheme, net, &parts))
}

// The greatest number of bits of all labels together.
fn room<S: Scheme>(alloc: Global, scheme: &S, net: &Network) -> Result<u64, NoMemory> {
    let parts = components(alloc, net)?;
    Ok(room_parts(scheme, net, &parts))
}

// `bound` and `room` of the network in `text`.
fn bounds<S: Scheme>(alloc: Global, scheme: &S, text: &str) -> Result<(u64, u64), Fail> {
    let net = network(alloc, text)?;
    Ok((bound(alloc, scheme, &net)?, room(alloc, scheme, &net)?))
}

// Depths up to 3 have 5 bits in the gamma code, and those up to 2 have 3.
#[test]
fn bounds_are_those_of_the_components(rt: HostRuntime) -> Result<(), Fail> {
    let acyclic = Acyclic::<Gamma>::new();
    assert!(rt;
        bounds(rt.alloc(), &acyclic, EIGHT)? == (5, 36),
        "5 bits a label, and 36 together"
    );
    Ok(())
}

#[test]
fn a_connected_network_is_one_component(rt: HostRuntime) -> Result<(), Fail> {
    let ids = not_coloured(rt.alloc(), TRIANGLE)?;
    assert!(rt; ids.as_slice() == [2].as_slice(), "the smallest identity");
    let bipartite = Bipartite::<Gamma>::new();
    assert!(rt;
        bounds(rt.alloc(), &bipartite, TRIANGLE)? == (1, 3),
        "a bit a label, and 3 together"
    );
    Ok(())
}
