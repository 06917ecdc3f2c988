//! Whether networks have bridges, at worked examples.

use pls_diameter_bridges::Bridgeless;
use pls_graph::{Network, node_apart};
use pls_netfile::read_network;
use pls_scheme::Property;
use std::alloc::Global;
use std::test::Fail;

// The edges of networks whose nodes have the identities from 1.
const NO_EDGE: &[(u32, u32)] = &[];

const PATH: &[(u32, u32)] = &[(1, 2), (2, 3), (3, 4)];

const RING: &[(u32, u32)] = &[(1, 2), (2, 3), (3, 4), (4, 5), (1, 5)];

const TAIL_AT_THE_LAST: &[(u32, u32)] = &[(1, 2), (2, 3), (3, 4), (4, 5), (1, 5), (5, 6)];

const TAIL_AT_THE_FIRST: &[(u32, u32)] = &[(1, 2), (2, 3), (3, 4), (4, 5), (5, 6), (2, 6)];

const TWO_RINGS_APART: &[(u32, u32)] = &[(1, 2), (2, 3), (1, 3), (3, 4), (4, 5), (5, 6), (4, 6)];

const TWO_RINGS_AT_A_NODE: &[(u32, u32)] = &[(1, 2), (2, 3), (1, 3), (3, 4), (4, 5), (3, 5)];

const ALL_OF_FOUR: &[(u32, u32)] = &[(1, 2), (1, 3), (1, 4), (2, 3), (2, 4), (3, 4)];

fn network(alloc: Global, nodes: u32, edges: &[(u32, u32)]) -> Result<Network, Fail> {
    let mut text = String::from_str(alloc, "network\n")?;
    for id in 0..nodes {
        let id = id.saturating_add(1);
        text.push_str(format!(in alloc; "node {id} - 0 0\n")?.as_str())?;
        for (one, two) in edges {
            if *one == id {
                text.push_str(format!(in alloc; "port {two} 1\n")?.as_str())?;
            }
            if *two == id {
                text.push_str(format!(in alloc; "port {one} 1\n")?.as_str())?;
            }
        }
    }
    text.push_str("end\n")?;
    match read_network(alloc, text.as_bytes()) {
        Ok(net) => Ok(net),
        Err(_) => Err(Fail::from("refused")),
    }
}

fn is_bridgeless(alloc: Global, net: &Network) -> Result<bool, Fail> {
    match node_apart(alloc, net)? {
        None => Ok(Bridgeless::new().decide(alloc, net)?),
        Some(_) => Err(Fail::from("not connected")),
    }
}

// So many nodes with these edges, and whether they have no bridge.
const NETWORKS: &[(u32, &[(u32, u32)], bool)] = &[
    (1, NO_EDGE, true),
    (4, PATH, false),
    (5, RING, true),
    (6, TAIL_AT_THE_LAST, false),
    (6, TAIL_AT_THE_FIRST, false),
    (6, TWO_RINGS_APART, false),
    (5, TWO_RINGS_AT_A_NODE, true),
    (4, ALL_OF_FOUR, true),
];

#[test]
fn bridges_are_found(rt: HostRuntime) -> Result<(), Fail> {
    for (nodes, edges, due) in NETWORKS {
        let net = network(rt.alloc(), *nodes, edges)?;
        assert!(rt;
            is_bridgeless(rt.alloc(), &net)? == *due,
            "{nodes} nodes, {due}"
        );
    }
    Ok(())
}
