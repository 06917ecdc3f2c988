//! Networks that are asked, with memory enough.

use super::network;
use pls_graph::{levels, node_apart};
use std::test::Fail;

// Two pairs of nodes.
const PAIRS: &str = "network\nnode 1 - 0 0\nport 4 7\nnode 4 - 0 0\nport 1 7\n\
                     node 6 - 0 0\nport 9 2\nnode 9 - 0 0\nport 6 2\nend\n";

// A path over three nodes, and a node apart.
const PATH: &str = "network\nnode 1 - 0 0\nport 2 1\nnode 2 - 0 0\nport 1 1\nport 5 1\n\
                    node 5 - 0 0\nport 2 1\nnode 9 - 0 0\nend\n";

#[test]
fn two_pairs_are_a_network_in_two_parts(rt: HostRuntime) -> Result<(), Fail> {
    let net = network(rt.alloc(), PAIRS)?;
    assert!(rt; net.place_of(9) == Some(3), "the last place");
    assert!(rt; net.size().max_weight == 7, "the greatest weight");
    assert!(rt;
        node_apart(rt.alloc(), &net) == Ok(Some(6)),
        "6 is not joined to the first node"
    );
    Ok(())
}

#[test]
fn levels_along_a_path(rt: HostRuntime) -> Result<(), Fail> {
    let found = levels(rt.alloc(), &network(rt.alloc(), PATH)?, 0)?;
    let due = [Some(0), Some(1), Some(2), None];
    assert_eq!(rt; found.as_slice(), due.as_slice());
    Ok(())
}
