//! Tests of schemes and searches.

ghost use Rattle.pls_configuration.specs.Walk.{IsConnected};
ghost use Rattle.std.specs.Prelude.{IfOk};

mod boruvka;
mod combinations;
mod distances;
mod pointers;
mod schemes;
mod spanning;

use pls_graph::{Network, node_apart};
use pls_netfile::read_network;
use std::alloc::Global;
use std::test::Fail;

// Two nodes without an edge.
const APART: &str = "network\nnode 1 - 0 0\nnode 2 - 0 0\nend\n";

// Four nodes in a ring; each but the first points at the one before it.
const RING: &str = "network\nnode 1 - 0 0\nport 2 1\nport 4 5\nnode 2 0 0 0\nport 1 1\nport 3 5\n\
                    node 3 0 0 0\nport 2 5\nport 4 1\nnode 4 0 0 0\nport 3 1\nport 1 5\nend\n";

// Three nodes in a row; the second points at the first, and the third at the second.
const CHAIN: &str = "network\nnode 1 - 0 0\nport 2 1\nnode 2 0 0 0\nport 1 1\nport 3 2\n\
                     node 3 0 0 0\nport 2 2\nend\n";

// Two nodes that point at each other.
const CIRCLE: &str = "network\nnode 1 0 0 0\nport 2 0\nnode 2 0 0 0\nport 1 0\nend\n";

// A node alone.
const ALONE: &str = "network\nnode 5 - 0 0\nend\n";

// Each of three nodes joined to the others; the last points at the second.
const TRIANGLE: &str = "network\nnode 1 - 0 0\nport 2 7\nport 3 7\nnode 2 0 0 0\nport 1 7\n\
                        port 3 7\nnode 3 1 0 0\nport 1 7\nport 2 7\nend\n";

// Three nodes, each joined to the others, where the edge between the first and the third is lighter
// than the two that are pointed along.
const HEAVY: &str = "network\nnode 1 - 0 0\nport 2 2\nport 3 1\nnode 2 0 0 0\nport 1 2\nport 3 2\n\
                     node 3 1 0 0\nport 1 1\nport 2 2\nend\n";

fn network(alloc: Global, text: &str) -> Result<Network, Fail> {
    match read_network(alloc, text.as_bytes()) {
        Ok(net) => Ok(net),
        Err(_) => Err(Fail::from("refused")),
    }
}

fn connected_network(alloc: Global, text: &str) -> Result<Network, Fail>
    ensures { IfOk result (λ net. IsConnected net) }
{
    let net = network(alloc, text)?;
    if node_apart(alloc, &net)?.is_some() {
        return Err(Fail::from("in parts"));
    }
    Ok(net)
}
