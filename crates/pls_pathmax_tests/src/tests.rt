//! Tests of centroid levels and of the scheme `pathmax`.

ghost use Rattle.pls_configuration.specs.Walk.{IsConnected};
ghost use Rattle.std.specs.Prelude.{IfOk};

mod levels;
mod long_labels;
mod marked;
mod small;

use pls_graph::{Network, node_apart};
use pls_netfile::read_network;
use std::alloc::Global;
use std::test::Fail;

fn network(alloc: Global, text: &str) -> Result<Network, Fail> {
    match read_network(alloc, text.as_bytes()) {
        Ok(net) => Ok(net),
        Err(_) => Err(Fail::from("refused")),
    }
}

// Fails where the network is not connected.
fn connected_network(alloc: Global, text: &str) -> Result<Network, Fail>
    ensures { IfOk result (λ net. IsConnected net) }
{
    let net = network(alloc, text)?;
    if node_apart(alloc, &net)?.is_some() {
        return Err(Fail::from("in parts"));
    }
    Ok(net)
}
