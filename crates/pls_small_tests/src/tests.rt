//! Tests of schemes on all small networks.

ghost use Rattle.pls_configuration.specs.Walk.{IsConnected};
ghost use Rattle.std.specs.Prelude.{IfOk};

mod apart;
mod codes;
mod expressions;
mod leaders;
mod small;
mod weighed;

use pls_graph::{Network, node_apart};
use pls_netfile::read_network;
use std::alloc::Global;
use std::test::Fail;

fn network(alloc: Global, text: &str) -> Result<Network, Fail> {
    match read_network(alloc, text.as_bytes()) {
        Ok(net) => Ok(net),
        Err(_) => Err(Fail::from("refused")),
    }
}

fn connected_network(alloc: Global, text: &str) -> Result<Network, Fail>
    ensures { IfOk result (λ net. IsConnected net) }
{
    let net = network(alloc, text)?;
    if node_apart(alloc, &net)?.is_some() {
        return Err(Fail::from("in parts"));
    }
    Ok(net)
}
