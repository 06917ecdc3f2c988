//! How the components of a network are found.

ghost use Rattle.std.specs.Prelude.{IfOk};
ghost use Rattle.pls_configuration.specs.Walk.{IsConnected};
ghost use Rattle.pls_components.specs.Components.{AreComponents};

use crate::buckets::buckets_of;
use crate::component_list::{Components, Span};
use crate::flood::{all_numbers, number_all};
use pls_facts::is_valid;
use pls_graph::{Network, node_apart};
use pls_streams::NoMemory;
use std::alloc::Global;

/// The components of a network, in the order of their smallest identities. Its time is linear in
/// nodes and ports, which are gone over once where the network is connected and twice where it is
/// not. The one error is want of memory.
pub fn components(alloc: Global, net: &Network) -> Result<Components, NoMemory>
    ensures { IfOk result (λ parts. AreComponents net.now parts) }
{
    match node_apart(alloc, net)? {
        None => one_component(alloc, net),
        Some(_) => several_components(alloc, net),
    }
}

fn one_component(alloc: Global, net: &Network) -> Result<Components, NoMemory>
    requires { IsConnected net.now }
    ensures { IfOk result (λ parts. AreComponents net.now parts) }
{
    // A network is valid.
    let count = net.len();
    let mut members = Vec::with_capacity(alloc, count)?;
    for place in 0..count {
        members.push(place as u32)?;
    }
    let mut spans = Vec::new(alloc);
    spans.push(Span { start: 0, count })?;
    Ok(Components { members, spans })
}

// Sorts the places by component number, which rises with the smallest identity.
fn several_components(alloc: Global, net: &Network) -> Result<Components, NoMemory>
    ensures { IfOk result (λ parts. AreComponents net.now parts) }
{
    is_valid(net);
    let (found, count) = number_all(alloc, net)?;
    let numbers = all_numbers(alloc, found.as_slice())?;
    let buckets = buckets_of(alloc, numbers.as_slice(), count)?;
    let (members, spans) = buckets.spread(alloc, numbers.as_slice(), count)?;
    Ok(Components { members, spans })
}
