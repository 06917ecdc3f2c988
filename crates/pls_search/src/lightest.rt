//! The least weights of walks from one node to each. Places are looked at in the order of the
//! weights by which they were reached, so that each is entered once, by its least weight; nothing
//! is looked up by its identity.

ghost use Rattle.std.specs.Prelude.{◌≡◌, ◌+◌, ◌<◌, ◌^◌, length, IfOk, OnOk};
ghost use Rattle.std.specs.BinaryHeap.{IsHeap, heap_items, heap_len};
ghost use Rattle.pls_graph.specs.Places.{beside};
ghost use Rattle.pls_search.specs.Distances.{AreDistances};
ghost use Rattle.pls_search.specs.inner.Ahead.{AddBeside, AreLight, by_weight};

use pls_graph::Network;
use pls_streams::NoMemory;
use std::alloc::Global;
use std::cmp::Reverse;
use std::collections::BinaryHeap;

/// For each node, in their order, the least weight of any walk from the node at place `root`, or
/// `None` where there is no walk. The one error is want of memory.
pub fn distances(alloc: Global, net: &Network, root: usize) -> Result<Vec<Option<u64>>, NoMemory>
    requires { root < length net.now }
    ensures { IfOk result (λ found. AreDistances net.now root found.items) }
{
    let mut found = vec![in alloc; None; net.len()]?;
    let mut ahead = BinaryHeap::new(alloc);
    ahead.push(Reverse((0, root)))?;
    while let Some(Reverse((weight, place))) = ahead.pop() {
        if found[place].is_none() {
            found[place] = Some(weight);
            look_beside(net, place, weight, &mut ahead)?;
        }
    }
    Ok(found)
}

// Adds each neighbour with the weight of the walk that goes on to it.
fn look_beside(
    net: &Network,
    place: usize,
    weight: u64,
    ahead: &mut BinaryHeap<Reverse<(u64, usize)>>,
) -> Result<(), NoMemory>
    requires within { place < length net.now }
    requires small { weight + 2 ^ 32 < 2 ^ 64 }
    requires order { IsHeap by_weight (heap_items ahead.old) }
    ensures order { OnOk result (IsHeap by_weight (heap_items ahead.new)) }
    ensures added { OnOk result
        (AddBeside net.now place weight (heap_items ahead.old) (heap_items ahead.new)) }
    ensures light { OnOk result (AreLight net.now place) }
    ensures len { OnOk result
        (heap_len ahead.new ≡ heap_len ahead.old + length (beside net.now place)) }
{
    let places = net.places(place);
    for (p, port) in net.ports(place).iter().enumerate() {
        ahead.push(Reverse((weight + u64::from(port.weight), places[p] as usize)))?;
    }
    Ok(())
}
