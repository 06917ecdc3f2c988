//! Rings, and the order of their nodes.

ghost use Rattle.std.specs.Prelude.{◌≡◌, ◌<◌, length, find, option_map, IfOk, IfErr};
ghost use Rattle.pls_splice.specs.Ring.{IsRing, IsRingOrder, SaysNoRing, has_not_two, head_of, tail_of};
ghost use Rattle.pls_splice.specs.inner.Round.{onward, places_round};

use crate::ring_error::RingError;
use pls_graph::{Network, node_apart};
use pls_streams::NoMemory;
use std::alloc::Global;
use std::marker::Model;

/// The nodes of a ring in their order, seen as the list of their places: first the node of the
/// smallest identity, then on round the ring through that node's port 0. Edge `i` leads from node
/// `i` of the order, its tail, to the next, its head; the last edge leads back to node 0.
#[derive(Drop)]
pub struct Ring {
    places: Vec<u32>,
}

impl Model for Ring {
    ghost use Rattle.std.specs.Prelude.{ℕ, List};

    ghost Value = { List ℕ };

    ghost view = { λ ring. ring.places.items };
}

impl Ring {
    /// The order of the nodes of a ring, which is a connected network in which each node has two
    /// ports. `NotRing` is answered exactly where the network is none. Its time is linear in nodes and
    /// ports.
    pub fn read(alloc: Global, net: &Network) -> Result<Ring, RingError>
        ensures ok { IfOk result (λ ring. IsRingOrder net.now ring) }
        ensures refused { IfErr result (λ error. SaysNoRing net.now error) }
    {
        if let Some(id) = first_without_two(net) {
            return Err(RingError::NotRing(id));
        }
        if let Some(id) = node_apart(alloc, net)? {
            return Err(RingError::NotRing(id));
        }
        let places = go_round(alloc, net)?;
        Ok(Ring { places })
    }

    // The place of the tail of edge `i`.
    pub(crate) fn tail(&self, i: usize) -> usize
        requires { i < length self.now }
        ensures { result ≡ tail_of self.now i }
    {
        self.places[i] as usize
    }

    // The place of the head of edge `i`.
    pub(crate) fn head(&self, i: usize) -> usize
        requires { i < length self.now }
        ensures { result ≡ head_of self.now i }
    {
        let count = self.places.len();
        if i + 1 == count {
            self.places[0] as usize
        } else {
            self.places[i + 1] as usize
        }
    }

    /// The places of the nodes, in the order of the ring.
    #[inline(always)]
    pub fn order(&self) -> &[u32]
        ensures { result.now ≡ self.now }
    {
        self.places.as_slice()
    }
}

// The first node whose number of ports is not two.
fn first_without_two(net: &Network) -> Option<u32>
    ensures { result ≡ option_map (λ row. row.id) (find has_not_two net.now) }
{
    for i in 0..net.len() {
        if net.ports(i).len() != 2 {
            return Some(net.node(i).0);
        }
    }
    None
}

// Places in ring order from the first node on, which is left by its port 0.
fn go_round(alloc: Global, net: &Network) -> Result<Vec<u32>, NoMemory>
    requires { IsRing net.now }
    ensures { IfOk result (λ places. places.items ≡ places_round net.now) }
{
    // A network is valid.
    let count = net.len();
    let mut places = Vec::with_capacity(alloc, count)?;
    let mut before = net.places(0)[1];
    let mut here = 0;
    for _ in 0..count {
        places.push(here)?;
        let next = other_neighbour(net, here as usize, before);
        before = here;
        here = next;
    }
    Ok(places)
}

fn other_neighbour(net: &Network, here: usize, before: u32) -> u32
    requires ring { IsRing net.now }
    requires within { here < length net.now }
    ensures next { result ≡ onward net.now here before }
    ensures within { result < length net.now }
{
    let places = net.places(here);
    if places[0] == before {
        places[1]
    } else {
        places[0]
    }
}
