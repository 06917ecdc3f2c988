//! How two edges are crossed.

ghost use Rattle.std.specs.Prelude.{◌≡◌, ◌++◌, ◌∷◌, ◌<◌, [], IfOk, OnOk, Some, length, map, slice_get};
ghost use Rattle.pls_configuration.specs.declared.row.NodeRow.{NodeRow};
ghost use Rattle.pls_splice.specs.Crossing.{IsPair, cross_port, cross_row, crossed_rows, ends_of, id_at, named_after};
ghost use Rattle.pls_splice.specs.Ring.{IsRingOrder};

use crate::finding::Pair;
use crate::ring::Ring;
use pls_facts::is_valid;
use pls_graph::{Network, NetworkBuilder, Port};
use pls_labels::LabelStore;
use pls_streams::NoMemory;
use std::alloc::Global;

/// The identities at the ends of two edges.
#[derive(Clone, Copy)]
pub(crate) struct Ends {
    /// Where the first edge begins.
    pub(crate) tail: u32,
    /// Where it ends.
    pub(crate) head: u32,
    /// Where the second edge begins.
    pub(crate) other_tail: u32,
    /// Where it ends.
    pub(crate) other_head: u32,
}

/// The network in which the two edges are crossed: each tail names the head of the other edge, each
/// head its new tail, and all else is as before. The one error is want of memory.
pub fn cross(
    alloc: Global,
    ring: &Ring,
    net: &Network,
    labels: &LabelStore,
    pair: Pair,
) -> Result<Network, NoMemory>
    requires read { IsRingOrder net.now ring.now }
    requires each { length labels.now ≡ length net.now }
    requires pair { IsPair net.now labels.now ring.now pair.first pair.second }
    ensures { IfOk result (λ made. made ≡ crossed_rows net.now ring.now pair.first pair.second) }
{
    is_valid(net);
    let ends = ends_of(ring, net, pair);
    let rows = crossed_rows(alloc, net, ends)?;
    match rows.build(alloc) {
        Ok(made) => Ok(made),
        // No refusal is met by the rows of a network that is crossed, so that memory was short.
        Err(_) => Err(NoMemory),
    }
}

fn ends_of(ring: &Ring, net: &Network, pair: Pair) -> Ends
    requires read { IsRingOrder net.now ring.now }
    requires first { pair.first < length ring.now }
    requires second { pair.second < length ring.now }
    ensures { result ≡ ends_of net.now ring.now pair.first pair.second }
{
    let (i, j) = (pair.first as usize, pair.second as usize);
    Ends {
        tail: id_at(net, ring.tail(i)),
        head: id_at(net, ring.head(i)),
        other_tail: id_at(net, ring.tail(j)),
        other_head: id_at(net, ring.head(j)),
    }
}

fn id_at(net: &Network, place: usize) -> u32
    requires { place < length net.now }
    ensures { result ≡ id_at net.now place }
{
    net.node(place).0
}

fn crossed_rows(alloc: Global, net: &Network, ends: Ends) -> Result<NetworkBuilder, NoMemory>
    ensures { IfOk result (λ rows. rows ≡ map (cross_row ends) net.now) }
{
    let mut rows = NetworkBuilder::new(alloc);
    for i in 0..net.len() {
        put_row(&mut rows, net, ends, i)?;
    }
    Ok(rows)
}

fn put_row(rows: &mut NetworkBuilder, net: &Network, ends: Ends, i: usize) -> Result<(), NoMemory>
    requires { i < length net.now }
    ensures { OnOk result ((row : NodeRow) → slice_get net.now i ≡ Some row
        → rows.new ≡ rows.old ++ cross_row ends row ∷ []) }
{
    let (id, state) = net.node(i);
    rows.node(id, state)?;
    for port in net.ports(i) {
        rows.port(cross_port(ends, id, *port))?;
    }
    Ok(())
}

fn cross_port(ends: Ends, own: u32, port: Port) -> Port
    ensures { result ≡ cross_port ends own port }
{
    Port {
        nbr: named_after(ends, own, port.nbr),
        weight: port.weight,
    }
}

// The neighbour of `own` after crossing, at the port that led to `nbr` before.
fn named_after(ends: Ends, own: u32, nbr: u32) -> u32
    ensures { result ≡ named_after ends own nbr }
{
    if own == ends.tail && nbr == ends.head {
        ends.other_head
    } else if own == ends.other_tail && nbr == ends.other_head {
        ends.head
    } else if own == ends.head && nbr == ends.tail {
        ends.other_tail
    } else if own == ends.other_head && nbr == ends.other_tail {
        ends.tail
    } else {
        nbr
    }
}
