//! The components of a network, and each of them by itself.

ghost use Rattle.std.specs.Prelude.{◌≡◌, ◌<◌, ◌++◌, ◌∷◌, ℕ, List, [], All, IfOk, OnOk, Some, length, map, slice_get};
ghost use Rattle.pls_configuration.specs.declared.row.NodeRow.{NodeRow};
ghost use Rattle.pls_components.specs.Components.{AreComponents, items_at, least_id};

use crate::part_size::size_at;
use pls_facts::is_valid;
use pls_graph::{Network, NetworkBuilder};
use pls_streams::NoMemory;
use std::alloc::Global;
use std::marker::Model;

// Which of the members are those of one component: `count` of them, the first at `start`.
#[derive(Clone, Copy)]
pub(crate) struct Span {
    pub(crate) start: usize,
    pub(crate) count: usize,
}

/// The components of a network in the order of their smallest identities, numbered from 0. They are
/// seen as a list of lists: for each component the places of its nodes, rising.
#[derive(Drop)]
pub struct Components {
    // The places of all nodes, component by component, so that no component has a vector of its
    // own.
    pub(crate) members: Vec<u32>,
    pub(crate) spans: Vec<Span>,
}

impl Model for Components {
    ghost use Rattle.std.specs.Prelude.{ℕ, List, map};

    ghost Value = { List (List ℕ) };

    ghost use Rattle.pls_components.specs.inner.Numbers.{AreSpans, span_items};

    ghost view = { λ parts. map (span_items parts.members.items) parts.spans.items };

    ghost invariant = { λ parts. AreSpans parts.members.items parts.spans.items };
}

impl Components {
    /// How many components there are, one at least.
    #[inline(always)]
    pub fn len(&self) -> usize
        ensures { result ≡ length self.now }
    {
        self.spans.len()
    }

    /// The places of the nodes of component `k`, rising.
    #[inline(always)]
    pub fn members(&self, k: usize) -> &[u32]
        requires { k < length self.now }
        ensures { slice_get self.now k ≡ Some result.now }
    {
        let span = self.spans[k];
        &self.members[span.start..span.start + span.count]
    }

    /// The smallest identity of component `k`, by which it is named.
    pub fn smallest_id(&self, net: &Network, k: usize) -> u32
        requires made { AreComponents net.now self.now }
        requires within { k < length self.now }
        ensures { (places : List ℕ) → slice_get self.now k ≡ Some places
            → result ≡ least_id net.now places }
    {
        is_valid(net);
        // Identities rise with the places, so that the smallest is that of the first.
        net.node(self.members(k)[0] as usize).0
    }

    /// Component `k` by itself: the network of its rows, which is connected. The one error is want
    /// of memory.
    pub fn part(&self, alloc: Global, net: &Network, k: usize) -> Result<Network, NoMemory>
        requires made { AreComponents net.now self.now }
        requires within { k < length self.now }
        ensures { IfOk result
            (λ part. slice_get (map (items_at net.now) self.now) k ≡ Some part) }
    {
        is_valid(net);
        let places = self.members(k);
        let ports = size_at(net, places).ports as usize;
        let rows = rows_of(alloc, net, places, ports)?;
        match rows.build(alloc) {
            Ok(part) => Ok(part),
            // No refusal is met by the rows of a component, so that memory was short.
            Err(_) => Err(NoMemory),
        }
    }
}

// Reserves room for `ports` ports.
fn rows_of(
    alloc: Global,
    net: &Network,
    places: &[u32],
    ports: usize,
) -> Result<NetworkBuilder, NoMemory>
    requires { All (λ place. place < length net.now) places.now }
    ensures { IfOk result (λ rows. rows ≡ items_at net.now places.now) }
{
    let mut rows = NetworkBuilder::with_capacity(alloc, places.len(), ports)?;
    for place in places {
        put_row(&mut rows, net, *place as usize)?;
    }
    Ok(rows)
}

fn put_row(rows: &mut NetworkBuilder, net: &Network, place: usize) -> Result<(), NoMemory>
    requires { place < length net.now }
    ensures { OnOk result ((row : NodeRow) → slice_get net.now place ≡ Some row
        → rows.new ≡ rows.old ++ row ∷ []) }
{
    let (id, state) = net.node(place);
    rows.node(id, state)?;
    for port in net.ports(place) {
        rows.port(*port)?;
    }
    Ok(())
}
